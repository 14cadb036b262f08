//! A reader or writer that counts its failures, and writes through it.
//!
//! # What is proved
//!
//! `Counted` passes on reads and writes; `failures` rises by one at each error and at each write
//! that takes no byte of some, `taken` by the bytes of a read, up to the greatest `u64`
//! (`CountsFailure`, `CountsTaken`, `CountsNothing`). So a failed read or write can be
//! distinguished from lack of memory (`has_failed_since`, `into_inner`). `write_all` writes all
//! bytes, `flush` none (`Writes`); else a beginning was written, and a failure counted
//! (`FailsWithin`).
#![tactic(auto)]

mod counted;
mod output;

pub use counted::Counted;
pub use output::{WriteFailed, flush, write_all};
