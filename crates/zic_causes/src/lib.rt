//! The lines that cause the fault of a zone. The message of such a fault names the Zone line; here
//! the source is read again, for help with the line where the zone goes wrong, its rules, and the
//! year.
//!
//! # What is proved
//!
//! `cause_of` has no clause: tests/program/places.txt compares what it finds. What it reads of a
//! source has the clauses of `zic_source` and `zic_states`.
#![tactic(auto)]

mod cause;
mod ends;
mod names;
mod offsets;
mod order;
mod zone;

pub use cause::{Cause, cause_of};
