//! The table of a zone, which is the content of its file: its local time types and transitions.
//!
//! # What is proved
//!
//! `table` makes the content of a zone's file (`IsContentOf`), which agrees with its footer
//! (`IsFooter`) and is within what a reader accepts; or gives the first limit that the zone exceeds
//! (`IsFaultOfTable`).
#![tactic(auto)]

mod local_types;
mod maker;
mod numbering;
mod transitions;

pub use maker::table;
pub use zic_tzif::{Change, LocalType, Table};
