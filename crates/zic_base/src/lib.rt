//! Types and texts that all crates share: places of lines, faults of sources, zones and rows, why a
//! run ends early, short texts, the bytes of abbreviations, digits, states, limits, and the word for
//! standard input.
//!
//! # What is proved
//!
//! `Kind::number`, `RowKind::number`, `Place::is_before`, `Stop::at` and `ZoneStop::at` agree with
//! the definitions. `Kind::name` and `RowKind::name` are the variants' names, and `name_of_fault`
//! finds one by its number, or none just where there is none (`IsFaultName`). `ShortText` keeps its
//! bytes (`octets`). `is_abbreviation_byte`, `are_abbreviation_bytes`, `two_digits`, `clock_text`
//! and `offset_text` are the definitions of these names.
#![tactic(auto)]

mod constants;
mod digits;
mod fault;
mod row_fault;
mod short_text;
mod state;
mod stops;

pub use constants::{
    FARTHEST_FILE_OFFSET, LONGEST_ABBREVIATION, LONGEST_FILE, SHORTEST_ABBREVIATION, STANDARD_INPUT,
};
pub use digits::{clock_text, offset_text, two_digits};
pub use fault::{Fault, Kind, Place, Stop, name_of_fault};
pub use row_fault::{RowFault, RowKind};
pub use short_text::ShortText;
pub use state::{State, are_abbreviation_bytes, is_abbreviation_byte};
pub use stops::{RunStop, ZoneStop};
