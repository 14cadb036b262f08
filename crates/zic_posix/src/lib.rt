//! POSIX TZ strings, as footers of TZif files have them: from text, as text, and what they mean at
//! every instant.
//!
//! # What is proved
//!
//! Unless memory runs out, `parse` accepts exactly the grammar of version 2 or 3 (`ok`, `only`).
//! `print` gives one text that spells the string (`spells`). `Footer::state` is its meaning at
//! every instant of an `i64` (`Means`), and `Footer::span` the instants round one with the same
//! meaning (`MeansThroughout`); `PreparedFooter` gives the same by a table (`standard_state`,
//! `daylight_state`). `Footer::version` is the version that a string needs, and
//! `Instants::contains` means `Includes`.
#![tactic(auto)]

mod footer;
pub mod laws;
mod parser;
mod prepared;
mod printer;
mod reader;
mod span;
mod state;
mod word;
mod year_table;
mod years;

pub use footer::{
    Abbr, DayRule, Dst, Edge, Footer, LAST_DAY, MAX_HOURS, MAX_MINUTES_OR_SECONDS, MAX_WIDE_HOURS,
    SHORTEST_NAME, USUAL_SAVING, USUAL_TIME,
};
pub use laws::{some_text_spells, spells_at_most_one, spells_within_limits};
pub use parser::{ParseStop, parse};
pub use prepared::PreparedFooter;
pub use printer::print;
pub use span::{Instants, MAX_INSTANT, MIN_INSTANT, StateSpan};
