//! The footer of a TZif file: a POSIX TZ string that says what a zone shows for ever.
//!
//! # What is proved
//!
//! `make` gives the footer that the rules of a zone make (`IsMade`), and from the last change on it
//! means what the zone shows, for ever (`GoesOn`); else PermanentDaylight or NoFooter, just where
//! the definitions have it (`IsFaultOfFooter`).
#![tactic(auto)]

mod edges;
mod maker;
mod turns;

pub use maker::make;
pub use zic_posix::{Abbr, DayRule, Dst, Edge, Footer, ParseStop, parse, print};
