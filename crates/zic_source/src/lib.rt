//! Time zone source text: from texts to checked Rule, Zone, continuation and Link lines, or the
//! first fault.
//!
//! The input format is that of zic(8); `docs/DEFINITIONS.md` lists where each rule is stated. The
//! functions of `laws` do nothing: they state what holds of sources and first faults.
//!
//! # What is proved
//!
//! `read_source` gives a source only for texts in the grammar, and the one that they make
//! (`IsSource`); for such texts it gives no fault, but may run out of memory (`only`). A fault is
//! always the first (`IsFirstFault`). Each source is sound (`IsSoundSource`) and its lines stand in
//! order (`AreInOrder`). `Source::rules`, `rule`, `zones`, `zone_name`, `set_rules`, `lines`,
//! `line`, `links` and `link` give its lines; `link_zone` the zone at the end of a link's chain
//! (`EndsAt`).
#![tactic(auto)]

mod chains;
mod entries;
pub mod laws;
mod owners;
mod reader;
mod sets;
mod source;
mod whole;

pub use reader::read_source;
pub use source::{MAX_NAMES, MAX_RULES, MAX_RULES_OF_SET, MAX_ZONE_LINES, Source};
pub use zic_lines::{
    ClockForm, ClockTime, Fault, Format, FormatPart, Kind, Letter, Link, Moment, Name, Place, Rule,
    Rules, Saving, SetName, Stop, Until, ZoneLine,
};
