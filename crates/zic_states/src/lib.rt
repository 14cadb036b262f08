//! When rules occur, and what is in force: the occurrences of a set's rules, one for each rule and
//! each year in which it holds, with their order in all years; and the states of lines and zones,
//! what a zone shows at an instant.
//!
//! # What is proved
//!
//! `occurrences` lists all occurrences of a set up to a year, each with its instant, in order
//! (`all`), where the set is in order in every year to come (`IsInOrder`); else the set really is
//! out of order in some year (`IsOutOfOrder`). The code looks at 405 years after the last that the
//! set names (`last_named_year`), or at three where its rules lie three months or more apart; that
//! this is enough is proved. `ListedSource` (`source`) shares lists among lines, which changes no
//! answer (`LineOccurrences::items`). `year_second`, `nominal_second` and `instant_by` are the
//! definitions of these names.
//!
//! `until_instant` gives the instant of an UNTIL (`IsUntil`), `abbreviation` the filled FORMAT, or
//! NoLetter or BadAbbreviation just where it has to (`err`), and `observance_by` what is in force
//! by a rule of RULES (`IsInForceBy`). `before` and `rule_at` read a list of occurrences;
//! `is_abbreviation` and `Abbreviation` (`parse`) have the limits.
#![tactic(auto)]

mod abbreviation;
mod apart;
mod current;
pub mod format;
pub mod laws;
mod listed_source;
mod nominal;
mod observance;
mod occurrence;
pub mod occurrence_laws;
pub mod tail_laws;
mod until;
mod walk;

pub use abbreviation::{Abbreviation, is_abbreviation};
pub use current::{before, rule_at};
pub use listed_source::ListedSource;
pub use nominal::{nominal_second, year_second};
pub use observance::{Observance, observance_by};
pub use occurrence::{LineOccurrences, TimedOccurrence, last_named_year, occurrences};
pub use until::until_instant;
pub use walk::instant_by;
