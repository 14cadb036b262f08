//! Lines of time zone source text, and their words. A line is one Rule, Zone, continuation or Link
//! line, or has a first fault. A word is one field: a time, a year, a month, a day, a name or a
//! letter.
//!
//! Words take memory only in `Name::parse` and `SetName::parse`, where the field is a name, and in
//! copies of names.
//!
//! The input format is that of zic(8); `docs/DEFINITIONS.md` lists where each rule is stated.
//!
//! # What is proved
//!
//! `Name::parse`, `SetName::parse`, `Letter::parse`, `parse_keyword`, `parse_year`, `last_year`,
//! `parse_month`, `parse_day_form`, `clock_time`, `save` and `offset` give what a field says, by
//! the definition of each, or nothing; results are in range, and a day form fits its month in each
//! year. `is_dash`, `split_at_most_once`, `ends_before` and `is_one_leap_year` are the definitions
//! of these names.
//!
//! `Fields::take_line` gives the fields of a line, or the first of its checks that fails;
//! `line_entry` what they say, or the first check of `field_checks` that fails; `faulty_field` the
//! number of the field that this check is about, and `Fields::range` where a field stands in its
//! line (`field_ranges`; law: its text stands there); `first_keyword` the keyword of the first field;
//! `is_allowed` whether a byte may stand outside comments.
#![tactic(auto)]

mod clock;
mod day_form;
mod entry;
mod field;
mod format;
mod keyword;
pub mod laws;
mod letter;
mod link;
mod name;
mod rule_line;
mod rules;
mod set_name;
mod time;
mod until;
mod word;
pub mod word_laws;
mod year;
mod zone_line;

pub use clock::{ClockForm, ClockTime, LATEST_TIME, clock_time};
pub use day_form::{parse_day_form, parse_month};
pub use entry::{Entry, faulty_field, first_keyword, line_entry};
pub use field::{FieldRange, Fields, LONGEST_LINE, is_allowed};
pub use format::{Format, FormatPart};
pub use keyword::{Keyword, parse_keyword};
pub use letter::{LONGEST_LETTER, Letter};
pub use link::Link;
pub use name::{LONGEST_NAME, Name};
pub use rule_line::{Moment, Rule};
pub use rules::Rules;
pub use set_name::SetName;
pub use time::{GREATEST_OFFSET, MAX_DIGITS, Saving, offset, save};
pub use until::Until;
pub use word::{is_dash, split_at_most_once};
pub use year::{FIRST_YEAR, LAST_YEAR, ends_before, is_one_leap_year, last_year, parse_year};
pub use zic_base::{Fault, Kind, Place, Stop};
pub use zone_line::ZoneLine;
