//! What the clocks of a TZif file show, and the changes of local time that it answers: the date and
//! the time of day at an instant, the changes before and after it, and the text of all changes
//! between two years, that of `zdump -i` (zdump(8)).
//!
//! And a zone as a component `VTIMEZONE` of iCalendar (RFC 5545, 3.6.5), for calendars that know no
//! zones by name: the changes of a TZif file, each as an observance, and the rules of its footer,
//! which go on for ever.
//!
//! # What is proved
//!
//! `dump` gives the text of `zdump -i`: what the file answers at the start of the first year, and
//! each instant after it, up to and including the start of the second, at which it answers
//! otherwise than a second before, with its local time (`IsDump`, `AreChanges`); or the first check
//! that the bytes fail (`IsFault`). `Years::new` gives the years 2 to 9999 in order, and no others
//! (`IsYears`), `Years::instants` the instants between their starts, and `are_same` tells whether
//! two answers are the same. `civil_at` gives the date and the time of day that clocks with a UT
//! offset show at an instant, any `i64` (`date`, `time`). `next_change` gives the first change of
//! local time after an instant, `previous_change` the last before it and after the least instant of
//! 64 bits, or there is none (`IsNextChange`, `IsPreviousChange`, `StaysSame`). `write_changes`
//! writes just the changes between two instants, in order, as many as there is room for
//! (`AreChangesWritten`).
//!
//! `vtimezone` gives a text whose lines have at most 75 octets (`HasShortLines`), or a
//! `CalendarStop`. What the lines say is tested: two readers of iCalendar answer by them as the
//! library and as `zoneinfo` do.
#![tactic(auto)]

mod changes;
mod civil;
mod component;
mod content_lines;
mod days;
pub mod laws;
mod line;
mod observance;
mod onset;
mod repeated;
mod rule;
mod stop;
mod walk;
mod years;

pub use changes::{are_same, dump};
pub use civil::civil_at;
pub use component::{SINCE, vtimezone};
pub use stop::CalendarStop;
pub use walk::{next_change, previous_change, write_changes};
pub use years::{FIRST_YEAR, LAST_YEAR, Years};
