//! Local times to instants: the instants at which the clocks of a TZif file show a local time, none
//! in a gap and several in a fold, and the instant that is meant by a choice.
//!
//! And schedules: the next instants at which a zone's clocks show a time of day on given weekdays,
//! what a scheduler asks for. A time of day in a gap or in a fold is read by a policy.
//!
//! # What is proved
//!
//! `instants` gives, for a local time and a file whose UT offsets are within 25:59:59, all instants
//! at which clocks show it: the only one; the first, the last and their number; or none, and the
//! first change at which clocks pass over it, if there is one (`AnswersLocal`, `IsGapOf`,
//! `IsFoldOf`). `instant` gives the one that is meant by a choice (`Means`), or why none is
//! (`IsUnresolved`), and so does `instant_by`, by an index of the zone, if it has one.
//! `LocalIndex::for_zone` makes the index, of the file's UT offsets and of local times that have
//! passed (`IsIndexOf`), or none; which zones have one, and that it bounds the time, is tested and
//! not proved. `LocalTime::new` gives a local time whose instants are all in 64 bits, or none
//! (`IsInRange`), `seconds` its seconds.
//!
//! `next_local` gives the least instant in a range at which a schedule is due (`IsNext`), or none
//! where it is due at none (`IsNeverDue`), for a file whose UT offsets are within 25:59:59; `write_due`
//! writes the instants in a range, as many as there is room for (`AreDueWritten`). What is due on a day
//! is `IsDueOn`: the weekday is one of the schedule's, and the instant is the one that the policy means
//! by the local time (`IsMeant`). `TimeOfDay::new` and `Weekdays::new` give what they are asked for, or
//! none where a number is out of range. That a search takes few days is not proved.
#![tactic(auto)]

mod due;
mod indexed;
pub mod laws;
mod local_index;
mod local_time;
mod lookup;
mod next;
mod schedule;
pub mod schedule_laws;

pub use local_index::LocalIndex;
pub use local_time::{Fold, Gap, LocalInstants, LocalTime, Unresolved};
pub use lookup::{instant, instant_by, instants};
pub use next::{next_local, write_due};
pub use schedule::{Policy, Schedule, TimeOfDay, Weekdays};
pub use zic_layouts::Disambiguation;
