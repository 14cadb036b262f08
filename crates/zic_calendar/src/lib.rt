//! The proleptic Gregorian calendar: day numbers, weekdays, the day forms of time zone rules, and
//! civil time. Nothing here takes memory or fails.
//!
//! # What is proved
//!
//! `day_of`, `weekday`, `civil`, `is_leap_year` and `days_in_month` are the calendar's.
#![tactic(auto)]

mod civil_time;
mod clock;
mod day_form;
pub mod laws;
mod month;

pub use civil_time::Civil;
pub use clock::{SECONDS_OF_DAY, civil};
pub use day_form::{On, day_of, weekday};
pub use month::{days_in_month, is_leap_year};
