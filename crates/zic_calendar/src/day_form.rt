ghost use Rattle.std.specs.Prelude.{◌≡◌};
ghost use Rattle.std.specs.Int.{IsInRange};
ghost use Rattle.jiff_core.specs.Calendar.{IsEpochDay};
ghost use Rattle.zic_calendar.specs.Calendar as calendar;
ghost use Rattle.zic_calendar.specs.Calendar.{IsSupportedYear};
ghost use Rattle.zic_calendar.specs.DayForm as spec;
ghost use Rattle.zic_calendar.specs.DayForm.{FormFits, IsDayOf, form_day, IsNearSupportedDay};
ghost use Rattle.zic_calendar.specs.Weekday.{IsWeekday, weekday_of, first_on_or_after, last_on_or_before};

use crate::days_in_month;
use jiff_core::civil::Date;

/// The form in which a rule names a day of a month. Weekdays are 0 (Sunday) to 6, days count from 1
/// (zic(8), ON).
#[derive(Clone, Copy, Debug, PartialEq, Eq)]
pub enum On {
    /// The day of this number in the month.
    Day(u8),
    /// The last such weekday of the month.
    Last(u8),
    /// The first such weekday on or after the day; it may lie in the next month.
    After { weekday: u8, day: u8 },
    /// The last such weekday on or before the day; it may lie in the month before. Day 29 in
    /// February means the last of the month.
    Before { weekday: u8, day: u8 },
}

/// Returns the weekday of a day number (1970-01-01 is 0): 0 (Sunday) to 6.
pub fn weekday(day: i64) -> u8
    ensures value { result ≡ weekday_of day }
    ensures range { IsWeekday result }
{
    // Day 0 was a Thursday.
    (day.rem_euclid(7) as u8 + 4) % 7
}

/// Returns the day number (1970-01-01 is 0) of the day that the form names, in a year from 1 to
/// 9999 and a month from 1 to 12.
pub fn day_of(year: i64, month: u8, on: On) -> i64
    requires year_in { IsSupportedYear year }
    requires month_in { IsInRange 1 12 month }
    requires fits { FormFits year month on }
    ensures meaning { IsDayOf year month on result }
    ensures value { result ≡ form_day year month on }
    ensures range { IsNearSupportedDay result }
{
    match on {
        On::Day(day) => day_number(year, month, day),
        On::Last(weekday) => {
            last_on_or_before(weekday, day_number(year, month, days_in_month(year, month)))
        }
        On::After { weekday, day } => first_on_or_after(weekday, day_number(year, month, day)),
        On::Before { weekday, day } => {
            let from = last_meant(year, month, day);
            last_on_or_before(weekday, day_number(year, month, from))
        }
    }
}

// The day of the month from which `Before` counts back.
fn last_meant(year: i64, month: u8, day: u8) -> u8
    ensures { result ≡ spec.last_meant year month day }
{
    if month == 2 && day == 29 {
        days_in_month(year, month)
    } else {
        day
    }
}

// The day number of a date.
fn day_number(year: i64, month: u8, day: u8) -> i64
    requires year_in { IsSupportedYear year }
    requires month_in { IsInRange 1 12 month }
    requires day_in { IsInRange 1 (calendar.days_in_month year month) day }
    ensures value { result ≡ calendar.day_number year month day }
    ensures range { IsEpochDay result }
{
    let date = Date::constrain(year as i16, month, day);
    date.to_unix_epoch_day() as i64
}

fn first_on_or_after(wanted: u8, day: i64) -> i64
    requires wanted_is { IsWeekday wanted }
    requires day_in { IsEpochDay day }
    ensures { result ≡ first_on_or_after wanted day }
{
    day + ((wanted + 7 - weekday(day)) % 7) as i64
}

fn last_on_or_before(wanted: u8, day: i64) -> i64
    requires wanted_is { IsWeekday wanted }
    requires day_in { IsEpochDay day }
    ensures { result ≡ last_on_or_before wanted day }
{
    day - ((weekday(day) + 7 - wanted) % 7) as i64
}
