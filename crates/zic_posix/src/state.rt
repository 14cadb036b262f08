//! The two states of a footer, and the instants of its edges.

ghost use Rattle.std.specs.Prelude.{◌≡◌};
ghost use Rattle.std.specs.Int.{IsInRange};
ghost use Rattle.zic_base.specs.State.{shown};
ghost use Rattle.zic_calendar.specs.Calendar.{IsSupportedYear};
ghost use Rattle.zic_calendar.specs.DayForm.{IsNearSupportedDay};
ghost use Rattle.zic_posix.specs.Grammar.{IsDay, IsEdge};
ghost use Rattle.zic_posix.specs.Meaning as meaning;
ghost use Rattle.zic_posix.specs.code.State.{IsInCycle, IsLatestYear, IsYearOfCycle, instant_in};

use crate::footer::{DayRule, Dst, Edge, Footer};
use zic_base::State;
use zic_calendar::{On, SECONDS_OF_DAY, civil, day_of};

/// The seconds of 400 years, after which the calendar comes again.
pub(crate) const CYCLE: i64 = 146_097 * SECONDS_OF_DAY;

/// The days by which an edge may lie outside its year, all but one: its time and the offset add up
/// to at most 193:59:58.
const FARTHEST_DAYS: i64 = 10;

impl Footer {
    /// Returns the state of standard time.
    pub(crate) fn standard_state(&self) -> State<'_>
        ensures { shown result ≡ meaning.standard_state self.now }
    {
        State {
            offset: self.offset,
            daylight: false,
            name: self.std.octets(),
        }
    }
}

/// Returns the state of daylight saving time.
pub(crate) fn daylight_state(dst: &Dst) -> State<'_>
    ensures { shown result ≡ meaning.daylight_state dst.now }
{
    State {
        offset: dst.offset,
        daylight: true,
        name: dst.name.octets(),
    }
}

/// Returns the latest year of which an edge may have come at an instant.
pub(crate) fn latest_year(t: i64) -> i64
    requires { IsInCycle t }
    ensures year { IsLatestYear t result }
    ensures range { IsYearOfCycle result }
{
    civil(t / SECONDS_OF_DAY + FARTHEST_DAYS, 0).year
}

/// Returns the instant of an edge in a year, where local time has this UT offset before it.
pub(crate) fn instant_in(year: i64, edge: &Edge, offset: i32) -> i64
    requires year { IsSupportedYear year }
    requires edge { IsEdge edge.now }
    ensures { result ≡ instant_in edge.now offset year }
{
    SECONDS_OF_DAY * day_in(year, edge.day) + i64::from(edge.time) - i64::from(offset)
}

/// Returns the number of the day that a day rule names in a year. Day 365 of a common year,
/// counted from 0, is the next January 1.
fn day_in(year: i64, day: DayRule) -> i64
    requires year { IsSupportedYear year }
    requires day { IsDay day }
    ensures value { result ≡ meaning.day_in year day }
    ensures range { IsNearSupportedDay result }
{
    match day {
        DayRule::J(number) if number < 60 => day_of(year, 1, On::Day(1)) + i64::from(number) - 1,
        // Day 60 is March 1 in every year.
        DayRule::J(number) => day_of(year, 3, On::Day(1)) + i64::from(number) - 60,
        DayRule::N(number) => day_of(year, 1, On::Day(1)) + i64::from(number),
        DayRule::M {
            month,
            week,
            weekday,
        } => day_of(year, month, week_form(week, weekday)),
    }
}

/// Returns the day form of a weekday: week 5 is the last such weekday of the month, and the weeks
/// before it count from its first day.
fn week_form(week: u8, weekday: u8) -> On
    requires { IsInRange 1 5 week }
    ensures { result ≡ meaning.week_form week weekday }
{
    if week == 5 {
        On::Last(weekday)
    } else {
        On::After {
            weekday,
            day: 7 * week - 6,
        }
    }
}
