//! The edges of a footer, as rules name them.

ghost use Rattle.std.specs.Prelude.{◌≡◌, ◌≤ℤ◌, ℤ, pos, neg_ℤ};
ghost use Rattle.zic_calendar.specs.DayForm.{FormFits};
ghost use Rattle.zic_lines.specs.Month.{IsMonth};
ghost use Rattle.zic_lines.specs.declared.clock.TheConstants.{LATEST_TIME};
ghost use Rattle.zic_lines.specs.Time.{IsWithin};
ghost use Rattle.zic_source.specs.Sound.{IsWithinDay};
ghost use Rattle.zic_footer.specs.Making as making;
ghost use Rattle.zic_footer.specs.code.Edges as edges;
ghost use Rattle.zic_footer.specs.code.Turns.{IsYearly, IsSmall};

use zic_calendar::{On, SECONDS_OF_DAY, day_of, days_in_month};
use zic_posix::{DayRule, Edge};
use zic_rules::TailRule;
use zic_source::{ClockForm, ClockTime};

/// A year without a February 29.
const COMMON_YEAR: i64 = 1;

/// A year with a February 29.
const LEAP_YEAR: i64 = 4;

/// The week of the last such weekday of a month.
const LAST_WEEK: u8 = 5;

/// A day in the terms of POSIX, and the days from it to the day that is meant.
#[derive(Clone, Copy)]
struct ShiftedDay {
    day: DayRule,
    shift: i32,
}

/// Returns the edge at which a rule takes over, where standard time is `standard` seconds east of
/// UT and `saved` seconds are saved before it.
pub(crate) fn edge_of(standard: i32, rule: &TailRule, saved: i32) -> Edge
    requires standard { IsWithinDay standard }
    requires rule { IsYearly rule.now.moment }
    requires saved { IsWithinDay saved }
    ensures { result ≡ edges.edge_of standard rule.now saved }
{
    let moment = &rule.moment;
    let at = day_of_form(moment.month, moment.on);
    Edge {
        day: at.day,
        time: wall_time(standard, moment.at, saved) + SECONDS_OF_DAY as i32 * at.shift,
    }
}

/// Returns the time of a rule's AT by the wall clocks before it.
fn wall_time(standard: i32, at: ClockTime, saved: i32) -> i32
    requires standard { IsWithinDay standard }
    requires at { IsWithin LATEST_TIME at.seconds }
    requires saved { IsWithinDay saved }
    ensures value { result ≡ making.wall_time at.form standard saved at.seconds }
    ensures range { IsWithin 1_252_800 result }
{
    match at.form {
        ClockForm::Wall => at.seconds,
        ClockForm::Standard => at.seconds + saved,
        ClockForm::Universal => at.seconds + standard + saved,
    }
}

/// Returns the day of a form that fits the month in every year.
fn day_of_form(month: u8, on: On) -> ShiftedDay
    requires month { IsMonth month }
    requires fits { (year : ℤ) → FormFits year month on }
    ensures day { result.day ≡ (edges.day_of_form month on).day }
    ensures shift { result.shift ≡ (edges.day_of_form month on).shift }
    ensures range { IsSmall result.shift }
{
    match on {
        On::Day(day) => ShiftedDay {
            day: DayRule::J(number_in_year(month, day)),
            shift: 0,
        },
        On::Last(weekday) => last_of(month, weekday),
        On::After { weekday, day } => {
            if day == days_in_month(LEAP_YEAR, month) - 6 && month != 2 {
                last_of(month, weekday)
            } else {
                by_week(month, weekday, i32::from(day))
            }
        }
        On::Before { weekday, day } => {
            if day == days_in_month(LEAP_YEAR, month) {
                last_of(month, weekday)
            } else {
                by_week(month, weekday, i32::from(day) - 6)
            }
        }
    }
}

/// Returns the number of a day of a common year, from 1.
fn number_in_year(month: u8, day: u8) -> u16
    requires month { IsMonth month }
    requires fits { FormFits (pos 1) month (On.Day day) }
    ensures { DayRule.J result ≡ (edges.day_of_form month (On.Day day)).day }
{
    let before = day_of(COMMON_YEAR, 1, On::Day(1));
    (day_of(COMMON_YEAR, month, On::Day(day)) - before + 1) as u16
}

/// Returns the last such weekday of a month.
fn last_of(month: u8, weekday: u8) -> ShiftedDay
    ensures day { result.day ≡ DayRule.M month 5 weekday }
    ensures shift { result.shift ≡ pos 0 }
{
    ShiftedDay {
        day: DayRule::M {
            month,
            week: LAST_WEEK,
            weekday,
        },
        shift: 0,
    }
}

/// Returns the first such weekday on or after a day of a month, which may lie before the month's
/// first.
fn by_week(month: u8, weekday: u8, day: i32) -> ShiftedDay
    requires low { neg_ℤ (pos 6) ≤ℤ day }
    requires high { day ≤ℤ pos 31 }
    ensures day { result.day ≡ (edges.by_week month weekday day).day }
    ensures shift { result.shift ≡ (edges.by_week month weekday day).shift }
    ensures range { IsSmall result.shift }
{
    let week = ((day - 1).div_euclid(7) + 1).clamp(1, 4);
    let shift = day - (7 * week - 6);
    ShiftedDay {
        day: DayRule::M {
            month,
            week: week as u8,
            weekday: (i32::from(weekday) - shift).rem_euclid(7) as u8,
        },
        shift,
    }
}
