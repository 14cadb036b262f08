//! The days on which a footer changes local time.

use crate::civil::civil_at;
use crate::days::Days;
use crate::onset::Kind;
use crate::stop::CalendarStop;
use std::alloc::Global;
use zic_calendar::{SECONDS_OF_DAY, days_in_month};
use zic_posix::{DayRule, Edge, Footer, ParseStop, parse};
use zic_tzif::Zone;

/// The version whose grammar has all footers (RFC 9636, 3.3.1).
const VERSION: u8 = 3;

/// The days from 1970-01-01 to just before 2001-01-01, which begins a year of 365 days.
const BEFORE_2001: i64 = 11_322;

/// Days of which none is there.
const NONE: Days = Days {
    month: None,
    first: 1,
    last: 0,
    weekday: None,
};

/// The days of a rule: no day is in two of these.
pub(crate) type Rule = [Days; 3];

/// The rules of a footer.
#[derive(Clone, Copy)]
pub(crate) struct Rules {
    start: Rule,
    stop: Rule,
}

impl Rules {
    /// Returns the rule by which this kind of local time begins.
    pub(crate) fn of(&self, kind: Kind) -> &Rule {
        match kind {
            Kind::Daylight => &self.start,
            Kind::Standard => &self.stop,
        }
    }
}

/// Returns the rules of a zone's footer, or `NoRule` if it has none.
pub(crate) fn rules_of(alloc: Global, zone: &Zone) -> Result<Rules, CalendarStop> {
    match parse(alloc, zone.footer_text(), VERSION) {
        Ok(footer) => {
            let rules = rules_in(&footer);
            drop(footer);
            rules.ok_or(CalendarStop::NoRule)
        }
        Err(ParseStop::BadFooter) => Err(CalendarStop::NoRule),
        Err(ParseStop::Memory) => Err(CalendarStop::Memory),
    }
}

/// Returns the rules of a footer that has some.
fn rules_in(footer: &Footer) -> Option<Rules> {
    match &footer.dst {
        Some(dst) => Some(Rules {
            start: rule_of(&dst.start),
            stop: rule_of(&dst.stop),
        }),
        None => None,
    }
}

/// Returns the days on which an edge comes, by the clocks before it.
fn rule_of(edge: &Edge) -> Rule {
    let shift = shift_of(edge);
    match edge.day {
        DayRule::J(day) => [days_after(day, shift), NONE, NONE],
        DayRule::N(day) => [day_of_year(day.saturating_add(1), shift), NONE, NONE],
        DayRule::M {
            month,
            week,
            weekday,
        } => {
            let weekday = (i64::from(weekday) + i64::from(shift)).rem_euclid(7) as u8;
            if week == 5 {
                last_week(month, weekday, shift)
            } else {
                days_from(month, weekday, first_number(week, shift))
            }
        }
    }
}

/// Returns how many days after its day an edge comes. Its time is less than 168 hours either way.
fn shift_of(edge: &Edge) -> i8 {
    i64::from(edge.time).div_euclid(SECONDS_OF_DAY).clamp(-7, 6) as i8
}

/// Returns the day that is this number of days after one from 1 to 366 of the year.
fn day_of_year(day: u16, shift: i8) -> Days {
    let number = i64::from(day) + i64::from(shift);
    // Number 0 is the last day of the year before.
    one_day(None, if number > 0 { number } else { number - 1 })
}

/// Returns the day that is this number of days after one from 1 to 365, of which none is a February 29.
fn days_after(day: u16, shift: i8) -> Days {
    if shift == 0 {
        return date_of(day);
    }
    if day < 60 {
        return day_of_year(day, shift);
    }
    // From March on days have the same numbers in each year if they are counted from its end.
    let number = i64::from(day) + i64::from(shift) - 366;
    one_day(None, if number < 0 { number } else { number + 1 })
}

/// Returns a day from 1 to 365 of a year without a February 29.
fn date_of(day: u16) -> Days {
    let date = civil_at((BEFORE_2001 + i64::from(day)) * SECONDS_OF_DAY, 0);
    one_day(Some(date.month), i64::from(date.day))
}

/// Returns the day of this number.
fn one_day(month: Option<u8>, number: i64) -> Days {
    Days {
        month,
        first: number,
        last: number,
        weekday: None,
    }
}

/// Returns the days of a weekday that are this number of days after one of the last seven of a month.
fn last_week(month: u8, weekday: u8, shift: i8) -> Rule {
    let (weekday, shift) = (Some(weekday), i64::from(shift));
    let within = Days {
        month: Some(month),
        first: shift - 7,
        last: (shift - 1).min(-1),
        weekday,
    };
    let after = Days {
        month: Some(month_after(month)),
        first: 1,
        last: shift,
        weekday,
    };
    [within, after, NONE]
}

/// Returns the number of the day that is this number of days after the first of a week of a month, 1 to 4.
/// Number 0 is the last day of the month before.
fn first_number(week: u8, shift: i8) -> i16 {
    7 * i16::from(week) - 6 + i16::from(shift)
}

/// Returns the days of a weekday that are among seven from this number of a month on.
fn days_from(month: u8, weekday: u8, number: i16) -> Rule {
    let first = i64::from(number);
    let last = first + 6;
    let length = i64::from(days_in_month(2001, month));
    let weekday = Some(weekday);
    if month == 2 && last > length {
        // Days of the year have the same numbers with a February 29 and without.
        let days = Days {
            month: None,
            first: 31 + first,
            last: 31 + last,
            weekday,
        };
        return [days, NONE, NONE];
    }
    let before = Days {
        month: Some(month_before(month)),
        first: first - 1,
        last: (last - 1).min(-1),
        weekday,
    };
    let within = Days {
        month: Some(month),
        first: first.max(1),
        last: last.min(length),
        weekday,
    };
    let after = Days {
        month: Some(month_after(month)),
        first: (first - length).max(1),
        last: last - length,
        weekday,
    };
    [before, within, after]
}

/// Returns the month after one from 1 to 12.
fn month_after(month: u8) -> u8 {
    if month < 12 { month + 1 } else { 1 }
}

/// Returns the month before one from 1 to 12.
fn month_before(month: u8) -> u8 {
    if month > 1 { month - 1 } else { 12 }
}
