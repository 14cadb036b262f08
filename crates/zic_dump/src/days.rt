//! Days of each year, as an RRULE names them (RFC 5545, 3.3.10).

use crate::civil::civil_at;
use crate::content_lines::ContentLines;
use std::alloc::AllocError;
use zic_calendar::{On, SECONDS_OF_DAY, day_of, days_in_month, is_leap_year, weekday};

/// The names of the weekdays.
const WEEKDAYS: [&str; 7] = ["SU", "MO", "TU", "WE", "TH", "FR", "SA"];

/// Days of each year: those of a month, or without one of the year, whose numbers are from `first` to
/// `last`, and of these those of the weekday, if there is one.
///
/// Numbers are all above 0, counted from the first day, or all below 0, counted from the last one. There
/// are no days where `last` is below `first`.
#[derive(Clone, Copy)]
pub(crate) struct Days {
    pub month: Option<u8>,
    pub first: i64,
    pub last: i64,
    /// 0 is Sunday.
    pub weekday: Option<u8>,
}

impl Days {
    /// Returns whether a day, in days from 1970-01-01, is one of them.
    pub(crate) fn has(&self, day: i64) -> bool {
        if self.last < self.first || !self.has_weekday(day) {
            return false;
        }
        let number = self.number_of(day);
        self.first <= number && number <= self.last
    }

    /// Returns whether a day has the weekday.
    fn has_weekday(&self, day: i64) -> bool {
        match self.weekday {
            Some(number) => number == weekday(day),
            None => true,
        }
    }

    /// Returns the number of a day in its year or month, or 0 if that is another month.
    fn number_of(&self, day: i64) -> i64 {
        let date = civil_at(day.saturating_mul(SECONDS_OF_DAY), 0);
        match self.month {
            Some(month) if month == date.month => {
                let length = days_in_month(date.year, month);
                self.counted(i64::from(date.day), i64::from(length))
            }
            Some(_) => 0,
            None => {
                let length = if is_leap_year(date.year) { 366 } else { 365 };
                self.counted(day_of_year(day, date.year), length)
            }
        }
    }

    /// Returns a number from 1 on, of as many days, as these days are counted.
    fn counted(&self, number: i64, length: i64) -> i64 {
        if self.last < 0 {
            number.saturating_sub(length).saturating_sub(1)
        } else {
            number
        }
    }

    /// Adds the parts of an RRULE that name them.
    pub(crate) fn push_parts(&self, lines: &mut ContentLines) -> Result<(), AllocError> {
        if let Some(month) = self.month {
            lines.push_str(";BYMONTH=")?;
            lines.push_number(i64::from(month))?;
        }
        match self.week() {
            Some(week) => {
                lines.push_str(";BYDAY=")?;
                lines.push_number(week)?;
                self.push_weekday(lines)
            }
            None => self.push_numbers(lines),
        }
    }

    /// Adds their numbers, and the weekday if there is one.
    fn push_numbers(&self, lines: &mut ContentLines) -> Result<(), AllocError> {
        lines.push_str(if self.month.is_some() {
            ";BYMONTHDAY="
        } else {
            ";BYYEARDAY="
        })?;
        lines.push_number(self.first)?;
        for number in self.first.saturating_add(1)..self.last.saturating_add(1) {
            lines.push(',')?;
            lines.push_number(number)?;
        }
        if self.weekday.is_none() {
            return Ok(());
        }
        lines.push_str(";BYDAY=")?;
        self.push_weekday(lines)
    }

    /// Adds the name of the weekday.
    fn push_weekday(&self, lines: &mut ContentLines) -> Result<(), AllocError> {
        match self.weekday {
            Some(number) => lines.push_str(WEEKDAYS[usize::from(number % 7)]),
            None => Ok(()),
        }
    }

    /// Returns the week of the month whose weekday they are, -1 for the last seven days, if they are those
    /// of one week.
    fn week(&self) -> Option<i64> {
        if self.month.is_none() || self.weekday.is_none() {
            return None;
        }
        match (self.first, self.last) {
            (1, 7) => Some(1),
            (8, 14) => Some(2),
            (15, 21) => Some(3),
            (22, 28) => Some(4),
            (-7, -1) => Some(-1),
            _ => None,
        }
    }
}

/// Returns the number of a day in its year, from 1.
fn day_of_year(day: i64, year: i64) -> i64 {
    let first = day_of(year.clamp(1, 9999), 1, On::Day(1));
    day.saturating_sub(first).saturating_add(1)
}
