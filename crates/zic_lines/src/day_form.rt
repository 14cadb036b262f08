//! Months, and forms of days of a month.

ghost use Rattle.std.specs.Prelude.{◌≡◌, ◌≤◌, ◌<◌, ◌==◌, IfSome, map, option_map};
ghost use Rattle.std.specs.Int.{IsInRange};
ghost use Rattle.zic_calendar.specs.Weekday.{IsWeekday};
ghost use Rattle.zic_calendar.specs.Calendar.{month_length};
ghost use Rattle.zic_lines.specs.DayForm.{weekday_of, day_within, last_weekday, weekday_and_day, day_form_of, FitsEachYear};
ghost use Rattle.zic_lines.specs.Month.{month_of};

use crate::time::number;
use crate::word::{only_word, split_at_most_once};
use zic_calendar::{On, days_in_month};

const WEEKDAYS: [&[u8]; 7] = [
    b"sunday",
    b"monday",
    b"tuesday",
    b"wednesday",
    b"thursday",
    b"friday",
    b"saturday",
];

/// Returns a weekday, 0 (Sunday) to 6, from its name in English or a prefix of it that no other
/// weekday has.
#[tactic(auto, unfolding(crate::specs::DayForm::weekday_of))]
fn weekday(field: &[u8]) -> Option<u8>
    ensures value { result ≡ weekday_of field.now }
    ensures weekday { IfSome result IsWeekday }
{
    only_word(&WEEKDAYS, field)
}

/// Returns the day of the month that one or two digits name, from 1 to `longest`.
#[tactic(auto, unfolding(crate::specs::DayForm::day_within))]
fn day_within(longest: u8, field: &[u8]) -> Option<u8>
    ensures value { result ≡ day_within longest field.now }
    ensures within { IfSome result (λ day. IsInRange 1 longest day) }
{
    let n = number(2, field)?;
    if 1 <= n && n <= u32::from(longest) {
        Some(n as u8)
    } else {
        None
    }
}

/// Returns the weekday after `last`.
#[tactic(auto, unfolding(crate::specs::DayForm::last_weekday))]
fn last_weekday(field: &[u8]) -> Option<u8>
    ensures value { result ≡ last_weekday field.now }
    ensures weekday { IfSome result IsWeekday }
{
    if field.len() < 4 || !field[..4].eq_ignore_ascii_case(b"last") {
        return None;
    }
    weekday(&field[4..])
}

/// Returns the weekday and the day of the month, up to `longest`, of a field that has this sign and
/// `=` between them.
#[tactic(auto, unfolding(crate::specs::DayForm::weekday_and_day))]
fn weekday_and_day(sign: u8, longest: u8, field: &[u8]) -> Option<(u8, u8)>
    ensures value { result ≡ weekday_and_day sign longest field.now }
    ensures weekday { IfSome result (λ both. IsWeekday both.0) }
    ensures day { IfSome result (λ both. IsInRange 1 longest both.1) }
{
    let (name, bound) = split_at_most_once(field, sign)?;
    match bound {
        Some([b'=', text @ ..]) => {
            let weekday = weekday(name)?;
            let day = day_within(longest, text)?;
            Some((weekday, day))
        }
        _ => None,
    }
}

/// Returns the length of the month, 1 to 12, in days, in a leap year or in a common year.
fn month_length(is_leap: bool, month: u8) -> u8
    ensures { result ≡ month_length is_leap month }
{
    days_in_month(if is_leap { 2000 } else { 2001 }, month)
}

/// Returns the form that `lastX`, `X>=D`, `X<=D` or a day names, in a month from 1 to 12 (zic(8),
/// ON). 29 February is a day only where one year is meant, a leap year; it may not stand after
/// `>=`, and after `<=` it means the last of the month.
#[tactic(auto, unfolding(crate::specs::DayForm::day_form_of))]
pub fn parse_day_form(one_leap_year: bool, month: u8, field: &[u8]) -> Option<On>
    ensures value { result ≡ day_form_of one_leap_year month field.now }
    ensures fits { IfSome result (λ form. FitsEachYear one_leap_year month form) }
{
    if let Some(weekday) = last_weekday(field) {
        return Some(On::Last(weekday));
    }
    if let Some((weekday, day)) = weekday_and_day(b'>', month_length(false, month), field) {
        return Some(On::After { weekday, day });
    }
    if let Some((weekday, day)) = weekday_and_day(b'<', month_length(true, month), field) {
        return Some(On::Before { weekday, day });
    }
    let day = day_within(month_length(one_leap_year, month), field)?;
    Some(On::Day(day))
}

const MONTHS: [&[u8]; 12] = [
    b"january",
    b"february",
    b"march",
    b"april",
    b"may",
    b"june",
    b"july",
    b"august",
    b"september",
    b"october",
    b"november",
    b"december",
];

/// Returns the number of a month, 1 to 12, from its name in English or a prefix of it that no other
/// month has (zic(8), IN).
#[tactic(auto, unfolding(crate::specs::Month::month_of))]
pub fn parse_month(field: &[u8]) -> Option<u8>
    ensures value { result ≡ month_of field.now }
    ensures low { IfSome result (λ month. 1 ≤ month) }
    ensures high { IfSome result (λ month. month ≤ 12) }
{
    let place = only_word(&MONTHS, field)?;
    Some(place + 1)
}
