//! Dates with a time of day in fields, as `2007-03-11T01:59:59`: RFC 3339, 5.6.

ghost use Rattle.std.specs.Prelude.{◌≡◌, IsTrue, ◌/◌, ◌%◌, ◌<◌, ◌≤◌, ◌^◌, drop, length, take, unsigned_abs, IfSome, Some, ◌-◌, ◌+ℤ◌, ◌-ℤ◌, ◌*ℤ◌, ◌*◌, pos};
ghost use Rattle.std.specs.List.{before_last};
ghost use Rattle.zic_calendar.specs.Calendar.{day_number, IsSupportedDay};
ghost use Rattle.zic_row_text.specs.Count.{second_of, units_of_second};
ghost use Rattle.zic_row_text.specs.DateTime.{civil_in, civil_second, clock_second, fraction_place, has_marks, is_clock, is_date, is_sign, second_in};
ghost use Rattle.zic_row_text.specs.DateTime.{local_count_of, offset_from, offset_in, offset_place, offset_size, rfc3339_count_of, text_count_of};
ghost use Rattle.zic_row_text.specs.Local.{IsLocalSecond};
ghost use Rattle.zic_row_text.specs.code.Civils.{IsCivil};

use crate::count::{DAY, DAYS, DAYS_TO_1970, count_from};
use crate::digits::{pair_at, quad_at};
use crate::seconds::{parse_fraction, parse_seconds};
use jiff_core::civil::Date;
use zic_calendar::{Civil, SECONDS_OF_DAY, days_in_month};
use zic_layouts::{InstantText, Unit};

/// The length of a date with hours and minutes, in bytes.
const TO_MINUTES: usize = 16;

/// The length of a date with hours, minutes and seconds, in bytes.
const TO_SECONDS: usize = 19;

/// The length of a UT offset as `+02:00`.
const USUAL_OFFSET: usize = 6;

/// Returns the instant of a field of this form, as a count of units from 1970-01-01T00:00:00 UT:
/// seconds, perhaps with a fraction; a local time as [`parse_local_time`] reads it, followed by a UT
/// offset; or such a time in UT.
#[inline(always)]
pub fn parse_instant_text(field: &[u8], form: InstantText, unit: Unit) -> Option<i128>
    ensures { result ≡ text_count_of form unit field.now }
{
    match form {
        InstantText::Seconds => parse_seconds(field, unit),
        InstantText::Rfc3339 => parse_rfc3339(field, unit),
        InstantText::Utc => parse_local_time(field, unit),
    }
}

/// Returns the local time of a field, as a count of units from 1970-01-01T00:00:00 on the clocks of
/// the place: `YYYY-MM-DDThh:mm:ss`, with a `T`, a `t` or a space between date and time of day, and
/// perhaps a fraction of at most 9 digits, or without the seconds. RFC 3339, 5.6, without an offset.
/// The years are 1 to 9999. A fraction that isn't a whole number of units is no local time.
#[tactic(auto, unfolding(crate::specs::DateTime::local_count_of))]
pub fn parse_local_time(field: &[u8], unit: Unit) -> Option<i128>
    ensures value { result ≡ local_count_of unit field.now }
    ensures local { IfSome result (λ count. IsLocalSecond (second_of unit count)) }
    ensures near { IfSome result (λ count. unsigned_abs count < 2 ^ 100) }
{
    let (date_time, fraction) = split(field);
    let second = parse_second(date_time)?;
    let units = parse_fraction(fraction, unit)?;
    Some(count_from(second, units, unit))
}

/// Returns the instant of a field that has a local time, as [`parse_local_time`] reads it, and then its
/// UT offset: `Z`, `z`, or as `+02`, `+0200`, `+02:00`, `-00:00` or `-04:56:02`. RFC 3339, 5.6, without
/// the second 60 and the year 0.
#[inline(always)]
#[tactic(auto, unfolding(crate::specs::DateTime::rfc3339_count_of))]
fn parse_rfc3339(field: &[u8], unit: Unit) -> Option<i128>
    ensures { result ≡ rfc3339_count_of unit field.now }
{
    if let Some(offset) = usual_offset(field) {
        let count = parse_local_time(&field[..field.len() - USUAL_OFFSET], unit)?;
        return Some(less_offset(count, offset, unit));
    }
    let (local, offset) = field.split_at(offset_place(field));
    let count = parse_local_time(local, unit)?;
    let offset = parse_offset(offset)?;
    Some(less_offset(count, offset, unit))
}

/// Returns the UT offset that ends a field as `+02:00`, the usual form.
#[inline(always)]
fn usual_offset(field: &[u8]) -> Option<i64>
    ensures long { IfSome result (λ offset. USUAL_OFFSET ≤ length field.now) }
    ensures place { IfSome result (λ offset. offset_place field.now ≡ length field.now - USUAL_OFFSET) }
    ensures value { IfSome result (λ offset. offset_in (drop (length field.now - USUAL_OFFSET)
        field.now) ≡ Some offset) }
    ensures near { IfSome result (λ offset. unsigned_abs offset < 86_400) }
{
    let place = field.len().checked_sub(USUAL_OFFSET)?;
    let sign = field[place];
    if !is_sign(sign) || field[place + 3] != b':' {
        return None;
    }
    let hours = pair_at(field, place + 1)?;
    let minutes = pair_at(field, place + 4)?;
    if hours > 23 || minutes > 59 {
        return None;
    }
    let size = i64::from(hours) * 3600 + i64::from(minutes) * 60;
    Some(if sign == b'-' { -size } else { size })
}

/// Returns a count of clocks with a UT offset in UT.
#[inline(always)]
fn less_offset(count: i128, offset: i64, unit: Unit) -> i128
    requires count { unsigned_abs count < 2 ^ 100 }
    requires offset { unsigned_abs offset < 86_400 }
    ensures { result ≡ count -ℤ (offset *ℤ pos (units_of_second unit)) }
{
    let offset = i128::from(offset);
    match unit {
        Unit::Second => count - offset,
        Unit::Millisecond => count - offset * 1_000,
        Unit::Microsecond => count - offset * 1_000_000,
        Unit::Nanosecond => count - offset * 1_000_000_000,
    }
}

/// Splits a local time into a date with a time of day and its fraction.
#[inline(always)]
fn split(text: &[u8]) -> (&[u8], &[u8])
    ensures front { result.0.now ≡ take (fraction_place text.now) text.now }
    ensures back { result.1.now ≡ drop (fraction_place text.now) text.now }
{
    text.split_at(fraction_place(text).min(text.len()))
}

/// Returns where the fraction of a local time begins, which follows its seconds.
#[inline(always)]
fn fraction_place(text: &[u8]) -> usize
    ensures { result ≡ fraction_place text.now }
{
    match text.get(TO_MINUTES) {
        Some(b':') => TO_SECONDS,
        _ => text.len(),
    }
}

/// Returns the second of a date with a time of day, from 1970-01-01T00:00:00 of the same clocks.
#[inline(always)]
fn parse_second(text: &[u8]) -> Option<i64>
    ensures value { result ≡ second_in text.now }
    ensures near { IfSome result (λ second. unsigned_abs second < 2 ^ 40) }
    ensures local { IfSome result IsLocalSecond }
{
    let civil = parse_civil(text)?;
    Some(second_of(&civil))
}

/// Returns whether a text is as long as a date with hours and minutes, and a byte stands between its
/// numbers where one must.
#[inline(always)]
fn has_marks(text: &[u8]) -> bool
    ensures value { result ≡ has_marks text.now }
    ensures long { IsTrue result → 16 ≤ length text.now }
{
    if text.len() < TO_MINUTES {
        return false;
    }
    let date = text[4] == b'-' && text[7] == b'-';
    let between = text[10] == b'T' || text[10] == b't' || text[10] == b' ';
    date && between && text[13] == b':'
}

/// Returns whether the date of a civil time is one of the calendar, from the year 1 on.
#[inline(always)]
fn is_date(civil: &Civil) -> bool
    ensures { result ≡ is_date civil.now }
{
    1 <= civil.year
        && 1 <= civil.month
        && civil.month <= 12
        && 1 <= civil.day
        && (civil.day <= 28 || civil.day <= days_in_month(civil.year, civil.month))
}

/// Returns whether the time of day of a civil time is one.
#[inline(always)]
fn is_clock(civil: &Civil) -> bool
    ensures { result ≡ is_clock civil.now }
{
    civil.hour <= 23 && civil.minute <= 59 && civil.second <= 59
}

/// Returns the civil time of a text as `2007-03-11T01:59:59` or `2007-03-11T01:59`.
#[inline(always)]
#[tactic(auto, unfolding(crate::specs::DateTime::civil_in))]
fn parse_civil(text: &[u8]) -> Option<Civil>
    ensures value { result ≡ civil_in text.now }
    ensures is { IfSome result IsCivil }
{
    if !has_marks(text) {
        return None;
    }
    let (_, second) = text.split_at(TO_MINUTES);
    let civil = Civil {
        year: i64::from(quad_at(text, 0)?),
        month: pair_at(text, 5)?,
        day: pair_at(text, 8)?,
        hour: pair_at(text, 11)?,
        minute: pair_at(text, 14)?,
        second: clock_second(second)?,
    };
    if is_date(&civil) && is_clock(&civil) {
        return Some(civil);
    }
    None
}

/// Returns the second that follows hours and minutes: 0 where there is no text.
#[inline(always)]
#[tactic(auto, unfolding(crate::specs::DateTime::clock_second))]
fn clock_second(text: &[u8]) -> Option<u8>
    ensures value { result ≡ clock_second text.now }
    ensures small { IfSome result (λ n. n < 100) }
{
    match text {
        [] => Some(0),
        [b':', digits @ ..] if digits.len() == 2 => pair_at(digits, 0),
        _ => None,
    }
}

/// Returns the seconds of a civil time from 1970-01-01T00:00:00 of the same clocks.
#[inline(always)]
fn second_of(civil: &Civil) -> i64
    requires { IsCivil civil.now }
    ensures value { result ≡ civil_second civil.now }
    ensures near { unsigned_abs result < 2 ^ 40 }
    ensures local { IsLocalSecond result }
{
    let day = day_number(civil);
    let clock = civil.hour as u32 * 3600 + civil.minute as u32 * 60 + civil.second as u32;
    SECONDS_OF_DAY * i64::from(day) + i64::from(clock)
}

/// Returns the number of a day, which is 0 on 1970-01-01.
#[inline(always)]
fn day_number(civil: &Civil) -> i32
    requires { IsCivil civil.now }
    ensures value { result ≡ day_number civil.now.year civil.now.month civil.now.day }
    ensures range { IsSupportedDay result }
{
    let date = Date::constrain(civil.year as i16, civil.month, civil.day);
    date.to_unix_epoch_day()
}

/// Returns where the UT offset of a field begins: at a letter for UT that ends it, or at its last sign.
fn offset_place(field: &[u8]) -> usize
    ensures value { result ≡ offset_place field.now }
    ensures within { result ≤ length field.now }
{
    match field {
        [.., b'Z' | b'z'] => field.len() - 1,
        _ => last_sign(field),
    }
}

/// Returns where the last sign of a field stands, or 0 where it has none.
fn last_sign(field: &[u8]) -> usize
    ensures value { result ≡ length (before_last is_sign field.now) }
    ensures within { result ≤ length field.now }
{
    for after in 0..field.len() {
        let place = field.len() - 1 - after;
        if is_sign(field[place]) {
            return place;
        }
    }
    0
}

/// Returns whether a byte is a sign of a UT offset.
fn is_sign(byte: u8) -> bool
    ensures { result ≡ is_sign byte }
{
    byte == b'+' || byte == b'-'
}

/// Returns the UT offset of a text, in seconds, positive east.
#[tactic(auto, unfolding(crate::specs::DateTime::offset_in))]
fn parse_offset(text: &[u8]) -> Option<i64>
    ensures value { result ≡ offset_in text.now }
    ensures near { IfSome result (λ offset. unsigned_abs offset < 86_400) }
{
    match text {
        [b'Z' | b'z'] => Some(0),
        [b'+', size @ ..] => offset_size(size),
        [b'-', size @ ..] => {
            let west = offset_size(size)?;
            Some(-west)
        }
        _ => None,
    }
}

/// Returns the seconds of `02`, `0200`, `02:00` or `02:00:00`.
fn offset_size(text: &[u8]) -> Option<i64>
    ensures value { result ≡ offset_size text.now }
    ensures near { IfSome result (λ offset. unsigned_abs offset < 86_400) }
{
    match text.len() {
        2 => offset_from(pair_at(text, 0), Some(0), Some(0)),
        4 => offset_from(pair_at(text, 0), pair_at(text, 2), Some(0)),
        5 if text[2] == b':' => offset_from(pair_at(text, 0), pair_at(text, 3), Some(0)),
        8 if text[2] == b':' && text[5] == b':' => {
            offset_from(pair_at(text, 0), pair_at(text, 3), pair_at(text, 6))
        }
        _ => None,
    }
}

/// Returns the seconds of these hours, minutes and seconds.
fn offset_from(hours: Option<u8>, minutes: Option<u8>, seconds: Option<u8>) -> Option<i64>
    ensures value { result ≡ offset_from hours minutes seconds }
    ensures near { IfSome result (λ offset. unsigned_abs offset < 86_400) }
{
    let (hours, minutes, seconds) = (hours?, minutes?, seconds?);
    if hours > 23 || minutes > 59 || seconds > 59 {
        return None;
    }
    Some(i64::from(hours) * 3600 + i64::from(minutes) * 60 + i64::from(seconds))
}

/// A day, counted from 0001-01-01, and a second of it.
#[derive(Clone, Copy, Drop)]
pub(crate) struct DaySecond {
    pub(crate) day: u32,
    pub(crate) second: u32,
}

/// Returns the day and the second of it that make up a number of seconds from 0001-01-01T00:00:00. A
/// day has 128 times 675 of them, so a division of 32 bits is enough.
#[inline(always)]
pub(crate) fn day_second(seconds: u64) -> DaySecond
    requires { seconds < DAYS * DAY }
    ensures day { result.day ≡ seconds / DAY }
    ensures second { result.second ≡ seconds % DAY }
{
    let day = (seconds / 128) as u32 / 675;
    DaySecond {
        day,
        second: ((seconds % 4_294_967_296) as u32).wrapping_sub(day.wrapping_mul(DAY)),
    }
}

/// Returns a second that is counted from 1970-01-01T00:00:00 of the same clocks.
#[inline(always)]
pub(crate) fn seconds_from_year_1(second: i64) -> u64
    requires { IsLocalSecond second }
    ensures value { pos result ≡ second +ℤ pos (DAYS_TO_1970 * DAY) }
    ensures fits { result < DAYS * DAY }
{
    (second + DAYS_TO_1970 as i64 * DAY as i64) as u64
}
