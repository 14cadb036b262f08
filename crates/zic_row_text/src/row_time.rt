//! The time of a row, read from what is common: plain decimals of a time that a row may have.

ghost use Rattle.std.specs.Prelude.{◌≡◌, ◌+◌, ◌/◌, ◌%◌, ◌<◌, ◌≤◌, ◌∷◌, length, slice_range, IfSome};
ghost use Rattle.zic_row_text.specs.Count.{fraction_of, second_of, units_of_second};
ghost use Rattle.zic_row_text.specs.Instant.{IsRowInstant};
ghost use Rattle.zic_row_text.specs.PlainTime.{IsPlainTime};
ghost use Rattle.zic_row_text.specs.code.PlainNumber.{IsPlainNumber};

use crate::count::{
    FIRST_INSTANT, LAST_INSTANT, MAX_DIGITS, fraction_digits, moment_of, units_of_second,
};
use crate::digits::short_number;
use crate::wide::wide_number;
use zic_layouts::Unit;

/// The whole second of an instant, in seconds from 1970-01-01T00:00:00 UT, and how many units it
/// lies after that.
#[derive(Clone, Copy, Drop)]
pub struct RowTime {
    pub second: i64,
    /// Fewer than make up a second.
    pub fraction: u32,
    pub unit: Unit,
}

impl RowTime {
    /// Returns the time of a count whose whole second a row may have.
    pub fn of_count(count: i128, unit: Unit) -> RowTime
        requires { IsRowInstant (second_of unit count) }
        ensures second { result.second ≡ second_of unit count }
        ensures fraction { result.fraction ≡ fraction_of unit count }
        ensures below { result.fraction < units_of_second unit }
        ensures unit { result.unit ≡ unit }
    {
        let moment = moment_of(count, unit);
        RowTime {
            second: moment.second as i64,
            fraction: moment.fraction,
            unit,
        }
    }
}

/// Reads the instant that a part of some bytes, `start..end`, has in plain decimals, if a row may have
/// it. `None` doesn't mean that there is none.
#[inline(always)]
pub fn quick_time(bytes: &[u8], start: usize, end: usize, unit: Unit) -> Option<RowTime>
    requires order { start ≤ end }
    requires within { end ≤ length bytes.now }
    ensures { IfSome result (IsPlainTime unit (slice_range bytes.now start end)) }
{
    if let Some(time) = time_from(bytes, start, end, unit) {
        return Some(time);
    }
    // The time is moved by parts: where the call's answer is returned as it stands, the time above goes
    // through memory too.
    let early = early_time(&bytes[start..end], unit)?;
    Some(early)
}

/// Reads an instant from 1970 on.
#[inline(always)]
fn time_from(bytes: &[u8], start: usize, end: usize, unit: Unit) -> Option<RowTime>
    requires order { start ≤ end }
    requires within { end ≤ length bytes.now }
    ensures { IfSome result (IsPlainTime unit (slice_range bytes.now start end)) }
{
    let n = plain_number_at(bytes, start, end, unit)?;
    let Parts { seconds, fraction } = parts_of(n, unit);
    if seconds > LAST_INSTANT as u64 {
        return None;
    }
    Some(RowTime {
        second: seconds as i64,
        fraction,
        unit,
    })
}

/// Reads an instant before 1970: a `-` and its digits.
#[inline(never)]
fn early_time(field: &[u8], unit: Unit) -> Option<RowTime>
    ensures { IfSome result (IsPlainTime unit field.now) }
{
    if let [b'-', digits @ ..] = field {
        return time_before(digits, unit);
    }
    None
}

/// Reads an instant before 1970, whose digits follow a `-`.
#[inline(always)]
fn time_before(digits: &[u8], unit: Unit) -> Option<RowTime>
    ensures { IfSome result (IsPlainTime unit (45 ∷ digits.now)) }
{
    let before = plain_number(digits, unit)?.checked_sub(1)?;
    let Parts { seconds, fraction } = parts_of(before, unit);
    if seconds >= FIRST_INSTANT.unsigned_abs() {
        return None;
    }
    Some(RowTime {
        second: -1 - seconds as i64,
        fraction: units_of_second(unit) - 1 - fraction,
        unit,
    })
}

/// Returns the number that a part of some bytes spells with no zero in front, if its digits are few
/// enough for a count. Up to 16 digits are read at once, where as many bytes end with them: others go
/// the slower way, as does a lone zero.
#[inline(always)]
fn plain_number_at(bytes: &[u8], start: usize, end: usize, unit: Unit) -> Option<u64>
    requires order { start ≤ end }
    requires within { end ≤ length bytes.now }
    ensures { IfSome result (IsPlainNumber unit (slice_range bytes.now start end)) }
{
    let len = end - start;
    if end < 16 {
        return None;
    }
    if len.wrapping_sub(1) >= 16 || bytes[start] == b'0' {
        return plain_number(&bytes[start..end], unit);
    }
    let n = wide_number(bytes, start, end)?;
    Some(n)
}

/// Returns the number that digits spell with no zero in front, if they are few enough for a count.
#[inline(never)]
fn plain_number(digits: &[u8], unit: Unit) -> Option<u64>
    ensures { IfSome result (IsPlainNumber unit digits.now) }
{
    let most = MAX_DIGITS + fraction_digits(unit).min(1);
    let n = short_number(digits, most)?;
    if digits.len() > 1 && digits[0] == b'0' {
        return None;
    }
    Some(n)
}

/// A number of units, as whole seconds and what is left.
#[derive(Clone, Copy, Drop)]
struct Parts {
    seconds: u64,
    fraction: u32,
}

/// Returns the whole seconds of a number of units, and how many units are left.
#[inline(always)]
fn parts_of(n: u64, unit: Unit) -> Parts
    ensures seconds { result.seconds ≡ n / units_of_second unit }
    ensures fraction { result.fraction ≡ n % units_of_second unit }
{
    match unit {
        Unit::Second => Parts {
            seconds: n,
            fraction: 0,
        },
        Unit::Millisecond => Parts {
            seconds: n / 1_000,
            fraction: (n % 1_000) as u32,
        },
        Unit::Microsecond => Parts {
            seconds: n / 1_000_000,
            fraction: (n % 1_000_000) as u32,
        },
        Unit::Nanosecond => Parts {
            seconds: n / 1_000_000_000,
            fraction: (n % 1_000_000_000) as u32,
        },
    }
}
