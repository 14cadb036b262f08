//! Seconds with a fraction, as `1173596399.25`.

ghost use Rattle.std.specs.Prelude.{◌≡◌, ◌<◌, ◌≤◌, ◌==◌, ◌*◌, ◌^◌, drop, length, position, Some, IfSome};
ghost use Rattle.std.specs.List.{before_first};
ghost use Rattle.zic_row_text.specs.Count.{fraction_in, seconds_count_of, size_in, units_of_second, whole_units};

use crate::count::{MAX_DIGITS, units_of_second};
use crate::digits::short_number;
use zic_layouts::Unit;

/// The most digits of a fraction.
pub(crate) const MAX_FRACTION: usize = 9;

/// Returns the count of a field of seconds, in these units from 1970-01-01T00:00:00 UT: 1 to 18 decimal
/// digits, perhaps after a `-`, and perhaps a point and 1 to 9 digits of a fraction. A fraction that
/// isn't a whole number of units has no count.
#[tactic(auto, unfolding(crate::specs::Count::seconds_count_of))]
pub(crate) fn parse_seconds(field: &[u8], unit: Unit) -> Option<i128>
    ensures { result ≡ seconds_count_of unit field.now }
{
    if let [b'-', size @ ..] = field {
        let size = parse_size(size, unit)?;
        return Some(-(size as i128));
    }
    let size = parse_size(field, unit)?;
    Some(size as i128)
}

/// Returns the units of seconds with a fraction.
fn parse_size(text: &[u8], unit: Unit) -> Option<u128>
    ensures value { result ≡ size_in unit text.now }
    ensures fits { IfSome result (λ n. n < 10 ^ 28) }
{
    let (whole, fraction) = split_at_point(text);
    let seconds = short_number(whole, MAX_DIGITS)?;
    let units = parse_fraction(fraction, unit)?;
    Some(units_of(seconds, unit) + u128::from(units))
}

/// Returns how many units some seconds have.
fn units_of(seconds: u64, unit: Unit) -> u128
    requires { seconds < 10 ^ 18 }
    ensures value { result ≡ seconds * units_of_second unit }
    ensures fits { result < 10 ^ 27 }
{
    let seconds = u128::from(seconds);
    match unit {
        Unit::Second => seconds,
        Unit::Millisecond => seconds * 1_000,
        Unit::Microsecond => seconds * 1_000_000,
        Unit::Nanosecond => seconds * 1_000_000_000,
    }
}

/// Splits a text before its first point, or at its end.
fn split_at_point(text: &[u8]) -> (&[u8], &[u8])
    ensures whole { result.0.now ≡ before_first (λ byte. byte == 46) text.now }
    ensures fraction { result.1.now ≡ drop (length result.0.now) text.now }
{
    let place = point_place(text).unwrap_or(text.len());
    text.split_at(place)
}

/// Returns where the first point of a text stands, if it has one.
fn point_place(text: &[u8]) -> Option<usize>
    ensures { result ≡ position (λ byte. byte == 46) text.now }
{
    text.iter().position(|byte| *byte == b'.')
}

/// Returns the units of a fraction of a second: a point and 1 to 9 digits, or no text. A fraction that
/// isn't a whole number of units has none.
#[tactic(auto, unfolding(crate::specs::Count::fraction_in))]
pub(crate) fn parse_fraction(text: &[u8], unit: Unit) -> Option<u32>
    ensures value { result ≡ fraction_in unit text.now }
    ensures below { IfSome result (λ n. n < units_of_second unit) }
{
    match text {
        [] => Some(0),
        [b'.', digits @ ..] => {
            if digits.len() > MAX_FRACTION {
                return None;
            }
            let parts = short_number(digits, digits.len())?;
            whole_units(parts, digits.len(), unit)
        }
        _ => None,
    }
}

/// Returns the units that make up these parts of a second, of which a second has ten to the power of
/// `digits`, if they are a whole number of units.
fn whole_units(parts: u64, digits: usize, unit: Unit) -> Option<u32>
    requires few { digits ≤ 9 }
    requires below { parts < 10 ^ digits }
    ensures value { result ≡ whole_units unit (10 ^ digits) (Some parts) }
    ensures below { IfSome result (λ n. n < units_of_second unit) }
{
    let scale = 10u64.pow(digits as u32);
    let units = parts * u64::from(units_of_second(unit));
    if units % scale != 0 {
        return None;
    }
    Some((units / scale) as u32)
}
