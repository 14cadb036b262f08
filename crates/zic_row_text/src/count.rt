//! Instants as counts of units, perhaps parts of a second, and their limits.

ghost use Rattle.std.specs.Prelude.{◌≡◌, ◌<◌, ◌^◌, ◌*ℤ◌, ◌+ℤ◌, pos, unsigned_abs};
ghost use Rattle.zic_row_text.specs.Count.{count_of, fraction_of, fraction_digits, second_of, three_digits, units_of_second};

use crate::digits::number;
use jiff_core::num::div_rem_floor;
use zic_base::two_digits;
use zic_calendar::SECONDS_OF_DAY;
use zic_layouts::Unit;

/// Returns how many digits a fraction of a second has.
pub(crate) fn fraction_digits(unit: Unit) -> usize
    ensures { result ≡ fraction_digits unit }
{
    match unit {
        Unit::Second => 0,
        Unit::Millisecond => 3,
        Unit::Microsecond => 6,
        Unit::Nanosecond => 9,
    }
}

/// Returns how many units make up a second.
pub(crate) fn units_of_second(unit: Unit) -> u32
    ensures { result ≡ units_of_second unit }
{
    match unit {
        Unit::Second => 1,
        Unit::Millisecond => 1_000,
        Unit::Microsecond => 1_000_000,
        Unit::Nanosecond => 1_000_000_000,
    }
}

/// Returns the count of a field, in these units from 1970-01-01T00:00:00 UT: 1 to 18 decimal digits
/// and as many more as a fraction has, perhaps with zeros in front, and perhaps after a `-`. Nothing
/// else is a count, no `+` and no space. A row may still not have it.
#[tactic(auto, unfolding(crate::specs::Count::count_of))]
pub fn parse_count(field: &[u8], unit: Unit) -> Option<i128>
    ensures { result ≡ count_of unit field.now }
{
    let most = MAX_DIGITS + fraction_digits(unit);
    if let [b'-', digits @ ..] = field {
        let count = number(digits, most)?;
        return Some(-(count as i128));
    }
    let count = number(field, most)?;
    Some(count as i128)
}

/// A count, as its whole second, rounded down, and how many units it lies after that.
#[derive(Clone, Copy, Debug, PartialEq, Eq)]
pub struct Moment {
    pub second: i128,
    /// Fewer than make up a second.
    pub fraction: u32,
}

/// Returns the whole second of a count, and how many units it lies after that.
pub fn moment_of(count: i128, unit: Unit) -> Moment
    ensures second { result.second ≡ second_of unit count }
    ensures fraction { result.fraction ≡ fraction_of unit count }
    ensures below { result.fraction < units_of_second unit }
{
    if unit == Unit::Second {
        return Moment {
            second: count,
            fraction: 0,
        };
    }
    let units = units_of_second(unit);
    if let Ok(near) = i64::try_from(count) {
        return Moment {
            second: near.div_euclid(i64::from(units)) as i128,
            fraction: near.rem_euclid(i64::from(units)) as u32,
        };
    }
    let (second, fraction) = div_rem_floor(count, u128::from(units));
    Moment {
        second,
        fraction: fraction as u32,
    }
}

/// Returns the count of units from 1970 to this fraction after a whole second.
pub fn count_from(second: i64, fraction: u32, unit: Unit) -> i128
    ensures value { result ≡ (second *ℤ pos (units_of_second unit)) +ℤ pos fraction }
    ensures near { unsigned_abs result < 2 ^ 100 }
{
    let second = i128::from(second);
    let fraction = i128::from(fraction);
    match unit {
        Unit::Second => second + fraction,
        Unit::Millisecond => second * 1_000 + fraction,
        Unit::Microsecond => second * 1_000_000 + fraction,
        Unit::Nanosecond => second * 1_000_000_000 + fraction,
    }
}

/// Returns the three decimal digits of a number below 1,000.
pub(crate) fn three_digits(n: u32) -> [u8; 3]
    requires { n < 1000 }
    ensures { result ≡ three_digits n }
{
    let [b, c] = two_digits(n % 100);
    [b'0' + (n / 100) as u8, b, c]
}

/// The most digits of an instant.
pub const MAX_DIGITS: usize = 18;

/// The first instant of a row, 0001-01-02 00:00 UT: a day after the first of the calendar.
pub const FIRST_INSTANT: i64 = -62_135_510_400;

/// The last instant of a row, 9999-12-30 23:59:59 UT: a day before the last of the calendar.
pub const LAST_INSTANT: i64 = 253_402_214_399;

/// The farthest UT offset of a row, 24:00:00 either way, in seconds.
pub const FARTHEST_OFFSET: u32 = 86_400;

/// The days from 0001-01-01 to 1970-01-01.
pub(crate) const DAYS_TO_1970: u32 = 719_162;

/// The days of the years 1 to 9999.
pub(crate) const DAYS: u32 = 3_652_059;

/// The seconds of a day.
pub(crate) const DAY: u32 = SECONDS_OF_DAY as u32;
