//! What follows the instant in a row, written into a text with room.

ghost use Rattle.std.specs.Prelude.{◌≡◌, ◌+◌, ◌<◌, ◌≤◌, ◌++◌, ◌∷◌, length, take};
ghost use Rattle.zic_base.specs.Digits.{clock_text};
ghost use Rattle.zic_row_text.specs.Row.{styled_text};
ghost use Rattle.zic_row_text.specs.Count.{fraction_text, units_of_second};
ghost use Rattle.zic_row_text.specs.code.Cached.{cached_date};

use crate::count::{DAY, three_digits};
use crate::date::CachedDate;
use crate::digits::put_clock;
use crate::row_time::RowTime;
use crate::state_text::StateText;
use crate::store::{put_16, put_byte};
use std::simd::prelude::*;
use zic_layouts::{Style, Unit};

/// The room that is wanted after the instant, in bytes.
pub(crate) const TIMED_ROOM: usize = 64;

/// The room that is wanted for a local time, in bytes.
pub(crate) const LOCAL_ROOM: usize = 35;

/// What a row has after its instant, by a style and with a delimiter: the local time and the state of
/// a time.
#[derive(Clone, Copy, Drop)]
pub struct RowRest<'s> {
    pub time: RowTime,
    pub state: &'s StateText,
    pub style: Style,
    pub delimiter: u8,
}

/// Writes what follows an instant: a delimiter, a date, a second of the day, the fraction of a time, and
/// a state. Returns where it ends.
#[inline(always)]
pub(crate) fn put_rest(
    text: &mut [u8],
    at: usize,
    date: &CachedDate,
    second: u32,
    rest: &RowRest<'_>,
) -> usize
    requires room { at + TIMED_ROOM ≤ length text.old }
    requires second { second < DAY }
    requires fraction { rest.now.time.fraction < units_of_second rest.now.time.unit }
    ensures end { result ≤ at + TIMED_ROOM }
    ensures same_length { length text.new ≡ length text.old }
    ensures written { take result text.new ≡ take at text.old ++ rest.now.delimiter
        ∷ (cached_date date.now.day ++ (clock_text second
        ++ (fraction_text rest.now.time.unit rest.now.time.fraction
        ++ styled_text rest.now.delimiter rest.now.style rest.now.state.now))) }
{
    put_byte(text, at, rest.delimiter);
    let end = put_time(
        text,
        at + 1,
        date,
        second,
        rest.time.unit,
        rest.time.fraction,
    );
    rest.state.put_styled(text, end, rest.style, rest.delimiter)
}

/// Writes a date, a second of the day, and a fraction of a second. Returns where it ends.
#[inline(always)]
pub(crate) fn put_time(
    text: &mut [u8],
    at: usize,
    date: &CachedDate,
    second: u32,
    unit: Unit,
    fraction: u32,
) -> usize
    requires room { at + LOCAL_ROOM ≤ length text.old }
    requires second { second < DAY }
    requires fraction { fraction < units_of_second unit }
    ensures end { result ≤ at + 29 }
    ensures same_length { length text.new ≡ length text.old }
    ensures written { take result text.new ≡ take at text.old ++ (cached_date date.now.day
        ++ (clock_text second ++ fraction_text unit fraction)) }
{
    date.put(text, at);
    put_clock(text, at + 11, second);
    put_fraction(text, at + 19, unit, fraction)
}

/// Writes this number of units of a second, as `.123`, or nothing where seconds are counted, and
/// returns where it ends.
#[inline(always)]
fn put_fraction(text: &mut [u8], at: usize, unit: Unit, n: u32) -> usize
    requires room { at + 16 ≤ length text.old }
    requires below { n < units_of_second unit }
    ensures end { result ≤ at + 10 }
    ensures same_length { length text.new ≡ length text.old }
    ensures written { take result text.new ≡ take at text.old ++ fraction_text unit n }
{
    match unit {
        Unit::Second => at,
        Unit::Millisecond => {
            let [a, b, c] = three_digits(n);
            let octets = [b'.', a, b, c, 0, 0, 0, 0, 0, 0, 0, 0, 0, 0, 0, 0];
            put_16(text, at, u8x16::from_array(octets), 4);
            at + 4
        }
        Unit::Microsecond => {
            let [a, b, c] = three_digits(n / 1_000);
            let [d, e, f] = three_digits(n % 1_000);
            let octets = [b'.', a, b, c, d, e, f, 0, 0, 0, 0, 0, 0, 0, 0, 0];
            put_16(text, at, u8x16::from_array(octets), 7);
            at + 7
        }
        Unit::Nanosecond => {
            let [a, b, c] = three_digits(n / 1_000_000);
            let [d, e, f] = three_digits(n / 1_000 % 1_000);
            let [g, h, i] = three_digits(n % 1_000);
            let octets = [b'.', a, b, c, d, e, f, g, h, i, 0, 0, 0, 0, 0, 0];
            put_16(text, at, u8x16::from_array(octets), 10);
            at + 10
        }
    }
}
