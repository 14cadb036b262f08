//! Numbers in decimal digits, two by a table: for rows that is quicker than to divide by ten.

ghost use Rattle.std.specs.Prelude.{◌≡◌, ◌+◌, ◌<◌, ◌≤◌, ◌++◌, ◌∷◌, [], length, slice_range, take, ◌^◌, IfSome};
ghost use Rattle.zic_base.specs.Digits.{two_digits, clock_text};
ghost use Rattle.zic_base.specs.Number.{number};

use crate::count::{DAY, MAX_DIGITS};
use crate::minutes::minute_text;
use crate::store::put_8;
use std::simd::prelude::*;

/// The digits of the numbers 00 to 99.
static PAIRS: [u8; 200] =
    *b"00010203040506070809101112131415161718192021222324252627282930313233343536373839404142434445464748495051525354555657585960616263646566676869707172737475767778798081828384858687888990919293949596979899";

/// The numbers 00 to 59, in eight bytes each.
static SECOND_TEXTS: [u8; 480] = *b"\
    00      01      02      03      04      05      06      07      08      09      \
    10      11      12      13      14      15      16      17      18      19      \
    20      21      22      23      24      25      26      27      28      29      \
    30      31      32      33      34      35      36      37      38      39      \
    40      41      42      43      44      45      46      47      48      49      \
    50      51      52      53      54      55      56      57      58      59      ";

/// Returns the two decimal digits of a number below 100.
#[inline(always)]
pub(crate) fn digit_pair(n: u32) -> [u8; 2]
    requires { n < 100 }
    ensures { result ≡ two_digits n }
{
    let tens = n as usize * 2;
    [PAIRS[tens], PAIRS[tens + 1]]
}

/// Returns a number below 60 in two decimal digits, in the first two bytes.
#[inline(always)]
fn second_text(n: u32) -> [u8; 8]
    requires { n < 60 }
    ensures { take 2 result ≡ two_digits n }
{
    u8x8::from_slice(&SECOND_TEXTS[8 * n as usize..]).to_array()
}

/// Writes a second of a day as hours, minutes and seconds, `01:59:59`, into a text with room for 16
/// bytes.
#[inline(always)]
pub(crate) fn put_clock(text: &mut [u8], at: usize, second: u32)
    requires room { at + 16 ≤ length text.old }
    requires second { second < DAY }
    ensures same_length { length text.new ≡ length text.old }
    ensures written { take (at + 8) text.new ≡ take at text.old ++ clock_text second }
{
    let minute = second / 60;
    put_8(text, at, minute_text(minute));
    put_8(text, at + 6, second_text(second - 60 * minute));
}

/// Returns the number that two bytes of a text spell in decimal digits.
#[inline(always)]
pub(crate) fn pair_at(text: &[u8], at: usize) -> Option<u8>
    requires { at + 2 ≤ length text.now }
    ensures value { result ≡ number 2 (slice_range text.now at (at + 2)) }
    ensures fits { IfSome result (λ n. n < 100) }
{
    let tens = text[at];
    let ones = text[at + 1];
    if !tens.is_ascii_digit() || !ones.is_ascii_digit() {
        return None;
    }
    Some(10 * (tens - b'0') + (ones - b'0'))
}

/// Returns the number that four bytes of a text spell in decimal digits.
#[inline(always)]
pub(crate) fn quad_at(text: &[u8], at: usize) -> Option<u16>
    requires { at + 4 ≤ length text.now }
    ensures value { result ≡ number 4 (slice_range text.now at (at + 4)) }
    ensures fits { IfSome result (λ n. n < 10_000) }
{
    let (Some(first), Some(last)) = (pair_at(text, at), pair_at(text, at + 2)) else {
        return None;
    };
    Some(100 * u16::from(first) + u16::from(last))
}

/// Returns the number that the text spells in decimal digits: at least one, and at most `most`.
#[tactic(auto, unfolding(zic_base::specs::Number::number))]
pub(crate) fn number(text: &[u8], most: usize) -> Option<u128>
    requires few { most ≤ 27 }
    requires enough { MAX_DIGITS ≤ most }
    ensures value { result ≡ number most text.now }
    ensures fits { IfSome result (λ n. n < 10 ^ 27) }
{
    if text.len() <= MAX_DIGITS {
        let n = short_number(text, MAX_DIGITS)?;
        return Some(n as u128);
    }
    if text.len() > most {
        return None;
    }
    let mut n = 0;
    for byte in text {
        if !byte.is_ascii_digit() {
            return None;
        }
        n = 10 * n + u128::from(*byte - b'0');
    }
    Some(n)
}

/// Returns the number that the text spells in decimal digits: at least one, and at most `most`.
#[inline(always)]
#[tactic(auto, unfolding(zic_base::specs::Number::number))]
pub(crate) fn short_number(text: &[u8], most: usize) -> Option<u64>
    requires { most ≤ 19 }
    ensures value { result ≡ number most text.now }
    ensures fits { IfSome result (λ n. n < 10 ^ most) }
{
    if text.is_empty() || text.len() > most {
        return None;
    }
    let mut n = 0;
    for byte in text {
        if !byte.is_ascii_digit() {
            return None;
        }
        n = 10 * n + u64::from(*byte - b'0');
    }
    Some(n)
}
