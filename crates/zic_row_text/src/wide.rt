//! Numbers of at most 16 digits, read at once.

ghost use Rattle.std.specs.Prelude.{◌≡◌, ◌+◌, ◌*◌, ◌-◌, ◌<◌, ◌≤◌, ◌++◌, length, slice_range, replicate, IfSome, IsTrue};
ghost use Rattle.std.specs.Simd.Lanes.{Each1};
ghost use Rattle.zic_base.specs.Number.{number};
ghost use Rattle.zic_row_text.specs.code.Lanes.{joined, lanes_of, lane_value};

use std::simd::prelude::*;

/// Any 16 bytes in a row are a mask: zeros clear, and others keep.
static MASKS: [u8; 32] = [
    0, 0, 0, 0, 0, 0, 0, 0, 0, 0, 0, 0, 0, 0, 0, 0, 255, 255, 255, 255, 255, 255, 255, 255, 255,
    255, 255, 255, 255, 255, 255, 255,
];

/// Weights of hundreds and ones that have two bytes each.
const HUNDREDS: [u8; 16] = [100, 0, 1, 0, 100, 0, 1, 0, 100, 0, 1, 0, 100, 0, 1, 0];

/// Reads the number that a part of some bytes spells in 1 to 16 decimal digits.
#[inline(always)]
pub(crate) fn wide_number(bytes: &[u8], start: usize, end: usize) -> Option<u64>
    requires some { start < end }
    requires few { end ≤ start + 16 }
    requires ahead { 16 ≤ end }
    requires within { end ≤ length bytes.now }
    ensures { IfSome result (λ n. number 16 (slice_range bytes.now start end) ≡ Some n) }
{
    let digits = lanes(bytes, start, end);
    if !are_digits(digits) {
        return None;
    }
    Some(value(digits))
}

/// Returns the lanes of a part of some bytes.
#[inline(always)]
fn lanes(bytes: &[u8], start: usize, end: usize) -> u8x16
    requires order { start ≤ end }
    requires few { end ≤ start + 16 }
    requires ahead { 16 ≤ end }
    requires within { end ≤ length bytes.now }
    ensures { result ≡ lanes_of (slice_range bytes.now start end) }
{
    (u8x16::from_slice(&bytes[end - 16..]) ^ u8x16::splat(b'0')) & mask_of(16 - (end - start))
}

/// Returns a mask that clears the first `cleared` bytes and keeps the others.
#[inline(always)]
fn mask_of(cleared: usize) -> u8x16
    requires { cleared ≤ 16 }
    ensures { result ≡ replicate cleared 0 ++ replicate (16 - cleared) 255 }
{
    u8x16::from_slice(&MASKS[16 - cleared..])
}

/// Returns whether all lanes are digits.
#[inline(always)]
fn are_digits(digits: u8x16) -> bool
    requires { length digits ≡ 16 }
    ensures { IsTrue result → Each1 (λ digit. digit < 10) digits }
{
    digits.simd_lt(u8x16::splat(10)).all()
}

/// Returns the number that the lanes make up.
#[inline(always)]
fn value(digits: u8x16) -> u64
    requires size { length digits ≡ 16 }
    requires digits { Each1 (λ digit. digit < 10) digits }
    ensures { result ≡ lane_value digits }
{
    let [a, b, c, d] = quads(pairs(digits));
    u64::from(a * 10_000 + b) * 100_000_000 + u64::from(c * 10_000 + d)
}

/// Returns the number of each two digits. A lane is the first digit and 256 times the second, and 2,561
/// times that is 256 times the number, but for what is below and above its byte.
#[inline(always)]
fn pairs(digits: u8x16) -> u16x8
    requires size { length digits ≡ 16 }
    requires digits { Each1 (λ digit. digit < 10) digits }
    ensures { result ≡ joined 10 digits }
{
    (u16x8::from_le_bytes(digits) * u16x8::splat(2_561)) >> u16x8::splat(8)
}

/// Returns the number of each two numbers below 100.
#[inline(always)]
fn quads(pairs: u16x8) -> [u32; 4]
    requires size { length pairs ≡ 8 }
    requires pairs { Each1 (λ pair. pair < 100) pairs }
    ensures { result ≡ joined 100 pairs }
{
    pairs
        .to_le_bytes()
        .dot4(u8x16::from_array(HUNDREDS))
        .to_array()
}
