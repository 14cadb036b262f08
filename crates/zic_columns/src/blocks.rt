//! Bytes, taken 32 or 64 at a time.

ghost use Rattle.std.specs.Prelude.{◌≡◌, ◌+◌, ◌<◌, ◌≤◌, ◌^◌, ◌==◌, ℕ, true, length, map, take, Some, IfSome};
ghost use Rattle.std.specs.Simd.Lanes.{chunk, mask_l};
ghost use Rattle.memchr.specs.Find.{IsFirst, Passes};
ghost use Rattle.zic_columns.specs.Column.{CanDelimit, HasNoQuote, ends_line};
ghost use Rattle.zic_columns.specs.code.Block.{AreCounted, ArePassed, ends_field, is_after_line, mask_at, records_ended};

use crate::csv_scan::split_lines;
use crate::fields::Separator;
use crate::lines::ends_line;
use std::simd::prelude::*;

/// The number of bytes that a search looks at together.
const BLOCK: usize = 32;

/// The number of bytes whose records are counted together.
const WIDE: usize = 64;

/// First bytes, and the number of records that end in them.
#[derive(Clone, Copy, Drop)]
pub(crate) struct Passed {
    pub(crate) len: usize,
    pub(crate) records: usize,
}

/// Returns a mask of the double quotes among the 32 bytes from an index on.
#[inline(always)]
fn quotes_at(bytes: &[u8], at: usize) -> u64
    requires { at + BLOCK ≤ length bytes.now }
    ensures { result ≡ mask_at (λ byte. byte == 34) bytes.now at }
{
    u8x32::from_slice(&bytes[at..])
        .simd_eq(u8x32::splat(b'"'))
        .to_bitmask()
}

/// Returns a mask of the double quotes among the 64 bytes from an index on.
#[inline(always)]
fn wide_quotes_at(bytes: &[u8], at: usize) -> u64
    requires { at + WIDE ≤ length bytes.now }
    ensures { result ≡ mask_l (map (λ byte. byte == 34) (chunk at WIDE bytes.now)) }
{
    u8x64::from_slice(&bytes[at..])
        .simd_eq(u8x64::splat(b'"'))
        .to_bitmask()
}

/// Returns a mask of the bytes that end a line among the 64 bytes from an index on.
#[inline(always)]
fn line_ends_at(bytes: &[u8], at: usize) -> u64
    requires { at + WIDE ≤ length bytes.now }
    ensures { result ≡ mask_l (map ends_line (chunk at WIDE bytes.now)) }
{
    let block = u8x64::from_slice(&bytes[at..]);
    (block.simd_eq(u8x64::splat(b'\r')) | block.simd_eq(u8x64::splat(b'\n'))).to_bitmask()
}

/// Returns a mask of the delimiters and line ends among the 32 bytes from an index on.
#[inline(always)]
fn field_ends_at(bytes: &[u8], at: usize, delimiter: Separator) -> u64
    requires { at + BLOCK ≤ length bytes.now }
    ensures { result ≡ mask_at (ends_field delimiter.byte) bytes.now at }
{
    let block = u8x32::from_slice(&bytes[at..]);
    (block.simd_eq(u8x32::splat(delimiter.byte))
        | block.simd_eq(u8x32::splat(b'\r'))
        | block.simd_eq(u8x32::splat(b'\n'))).to_bitmask()
}

/// Returns the index of the first delimiter or line end among the 32 bytes from an index on, where
/// there are as many.
#[inline(always)]
pub(crate) fn near_field_end(bytes: &[u8], from: usize, delimiter: Separator) -> Option<usize>
    requires { from ≤ length bytes.now }
    ensures { IfSome result
        (λ at. IsFirst (Passes (ends_field delimiter.byte) bytes.now) from (length bytes.now) (Some at)) }
{
    if bytes.len() - from < BLOCK {
        return None;
    }
    let ends = field_ends_at(bytes, from, delimiter);
    if ends == 0 {
        return None;
    }
    Some(from + ends.trailing_zeros() as usize)
}

/// Returns the index of the first double quote among the first 32 bytes, where there are as many.
#[inline(always)]
pub(crate) fn near_quote(bytes: &[u8]) -> Option<usize>
    ensures { IfSome result (λ at.
        IsFirst (Passes (λ byte. byte == 34) bytes.now) 0 (length bytes.now) (Some at)) }
{
    if bytes.len() < BLOCK {
        return None;
    }
    let quotes = quotes_at(bytes, 0);
    if quotes == 0 {
        return None;
    }
    Some(quotes.trailing_zeros() as usize)
}

/// Returns whether the bytes before an index are none, or the last of them ends a line.
#[inline(always)]
fn begins_line(bytes: &[u8], at: usize) -> bool
    requires { at ≤ length bytes.now }
    ensures { result ≡ is_after_line true (take at bytes.now) }
{
    at == 0 || ends_line(bytes[at - 1])
}

/// Returns the number of records that end in the 64 bytes from an index on, or `None` where a
/// double quote is among them: at each line end after a byte that ends no line.
#[inline(always)]
fn records_at(bytes: &[u8], at: usize) -> Option<usize>
    requires { at + WIDE ≤ length bytes.now }
    ensures plain { IfSome result (λ _. HasNoQuote (chunk at WIDE bytes.now)) }
    ensures count { IfSome result (λ count. count
        ≡ records_ended (is_after_line true (take at bytes.now)) (chunk at WIDE bytes.now)) }
{
    if wide_quotes_at(bytes, at) != 0 {
        return None;
    }
    let ends = line_ends_at(bytes, at);
    let follow = ends
        .wrapping_mul(2)
        .wrapping_add(u64::from(begins_line(bytes, at)));
    Some((ends & !follow).count_ones() as usize)
}

/// Passes over bytes without a double quote in which fewer records end than `most`.
fn count_records(bytes: &[u8], most: usize) -> Passed
    requires { 0 < most }
    ensures { AreCounted bytes.now most result }
{
    let mut passed = Passed { len: 0, records: 0 };
    while WIDE <= bytes.len() - passed.len {
        match records_at(bytes, passed.len) {
            Some(more) if more < most - passed.records => {
                passed.records += more;
                passed.len += WIDE;
            }
            _ => return passed,
        }
    }
    passed
}

/// Passes over whole lines without a double quote that are fewer records than `most`.
pub(crate) fn pass_records(bytes: &[u8], most: usize) -> Passed
    requires { 0 < most }
    ensures { (delimiter : ℕ) → CanDelimit delimiter → ArePassed delimiter bytes.now most result }
{
    if bytes.len() > 0 && bytes[0] == b'"' {
        return Passed { len: 0, records: 0 };
    }
    let counted = count_records(bytes, most);
    Passed {
        len: split_lines(&bytes[..counted.len]).0.len(),
        records: counted.records,
    }
}
