//! Records of two fields without a double quote, found 32 or 64 bytes at a time.
//!
//! A mark is a delimiter, or a byte up to the double quote: a line end, a control character, a space, `!` or
//! `"`. Where the first two marks of a record are a delimiter and a line end, it is a plain pair. Any other
//! is left to [`crate::cursor`].

ghost use Rattle.std.specs.Prelude.{◌≡◌, ◌+◌, ◌-◌, ◌<◌, ◌≤◌, length, slice_index, IfSome, bit_and, map, take};
ghost use Rattle.std.specs.Simd.Lanes.{chunk, mask_l};
ghost use Rattle.zic_columns.specs.code.Pairs.{AreLineEnds, ArePairsOf, IsFoundPair, ShowsMarks, is_mark};

use crate::cursor::Cursor;
use crate::fields::{Pair, Separator};
use crate::splits::BATCH;
use std::simd::prelude::*;

/// The number of bytes that are looked at together.
const BLOCK: usize = 32;

/// The number of bytes that are looked at where fewer don't show the end of the pair.
const WIDE: usize = 64;

/// A pair, and the index after its line end.
#[derive(Clone, Copy, Drop)]
pub(crate) struct FoundPair {
    pair: Pair,
    next: usize,
}

/// Pairs that were split: their number, and the index after them.
#[derive(Clone, Copy, Drop)]
pub(crate) struct SplitPairs {
    pub(crate) count: usize,
    pub(crate) at: usize,
}

/// Returns a mask of the marks among the 32 bytes from an index on.
#[inline(always)]
fn marks_in(bytes: &[u8], at: usize, delimiter: Separator) -> u64
    requires { at + BLOCK ≤ length bytes.now }
    ensures { result ≡ mask_l (map (is_mark delimiter.byte) (chunk at BLOCK bytes.now)) }
{
    let block = u8x32::from_slice(&bytes[at..]);
    (block.simd_eq(u8x32::splat(delimiter.byte)) | block.simd_le(u8x32::splat(b'"'))).to_bitmask()
}

/// Returns a mask of the marks among the 64 bytes from an index on.
#[inline(always)]
fn wide_marks_in(bytes: &[u8], at: usize, delimiter: Separator) -> u64
    requires { at + WIDE ≤ length bytes.now }
    ensures { result ≡ mask_l (map (is_mark delimiter.byte) (chunk at WIDE bytes.now)) }
{
    let block = u8x64::from_slice(&bytes[at..]);
    (block.simd_eq(u8x64::splat(delimiter.byte)) | block.simd_le(u8x64::splat(b'"'))).to_bitmask()
}

/// Returns a mask without its lowest bit.
#[inline(always)]
fn without_lowest(mask: u64) -> u64
    ensures { result ≡ bit_and mask (mask - 1) }
{
    mask & mask.wrapping_sub(1)
}

/// Returns a mask of the first marks from an index on: those among 32 bytes if they are two or more, else
/// those among 64.
#[inline(always)]
fn marks_from(bytes: &[u8], at: usize, delimiter: Separator) -> u64
    requires { at + WIDE ≤ length bytes.now }
    ensures { ShowsMarks delimiter.byte bytes.now at result }
{
    let marks = marks_in(bytes, at, delimiter);
    if without_lowest(marks) != 0 {
        return marks;
    }
    wide_marks_in(bytes, at, delimiter)
}

/// Returns the index after a carriage return, and after a line feed that follows it.
#[inline(never)]
fn after_return(bytes: &[u8], at: usize) -> usize
    requires within { at < length bytes.now }
    requires here { slice_index bytes.now at ≡ 13 }
    ensures { AreLineEnds bytes.now at result }
{
    let next = at + 1;
    if next < bytes.len() && bytes[next] == b'\n' {
        return next + 1;
    }
    next
}

/// Returns the index after the line end at an index, if one does.
#[inline(always)]
fn after_line_end(bytes: &[u8], at: usize) -> Option<usize>
    requires { at < length bytes.now }
    ensures { IfSome result (AreLineEnds bytes.now at) }
{
    match bytes[at] {
        b'\n' => Some(at + 1),
        b'\r' => Some(after_return(bytes, at)),
        _ => None,
    }
}

/// Returns the plain pair that begins at an index, if the next bytes show it. `None` doesn't mean that
/// there is none.
#[inline(always)]
fn near_pair(piece: &[u8], start: usize, delimiter: Separator) -> Option<FoundPair>
    requires { start ≤ length piece.now }
    ensures { IfSome result (IsFoundPair delimiter.byte piece.now start) }
{
    if piece.len() - start < WIDE {
        return None;
    }
    let marks = marks_from(piece, start, delimiter);
    let rest = without_lowest(marks);
    if rest == 0 {
        return None;
    }
    let stop = start + marks.trailing_zeros() as usize;
    let end = start + rest.trailing_zeros() as usize;
    if piece[stop] != delimiter.byte {
        return None;
    }
    let next = after_line_end(piece, end)?;
    let pair = Pair { start, stop, end };
    Some(FoundPair { pair, next })
}

/// Passes over line ends from an index on, and splits the records after them as long as each is a plain
/// pair, at most `BATCH`.
pub(crate) fn split_pairs(
    piece: &[u8],
    from: usize,
    delimiter: Separator,
    pairs: &mut [Pair; BATCH],
) -> SplitPairs
    requires { from ≤ length piece.now }
    ensures few { result.count ≤ BATCH }
    ensures long { length pairs.new ≡ BATCH }
    ensures are { ArePairsOf delimiter.byte piece.now from (take result.count pairs.new) result.at }
{
    // A piece may begin between a carriage return and its line feed.
    let mut cursor = Cursor::new(from);
    cursor.pass_line_ends(piece);
    let mut at = cursor.at;
    let mut count = 0;
    while count < BATCH {
        let Some(found) = near_pair(piece, at, delimiter) else {
            return SplitPairs { count, at };
        };
        pairs[count] = found.pair;
        at = found.next;
        count += 1;
    }
    SplitPairs { count, at }
}
