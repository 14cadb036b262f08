//! The first records of some bytes, and records cut into pieces.

ghost use Rattle.std.specs.Prelude.{◌<◌, IfOk, ◌≡◌, [], MatchOption};
ghost use Rattle.zic_columns.specs.code.Cutting.{IsCut};
ghost use Rattle.zic_columns.specs.Column.{column_records};
ghost use Rattle.zic_columns.specs.code.Cut.{AreCutAfter};
ghost use Rattle.zic_columns.specs.code.Line.{IsFirstRecord};
ghost use Rattle.zic_columns.specs.code.Machine.{BeginsRecord};

use crate::blocks::pass_records;
use crate::fields::Separator;
use crate::lines::{after_line_ends, lines_after};
use crate::walk::whole_record_end;
use memchr::memchr3;
use std::alloc::{AllocError, Global};

/// The greatest number of pieces in a round.
pub const MAX_ROUND_PIECES: usize = 4_294_967_296;

/// The place of a piece: from its start up to its end.
#[derive(Clone, Copy, Drop)]
pub(crate) struct PieceRange {
    pub(crate) start: usize,
    pub(crate) end: usize,
    /// The number of line feeds before it in the column, where they are counted.
    pub(crate) lines_before: Option<u64>,
}

/// The places of pieces, and the number of bytes that were cut.
#[derive(Drop)]
pub(crate) struct Cut {
    pub(crate) ranges: Vec<PieceRange>,
    pub(crate) len: usize,
}

/// Cuts bytes into pieces of `size` records each, the last of which may have fewer. The bytes
/// after the last piece make no record, unless there are more than `MAX_ROUND_PIECES` pieces. This many
/// line feeds stand before the bytes, where they are counted.
pub(crate) fn cut_pieces(
    alloc: Global,
    bytes: &[u8],
    size: usize,
    lines: Option<u64>,
    delimiter: Separator,
) -> Result<Cut, AllocError>
    requires { 0 < size }
    ensures { IfOk result (IsCut delimiter.byte bytes.now size) }
{
    let mut ranges = Vec::new(alloc);
    let mut rest = bytes;
    let mut lines_before = lines;
    for _ in 0..MAX_ROUND_PIECES {
        if first_record(rest, delimiter).is_none() {
            let len = bytes.len();
            return Ok(Cut { ranges, len });
        }
        let (piece, after) = split_records(rest, size, delimiter);
        let start = bytes.len() - rest.len();
        ranges.push(PieceRange {
            start,
            end: start + piece.len(),
            lines_before,
        })?;
        lines_before = lines_after(lines_before, piece);
        rest = after;
    }
    let len = bytes.len() - rest.len();
    Ok(Cut { ranges, len })
}

/// Returns the length in bytes of the record at the start of the bytes, by a CSV reader's machine.
fn quoted_len(bytes: &[u8], delimiter: Separator) -> usize
    requires { BeginsRecord bytes.now }
    ensures { IsFirstRecord delimiter.byte bytes.now result }
{
    match whole_record_end(bytes, delimiter) {
        Ok(len) => len,
        Err(_) => bytes.len(),
    }
}

/// Returns the length in bytes of the record at the start of the bytes. A search finds the end of
/// a record without a double quote.
fn record_len(bytes: &[u8], delimiter: Separator) -> usize
    requires { BeginsRecord bytes.now }
    ensures { IsFirstRecord delimiter.byte bytes.now result }
{
    if bytes[0] == b'"' {
        return quoted_len(bytes, delimiter);
    }
    match memchr3(b'\r', b'\n', b'"', bytes) {
        None => bytes.len(),
        Some(at) if bytes[at] == b'"' => quoted_len(bytes, delimiter),
        Some(at) => at + 1,
    }
}

/// Returns the length in bytes of the first record, with the line ends before it and its own, or
/// `None` where there is no record.
pub(crate) fn first_record(bytes: &[u8], delimiter: Separator) -> Option<usize>
    ensures { MatchOption result (column_records delimiter.byte bytes.now ≡ []) (IsFirstRecord delimiter.byte bytes.now) }
{
    let rest = after_line_ends(bytes);
    if rest.is_empty() {
        return None;
    }
    Some(bytes.len() - rest.len() + record_len(rest, delimiter))
}

/// Divides the bytes after the first `count` records, or after all where there are fewer.
///
/// Lines without a double quote are passed over 32 bytes at a time. A cut may stand between a
/// carriage return and its line feed: the line feed then stands before the first record of the
/// rest, and makes none.
pub(crate) fn split_records(bytes: &[u8], count: usize, delimiter: Separator) -> (&[u8], &[u8])
    ensures { AreCutAfter delimiter.byte bytes.now count result.0.now result.1.now }
{
    let mut rest = bytes;
    let mut left = count;
    while 0 < left {
        let passed = pass_records(rest, left);
        let after = &rest[passed.len..];
        let Some(len) = first_record(after, delimiter) else {
            return (bytes, &[]);
        };
        rest = &after[len..];
        left -= passed.records + 1;
    }
    bytes.split_at(bytes.len() - rest.len())
}
