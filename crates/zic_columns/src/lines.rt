//! Lines of a column: line feeds, how lines end, and the own bytes of records.

ghost use Rattle.std.specs.Prelude.{◌≡◌, ◌↔◌, ◌==◌, ℕ, Some, filter, length, IfOk};
ghost use Rattle.std.specs.List.{slice_get};
ghost use Rattle.zic_columns.specs.Column.{ends_line};
ghost use Rattle.zic_columns.specs.code.Line.{IsAfterLineEnds};
ghost use Rattle.zic_columns.specs.Own.{first_own};

use crate::fields::Separator;
use crate::walk::own_len;
use std::alloc::{AllocError, Global};
use zic_layouts::LineEnd;

/// Returns the number of line feeds among bytes.
pub fn line_feeds(bytes: &[u8]) -> u64
    ensures { result ≡ length (filter (λ byte. byte == 10) bytes.now) }
{
    bytes.iter().filter(|byte| **byte == b'\n').count() as u64
}

/// Returns how many line feeds stand before the end of bytes, where this many stand before them and they
/// are counted.
pub(crate) fn lines_after(before: Option<u64>, bytes: &[u8]) -> Option<u64> {
    Some(before?.saturating_add(line_feeds(bytes)))
}

/// Returns how the line ends whose own bytes end at an index.
pub fn line_end_at(bytes: &[u8], at: usize) -> LineEnd
    ensures { result ≡ LineEnd.CrLf ↔ slice_get bytes.now at ≡ Some 13 }
{
    match bytes.get(at) {
        Some(b'\r') => LineEnd::CrLf,
        _ => LineEnd::Lf,
    }
}

/// Returns whether a byte ends a line: a carriage return or a line feed.
pub(crate) fn ends_line(byte: u8) -> bool
    ensures { result ≡ ends_line byte }
{
    byte == b'\r' || byte == b'\n'
}

/// Returns the bytes from the first that ends no line.
pub(crate) fn after_line_ends(bytes: &[u8]) -> &[u8]
    ensures { IsAfterLineEnds bytes.now result.now }
{
    for (index, byte) in bytes.iter().enumerate() {
        if !ends_line(*byte) {
            return &bytes[index..];
        }
    }
    &[]
}

/// Copies the own bytes of the first record, or none where there is no record.
///
/// # Errors
///
/// Fails where memory is refused.
pub(crate) fn first_own_bytes(
    alloc: Global,
    bytes: &[u8],
    delimiter: Separator,
) -> Result<Vec<u8>, AllocError>
    ensures { IfOk result (λ own. own.items ≡ first_own delimiter.byte bytes.now) }
{
    let rest = after_line_ends(bytes);
    if rest.is_empty() {
        return Ok(Vec::new(alloc));
    }
    Vec::from_slice(alloc, &rest[..own_len(rest, delimiter)])
}
