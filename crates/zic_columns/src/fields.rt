//! Records of a piece: what stands between their fields, where their bytes stand, and the fields
//! that rows need.

ghost use Rattle.std.specs.Prelude.{◌≡◌, ◌<◌, ◌≤◌, ◌++◌, OnOk, length};
ghost use Rattle.zic_columns.specs.Record.{IsWithin, IsWithinPiece, bytes_at, field_text, is_after_quote_at, pair_record, raw_span, text_alone};
ghost use Rattle.zic_columns.specs.Column.{CanDelimit};
ghost use Rattle.zic_columns.specs.Round.{may_have};

use crate::lines::after_line_ends;
use crate::machine::{Place, field_byte};
use std::alloc::AllocError;
use zic_layouts::Delimiter;

/// A range of bytes of a piece: from its start up to its end.
#[derive(Clone, Copy, Drop)]
pub struct Span {
    pub start: usize,
    pub end: usize,
}

/// Where a field of a record stands in its piece.
#[derive(Clone, Copy, Drop)]
pub enum Field {
    /// The text of the field, as it stands in the piece: no bytes for a field that is missing.
    Plain(Span),
    /// The field with its double quotes. Its text is what a CSV reader makes of it.
    Quoted(Span),
}

/// The fields of a record that rows need, by their index from 0.
#[derive(Clone, Copy, Drop)]
pub struct Wanted {
    /// The field that names a zone, or `None` where every row is in one zone.
    pub zone: Option<usize>,
    /// The field of the time.
    pub time: usize,
}

/// A record of a piece, without its line end.
#[derive(Clone, Copy, Drop)]
pub struct Record {
    /// The record's own bytes, with delimiters and double quotes.
    pub own: Span,
    /// The number of fields.
    pub count: usize,
    /// The field that names a zone: no bytes where none is wanted, or the record has too few fields.
    pub zone: Field,
    /// The field of the time: no bytes where the record has too few fields.
    pub time: Field,
    /// Whether a double quote is open at the record's end, or a byte follows one that ends a field and is
    /// neither a delimiter, a double quote nor a line end. RFC 4180, 2, has no such record.
    pub stray: bool,
}

impl Span {
    /// Returns the bytes of a piece that stand there.
    pub fn of<'a>(self, piece: &'a [u8]) -> &'a [u8]
        requires { IsWithin piece.now self }
        ensures { result.now ≡ bytes_at piece.now self }
    {
        &piece[self.start..self.end]
    }
}

/// Returns whether a double quote of the record that begins at `start` stands just before an index.
fn is_after_quote(piece: &[u8], start: usize, at: usize) -> bool
    requires { at ≤ length piece.now }
    ensures { result ≡ is_after_quote_at piece.now start at }
{
    start < at && piece[at - 1] == b'"'
}

impl Record {
    /// Returns where the field of the time stands, with its double quotes, if it has any.
    pub fn time_place(&self, piece: &[u8]) -> Span
        requires { IsWithinPiece piece.now self.now.time }
        ensures { result ≡ raw_span piece.now self.now.own.start self.now.time }
    {
        match self.time {
            Field::Plain(span) if is_after_quote(piece, self.own.start, span.start) => Span {
                start: span.start - 1,
                end: span.end + 1,
            },
            Field::Plain(span) | Field::Quoted(span) => span,
        }
    }
}

/// A record of two fields, neither of which begins with a double quote: where it starts, where the
/// delimiter stands that ends its first field, and where it ends.
#[derive(Clone, Copy, Drop)]
pub struct Pair {
    pub start: usize,
    pub stop: usize,
    pub end: usize,
}

impl Pair {
    /// Returns the record.
    #[inline(always)]
    pub fn record(self) -> Record
        requires { self.stop < self.end }
        ensures { result ≡ pair_record self }
    {
        let zone = Span {
            start: self.start,
            end: self.stop,
        };
        let time = Span {
            start: self.stop + 1,
            end: self.end,
        };
        Record {
            own: Span {
                start: self.start,
                end: self.end,
            },
            count: 2,
            zone: Field::Plain(zone),
            time: Field::Plain(time),
            stray: false,
        }
    }
}

/// Appends the text of a field of a piece, in which this delimiter stands between fields.
///
/// # Errors
///
/// Fails where memory is refused.
pub fn push_field(
    text: &mut Vec<u8>,
    piece: &[u8],
    field: Field,
    delimiter: &Delimiter,
) -> Result<(), AllocError>
    requires { IsWithinPiece piece.now field }
    ensures { OnOk result (text.new.items ≡ text.old.items ++ field_text delimiter.now piece.now field) }
{
    match field {
        Field::Plain(span) => text.extend_from_slice(span.of(piece)),
        Field::Quoted(span) => push_quoted(text, span.of(piece), Separator::of(delimiter)),
    }
}

/// Appends the text of the first field of some bytes.
///
/// # Errors
///
/// Fails where memory is refused.
fn push_quoted(text: &mut Vec<u8>, bytes: &[u8], delimiter: Separator) -> Result<(), AllocError>
    ensures { OnOk result (text.new.items ≡ text.old.items ++ text_alone delimiter.byte bytes.now) }
{
    let mut place_now = Place::Start;
    let rest = after_line_ends(bytes);
    for byte in rest {
        let Some(read) = field_byte(place_now, *byte, delimiter) else {
            return Ok(());
        };
        if read.is_text {
            text.push(*byte)?;
        }
        place_now = read.next;
    }
    Ok(())
}

/// The byte of a delimiter: no double quote, and no line end.
#[derive(Clone, Copy, Drop)]
pub(crate) struct Separator {
    pub(crate) byte: u8,
    ghost can: { CanDelimit byte },
}

impl Separator {
    /// Returns the byte of a delimiter.
    pub(crate) fn of(delimiter: &Delimiter) -> Separator
        ensures { result.byte ≡ delimiter.now }
    {
        Separator {
            byte: delimiter.byte(),
        }
    }
}

/// Returns whether a record may have this number of bytes of its own, where there may be a greatest
/// number.
#[inline(always)]
pub fn may_have(most: Option<u64>, len: usize) -> bool
    ensures { result ≡ may_have most len }
{
    match most {
        Some(most) => len as u64 <= most,
        None => true,
    }
}
