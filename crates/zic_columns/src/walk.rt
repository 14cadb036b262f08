//! A record of a piece, field by field.

ghost use Rattle.std.specs.Prelude.{◌≡◌, ◌+◌, ◌^◌, ◌<◌, ◌≤◌, ◌==◌, ◌||◌, ◌∷◌, ◌++◌, ℕ, List, [], drop, length, Some, IfSome, MatchResult};
ghost use Rattle.memchr.specs.Find.{IsFirst, Passes};
ghost use Rattle.zic_columns.specs.Record.{IsWithinPiece, field_text};
ghost use Rattle.zic_columns.specs.code.Field.{IsFieldAt};
ghost use Rattle.zic_columns.specs.code.Machine.{BeginsRecord, IsEndOfRecord, ReadsTo, state_at};
ghost use Rattle.zic_columns.specs.code.Own.{IsOwnLen};
ghost use Rattle.zic_columns.specs.code.Walk.{HasFields, HasWalked, IsFieldEnd, IsKept, IsQuoteAt, IsRecordFrom, quoted_field};
ghost use Rattle.zic_columns.specs.declared.machine.Place.TheVariants as place;

use crate::blocks::{near_field_end, near_quote};
use crate::fields::{Field, Record, Separator, Span, Wanted};
use crate::lines::ends_line;
use crate::machine::{Place, field_len, record_end};
use crate::plain::split_quoted_pair;
use memchr::{memchr, memchr3};

/// A field of a piece, the index of the delimiter or line end after it, or of the piece's end, and whether it
/// has a stray double quote.
#[derive(Clone, Copy, Drop)]
pub(crate) struct FoundField {
    field: Field,
    stop: usize,
    stray: bool,
}

/// The text of a field between two double quotes, as it stands in a piece, and the index of the delimiter or
/// line end after the field, or of the piece's end.
#[derive(Clone, Copy, Drop)]
pub(crate) struct QuotedText {
    pub(crate) span: Span,
    pub(crate) stop: usize,
}

/// A record whose first fields were read, and the index at which the next one begins.
#[derive(Clone, Copy, Drop)]
pub(crate) struct PartRecord {
    pub(crate) given: Record,
    pub(crate) at: usize,
}

/// Returns the index of the first double quote.
#[inline(always)]
fn quote_end(bytes: &[u8]) -> Option<usize>
    ensures { IfSome result (λ at.
        IsFirst (Passes (λ byte. byte == 34) bytes.now) 0 (length bytes.now) (Some at)) }
{
    match near_quote(bytes) {
        Some(at) => Some(at),
        None => memchr(b'"', bytes),
    }
}

/// Returns the index of the first delimiter or line end from an index on, or of the end.
#[inline(always)]
fn field_end(bytes: &[u8], at: usize, delimiter: Separator) -> usize
    requires { at ≤ length bytes.now }
    ensures { IsFieldEnd delimiter.byte bytes.now at result }
{
    if let Some(stop) = near_field_end(bytes, at, delimiter) {
        return stop;
    }
    match memchr3(delimiter.byte, b'\r', b'\n', &bytes[at..]) {
        Some(len) => at + len,
        None => bytes.len(),
    }
}

/// Returns the text between two double quotes, the first of which stands at an index, where no other
/// stands between them and the field ends after the second.
#[inline(always)]
fn near_quoted(piece: &[u8], at: usize, delimiter: Separator) -> Option<QuotedText>
    requires { IsQuoteAt piece.now at }
    ensures { IfSome result (λ text. IsFieldAt delimiter.byte piece.now at (quoted_field text)) }
{
    let start = at + 1;
    let end = start + quote_end(&piece[start..])?;
    let stop = end + 1;
    if stop < piece.len() && piece[stop] != delimiter.byte && !ends_line(piece[stop]) {
        return None;
    }
    let span = Span { start, end };
    Some(QuotedText { span, stop })
}

/// Returns the text of the field from an index on, where it stands between two double quotes and no
/// other stands between them.
#[inline(always)]
pub(crate) fn quoted_text(piece: &[u8], at: usize, delimiter: Separator) -> Option<QuotedText>
    ensures { IfSome result (λ text. IsFieldAt delimiter.byte piece.now at (quoted_field text)) }
{
    if at < piece.len() && piece[at] == b'"' {
        return near_quoted(piece, at, delimiter);
    }
    None
}

/// Returns the field from an index on, at which a double quote stands.
#[inline(always)]
fn quoted_field(piece: &[u8], at: usize, delimiter: Separator) -> FoundField
    requires { IsQuoteAt piece.now at }
    ensures { IsFieldAt delimiter.byte piece.now at result }
{
    if let Some(text) = near_quoted(piece, at, delimiter) {
        return FoundField {
            field: Field::Plain(text.span),
            stop: text.stop,
            stray: false,
        };
    }
    let found = field_len(&piece[at..], delimiter);
    let stop = at + found.len;
    let field = Field::Quoted(Span {
        start: at,
        end: stop,
    });
    FoundField {
        field,
        stop,
        stray: found.stray,
    }
}

/// Returns the field from an index on. One that begins with no double quote has its text up to a
/// delimiter or line end: a double quote in it is text.
#[inline(always)]
fn next_field(piece: &[u8], at: usize, delimiter: Separator) -> FoundField
    requires { at ≤ length piece.now }
    ensures { IsFieldAt delimiter.byte piece.now at result }
{
    if at < piece.len() && piece[at] == b'"' {
        return quoted_field(piece, at, delimiter);
    }
    let stop = field_end(piece, at, delimiter);
    let field = Field::Plain(Span {
        start: at,
        end: stop,
    });
    FoundField {
        field,
        stop,
        stray: false,
    }
}

/// Adds a field to a record, and keeps it if rows need it.
#[inline(always)]
fn with_field(given: Record, found: FoundField, wanted: Wanted) -> Record
    requires { given.count + 1 < 2 ^ 64 }
    ensures own { result.own ≡ given.own }
    ensures count { result.count ≡ given.count + 1 }
    ensures stray { result.stray ≡ (given.stray || found.stray) }
    ensures time { IsKept wanted.time given.count found.field given.time result.time }
    ensures has { (delimiter : ℕ) (piece : List ℕ) (fields : List (List ℕ)) → HasFields delimiter piece wanted fields given
        → IsWithinPiece piece found.field
        → HasFields delimiter piece wanted (fields ++ field_text delimiter piece found.field ∷ []) result }
{
    let zone = match wanted.zone {
        Some(index) if index == given.count => found.field,
        _ => given.zone,
    };
    let time = if wanted.time == given.count {
        found.field
    } else {
        given.time
    };
    Record {
        own: given.own,
        count: given.count + 1,
        zone,
        time,
        stray: given.stray || found.stray,
    }
}

/// Splits the rest of a record, whose next field begins at an index.
#[inline(never)]
pub(crate) fn split_rest(
    piece: &[u8],
    begun: PartRecord,
    wanted: Wanted,
    delimiter: Separator,
) -> Record
    requires begins { BeginsRecord (drop begun.given.own.start piece.now) }
    requires walked { HasWalked delimiter.byte piece.now begun.given.own.start wanted begun.given begun.at }
    ensures { IsRecordFrom delimiter.byte piece.now begun.given.own.start wanted result }
{
    let mut given = begun.given;
    let mut at = begun.at;
    loop {
        let found = next_field(piece, at, delimiter);
        given = with_field(given, found, wanted);
        if found.stop == piece.len() || piece[found.stop] != delimiter.byte {
            given.own.end = found.stop;
            return given;
        }
        at = found.stop + 1;
    }
}

/// Splits the record that begins at an index.
#[inline(always)]
pub(crate) fn split_record(
    piece: &[u8],
    start: usize,
    wanted: Wanted,
    delimiter: Separator,
) -> Record
    requires { BeginsRecord (drop start piece.now) }
    ensures { IsRecordFrom delimiter.byte piece.now start wanted result }
{
    let own = Span { start, end: start };
    let given = Record {
        own,
        count: 0,
        zone: Field::Plain(own),
        time: Field::Plain(own),
        stray: false,
    };
    split_rest(piece, PartRecord { given, at: start }, wanted, delimiter)
}

/// Returns the number of the own bytes of the record at the start of the bytes. A zone and a time
/// between double quotes, as they are common, are passed over at once.
pub(crate) fn own_len(bytes: &[u8], delimiter: Separator) -> usize
    requires { BeginsRecord bytes.now }
    ensures own { IsOwnLen delimiter.byte bytes.now result }
    ensures ended { result < length bytes.now
        → IsEndOfRecord delimiter.byte (state_at place.Start) bytes.now (result + 1) }
{
    let pair = Wanted {
        zone: Some(0),
        time: 1,
    };
    if let Some(plain) = split_quoted_pair(bytes, 0, pair, delimiter) {
        return plain.end;
    }
    let none = Wanted {
        zone: None,
        time: usize::MAX,
    };
    split_record(bytes, 0, none, delimiter).own.end
}

/// Returns the number of bytes up to the end of a record and with its line end, as [`record_end`]
/// does at the start of a record.
///
/// # Errors
///
/// Returns the place after all bytes where none of them ends the record.
pub(crate) fn whole_record_end(bytes: &[u8], delimiter: Separator) -> Result<usize, Place>
    requires { BeginsRecord bytes.now }
    ensures { MatchResult result (IsEndOfRecord delimiter.byte (state_at place.Start) bytes.now)
        (λ next. ReadsTo delimiter.byte (state_at place.Start) bytes.now (state_at next)) }
{
    let len = own_len(bytes, delimiter);
    if len == bytes.len() {
        return record_end(Place::Start, bytes, delimiter);
    }
    Ok(len + 1)
}
