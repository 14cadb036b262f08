//! Records of a piece whose fields begin with no double quote.

ghost use Rattle.std.specs.Prelude.{◌≡◌, ◌≢◌, ◌+◌, ◌^◌, ◌<◌, ◌≤◌, ◌∷◌, ◌++◌, [], ℕ, List, None, drop, length, IfErr, IfOk, IfSome, IsTrue, MatchResult};
ghost use Rattle.zic_columns.specs.Record.{IsPairOf, IsWithin, bytes_at, pair_record};
ghost use Rattle.zic_columns.specs.code.Ends.{ShowsEnds};
ghost use Rattle.zic_columns.specs.code.Machine.{BeginsRecord};
ghost use Rattle.zic_columns.specs.code.Plain.{IsLineEndAt, IsPlainFrom, AreIndicesOf, no_fields, record_of, zone_and_time};
ghost use Rattle.zic_columns.specs.code.Walk.{HasFields, HasWalked, IsKept, IsRecordFrom};
ghost use Rattle.zic_columns.specs.declared.fields.Field.TheVariants.{Plain};

use crate::ends::FieldEnds;
use crate::fields::{Field, Pair, Record, Separator, Span, Wanted};
use crate::walk::{PartRecord, quoted_text};

/// The number of fields of a record, and where those that rows need stand.
#[derive(Clone, Copy, Drop)]
pub(crate) struct PlainFields {
    count: usize,
    zone: Span,
    time: Span,
}

/// A record whose fields begin with no double quote: where its own bytes stand, and its fields.
#[derive(Clone, Copy, Drop)]
pub(crate) struct PlainRecord {
    start: usize,
    pub(crate) end: usize,
    fields: PlainFields,
}

impl PlainRecord {
    /// Returns the record of a pair.
    #[inline(always)]
    pub(crate) fn of(pair: Pair) -> PlainRecord
        requires { pair.stop < pair.end }
        ensures { record_of result.start result.end result.fields ≡ pair_record pair }
    {
        let zone = Span {
            start: pair.start,
            end: pair.stop,
        };
        let time = Span {
            start: pair.stop + 1,
            end: pair.end,
        };
        PlainRecord {
            start: pair.start,
            end: pair.end,
            fields: PlainFields {
                count: 2,
                zone,
                time,
            },
        }
    }

    /// Returns the record.
    #[inline(always)]
    pub(crate) fn record(self) -> Record
        ensures { result ≡ record_of self.start self.end self.fields }
    {
        record_of(self.start, self.end, self.fields)
    }
}

/// Returns the record of these fields, whose own bytes are those from one index up to another.
#[inline(always)]
fn record_of(start: usize, end: usize, fields: PlainFields) -> Record
    ensures { result ≡ record_of start end fields }
{
    Record {
        own: Span { start, end },
        count: fields.count,
        zone: Field::Plain(fields.zone),
        time: Field::Plain(fields.time),
        stray: false,
    }
}

/// Returns a partly read record: it begins at `start`, and these fields were read up to `at`.
#[inline(always)]
fn begun_at(start: usize, fields: PlainFields, at: usize) -> PartRecord
    ensures { result ≡ record { given = record_of start start fields; at = at } }
{
    PartRecord {
        given: record_of(start, start, fields),
        at,
    }
}

/// The indices of the fields that rows need. Where they need no zone, that of the zone is
/// `usize::MAX`, and no record has that many fields.
#[derive(Clone, Copy, Drop)]
pub(crate) struct FieldIndices {
    zone: usize,
    time: usize,
}

/// Returns the indices of the fields that rows need.
fn indices_of(wanted: Wanted) -> FieldIndices
    ensures { AreIndicesOf wanted result }
{
    let zone = match wanted.zone {
        Some(index) => index,
        None => usize::MAX,
    };
    FieldIndices {
        zone,
        time: wanted.time,
    }
}

/// Returns `field` if its number is the one sought, else `unchanged`.
#[inline(always)]
fn pick(index: usize, number: usize, field: Span, unchanged: Span) -> Span
    ensures taken { index ≡ number → result ≡ field }
    ensures unchanged { index ≢ number → result ≡ unchanged }
{
    if index == number { field } else { unchanged }
}

/// Adds a field, and keeps it if rows need it.
#[inline(always)]
fn with_span(fields: PlainFields, span: Span, indices: FieldIndices) -> PlainFields
    requires { fields.count + 1 < 2 ^ 64 }
    ensures count { result.count ≡ fields.count + 1 }
    ensures time { IsKept indices.time fields.count (Plain span) (Plain fields.time) (Plain result.time) }
    ensures has { (delimiter : ℕ) (piece : List ℕ) (start end : ℕ) (wanted : Wanted) (texts : List (List ℕ))
        → AreIndicesOf wanted indices → HasFields delimiter piece wanted texts (record_of start end fields)
        → IsWithin piece span
        → HasFields delimiter piece wanted (texts ++ bytes_at piece span ∷ []) (record_of start end result) }
{
    PlainFields {
        count: fields.count + 1,
        zone: pick(indices.zone, fields.count, span, fields.zone),
        time: pick(indices.time, fields.count, span, fields.time),
    }
}

/// Splits the record that begins at an index.
///
/// # Errors
///
/// Returns the fields before the first that begins with a double quote, or whose end the next block
/// doesn't show.
#[inline(always)]
pub(crate) fn split_plain(
    piece: &[u8],
    start: usize,
    wanted: Wanted,
    delimiter: Separator,
    ends: &mut FieldEnds,
) -> Result<Record, PartRecord>
    requires begins { BeginsRecord (drop start piece.now) }
    requires shows { ShowsEnds delimiter.byte piece.now start ends.old }
    ensures { MatchResult result (IsPlainFrom delimiter.byte piece.now start wanted ends.new)
        (λ begun. HasWalked delimiter.byte piece.now start wanted begun.given begun.at) }
{
    if are_zone_and_time(wanted) {
        if let Some(pair) = split_pair(piece, start, delimiter, ends) {
            return Ok(pair.record());
        }
    }
    split_fields(piece, start, wanted, delimiter, ends)
}

/// Returns whether rows need the first field as a zone, and the second as a time.
#[inline(always)]
pub(crate) fn are_zone_and_time(wanted: Wanted) -> bool
    ensures { IsTrue result → wanted ≡ zone_and_time }
{
    matches!((wanted.zone, wanted.time), (Some(0), 1))
}

/// Splits the record that begins at an index, where it is two fields, neither of which begins with a double
/// quote, with a line end after it. `None` doesn't mean that there is no record, and leaves the field ends
/// as they were.
#[inline(always)]
pub(crate) fn split_pair(
    piece: &[u8],
    start: usize,
    delimiter: Separator,
    ends: &mut FieldEnds,
) -> Option<Pair>
    requires { ShowsEnds delimiter.byte piece.now start ends.old }
    ensures from { IfSome result (λ pair.
        IsPlainFrom delimiter.byte piece.now start zone_and_time ends.new (pair_record pair)) }
    ensures pair { IfSome result (IsPairOf delimiter.byte piece.now) }
    ensures none { result ≡ None → ends.new ≡ ends.old }
{
    let mut next = *ends;
    let stop = next.next_end(piece, start, delimiter)?;
    let end = next.next_end(piece, stop + 1, delimiter)?;
    if piece[stop] != delimiter.byte || piece[end] == delimiter.byte {
        return None;
    }
    if piece[start] == b'"' || piece[stop + 1] == b'"' {
        return None;
    }
    *ends = next;
    Some(Pair { start, stop, end })
}

/// Splits the record that begins at an index, where it is a zone and a time in this order, each of them
/// between two double quotes, with a line end after it. `None` doesn't mean that there is no record.
#[inline(always)]
pub(crate) fn split_quoted_pair(
    piece: &[u8],
    start: usize,
    wanted: Wanted,
    delimiter: Separator,
) -> Option<PlainRecord>
    requires begins { BeginsRecord (drop start piece.now) }
    ensures from { IfSome result (λ plain. IsRecordFrom delimiter.byte piece.now start wanted
        (record_of plain.start plain.end plain.fields)) }
    ensures ended { IfSome result (λ plain. IsLineEndAt piece.now plain.end) }
{
    let (Some(0), 1) = (wanted.zone, wanted.time) else {
        return None;
    };
    let zone = quoted_text(piece, start, delimiter)?;
    if zone.stop == piece.len() || piece[zone.stop] != delimiter.byte {
        return None;
    }
    let time = quoted_text(piece, zone.stop + 1, delimiter)?;
    if time.stop == piece.len() || piece[time.stop] == delimiter.byte {
        return None;
    }
    let indices = indices_of(wanted);
    let first = with_span(no_fields(start), zone.span, indices);
    Some(PlainRecord {
        start,
        end: time.stop,
        fields: with_span(first, time.span, indices),
    })
}

/// Returns no fields, of a record that begins at an index.
#[inline(always)]
fn no_fields(start: usize) -> PlainFields
    ensures { result ≡ no_fields start }
{
    let none = Span { start, end: start };
    PlainFields {
        count: 0,
        zone: none,
        time: none,
    }
}

/// The first fields of a record, and the index at which the next one begins.
#[derive(Clone, Copy, Drop)]
struct Begun {
    fields: PlainFields,
    at: usize,
}

/// Splits the record that begins at `start`, of which some fields were read, as far as the ends of its
/// fields are known.
///
/// # Errors
///
/// Returns the fields before the first that begins with a double quote, or whose end isn't known.
#[inline(always)]
fn known_fields(
    piece: &[u8],
    start: usize,
    wanted: Wanted,
    delimiter: Separator,
    begun: Begun,
    ends: &mut FieldEnds,
) -> Result<Record, Begun>
    requires begins { BeginsRecord (drop start piece.now) }
    requires walked { HasWalked delimiter.byte piece.now start wanted (record_of start start begun.fields) begun.at }
    requires shows { ShowsEnds delimiter.byte piece.now begun.at ends.old }
    ensures seen { ends.new.seen ≡ ends.old.seen }
    ensures read { IfOk result (IsPlainFrom delimiter.byte piece.now start wanted ends.new) }
    ensures walked { IfErr result
        (λ more. HasWalked delimiter.byte piece.now start wanted (record_of start start more.fields) more.at) }
    ensures shows { IfErr result (λ more. ShowsEnds delimiter.byte piece.now more.at ends.new) }
{
    let mut fields = begun.fields;
    let indices = indices_of(wanted);
    let mut at = begun.at;
    'known: loop {
        let mut next = *ends;
        let Some(end) = next.known_end(piece, at, delimiter) else {
            return Err(Begun { fields, at });
        };
        if piece[at] == b'"' {
            return Err(Begun { fields, at });
        }
        *ends = next;
        fields = with_span(fields, Span { start: at, end }, indices);
        if piece[end] != delimiter.byte {
            return Ok(record_of(start, end, fields));
        }
        at = end + 1;
    }
}

/// Splits the record that begins at an index, block by block.
///
/// # Errors
///
/// As [`split_plain`].
#[inline(always)]
fn split_fields(
    piece: &[u8],
    start: usize,
    wanted: Wanted,
    delimiter: Separator,
    ends: &mut FieldEnds,
) -> Result<Record, PartRecord>
    requires begins { BeginsRecord (drop start piece.now) }
    requires shows { ShowsEnds delimiter.byte piece.now start ends.old }
    ensures { MatchResult result (IsPlainFrom delimiter.byte piece.now start wanted ends.new)
        (λ begun. HasWalked delimiter.byte piece.now start wanted begun.given begun.at) }
{
    let fields = no_fields(start);
    let mut begun = Begun { fields, at: start };
    let mut next = *ends;
    'reading: loop {
        match known_fields(piece, start, wanted, delimiter, begun, &mut next) {
            Ok(given) => {
                *ends = next;
                return Ok(given);
            }
            Err(more) => {
                let Some(block) = next.next_block(piece, more.at, delimiter) else {
                    return Err(begun_at(start, more.fields, more.at));
                };
                next = block;
                begun = more;
            }
        }
    }
}
