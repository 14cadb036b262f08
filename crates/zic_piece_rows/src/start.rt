//! What rows begin with.

ghost use Rattle.std.specs.Prelude.{◌≡◌, ◌≤◌, ◌++◌, ◌∷◌, [], IfOk, OnOk, Some, drop, length, take};
ghost use Rattle.std.specs.Fmt.{signed_decimal};
ghost use Rattle.zic_columns.specs.Record.{IsWithin, bytes_at, field_text};
ghost use Rattle.zic_zones.specs.Zones.{zone_in};
ghost use Rattle.zic_piece_rows.specs.LayoutRows.{beginning, input_text, or_quotes};
ghost use Rattle.zic_piece_rows.specs.code.Batch.{IsCountFor, IsGiven, IsInput, IsPlain, input_in, record_of, zone_at};
ghost use Rattle.zic_columns.specs.Raw.{replaced};
ghost use Rattle.zic_piece_rows.specs.code.Answer.{IsShownRow, first_at};
ghost use Rattle.zic_piece_rows.specs.code.Row.{AreAround, input_of};

use crate::answer::Answer;
use crate::piece::Piece;
use crate::text::push_first_field;
use crate::time::local_time_of;
use itoa::Buffer;
use std::alloc::AllocError;
use zic_columns::{Field, Record, Span};
use zic_layouts::{Layout, RowStart, TimeFrom, ZoneFrom};
use zic_row_text::{RowText, RowTime, count_from};

/// No bytes of a piece.
pub(crate) const NOWHERE: Span = Span { start: 0, end: 0 };

/// What a row has of the time of its record: the field as it is, or the text of its count.
#[derive(Clone, Copy, Drop)]
pub(crate) enum Input {
    Field,
    Count(i128),
}

/// Returns what a row has of the time in the field of its record: the field as it is, where that has
/// decimals, or else the text of the time's count.
#[inline(always)]
pub(crate) fn input_of(layout: &Layout, time: RowTime) -> Input
    ensures { result ≡ input_of layout.now.from time }
{
    match layout.from {
        TimeFrom::Count => Input::Field,
        TimeFrom::Text(_) | TimeFrom::Local(_) => {
            Input::Count(count_from(time.second, time.fraction, time.unit))
        }
    }
}

/// Appends the name of a record's zone, whose file has this number, and the delimiter: by the bytes of
/// its field, where they stand in the piece.
#[inline(always)]
fn push_zone(
    text: &mut RowText,
    piece: &Piece<'_, '_>,
    given: &Record,
    file: usize,
) -> Result<(), AllocError>
    requires split { IsGiven piece.now given.now }
    requires file { zone_at piece.now given.now ≡ Some file }
    ensures { OnOk result (text.new ≡ text.old ++ (zone_in piece.now.layout.now.zone
        (record_of piece.now given.now).fields ++ piece.now.layout.now.delimiter ∷ [])) }
{
    let delimiter = piece.layout.delimiter.byte();
    if let (ZoneFrom::Field(_), Field::Plain(zone)) = (&piece.layout.zone, given.zone) {
        return text.push_field(piece.bytes, zone.start, zone.end, delimiter);
    }
    text.push(piece.zones.name(file))?;
    text.push(&[delimiter])?;
    Ok(())
}

/// Appends the name of a record's zone, the delimiter and the field of its time, but for the last part,
/// which is to be copied from the piece. Returns where that part stands.
#[inline(always)]
fn push_given(
    text: &mut RowText,
    piece: &Piece<'_, '_>,
    given: &Record,
    file: usize,
) -> Result<Span, AllocError>
    requires split { IsGiven piece.now given.now }
    requires file { zone_at piece.now given.now ≡ Some file }
    requires plain { IsPlain given.now.time }
    ensures within_bytes { IfOk result (IsWithin piece.now.bytes.now) }
    ensures text { IfOk result (λ span. text.new ++ bytes_at piece.now.bytes.now span ≡ text.old
        ++ (zone_in piece.now.layout.now.zone (record_of piece.now given.now).fields
        ++ piece.now.layout.now.delimiter
        ∷ field_text piece.now.layout.now.delimiter piece.now.bytes.now given.now.time)) }
{
    let Field::Plain(time) = given.time else {
        unreachable!()
    };
    push_zone(text, piece, given, file)?;
    Ok(time)
}

/// Appends a delimiter and the decimals of a count.
pub(crate) fn push_decimals(
    text: &mut RowText,
    count: i128,
    delimiter: u8,
) -> Result<(), AllocError>
    ensures { OnOk result (text.new ≡ text.old ++ delimiter ∷ signed_decimal count) }
{
    text.push(&[delimiter])?;
    // Fewer bits are written sooner.
    match i64::try_from(count) {
        Ok(short) => text.push(Buffer::new().format(short).as_bytes()),
        Err(_) => text.push(Buffer::new().format(count).as_bytes()),
    }
}

/// Appends the delimiter and the text of the count that a record's field has: a local time, or decimals.
fn push_input(text: &mut RowText, layout: &Layout, count: i128) -> Result<(), AllocError>
    requires { IsCountFor layout.now.from layout.now.unit count }
    ensures { OnOk result
        (text.new ≡ text.old ++ layout.now.delimiter
        ∷ input_text layout.now.from layout.now.unit count) }
{
    let delimiter = layout.delimiter.byte();
    if let TimeFrom::Local(_) = layout.from {
        let local = local_time_of(count, layout.unit);
        return text.push_local_time(local, delimiter);
    }
    push_decimals(text, count, delimiter)
}

/// Appends what the row of a record begins with by its fields, but for the last part, where that is to
/// be copied from the piece. Returns where that part stands.
#[inline(always)]
fn push_fields(
    text: &mut RowText,
    piece: &Piece<'_, '_>,
    given: &Record,
    file: usize,
    input: Input,
) -> Result<Span, AllocError>
    requires split { IsGiven piece.now given.now }
    requires file { zone_at piece.now given.now ≡ Some file }
    requires input { IsInput piece.now given.now input }
    ensures within_bytes { IfOk result (IsWithin piece.now.bytes.now) }
    ensures text { IfOk result (λ span. text.new ++ bytes_at piece.now.bytes.now span ≡ text.old
        ++ (zone_in piece.now.layout.now.zone (record_of piece.now given.now).fields
        ++ piece.now.layout.now.delimiter ∷ input_in piece.now given.now input)) }
{
    match input {
        Input::Field => push_given(text, piece, given, file),
        Input::Count(count) => {
            text.push(piece.zones.name(file))?;
            push_input(text, piece.layout, count)?;
            Ok(NOWHERE)
        }
    }
}

/// Where the bytes of a record stand before and after the field of its time.
#[derive(Clone, Copy, Drop)]
pub(crate) struct AroundTime {
    pub(crate) before: Span,
    pub(crate) after: Span,
}

/// Returns where the bytes of a record stand before and after the field of its time. All of them stand
/// before, where it has no such field.
pub(crate) fn around_time(piece: &Piece<'_, '_>, given: &Record) -> AroundTime
    requires { IsGiven piece.now given.now }
    ensures { AreAround piece.now given.now result }
{
    if given.count <= piece.layout.time {
        return AroundTime {
            before: given.own,
            after: NOWHERE,
        };
    }
    let place = given.time_place(piece.bytes);
    AroundTime {
        before: Span {
            start: given.own.start,
            end: place.start,
        },
        after: Span {
            start: place.end,
            end: given.own.end,
        },
    }
}

/// Appends the bytes of a record before the field of its time, and the first field of an answer. Returns
/// where the record goes on.
#[inline(never)]
fn push_replaced(
    text: &mut RowText,
    piece: &Piece<'_, '_>,
    given: &Record,
    answer: &Answer<'_>,
) -> Result<Span, AllocError>
    requires split { IsGiven piece.now given.now }
    requires shown { IsShownRow piece.now given.now answer.now }
    ensures within_bytes { IfOk result (IsWithin piece.now.bytes.now) }
    ensures text { IfOk result (λ span. text.new ++ bytes_at piece.now.bytes.now span ≡ text.old
        ++ or_quotes (replaced piece.now.layout.now.delimiter
        (bytes_at piece.now.bytes.now given.now.own) piece.now.layout.now.time
        (first_at piece.now answer.now))) }
{
    let start = text.len();
    let around = around_time(piece, given);
    text.push(around.before.of(piece.bytes))?;
    push_first_field(text, piece, answer)?;
    push_quotes(text, start, around.after.of(piece.bytes))?;
    Ok(around.after)
}

/// Appends two double quotes where a record without a byte stands at the end of a text, from an index on:
/// nothing follows there.
fn push_quotes(text: &mut RowText, start: usize, rest: &[u8]) -> Result<(), AllocError>
    requires { start ≤ length text.old }
    ensures { OnOk result (text.new ++ rest.now
        ≡ take start text.old ++ or_quotes (drop start text.old ++ rest.now)) }
{
    if start < text.len() || !rest.is_empty() {
        return Ok(());
    }
    text.push(b"\"\"")
}

/// Returns the bytes before a field without a byte, or two double quotes where there are none before it and
/// none after it.
pub(crate) fn or_quotes<'a>(before: &'a [u8], after: &[u8]) -> &'a [u8]
    ensures { result.now ++ after.now ≡ or_quotes (before.now ++ after.now) }
{
    if before.is_empty() && after.is_empty() {
        b"\"\""
    } else {
        before
    }
}

/// Appends what the row of a record begins with, but for the last part, where that is to be copied from
/// the piece. Returns where that part stands.
#[inline(always)]
pub(crate) fn push_start(
    text: &mut RowText,
    piece: &Piece<'_, '_>,
    given: &Record,
    answer: &Answer<'_>,
) -> Result<Span, AllocError>
    requires split { IsGiven piece.now given.now }
    requires shown { IsShownRow piece.now given.now answer.now }
    ensures within_bytes { IfOk result (IsWithin piece.now.bytes.now) }
    ensures text { IfOk result (λ span. text.new ++ bytes_at piece.now.bytes.now span ≡ text.old
        ++ beginning piece.now.layout.now.start piece.now.layout.now.delimiter
        piece.now.layout.now.time (bytes_at piece.now.bytes.now given.now.own)
        (zone_in piece.now.layout.now.zone (record_of piece.now given.now).fields)
        (input_in piece.now given.now answer.now.input) (first_at piece.now answer.now)) }
{
    match piece.layout.start {
        RowStart::Fields => push_fields(text, piece, given, answer.file, answer.input),
        RowStart::Record => Ok(given.own),
        RowStart::Replaced => push_replaced(text, piece, given, answer),
    }
}
