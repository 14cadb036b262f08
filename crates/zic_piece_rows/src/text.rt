//! The text of the row of a record.

ghost use Rattle.std.specs.Prelude.{◌≡◌, ◌<◌, ◌++◌, ◌∷◌, drop, IfOk, IfSome, IsTrue, List, OnOk, ℕ};
ghost use Rattle.zic_columns.specs.Record.{IsWithin, bytes_at};
ghost use Rattle.zic_layouts.specs.RowField.{compared_of, fields_of, is_compared};
ghost use Rattle.zic_layouts.specs.declared.layout.TimeFrom.TheVariants as from;
ghost use Rattle.zic_layouts.specs.declared.row_field.RowFields.TheVariants as rows;
ghost use Rattle.zic_row_text.specs.Count.{units_of_second};
ghost use Rattle.zic_row_text.specs.Instant.{IsRowInstant, IsRowOffset};
ghost use Rattle.zic_piece_rows.specs.LayoutRows.{IsTextBy, following_fields, row_fields};
ghost use Rattle.zic_piece_rows.specs.code.Answer.{IsRowOf, IsShownRow, IsShownSome, answer_at, fields_in, first_at, following_in, place_at, shown_in};
ghost use Rattle.zic_piece_rows.specs.code.Batch.{IsGiven, record_of};
ghost use Rattle.zic_piece_rows.specs.code.Row.{clock_at, field_at_time, local_fields};

use crate::answer::Answer;
use crate::faulty::push_unanswered;
use crate::piece::Piece;
use crate::start::{Input, push_decimals, push_start};
use crate::time::{local_time_at, local_time_of};
use std::alloc::{AllocError, Global};
use zic_base::RowKind;
use zic_columns::{Record, Span};
use zic_layouts::{
    Compared, Disambiguation, Layout, RowField, RowFields, RowStart, Style, TimeFrom,
};
use zic_local::Unresolved;
use zic_row_text::{RowRest, RowText, RowTime, count_from};

/// Returns where the local time of a record with this answer lies: `gap`, `fold`, or no text.
fn place_of(piece: &Piece<'_, '_>, answer: &Answer<'_>) -> &'static [u8]
    requires { IsShownSome piece.now answer.now }
    ensures { result.now ≡ place_at piece.now answer.now }
{
    let (TimeFrom::Local(_), Input::Count(local)) = (piece.layout.from, answer.input) else {
        return b"";
    };
    let second = local_time_of(local, piece.layout.unit).second;
    match piece
        .zones
        .instant(answer.file, second, Disambiguation::Reject)
    {
        Ok(_) | Err(Unresolved::Unspecified) => b"",
        Err(Unresolved::Gap) => b"gap",
        Err(Unresolved::Fold) => b"fold",
    }
}

/// Appends a delimiter and the local time of an answer at a UT offset.
fn push_clock(
    text: &mut RowText,
    time: RowTime,
    offset: i32,
    delimiter: u8,
) -> Result<(), AllocError>
    requires second { IsRowInstant time.second }
    requires fraction { time.fraction < units_of_second time.unit }
    requires offset { IsRowOffset offset }
    ensures { OnOk result (text.new ≡ text.old ++ delimiter ∷ clock_at time offset) }
{
    text.push_local_time(local_time_at(time, offset), delimiter)
}

/// Appends a delimiter and a text.
fn push_part(text: &mut RowText, part: &[u8], delimiter: u8) -> Result<(), AllocError>
    ensures { OnOk result (text.new ≡ text.old ++ delimiter ∷ part.now) }
{
    text.push(&[delimiter])?;
    text.push(part)
}

/// Appends a delimiter and a field of the row of a record with this answer.
fn push_field(
    text: &mut RowText,
    piece: &Piece<'_, '_>,
    field: RowField,
    answer: &Answer<'_>,
) -> Result<(), AllocError>
    requires shown { IsShownSome piece.now answer.now }
    ensures { OnOk result (text.new ≡ text.old ++ piece.now.layout.now.delimiter
        ∷ field_at_time field answer.now.time (shown_in answer.now.state)
        (place_at piece.now answer.now)) }
{
    let delimiter = piece.layout.delimiter.byte();
    let (time, state) = (answer.time, answer.state.text());
    match field {
        RowField::Local => push_clock(text, time, state.offset(), delimiter),
        RowField::Time => {
            push_clock(text, time, state.offset(), delimiter)?;
            text.push(state.iso_offset_text())
        }
        RowField::Instant => push_decimals(
            text,
            count_from(time.second, time.fraction, time.unit),
            delimiter,
        ),
        RowField::Utc => {
            push_clock(text, time, 0, delimiter)?;
            text.push(b"Z")
        }
        RowField::Offset => push_part(text, state.offset_text(), delimiter),
        RowField::Daylight => {
            push_part(text, if state.daylight() { b"1" } else { b"0" }, delimiter)
        }
        RowField::Abbreviation => push_part(text, state.name(), delimiter),
        RowField::Ambiguous => push_part(text, place_of(piece, answer), delimiter),
    }
}

/// Appends the first field of an answer, without a delimiter.
pub(crate) fn push_first_field(
    text: &mut RowText,
    piece: &Piece<'_, '_>,
    answer: &Answer<'_>,
) -> Result<(), AllocError>
    requires shown { IsShownSome piece.now answer.now }
    ensures { OnOk result (text.new ≡ text.old ++ first_at piece.now answer.now) }
{
    let at = text.len();
    let fields = piece.layout.fields.fields(piece.layout.from);
    push_field(text, piece, fields[0], answer)?;
    text.remove(at);
    Ok(())
}

/// Appends the fields of an answer that follow a record with the first in the place of its time, each
/// after the delimiter, and a newline.
fn push_others(
    text: &mut RowText,
    piece: &Piece<'_, '_>,
    answer: &Answer<'_>,
) -> Result<(), AllocError>
    requires shown { IsShownSome piece.now answer.now }
    ensures { OnOk result (text.new ≡ text.old
        ++ answer_at piece.now (drop 1 (fields_in piece.now)) answer.now) }
{
    let fields = piece.layout.fields.fields(piece.layout.from);
    for field in &fields[1..] {
        push_field(text, piece, *field, answer)?;
    }
    text.push(b"\n")
}

/// Returns whether a field is compared with that of another release.
fn is_compared(compared: Compared, field: RowField) -> bool
    ensures { result ≡ is_compared compared field }
{
    match field {
        RowField::Daylight => compared.daylight,
        RowField::Abbreviation => compared.abbreviation,
        RowField::Local
        | RowField::Time
        | RowField::Instant
        | RowField::Utc
        | RowField::Offset
        | RowField::Ambiguous => true,
    }
}

/// Appends the fields of an answer to a record that are compared, each after the delimiter, and a newline.
pub(crate) fn push_answer(
    text: &mut RowText,
    piece: &Piece<'_, '_>,
    compared: Compared,
    answer: &Answer<'_>,
) -> Result<(), AllocError>
    requires shown { IsShownSome piece.now answer.now }
    ensures { OnOk result (text.new ≡ text.old
        ++ answer_at piece.now (compared_of compared (fields_in piece.now)) answer.now) }
{
    for field in piece.layout.fields.fields(piece.layout.from) {
        if is_compared(compared, *field) {
            push_field(text, piece, *field, answer)?;
        }
    }
    text.push(b"\n")
}

/// Returns the style of the fields that follow what rows begin with, where they are the usual ones of an
/// instant.
#[inline(always)]
fn usual_style(layout: &Layout) -> Option<Style>
    ensures { IfSome result
        (λ style. following_fields layout.now ≡ fields_of (rows.Usual style) from.Count) }
{
    if let RowStart::Replaced = layout.start {
        return None;
    }
    match (&layout.fields, layout.from) {
        (RowFields::Usual(style), TimeFrom::Count) => Some(*style),
        (RowFields::Usual(style), TimeFrom::Text(_)) => Some(*style),
        _ => None,
    }
}

/// Appends the fields of an answer that follow what rows begin with, each after the delimiter, and a
/// newline.
fn push_following(
    text: &mut RowText,
    piece: &Piece<'_, '_>,
    answer: &Answer<'_>,
) -> Result<(), AllocError>
    requires shown { IsShownSome piece.now answer.now }
    ensures { OnOk result (text.new ≡ text.old
        ++ answer_at piece.now (following_in piece.now) answer.now) }
{
    match piece.layout.start {
        RowStart::Fields | RowStart::Record => push_fields(text, piece, answer),
        RowStart::Replaced => push_others(text, piece, answer),
    }
}

/// Returns whether the fields of rows are those of a local time in the usual style.
fn has_usual_local(layout: &Layout) -> bool
    ensures { IsTrue result → row_fields layout.now ≡ local_fields }
{
    matches!(
        (&layout.fields, layout.from),
        (RowFields::Usual(Style::Fields), TimeFrom::Local(_))
    )
}

/// Appends the last part of what a row begins with, and what follows that: the fields of an answer.
#[inline(always)]
fn push_rest(
    text: &mut RowText,
    piece: &Piece<'_, '_>,
    last: Span,
    answer: &Answer<'_>,
) -> Result<(), AllocError>
    requires last { IsWithin piece.now.bytes.now last }
    requires shown { IsShownSome piece.now answer.now }
    ensures { OnOk result (text.new ≡ text.old ++ (bytes_at piece.now.bytes.now last
        ++ answer_at piece.now (following_in piece.now) answer.now)) }
{
    let Some(style) = usual_style(piece.layout) else {
        text.push(last.of(piece.bytes))?;
        return push_following(text, piece, answer);
    };
    let rest = RowRest {
        time: answer.time,
        state: answer.state.text(),
        style,
        delimiter: piece.layout.delimiter.byte(),
    };
    text.push_row(piece.bytes, last.start, last.end, &rest)
}

/// Appends the fields of an answer, each after the delimiter, and a newline.
pub(crate) fn push_fields(
    text: &mut RowText,
    piece: &Piece<'_, '_>,
    answer: &Answer<'_>,
) -> Result<(), AllocError>
    requires shown { IsShownSome piece.now answer.now }
    ensures { OnOk result (text.new ≡ text.old
        ++ answer_at piece.now (fields_in piece.now) answer.now) }
{
    if has_usual_local(piece.layout) {
        push_field(text, piece, RowField::Instant, answer)?;
        return text.push_state(answer.state.text(), piece.layout.delimiter.byte());
    }
    let all = Compared {
        daylight: true,
        abbreviation: true,
    };
    push_answer(text, piece, all, answer)
}

/// Appends the text of the row of a record with this answer. Where memory runs out, a part of the row
/// may be there.
#[inline(always)]
pub(crate) fn push_row(
    text: &mut RowText,
    piece: &Piece<'_, '_>,
    given: &Record,
    answer: &Answer<'_>,
) -> Result<(), AllocError>
    requires split { IsGiven piece.now given.now }
    requires shown { IsShownRow piece.now given.now answer.now }
    ensures { OnOk result ((made : List ℕ) × (text.new ≡ text.old ++ made)
        × IsTextBy piece.now.layout.now piece.now.zones.now (record_of piece.now given.now) made) }
{
    let last = push_start(text, piece, given, answer)?;
    push_rest(text, piece, last, answer)
}

/// Appends the row of a record with this answer or without one: no row, where the record is rejected.
pub(crate) fn push_any(
    alloc: Global,
    text: &mut RowText,
    piece: &Piece<'_, '_>,
    given: &Record,
    answer: &Result<Answer<'_>, Option<RowKind>>,
) -> Result<(), AllocError>
    requires split { IsGiven piece.now given.now }
    requires shown { IfOk answer.now (IsShownRow piece.now given.now) }
    ensures { OnOk result ((row : List ℕ) × (text.new ≡ text.old ++ row)
        × IsRowOf piece.now given.now answer.now row) }
{
    match answer {
        Ok(answer) => push_row(text, piece, given, answer),
        Err(fault) => {
            let mut row = Vec::new(alloc);
            push_unanswered(alloc, &mut row, piece, *fault, given)?;
            text.push(&row)
        }
    }
}
