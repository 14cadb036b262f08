//! Rows with a fault.

ghost use Rattle.std.specs.Prelude.{◌≡◌, ◌∷◌, ◌++◌, [], IsTrue, IfOk, OnOk, Some, None, false, map};
ghost use Rattle.csv.specs.Writing.{default_writer, row_text, with_delimiter};
ghost use Rattle.zic_columns.specs.Record.{IsWithinPiece, field_text};
ghost use Rattle.zic_layouts.specs.Layout.{line_end_bytes};
ghost use Rattle.zic_layouts.specs.declared.layout.RowStart.TheVariants as start;
ghost use Rattle.zic_zones.specs.Zones.{field_at, zone_in};
ghost use Rattle.zic_piece_rows.specs.LayoutRows.{ending, faulty_text, if_rejected, marked_text, timeless_text};
ghost use Rattle.zic_piece_rows.specs.code.Answer.{unanswered_text};
ghost use Rattle.zic_piece_rows.specs.code.Batch.{IsGiven, record_of};

use crate::piece::Piece;
use crate::start::{around_time, or_quotes};
use csv::WriterBuilder;
use std::alloc::{AllocError, Global};
use zic_base::RowKind;
use zic_columns::{Field, Record, push_field};
use zic_layouts::{AtFault, Layout, LineEnd, MAX_FIELDS, Records, RowStart, ZoneFrom};

/// Returns whether a fault ends the run.
pub fn ends_run(at_fault: AtFault, records: Records, kind: RowKind) -> bool
    ensures ends { IsTrue result → ending at_fault records (Some kind) ≡ Some kind }
    ensures goes_on { result ≡ false → ending at_fault records (Some kind) ≡ None }
{
    match (at_fault, records) {
        (AtFault::End, _) => true,
        (AtFault::GoOn | AtFault::Reject, Records::Csv) => {
            matches!(kind, RowKind::TooManyRows | RowKind::RowTooLong)
        }
        (AtFault::GoOn | AtFault::Reject, Records::Lines) => {
            matches!(kind, RowKind::TooManyRows)
        }
    }
}

/// Copies the text of a field.
pub(crate) fn copy_field(
    alloc: Global,
    piece: &Piece<'_, '_>,
    field: Field,
) -> Result<Vec<u8>, AllocError>
    requires { IsWithinPiece piece.now.bytes.now field }
    ensures { IfOk result (λ copy. copy.items
        ≡ field_text piece.now.layout.now.delimiter piece.now.bytes.now field) }
{
    let mut copy = Vec::new(alloc);
    push_field(&mut copy, piece.bytes, field, &piece.layout.delimiter)?;
    Ok(copy)
}

/// Copies the name of a record's zone.
pub(crate) fn copy_zone(
    alloc: Global,
    piece: &Piece<'_, '_>,
    given: &Record,
) -> Result<Vec<u8>, AllocError>
    requires { IsGiven piece.now given.now }
    ensures { IfOk result (λ copy. copy.items ≡ zone_in piece.now.layout.now.zone
        (record_of piece.now given.now).fields) }
{
    match &piece.layout.zone {
        ZoneFrom::Field(_) => copy_field(alloc, piece, given.zone),
        ZoneFrom::Name(name) => Vec::from_slice(alloc, name.as_bytes()),
    }
}

/// Copies the field of a record's time.
pub(crate) fn copy_time(
    alloc: Global,
    piece: &Piece<'_, '_>,
    given: &Record,
) -> Result<Vec<u8>, AllocError>
    requires { IsGiven piece.now given.now }
    ensures { IfOk result (λ copy. copy.items ≡ field_at (record_of piece.now given.now).fields piece.now.layout.now.time) }
{
    copy_field(alloc, piece, given.time)
}

/// Returns what a CSV writer with a delimiter writes of some fields.
fn csv_row(alloc: Global, delimiter: u8, fields: &[&[u8]]) -> Result<Vec<u8>, AllocError>
    ensures { IfOk result (λ row. row.items
        ≡ row_text (with_delimiter default_writer delimiter) (map (λ f. f.now) fields.now)) }
{
    let mut writer = WriterBuilder::new()
        .delimiter(delimiter)
        .from_writer(Vec::new(alloc));
    // A writer into memory fails only where memory is refused.
    if writer.write_fields(fields).is_err() {
        return Err(AllocError);
    }
    match writer.into_inner() {
        Ok(row) => Ok(row),
        Err(_) => Err(AllocError),
    }
}

/// Returns the row of a record by its fields, without an answer.
fn timeless_row(alloc: Global, piece: &Piece<'_, '_>, given: &Record) -> Result<Vec<u8>, AllocError>
    requires { IsGiven piece.now given.now }
    ensures { IfOk result (λ row. row.items ≡ timeless_text start.Fields piece.now.layout.now
        (record_of piece.now given.now)) }
{
    let name = copy_zone(alloc, piece, given)?;
    let field = copy_time(alloc, piece, given)?;
    let mut fields: [&[u8]; MAX_FIELDS + 2] = [b""; MAX_FIELDS + 2];
    fields[0] = name.as_slice();
    fields[1] = field.as_slice();
    let count = piece.layout.fields.fields(piece.layout.from).len();
    csv_row(alloc, piece.layout.delimiter.byte(), &fields[..2 + count])
}

/// Appends a row of the own bytes of a record, some delimiters and a line end.
pub fn push_own(
    text: &mut Vec<u8>,
    own: &[u8],
    delimiters: &[u8],
    line_end: LineEnd,
) -> Result<(), AllocError>
    ensures { OnOk result (text.new.items ≡ text.old.items
        ++ (own.now ++ delimiters.now ++ line_end_bytes line_end)) }
{
    text.extend_from_slice(own)?;
    text.extend_from_slice(delimiters)?;
    text.extend_from_slice(line_end.bytes())
}

/// Copies the own bytes of a faulty record, if it is rejected. Returns no bytes if it isn't.
pub fn rejected_bytes(alloc: Global, layout: &Layout, own: &[u8]) -> Result<Vec<u8>, AllocError>
    ensures { IfOk result (λ copy. copy.items ≡ if_rejected layout.now.at_fault own.now) }
{
    match layout.at_fault {
        AtFault::Reject => Vec::from_slice(alloc, own),
        AtFault::End | AtFault::GoOn => Ok(Vec::new(alloc)),
    }
}

/// Appends the row of a record with an empty field in the place of its time's, if it has that, and empty
/// fields for those that follow.
fn push_emptied(text: &mut Vec<u8>, piece: &Piece<'_, '_>, given: &Record) -> Result<(), AllocError>
    requires { IsGiven piece.now given.now }
    ensures { OnOk result (text.new.items ≡ text.old.items ++ timeless_text start.Replaced
        piece.now.layout.now (record_of piece.now given.now)) }
{
    let around = around_time(piece, given);
    let after = around.after.of(piece.bytes);
    text.extend_from_slice(or_quotes(around.before.of(piece.bytes), after))?;
    let empty = [piece.layout.delimiter.byte(); MAX_FIELDS];
    let count = piece.layout.fields.fields(piece.layout.from).len();
    push_own(text, after, &empty[..count - 1], LineEnd::Lf)
}

/// Appends the row of a record without an answer. Where memory runs out, a part of the row may be there.
fn push_timeless(
    alloc: Global,
    text: &mut Vec<u8>,
    piece: &Piece<'_, '_>,
    given: &Record,
) -> Result<(), AllocError>
    requires { IsGiven piece.now given.now }
    ensures { OnOk result (text.new.items ≡ text.old.items ++ timeless_text
        piece.now.layout.now.start piece.now.layout.now (record_of piece.now given.now)) }
{
    match piece.layout.start {
        RowStart::Record => {
            let empty = [piece.layout.delimiter.byte(); MAX_FIELDS];
            let count = piece.layout.fields.fields(piece.layout.from).len();
            push_own(
                text,
                given.own.of(piece.bytes),
                &empty[..count],
                LineEnd::Lf,
            )
        }
        RowStart::Replaced => push_emptied(text, piece, given),
        RowStart::Fields => {
            let row = timeless_row(alloc, piece, given)?;
            text.extend_from_slice(&row)
        }
    }
}

/// Appends the row of a record with a fault that is written, as [`push_faulty`] does.
fn push_marked(
    alloc: Global,
    text: &mut Vec<u8>,
    piece: &Piece<'_, '_>,
    kind: RowKind,
    given: &Record,
) -> Result<(), AllocError>
    requires { IsGiven piece.now given.now }
    ensures { OnOk result (text.new.items ≡ text.old.items ++ marked_text piece.now.layout.now kind
        (record_of piece.now given.now)) }
{
    if matches!(
        kind,
        RowKind::RowFields | RowKind::RowQuote | RowKind::RowTooLong
    ) {
        return push_own(text, given.own.of(piece.bytes), b"", LineEnd::Lf);
    }
    push_timeless(alloc, text, piece, given)
}

/// Appends the row of a record with a fault, unless the record is rejected. Where memory runs out, a part
/// of the row may be there.
fn push_faulty(
    alloc: Global,
    text: &mut Vec<u8>,
    piece: &Piece<'_, '_>,
    kind: RowKind,
    given: &Record,
) -> Result<(), AllocError>
    requires { IsGiven piece.now given.now }
    ensures { OnOk result (text.new.items ≡ text.old.items ++ faulty_text piece.now.layout.now kind
        (record_of piece.now given.now)) }
{
    match piece.layout.at_fault {
        AtFault::Reject => Ok(()),
        AtFault::End | AtFault::GoOn => push_marked(alloc, text, piece, kind, given),
    }
}

/// Appends the row of a record without an answer: with this fault, or with none.
pub(crate) fn push_unanswered(
    alloc: Global,
    text: &mut Vec<u8>,
    piece: &Piece<'_, '_>,
    fault: Option<RowKind>,
    given: &Record,
) -> Result<(), AllocError>
    requires { IsGiven piece.now given.now }
    ensures { OnOk result (text.new.items ≡ text.old.items ++ unanswered_text piece.now.layout.now
        fault (record_of piece.now given.now)) }
{
    match fault {
        Some(kind) => push_faulty(alloc, text, piece, kind, given),
        None => push_timeless(alloc, text, piece, given),
    }
}
