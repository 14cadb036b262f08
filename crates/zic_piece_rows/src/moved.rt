//! Rows that another release answers differently.

ghost use Rattle.std.specs.Prelude.{◌≡◌, ◌≤◌, ◌++◌, ◌↔◌, [], ℕ, IfOk, IsFalse, List, OnOk, bytes_eq, length};
ghost use Rattle.std.specs.List.{list_all};
ghost use Rattle.zic_layouts.specs.declared.field_list.TheConstants.{MAX_FIELDS};
ghost use Rattle.zic_piece_rows.specs.LayoutRows.{empty_fields, with_answer};
ghost use Rattle.zic_piece_rows.specs.code.Answer.{IsRowOf, IsShownRow, IsShownSome, is_unplaced, seen_by, shown_by};
ghost use Rattle.zic_piece_rows.specs.code.Batch.{IsGiven};

use crate::answer::Answer;
use crate::piece::Piece;
use crate::text::{push_answer, push_any, push_fields};
use std::alloc::{AllocError, Global};
use zic_base::RowKind;
use zic_columns::Record;
use zic_layouts::{MAX_FIELDS, RowField};
use zic_row_text::RowText;

/// What two releases answer a record, as far as that is compared, what the other answers, and the row by
/// the first.
#[derive(Drop)]
pub(crate) struct ComparedTexts {
    seen: RowText,
    old_seen: RowText,
    pub(crate) old_shown: RowText,
    row: RowText,
}

/// Writes empty fields into a text, in place of what that holds.
fn write_empty(text: &mut RowText, delimiter: u8, fields: &[RowField]) -> Result<(), AllocError>
    requires { length fields.now ≤ MAX_FIELDS }
    ensures { OnOk result (text.new ≡ empty_fields delimiter fields.now) }
{
    text.clear();
    let empty = [delimiter; MAX_FIELDS];
    text.push(&empty[..fields.len()])?;
    text.push(b"\n")
}

/// Writes what of an answer to a record is compared into a text, in place of what that holds: nothing where
/// there is no answer.
fn write_seen(
    text: &mut RowText,
    piece: &Piece<'_, '_>,
    answer: &Result<Answer<'_>, Option<RowKind>>,
) -> Result<(), AllocError>
    requires { IfOk answer.now (IsShownSome piece.now) }
    ensures { OnOk result (text.new ≡ seen_by piece.now answer.now) }
{
    text.clear();
    match answer {
        Ok(answer) => push_answer(text, piece, piece.layout.compared, answer),
        Err(_) => Ok(()),
    }
}

/// Writes an answer to a record as it stands at the end of a row into a text, in place of what that holds:
/// empty fields where there is no answer.
fn write_shown(
    text: &mut RowText,
    piece: &Piece<'_, '_>,
    answer: &Result<Answer<'_>, Option<RowKind>>,
) -> Result<(), AllocError>
    requires { IfOk answer.now (IsShownSome piece.now) }
    ensures { OnOk result (text.new ≡ shown_by piece.now answer.now) }
{
    match answer {
        Ok(answer) => {
            text.clear();
            push_fields(text, piece, answer)
        }
        Err(_) => {
            let fields = piece.layout.fields.fields(piece.layout.from);
            write_empty(text, piece.layout.delimiter.byte(), fields)
        }
    }
}

/// Returns whether a field doesn't say where a local time lies.
fn is_unplaced(field: RowField) -> bool
    ensures { result ≡ is_unplaced field }
{
    !matches!(field, RowField::Ambiguous)
}

/// Returns whether no field says where a local time lies.
pub(crate) fn are_unplaced(fields: &[RowField]) -> bool
    ensures { result ≡ list_all is_unplaced fields.now }
{
    fields.iter().all(|field| is_unplaced(*field))
}

/// Appends a row, and the fields of another answer after its last. Appends nothing to a row without a
/// byte.
fn push_with(text: &mut RowText, row: &[u8], answer: &[u8]) -> Result<(), AllocError>
    ensures { OnOk result (text.new ≡ text.old ++ with_answer row.now answer.now) }
{
    if row.is_empty() {
        return Ok(());
    }
    text.push(&row[..row.len() - 1])?;
    text.push(answer)
}

/// Returns whether two texts are the same.
fn are_same(text: &[u8], other: &[u8]) -> bool
    ensures { result ≡ bytes_eq text.now other.now }
{
    text == other
}

impl ComparedTexts {
    /// Returns texts of no record.
    pub(crate) fn new(alloc: Global) -> ComparedTexts {
        ComparedTexts {
            seen: RowText::new(alloc),
            old_seen: RowText::new(alloc),
            old_shown: RowText::new(alloc),
            row: RowText::new(alloc),
        }
    }

    /// Returns whether two releases answer a record differently, as far as that is compared. `other` is the
    /// piece with the zones of the other release, whose answer is `theirs`.
    pub(crate) fn is_moved(
        &mut self,
        piece: &Piece<'_, '_>,
        other: &Piece<'_, '_>,
        answer: &Result<Answer<'_>, Option<RowKind>>,
        theirs: &Result<Answer<'_>, Option<RowKind>>,
    ) -> Result<bool, AllocError>
        requires shown { IfOk answer.now (IsShownSome piece.now) }
        requires other_shown { IfOk theirs.now (IsShownSome other.now) }
        ensures { IfOk result (λ moved. IsFalse moved
            ↔ (seen_by piece.now answer.now ≡ seen_by other.now theirs.now)) }
    {
        write_seen(&mut self.seen, piece, answer)?;
        write_seen(&mut self.old_seen, other, theirs)?;
        Ok(!are_same(self.seen.bytes(), self.old_seen.bytes()))
    }

    /// Keeps what the other release answers a record, in place of what was kept before.
    pub(crate) fn keep_old(
        &mut self,
        other: &Piece<'_, '_>,
        theirs: &Result<Answer<'_>, Option<RowKind>>,
    ) -> Result<(), AllocError>
        requires { IfOk theirs.now (IsShownSome other.now) }
        ensures { OnOk result (self.new.old_shown ≡ shown_by other.now theirs.now) }
    {
        write_shown(&mut self.old_shown, other, theirs)
    }

    /// Appends the row of a record with this answer or without one, and then what was kept of the other
    /// release.
    pub(crate) fn push_moved(
        &mut self,
        alloc: Global,
        text: &mut RowText,
        piece: &Piece<'_, '_>,
        given: &Record,
        answer: &Result<Answer<'_>, Option<RowKind>>,
    ) -> Result<(), AllocError>
        requires split { IsGiven piece.now given.now }
        requires shown { IfOk answer.now (IsShownRow piece.now given.now) }
        ensures { OnOk result ((row : List ℕ) × IsRowOf piece.now given.now answer.now row
            × (text.new ≡ text.old ++ with_answer row self.old.old_shown)) }
    {
        self.row.clear();
        push_any(alloc, &mut self.row, piece, given, answer)?;
        push_with(text, self.row.bytes(), self.old_shown.bytes())
    }
}
