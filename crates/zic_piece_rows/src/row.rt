//! The rows of records.

ghost use Rattle.std.specs.Prelude.{◌≡◌, ◌+◌, ◌^◌, ◌<◌, ◌≤◌, ◌++◌, None, Some, OnOk, IfSome, drop, length, take};
ghost use Rattle.std.specs.Prelude.{ℕ, List, slice_index_or};
ghost use Rattle.zic_columns.specs.Own.{CsvRecord};
ghost use Rattle.zic_layouts.specs.declared.layout.LineEnd.TheVariants as line_end;
ghost use Rattle.zic_piece_rows.specs.LayoutRows.{IsMovedRow, IsWrittenWith, ended, noted};
ghost use Rattle.zic_piece_rows.specs.PieceRows.{AreRowsOf, empty_rows};
ghost use Rattle.zic_piece_rows.specs.code.Answer.{AreColumns, IfTime, IsAnswered, IsAt, IsFound, IsOfPiece, IsReadTime};
ghost use Rattle.zic_piece_rows.specs.code.Batch.{IsGiven, blank, record_of, records_of};
ghost use Rattle.zic_piece_rows.specs.code.Row.{AreNextBy, by_both, files_of};

use crate::answer::{Answer, are_same, fault_of};
use crate::answers::{Asked, Found, answer, answer_alone};
use crate::batch::Batch;
use crate::faulty::ends_run;
use crate::moved::{ComparedTexts, are_unplaced};
use crate::note::{LinesPassed, note_of};
use crate::piece::Piece;
use crate::tally::Tallies;
use crate::text::{push_any, push_row};
use std::alloc::{AllocError, Global};
use std::marker::Model;
use zic_base::{RowFault, RowKind};
use zic_columns::Record;
use zic_layouts::{FaultyRow, LineEnd, ZoneTally};
use zic_row_text::RowText;
use zic_zones::UNKNOWN;

/// The rows of records up to the first that ends the run: their text, their number, its fault, and
/// the rows before it that have a fault.
#[derive(Drop)]
pub struct Rows {
    pub text: RowText,
    pub count: u64,
    pub fault: Option<RowKind>,
    pub faults: Vec<FaultyRow>,
    /// The numbers of rows of each zone, where these are counted. Clauses don't see them.
    pub tallies: Vec<ZoneTally>,
}

impl Model for Rows {
    ghost use Rattle.zic_piece_rows.specs.PieceRows.{RowsOf};

    ghost Value = { RowsOf };

    ghost view = { λ r. record { text = r.text; count = r.count; fault = r.fault; faults = r.faults.items } };
}

/// Puts this line end in the place of the line feed of the row that was appended to a text from an index on,
/// if one was.
#[inline(always)]
fn end_row(text: &mut RowText, start: usize, line_end: LineEnd) -> Result<(), AllocError>
    requires { start ≤ length text.old }
    ensures { OnOk result
        (text.new ≡ take start text.old ++ ended line_end (drop start text.old)) }
{
    match line_end {
        LineEnd::Lf => Ok(()),
        LineEnd::CrLf => end_by_return(text, start),
    }
}

/// Puts a carriage return and a line feed there, as [`end_row`] does.
#[inline(never)]
fn end_by_return(text: &mut RowText, start: usize) -> Result<(), AllocError>
    requires { start ≤ length text.old }
    ensures { OnOk result
        (text.new ≡ take start text.old ++ ended line_end.CrLf (drop start text.old)) }
{
    let len = text.len();
    if len == start {
        return Ok(());
    }
    text.truncate(len - 1);
    text.push(LineEnd::CrLf.bytes())
}

/// What rows keep for the next.
#[derive(Drop)]
pub(crate) struct RowPen {
    pub(crate) alloc: Global,
    /// The texts of the last record that was compared.
    compared: ComparedTexts,
    /// How far line feeds were counted.
    passed: LinesPassed,
    pub(crate) tallies: Tallies,
}

impl RowPen {
    /// Returns a pen before the first row.
    pub(crate) fn new(alloc: Global, tallies: Tallies) -> RowPen {
        RowPen {
            alloc,
            compared: ComparedTexts::new(alloc),
            passed: LinesPassed::new(),
            tallies,
        }
    }

    /// Appends what is written of a record with this answer or without one: its row, or, where there is another
    /// release, its row only if that answers differently. `other` is the piece with the zones of that
    /// release.
    fn push(
        &mut self,
        text: &mut RowText,
        piece: &Piece<'_, '_>,
        other: &Option<Piece<'_, '_>>,
        given: &Record,
        asked: Asked,
        answer: &Result<Answer<'_>, Option<RowKind>>,
    ) -> Result<(), AllocError>
        requires split { IsGiven piece.now given.now }
        requires read { IfTime asked.time (IsReadTime piece.now given.now) }
        requires other { IfSome other.now (IsOfPiece piece.now) }
        requires answered { IsAnswered piece.now asked.number given.now answer.now }
        ensures { OnOk result ((row : List ℕ) × (text.new ≡ text.old ++ row)
            × IsWrittenWith (files_of other.now) piece.now.layout.now piece.now.zones.now
            piece.now.most asked.number (record_of piece.now given.now) row) }
    {
        match other {
            Some(other) => self.push_compared(text, piece, other, given, asked, answer),
            None => push_any(self.alloc, text, piece, given, answer),
        }
    }

    /// Appends the row of a record with this answer or without one, and what another release answers, unless
    /// that is the same as far as it is compared.
    fn push_compared(
        &mut self,
        text: &mut RowText,
        piece: &Piece<'_, '_>,
        other: &Piece<'_, '_>,
        given: &Record,
        asked: Asked,
        answer: &Result<Answer<'_>, Option<RowKind>>,
    ) -> Result<(), AllocError>
        requires split { IsGiven piece.now given.now }
        requires read { IfTime asked.time (IsReadTime piece.now given.now) }
        requires other { IsOfPiece piece.now other.now }
        requires answered { IsAnswered piece.now asked.number given.now answer.now }
        ensures { OnOk result ((row : List ℕ) × (text.new ≡ text.old ++ row)
            × IsMovedRow piece.now.layout.now piece.now.zones.now other.now.zones.now
            piece.now.most asked.number (record_of piece.now given.now) row) }
    {
        let theirs = answer_alone(self.alloc, other, given, asked)?;
        if are_unplaced(piece.layout.fields.fields(piece.layout.from))
            && are_same(answer, &theirs)
        {
            return Ok(());
        }
        if !self.compared.is_moved(piece, other, answer, &theirs)? {
            return Ok(());
        }
        self.compared.keep_old(other, &theirs)?;
        self.compared
            .push_moved(self.alloc, text, piece, given, answer)
    }
}

impl Rows {
    /// Returns an empty list of rows, which reuses a text.
    pub fn new(alloc: Global, mut text: RowText) -> Rows
        ensures { result ≡ empty_rows }
    {
        text.clear();
        Rows {
            text,
            count: 0,
            fault: None,
            faults: Vec::new(alloc),
            tallies: Vec::new(alloc),
        }
    }

    /// Adds what is written of a record of a batch, or the fault that ends the run there. `other` is the
    /// piece with the zones of another release.
    #[inline(always)]
    fn add<'s>(
        &mut self,
        piece: &Piece<'_, 's>,
        other: &Option<Piece<'_, 's>>,
        batch: &Batch<'s>,
        place: usize,
        pen: &mut RowPen,
    ) -> Result<(), AllocError>
        requires at { IsAt piece.now batch.now place }
        requires other { IfSome other.now (IsOfPiece piece.now) }
        requires fits { piece.now.first + self.old.count + 1 < 2 ^ 64 }
        ensures { OnOk result (AreNextBy piece.now.layout.now (by_both piece.now
            (files_of other.now)) piece.now.most (piece.now.first + self.old.count) (record_of
            piece.now (slice_index_or batch.now.records place blank)) self.old self.new) }
    {
        let number = piece.first + self.count;
        let known = batch.answers.known[place];
        if known.state == UNKNOWN || piece.most < number || other.is_some() {
            let found = Found {
                states: &batch.answers.states,
                given: &batch.records[place],
                time: batch.times[place],
                known,
            };
            return self.add_slowly(piece, other, found, pen);
        }
        let answer = known.answer(&batch.answers.states, piece.layout, batch.times[place]);
        let start = self.text.len();
        push_row(&mut self.text, piece, &batch.records[place], &answer)?;
        end_row(&mut self.text, start, piece.layout.line_end)?;
        self.count += 1;
        Ok(())
    }

    /// Adds a record, as [`add`](Rows::add) does, whatever is known of it.
    #[inline(never)]
    pub(crate) fn add_slowly<'s>(
        &mut self,
        piece: &Piece<'_, 's>,
        other: &Option<Piece<'_, 's>>,
        found: Found<'_, 's>,
        pen: &mut RowPen,
    ) -> Result<(), AllocError>
        requires split { IsGiven piece.now found.given.now }
        requires read { IfTime found.time (IsReadTime piece.now found.given.now) }
        requires found { IsFound piece.now found.given.now found.time found.states.now.states
            found.known }
        requires other { IfSome other.now (IsOfPiece piece.now) }
        requires fits { piece.now.first + self.old.count + 1 < 2 ^ 64 }
        ensures { OnOk result (AreNextBy piece.now.layout.now (by_both piece.now
            (files_of other.now)) piece.now.most (piece.now.first + self.old.count)
            (record_of piece.now found.entry.given.now) self.old self.new) }
    {
        let Found {
            states,
            given,
            time,
            known,
        } = found;
        let asked = Asked {
            time,
            number: piece.first + self.count,
        };
        let answer = answer(pen.alloc, piece, states, given, known, asked)?;
        if let Some(kind) = fault_of(&answer) {
            if ends_run(piece.layout.at_fault, piece.layout.records, kind) {
                self.fault = Some(kind);
                return Ok(());
            }
            self.note(piece, given, asked.number, kind, pen)?;
        }
        let start = self.text.len();
        pen.push(&mut self.text, piece, other, given, asked, &answer)?;
        pen.tallies.count(known.file, start < self.text.len());
        end_row(&mut self.text, start, piece.layout.line_end)?;
        self.count += 1;
        Ok(())
    }

    /// Notes the fault of a record, as the row of a number.
    fn note(
        &mut self,
        piece: &Piece<'_, '_>,
        given: &Record,
        number: u64,
        kind: RowKind,
        pen: &mut RowPen,
    ) -> Result<(), AllocError>
        requires { IsGiven piece.now given.now }
        ensures { OnOk result (self.new ≡ record self.old {
          faults = self.old.faults
              ++ noted piece.now.layout.now.at_fault number (record_of piece.now given.now).own
              (Some kind);
        }) }
    {
        let fault = RowFault { row: number, kind };
        let note = note_of(pen.alloc, piece, given, fault, &mut pen.passed)?;
        self.faults.push(note)?;
        Ok(())
    }

    /// Adds the rows of the first `count` records of a batch, up to the first that ends the run. `other`
    /// is the piece with the zones of another release.
    pub(crate) fn add_all<'s>(
        &mut self,
        piece: &Piece<'_, 's>,
        other: &Option<Piece<'_, 's>>,
        batch: &Batch<'s>,
        count: usize,
        pen: &mut RowPen,
    ) -> Result<(), AllocError>
        requires columns { AreColumns piece.now batch.now count }
        requires other { IfSome other.now (IsOfPiece piece.now) }
        requires goes_on { self.old.fault ≡ None }
        requires fits { piece.now.first + self.old.count + count < 2 ^ 64 }
        ensures rows { (before : List CsvRecord) → AreRowsOf piece.now.layout.now
            (by_both piece.now (files_of other.now)) piece.now.most piece.now.first before self.old
            → OnOk result (AreRowsOf piece.now.layout.now (by_both piece.now (files_of other.now))
            piece.now.most piece.now.first (before ++ records_of piece.now batch.now count)
            self.new) }
        ensures count { OnOk result
            (self.new.fault ≡ None → self.new.count ≡ self.old.count + count) }
    {
        for place in 0..count {
            self.add(piece, other, batch, place, pen)?;
            if self.fault.is_some() {
                return Ok(());
            }
        }
        Ok(())
    }
}
