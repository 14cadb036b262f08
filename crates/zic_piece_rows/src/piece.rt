//! A piece of a round, and the rows of its records.

ghost use Rattle.std.specs.Prelude.{◌≡◌, ◌+◌, ◌^◌, ◌<◌, ◌≤◌, ◌++◌, [], IfOk, IfSome, None, OnOk, length};
ghost use Rattle.zic_piece_rows.specs.code.Answer.{IsOfPiece};
ghost use Rattle.zic_piece_rows.specs.code.Batch.{wanted_by};
ghost use Rattle.zic_piece_rows.specs.code.Pairs.{ArePairs, pairs_of};
ghost use Rattle.zic_piece_rows.specs.code.Piece.{AreNextRows, IsSplitBy};
ghost use Rattle.zic_piece_rows.specs.code.Row.{by_both, files_of};
ghost use Rattle.zic_columns.specs.Own.{csv_records};
ghost use Rattle.zic_columns.specs.declared.splits.TheConstants.{BATCH};
ghost use Rattle.zic_piece_rows.specs.PieceRows.{AreRowsOf, empty_rows};

use crate::batch::Batch;
use crate::pairs::{PairBatch, is_of_pairs};
use crate::row::{RowPen, Rows};
use crate::tally::Tallies;
use std::alloc::{AllocError, Global};
use zic_columns::{BATCH, Pair, Splitter, Wanted};
use zic_layouts::{Layout, ZoneFrom};
use zic_row_text::RowText;
use zic_zones::RowZones;

/// A piece of a round, and what the rows of its records are made by.
#[derive(Clone, Copy, Drop)]
pub struct Piece<'a, 's> {
    pub bytes: &'a [u8],
    pub zones: &'a RowZones<'s>,
    pub layout: &'a Layout,
    /// The number of the first row.
    pub first: u64,
    /// The greatest number that a row may have.
    pub most: u64,
    /// The number of line feeds before it in the column, where details of faults are noted.
    pub lines_before: Option<u64>,
}

impl<'a, 's> Piece<'a, 's> {
    /// Returns the piece with the zones of another release, if there is one.
    fn with_zones(&self, old: &'a Option<RowZones<'s>>) -> Option<Piece<'a, 's>>
        ensures files { files_of result ≡ old.now }
        ensures same { IfSome result (IsOfPiece self.now) }
    {
        match old {
            Some(zones) => Some(Piece { zones, ..*self }),
            None => None,
        }
    }
}

/// Returns which fields of a record rows need by a layout.
pub(crate) fn wanted_by(layout: &Layout) -> Wanted
    ensures { result ≡ wanted_by layout.now }
{
    let zone = match &layout.zone {
        ZoneFrom::Field(index) => Some(*index),
        ZoneFrom::Name(_) => None,
    };
    Wanted {
        zone,
        time: layout.time,
    }
}

/// What the next rows of a piece are made with.
#[derive(Drop)]
struct Columns<'s> {
    pen: RowPen,
    pairs: PairBatch<'s>,
    batch: Batch<'s>,
}

impl<'s> Columns<'s> {
    /// Returns the columns before the first rows.
    fn new(
        alloc: Global,
        piece: &Piece<'_, 's>,
        is_compared: bool,
    ) -> Result<Columns<'s>, AllocError> {
        let tallies = Tallies::new(alloc, piece, is_compared)?;
        Ok(Columns {
            pen: RowPen::new(alloc, tallies),
            pairs: PairBatch::new(piece),
            batch: Batch::new(piece),
        })
    }
}

/// Splits the next records as long as each is a plain pair, if the rows are those of pairs alone, and
/// returns their number. None doesn't mean that no record is left.
fn next_pairs(
    piece: &Piece<'_, '_>,
    splitter: &mut Splitter<'_>,
    pairs: &mut [Pair; BATCH],
) -> usize
    requires { IsSplitBy piece.now splitter.old }
    ensures split { IsSplitBy piece.now splitter.new }
    ensures few { result ≤ BATCH }
    ensures long { length pairs.new ≡ BATCH }
    ensures parts { splitter.old.left ≡ pairs_of piece.now pairs.new result ++ splitter.new.left }
    ensures pairs { 0 < result → ArePairs piece.now result pairs.new }
{
    if !is_of_pairs(piece.layout) {
        return 0;
    }
    splitter.fill_pairs(pairs)
}

impl Rows {
    /// Adds the rows of the next records of a piece, and returns how many records these are: none is left
    /// where it returns 0. `other` is the piece with the zones of another release.
    fn add_next<'s>(
        &mut self,
        piece: &Piece<'_, 's>,
        other: &Option<Piece<'_, 's>>,
        splitter: &mut Splitter<'_>,
        columns: &mut Columns<'s>,
    ) -> Result<usize, AllocError>
        requires split { IsSplitBy piece.now splitter.old }
        requires other { IfSome other.now (IsOfPiece piece.now) }
        requires goes_on { self.old.fault ≡ None }
        requires fits { piece.now.first + self.old.count + length splitter.old.left < 2 ^ 64 }
        ensures split { IsSplitBy piece.now splitter.new }
        ensures next { IfOk result (AreNextRows piece.now (by_both piece.now (files_of other.now))
            self.old self.new splitter.old.left splitter.new.left) }
        ensures end { IfOk result (λ count. count ≡ 0 → splitter.new.left ≡ []) }
    {
        let count = next_pairs(piece, splitter, &mut columns.pairs.pairs.places);
        if 0 < count {
            self.add_pairs(piece, other, &mut columns.pairs, count, &mut columns.pen)?;
            return Ok(count);
        }
        self.add_records(piece, other, splitter, columns)
    }

    /// Adds the rows of the next records, as [`add_next`](Rows::add_next) does, whatever they are: batch
    /// by batch, the fields of the records, their times, what the zones answer them, and then the rows.
    fn add_records<'s>(
        &mut self,
        piece: &Piece<'_, 's>,
        other: &Option<Piece<'_, 's>>,
        splitter: &mut Splitter<'_>,
        columns: &mut Columns<'s>,
    ) -> Result<usize, AllocError>
        requires split { IsSplitBy piece.now splitter.old }
        requires other { IfSome other.now (IsOfPiece piece.now) }
        requires goes_on { self.old.fault ≡ None }
        requires fits { piece.now.first + self.old.count + length splitter.old.left < 2 ^ 64 }
        ensures split { IsSplitBy piece.now splitter.new }
        ensures next { IfOk result (AreNextRows piece.now (by_both piece.now (files_of other.now))
            self.old self.new splitter.old.left splitter.new.left) }
        ensures end { IfOk result (λ count. count ≡ 0 → splitter.new.left ≡ []) }
    {
        let count = splitter.fill(&mut columns.batch.records);
        columns.batch.fill(columns.pen.alloc, piece, count)?;
        self.add_all(piece, other, &columns.batch, count, &mut columns.pen)?;
        Ok(count)
    }

    /// Adds the rows of a piece, up to the first that ends the run, to no rows. `other` is the piece with the
    /// zones of another release.
    fn add_piece<'s>(
        &mut self,
        piece: &Piece<'_, 's>,
        other: &Option<Piece<'_, 's>>,
        columns: &mut Columns<'s>,
    ) -> Result<(), AllocError>
        requires none { self.old ≡ empty_rows }
        requires other { IfSome other.now (IsOfPiece piece.now) }
        requires fits { piece.now.first + length piece.now.bytes.now + 1 < 2 ^ 64 }
        ensures { OnOk result (AreRowsOf piece.now.layout.now
            (by_both piece.now (files_of other.now)) piece.now.most piece.now.first
            (csv_records piece.now.layout.now.delimiter piece.now.bytes.now) self.new) }
    {
        let wanted = wanted_by(piece.layout);
        let mut splitter = Splitter::new(piece.bytes, wanted, &piece.layout.delimiter);
        while self.fault.is_none() {
            let count = self.add_next(piece, other, &mut splitter, columns)?;
            if count == 0 {
                return Ok(());
            }
        }
        Ok(())
    }

    /// Adds the rows of a piece, as [`add_piece`](Rows::add_piece) does, and their numbers by zone.
    fn add_counted<'s>(
        &mut self,
        piece: &Piece<'_, 's>,
        other: &Option<Piece<'_, 's>>,
        columns: &mut Columns<'s>,
    ) -> Result<(), AllocError>
        requires none { self.old ≡ empty_rows }
        requires other { IfSome other.now (IsOfPiece piece.now) }
        requires fits { piece.now.first + length piece.now.bytes.now + 1 < 2 ^ 64 }
        ensures { OnOk result (AreRowsOf piece.now.layout.now
            (by_both piece.now (files_of other.now)) piece.now.most piece.now.first
            (csv_records piece.now.layout.now.delimiter piece.now.bytes.now) self.new) }
    {
        self.add_piece(piece, other, columns)?;
        self.tallies = columns.pen.tallies.named(columns.pen.alloc, piece)?;
        Ok(())
    }
}

/// Returns the rows of a piece, up to the first that ends the run. Where `old` has the zones of another
/// release, only those rows are written that it answers differently. The text of the rows comes into the
/// one that is given, in place of what that holds.
pub fn rows_of_piece<'a, 's>(
    alloc: Global,
    piece: &Piece<'a, 's>,
    old: &'a Option<RowZones<'s>>,
    text: RowText,
) -> Result<Rows, AllocError>
    requires { piece.now.first + length piece.now.bytes.now + 1 < 2 ^ 64 }
    ensures { IfOk result (AreRowsOf piece.now.layout.now
        (record { zones = piece.now.zones.now; old = old.now }) piece.now.most piece.now.first
        (csv_records piece.now.layout.now.delimiter piece.now.bytes.now)) }
{
    let other = piece.with_zones(old);
    let mut columns = Columns::new(alloc, piece, other.is_some())?;
    let mut rows = Rows::new(alloc, text);
    let added = rows.add_counted(piece, &other, &mut columns);
    drop(columns);
    added?;
    Ok(rows)
}
