//! The rows of plain pairs.

ghost use Rattle.std.specs.Prelude.{◌≡◌, ◌≢◌, ◌+◌, ◌^◌, ◌<◌, ◌++◌, List, IfOk, IfSome, IsSome, None, OnOk, is_some, slice_index_or};
ghost use Rattle.zic_columns.specs.Own.{CsvRecord};
ghost use Rattle.zic_zones.specs.declared.slot.TheConstants.{UNKNOWN};
ghost use Rattle.zic_piece_rows.specs.PieceRows.{AreRowsOf};
ghost use Rattle.zic_piece_rows.specs.code.Answer.{IsOfPiece};
ghost use Rattle.zic_piece_rows.specs.code.Pairs.{ArePairColumns, ArePairs, IsPairAt};
ghost use Rattle.zic_piece_rows.specs.code.Pairs.{form_of, pair_in, pair_of, pairs_of, style_of};
ghost use Rattle.zic_piece_rows.specs.code.Row.{AreNextBy, by_both, files_of};

use crate::pairs::PairBatch;
use crate::piece::Piece;
use crate::row::{RowPen, Rows};
use std::alloc::AllocError;
use zic_layouts::{RowFields, Style, Unit};
use zic_row_text::{RowRest, RowTime};
use zic_zones::UNKNOWN;

/// The style of rows and what their instants count: those of the layout. Where both are usual, they are
/// constants, so that no row asks for them.
#[derive(Clone, Copy, Drop)]
pub(crate) struct Form {
    style: Style,
    unit: Unit,
}

/// Returns the style of the usual fields.
fn style_of(fields: &RowFields) -> Style
    ensures { result ≡ style_of fields.now }
{
    match fields {
        RowFields::Usual(style) => *style,
        RowFields::Only(_) => Style::Fields,
    }
}

impl Rows {
    /// Adds the rows of the first `count` pairs of a batch, up to the first that ends the run. `other` is
    /// the piece with the zones of another release.
    pub(crate) fn add_pairs<'s>(
        &mut self,
        piece: &Piece<'_, 's>,
        other: &Option<Piece<'_, 's>>,
        batch: &mut PairBatch<'s>,
        count: usize,
        pen: &mut RowPen,
    ) -> Result<(), AllocError>
        requires pairs { ArePairs piece.now count batch.old.pairs.places }
        requires other { IfSome other.now (IsOfPiece piece.now) }
        requires goes_on { self.old.fault ≡ None }
        requires fits { piece.now.first + self.old.count + count < 2 ^ 64 }
        ensures rows { (before : List CsvRecord) → AreRowsOf piece.now.layout.now
            (by_both piece.now (files_of other.now)) piece.now.most piece.now.first before self.old
            → OnOk result (AreRowsOf piece.now.layout.now (by_both piece.now (files_of other.now))
            piece.now.most piece.now.first
            (before ++ pairs_of piece.now batch.old.pairs.places count) self.new) }
        ensures count { OnOk result
            (self.new.fault ≡ None → self.new.count ≡ self.old.count + count) }
    {
        batch.fill(piece, other, piece.first + self.count, count);
        let None = other else {
            return self.add_compared_pairs(piece, other, batch, count, pen);
        };
        match (style_of(&piece.layout.fields), piece.layout.unit) {
            (Style::Fields, Unit::Second) => {
                let form = Form {
                    style: Style::Fields,
                    unit: Unit::Second,
                };
                self.add_pairs_in(piece, form, batch, count, pen)
            }
            (style, unit) => self.add_pairs_in(piece, Form { style, unit }, batch, count, pen),
        }
    }

    /// Adds the rows of pairs, as [`add_pairs`](Rows::add_pairs) does where there is no other release, in
    /// the layout's form.
    #[inline(always)]
    fn add_pairs_in<'s>(
        &mut self,
        piece: &Piece<'_, 's>,
        form: Form,
        batch: &PairBatch<'s>,
        count: usize,
        pen: &mut RowPen,
    ) -> Result<(), AllocError>
        requires form { form ≡ form_of piece.now.layout.now }
        requires columns { ArePairColumns piece.now None (piece.now.first + self.old.count) count
            batch.now }
        requires goes_on { self.old.fault ≡ None }
        requires fits { piece.now.first + self.old.count + count < 2 ^ 64 }
        ensures rows { (before : List CsvRecord) → AreRowsOf piece.now.layout.now
            (by_both piece.now None) piece.now.most piece.now.first before self.old
            → OnOk result (AreRowsOf piece.now.layout.now (by_both piece.now None) piece.now.most
            piece.now.first (before ++ pairs_of piece.now batch.now.pairs.places count) self.new) }
        ensures count { OnOk result
            (self.new.fault ≡ None → self.new.count ≡ self.old.count + count) }
    {
        for place in 0..count {
            let is_end = self.add_pair(piece, form, batch, place, pen)?;
            if is_end {
                return Ok(());
            }
        }
        Ok(())
    }

    /// Adds the row of a pair, or the fault that ends the run there. Returns whether the run ends.
    #[inline(always)]
    fn add_pair<'s>(
        &mut self,
        piece: &Piece<'_, 's>,
        form: Form,
        batch: &PairBatch<'s>,
        place: usize,
        pen: &mut RowPen,
    ) -> Result<bool, AllocError>
        requires form { form ≡ form_of piece.now.layout.now }
        requires at { IsPairAt piece.now None (piece.now.first + self.old.count) batch.now place }
        requires goes_on { self.old.fault ≡ None }
        requires fits { piece.now.first + self.old.count + 1 < 2 ^ 64 }
        ensures next { OnOk result (AreNextBy piece.now.layout.now (by_both piece.now None)
            piece.now.most (piece.now.first + self.old.count)
            (pair_of piece.now (pair_in batch.now.pairs.places place)) self.old self.new) }
        ensures end { IfOk result (λ end. end ≡ is_some self.new.fault) }
    {
        if batch.shown.numbers[place] == UNKNOWN {
            self.add_pair_slowly(piece, &None, batch, place, pen)?;
            return Ok(self.fault.is_some());
        }
        self.add_known_pair(piece, form, batch, place)?;
        Ok(false)
    }

    /// Adds the row of a pair whose state is known.
    #[inline(always)]
    fn add_known_pair(
        &mut self,
        piece: &Piece<'_, '_>,
        form: Form,
        batch: &PairBatch<'_>,
        place: usize,
    ) -> Result<(), AllocError>
        requires form { form ≡ form_of piece.now.layout.now }
        requires at { IsPairAt piece.now None (piece.now.first + self.old.count) batch.now place }
        requires known { slice_index_or batch.now.shown.numbers place 0 ≢ UNKNOWN }
        requires fits { piece.now.first + self.old.count + 1 < 2 ^ 64 }
        ensures next { OnOk result (AreNextBy piece.now.layout.now (by_both piece.now None)
            piece.now.most (piece.now.first + self.old.count)
            (pair_of piece.now (pair_in batch.now.pairs.places place)) self.old self.new) }
        ensures fault { OnOk result (self.new.fault ≡ self.old.fault) }
    {
        let pair = batch.pairs.places[place];
        let time = batch.pairs.times[place];
        let rest = RowRest {
            time: RowTime {
                second: time.second,
                fraction: time.fraction,
                unit: form.unit,
            },
            state: batch.shown.states.text(batch.shown.numbers[place]),
            style: form.style,
            delimiter: piece.layout.delimiter.byte(),
        };
        self.text
            .push_row(piece.bytes, pair.start, pair.end, &rest)?;
        self.count += 1;
        Ok(())
    }

    /// Adds the rows of pairs, as [`add_pairs`](Rows::add_pairs) does where there is another release.
    #[inline(never)]
    fn add_compared_pairs<'s>(
        &mut self,
        piece: &Piece<'_, 's>,
        other: &Option<Piece<'_, 's>>,
        batch: &PairBatch<'s>,
        count: usize,
        pen: &mut RowPen,
    ) -> Result<(), AllocError>
        requires columns { ArePairColumns piece.now other.now
            (piece.now.first + self.old.count) count batch.now }
        requires other { IfSome other.now (IsOfPiece piece.now) }
        requires compared { IsSome other.now }
        requires goes_on { self.old.fault ≡ None }
        requires fits { piece.now.first + self.old.count + count < 2 ^ 64 }
        ensures rows { (before : List CsvRecord) → AreRowsOf piece.now.layout.now
            (by_both piece.now (files_of other.now)) piece.now.most piece.now.first before self.old
            → OnOk result (AreRowsOf piece.now.layout.now (by_both piece.now (files_of other.now))
            piece.now.most piece.now.first
            (before ++ pairs_of piece.now batch.now.pairs.places count) self.new) }
        ensures count { OnOk result
            (self.new.fault ≡ None → self.new.count ≡ self.old.count + count) }
    {
        for place in 0..count {
            let is_end = self.add_compared_pair(piece, other, batch, place, pen)?;
            if is_end {
                return Ok(());
            }
        }
        Ok(())
    }

    /// Adds what is written of a pair where there is another release, or the fault that ends the run
    /// there. Returns whether the run ends. Nothing is written where both releases show the same state.
    #[inline(always)]
    fn add_compared_pair<'s>(
        &mut self,
        piece: &Piece<'_, 's>,
        other: &Option<Piece<'_, 's>>,
        batch: &PairBatch<'s>,
        place: usize,
        pen: &mut RowPen,
    ) -> Result<bool, AllocError>
        requires at { IsPairAt piece.now other.now (piece.now.first + self.old.count) batch.now
            place }
        requires other { IfSome other.now (IsOfPiece piece.now) }
        requires compared { IsSome other.now }
        requires goes_on { self.old.fault ≡ None }
        requires fits { piece.now.first + self.old.count + 1 < 2 ^ 64 }
        ensures next { OnOk result (AreNextBy piece.now.layout.now
            (by_both piece.now (files_of other.now)) piece.now.most
            (piece.now.first + self.old.count)
            (pair_of piece.now (pair_in batch.now.pairs.places place)) self.old self.new) }
        ensures end { IfOk result (λ end. end ≡ is_some self.new.fault) }
    {
        if batch.same[place] {
            pen.tallies.count(Some(batch.shown.files[place]), false);
            self.count += 1;
            return Ok(false);
        }
        self.add_pair_slowly(piece, other, batch, place, pen)?;
        Ok(self.fault.is_some())
    }

    /// Adds a pair as any record, by what the tables have of it.
    #[inline(never)]
    fn add_pair_slowly<'s>(
        &mut self,
        piece: &Piece<'_, 's>,
        other: &Option<Piece<'_, 's>>,
        batch: &PairBatch<'s>,
        place: usize,
        pen: &mut RowPen,
    ) -> Result<(), AllocError>
        requires at { IsPairAt piece.now other.now (piece.now.first + self.old.count) batch.now
            place }
        requires other { IfSome other.now (IsOfPiece piece.now) }
        requires fits { piece.now.first + self.old.count + 1 < 2 ^ 64 }
        ensures { OnOk result (AreNextBy piece.now.layout.now
            (by_both piece.now (files_of other.now)) piece.now.most
            (piece.now.first + self.old.count)
            (pair_of piece.now (pair_in batch.now.pairs.places place)) self.old self.new) }
    {
        let given = batch.pairs.places[place].record();
        let found = batch.found(piece, &given, place);
        self.add_slowly(piece, other, found, pen)
    }
}
