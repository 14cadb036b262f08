//! Some records of a piece, column by column.

ghost use Rattle.std.specs.Prelude.{◌≡◌, ◌≤◌, All, take, OnOk};
ghost use Rattle.zic_columns.specs.declared.splits.TheConstants.{BATCH};
ghost use Rattle.zic_piece_rows.specs.code.Answer.{AreAnswers, AreTimes};
ghost use Rattle.zic_piece_rows.specs.code.Batch.{IsGiven};

use crate::answers::Answers;
use crate::piece::Piece;
use crate::time::{ZERO_TIME, read_times};
use std::alloc::{AllocError, Global};
use zic_columns::{BATCH, Field, Record, Span};
use zic_row_text::RowTime;

/// Columns of some records: where their fields stand, the times in their fields, and what a release
/// answers them.
#[derive(Drop)]
pub(crate) struct Batch<'s> {
    pub(crate) records: [Record; BATCH],
    pub(crate) times: [RowTime; BATCH],
    pub(crate) answers: Answers<'s>,
}

impl<'s> Batch<'s> {
    /// Returns a batch before its first records. All bytes of its columns are zero, so that these are
    /// cleared where they stand; columns of other values would be made elsewhere and copied.
    pub(crate) fn new(piece: &Piece<'_, 's>) -> Batch<'s> {
        let span = Span { start: 0, end: 0 };
        let field = Field::Plain(span);
        let record = Record {
            own: span,
            count: 0,
            zone: field,
            time: field,
            stray: false,
        };
        Batch {
            records: [record; BATCH],
            times: [ZERO_TIME; BATCH],
            answers: Answers::new(piece.zones.states()),
        }
    }

    /// Fills in the times and the answers of the first `count` records, which are of the piece.
    pub(crate) fn fill(
        &mut self,
        alloc: Global,
        piece: &Piece<'_, 's>,
        count: usize,
    ) -> Result<(), AllocError>
        requires few { count ≤ BATCH }
        requires split { All (IsGiven piece.now) (take count self.old.records) }
        ensures records { self.new.records ≡ self.old.records }
        ensures times { AreTimes piece.now count self.new.records self.new.times }
        ensures answers { OnOk result (AreAnswers piece.now self.new.records self.new.times count
            self.new.answers) }
    {
        read_times(piece, &self.records, count, &mut self.times);
        self.answers
            .find(alloc, piece, &self.records, &self.times, count)
    }
}
