//! The records of a round, in pieces for several workers.

ghost use Rattle.std.specs.Prelude.{◌≡◌, ◌≤◌, ◌<◌, ◌+◌, ◌-◌, true, false, IfOk, length, take};
ghost use Rattle.zic_columns.specs.Round.{ArePiecesOf};
ghost use Rattle.zic_columns.specs.declared.pieces.TheConstants.{MAX_ROUND_PIECES};
ghost use Rattle.zic_layouts.specs.declared.plan.TheConstants.{MAX_ROWS};
ghost use Rattle.zic_convert.specs.code.Pieces.{ArePieces, AreRowsOfPiece};

use crate::texts::TextPool;
use std::alloc::{AllocError, Global};
use std::marker::Model;
use zic_columns::Round;
use zic_layouts::{Layout, Plan};
use zic_piece_rows::{Piece, Rows, rows_of_piece};
use zic_pieces::{PieceStop, Task};
use zic_zones::Releases;

/// The least room for the text of a piece that is taken at once, in bytes.
const LEAST_ROOM: usize = 256;

/// The greatest room for the text of a piece that is taken at once, in bytes.
const GREATEST_ROOM: usize = 4_194_304;

/// The records of a round, in pieces that are each a range of its bytes, with the number of the
/// first row. Clauses see the bytes of each piece.
#[derive(Drop)]
pub(crate) struct RowPieces<'a, 's, P> {
    layout: &'a Layout,
    releases: &'a Releases<'s>,
    round: Round<'a>,
    first: u64,
    /// The greatest number that a row may have.
    most: u64,
    /// The number of records of a piece; the last may have fewer.
    size: u64,
    /// Whether a row that ends the run stops the task. If not, the value of its piece is the rows before
    /// it.
    stops: bool,
    /// Where the texts come from that rows are written into.
    texts: &'a P,
}

impl<'a, 's, P> Model for RowPieces<'a, 's, P> {
    ghost use Rattle.zic_convert.specs.code.Pieces.{Pieces, ArePieces};

    ghost Value = { Pieces };

    ghost view = { λ p. record {
      layout = p.layout.now;
      releases = p.releases.now;
      pieces = p.round;
      first = p.first;
      most = p.most;
      size = p.size;
      stops = p.stops;
    } };

    ghost invariant = { λ p. ArePieces (record {
      layout = p.layout.now;
      releases = p.releases.now;
      pieces = p.round;
      first = p.first;
      most = p.most;
      size = p.size;
      stops = p.stops;
    }) };
}

impl<'a, 's, P: TextPool> RowPieces<'a, 's, P> {
    /// Returns the pieces of a round, cut as the plan says, as a task that stops at a row that ends
    /// the run. The first record is the row of this number. Rows are written into texts of the pool.
    pub(crate) fn new(
        layout: &'a Layout,
        releases: &'a Releases<'s>,
        round: Round<'a>,
        first: u64,
        plan: &Plan,
        texts: &'a P,
    ) -> RowPieces<'a, 's, P>
        requires least { 1 ≤ first }
        requires first { first ≤ MAX_ROWS + 1 }
        requires few { length round ≤ MAX_ROUND_PIECES }
        requires cut { ArePiecesOf layout.now.delimiter plan.now.row_piece round }
        ensures pieces { result ≡ record {
          layout = layout.now;
          releases = releases.now;
          pieces = round.entry;
          first = first;
          most = plan.now.max_rows;
          size = plan.now.row_piece;
          stops = true;
        } }
        ensures sound { ArePieces result }
    {
        RowPieces {
            layout,
            releases,
            round,
            first,
            most: plan.max_rows(),
            size: plan.row_piece(),
            stops: true,
            texts,
        }
    }

    /// Returns the number of the first row.
    pub(crate) fn first(&self) -> u64
        ensures first { result ≡ self.now.first }
        ensures sound { ArePieces self.now }
    {
        self.first
    }

    /// Returns the pieces up to one with a row that ends the run, as a task that doesn't stop there.
    pub(crate) fn up_to(&self, i: u64) -> RowPieces<'_, 's, P>
        requires { i < length self.now.pieces }
        ensures { result ≡ record self.now {
          pieces = take (i + 1) self.now.pieces;
          stops = false;
        } }
    {
        RowPieces {
            layout: self.layout,
            releases: self.releases,
            round: self.round.front(i as usize + 1),
            first: self.first,
            most: self.most,
            size: self.size,
            stops: false,
            texts: self.texts,
        }
    }

    /// Returns the same pieces, as a task in which the row of this number ends the run, whatever it has,
    /// and that doesn't stop there.
    pub(crate) fn before(&self, row: u64) -> RowPieces<'_, 's, P>
        requires { 1 ≤ row }
        ensures { result ≡ record self.now {
          most = row - 1;
          stops = false;
        } }
    {
        RowPieces {
            layout: self.layout,
            releases: self.releases,
            round: self.round.front(self.round.len()),
            first: self.first,
            most: row - 1,
            size: self.size,
            stops: false,
            texts: self.texts,
        }
    }

    /// Returns the rows of the piece with this index, up to the first that ends the run.
    fn piece_rows(&self, alloc: Global, i: u64) -> Result<Rows, AllocError>
        requires { i < length self.now.pieces }
        ensures { IfOk result (AreRowsOfPiece self.now i) }
    {
        let piece = Piece {
            bytes: self.round.piece(i as usize),
            zones: &self.releases.zones,
            layout: self.layout,
            first: self.first + i * self.size,
            most: self.most,
            lines_before: self.round.lines_before(i as usize),
        };
        let text = self.texts.take(alloc, room_for(piece.bytes.len()))?;
        rows_of_piece(alloc, &piece, &self.releases.old, text)
    }
}

impl<'a, 's, P: TextPool> Task for RowPieces<'a, 's, P> {
    type Out = Rows;

    type Fault = ();

    ghost use Rattle.std.specs.Prelude.{length};
    ghost use Rattle.zic_convert.specs.code.Pieces.{IsOutcomeOf};

    ghost count = { λ p. length p.pieces };

    ghost outcome = { IsOutcomeOf };

    fn pieces(&self) -> u64 {
        self.round.len() as u64
    }

    fn perform(&self, alloc: Global, i: u64) -> Result<Rows, PieceStop<()>> {
        let Ok(rows) = self.piece_rows(alloc, i) else {
            return Err(PieceStop::Memory);
        };
        if self.stops && rows.fault.is_some() {
            return Err(PieceStop::Fault(()));
        }
        Ok(rows)
    }
}

/// Returns the number of bytes to reserve for the rows of a piece of `len` bytes. Rows mostly have
/// less than three bytes for each of their records.
fn room_for(len: usize) -> usize {
    len.min(GREATEST_ROOM)
        .saturating_mul(3)
        .clamp(LEAST_ROOM, GREATEST_ROOM)
}
