//! A round of files, in pieces for several workers.

ghost use Rattle.std.specs.Prelude.{◌≡◌, ◌≤◌, ◌<◌, ◌-◌, length, IfOk};
ghost use Rattle.zic_compare.specs.Files.{HasInstants};
ghost use Rattle.zic_compare.specs.Lines.{AreLinesOfAll};
ghost use Rattle.zic_compare.specs.code.Rounds.{AreLinesIn, IsRound, count_of, files_in, files_of, start_of};
ghost use Rattle.zic_compare.specs.declared.lists.TheConstants.{MAX_NAMES};
ghost use Rattle.zic_layouts.specs.declared.plan.TheConstants.{MAX_OF_PIECE};

use crate::lists::Lists;
use std::alloc::{AllocError, Global};
use std::marker::Model;
use zic_pieces::{PieceStop, Task};

/// The lines of a piece; clauses see their bytes.
#[derive(Drop)]
pub(crate) struct Lines {
    pub(crate) lines: Vec<u8>,
}

impl Model for Lines {
    ghost use Rattle.std.specs.Prelude.{List, ℕ};

    ghost Value = { List ℕ };

    ghost view = { λ l. l.lines.items };
}

/// The files of a list from one number on up to another, and the number of files that a piece has.
#[derive(Drop)]
pub(crate) struct Round<'r, 'a> {
    lists: &'r Lists<'a>,
    first: usize,
    end: usize,
    size: usize,
}

impl<'r, 'a> Model for Round<'r, 'a> {
    ghost use Rattle.zic_compare.specs.code.Rounds.{FileRound, IsRound};

    ghost Value = { FileRound };

    ghost view = { λ r. record {
      lists = r.lists.now;
      first = r.first;
      end = r.end;
      size = r.size;
    } };

    ghost invariant = { λ r. IsRound (record {
      lists = r.lists.now;
      first = r.first;
      end = r.end;
      size = r.size;
    }) };
}

impl<'r, 'a> Round<'r, 'a> {
    /// Returns the files of these numbers in pieces of this size.
    pub(crate) fn new(lists: &'r Lists<'a>, first: usize, end: usize, size: usize) -> Round<'r, 'a>
        requires instants { HasInstants lists.now.how }
        requires order { first ≤ end }
        requires within { end ≤ length (files_of lists.now) }
        requires few { end - first ≤ MAX_NAMES }
        requires size { (1 ≤ size) × (size ≤ MAX_OF_PIECE) }
        ensures { result ≡ record { lists = lists.now; first = first; end = end; size = size } }
    {
        Round {
            lists,
            first,
            end,
            size,
        }
    }

    /// States that there are no more pieces than a task may have.
    pub(crate) fn is_round(&self)
        ensures sound { IsRound self.now }
        ensures few { count_of self.now ≤ MAX_NAMES }
    {
        let _ = &self.lists;
    }

    /// Returns the number of the first file of a piece, and of the end of the piece before it.
    fn start(&self, i: usize) -> usize
        requires { i ≤ MAX_NAMES }
        ensures { result ≡ start_of self.now i }
    {
        self.first + (i * self.size).min(self.end - self.first)
    }

    /// Returns the lines of a piece.
    fn lines(&self, alloc: Global, i: usize) -> Result<Vec<u8>, AllocError>
        requires piece { i < count_of self.now }
        requires few { count_of self.now ≤ MAX_NAMES }
        ensures { IfOk result (λ lines. AreLinesOfAll (AreLinesIn self.now.lists)
            (files_in self.now i) lines.items) }
    {
        self.lists.lines(alloc, self.start(i), self.start(i + 1))
    }
}

impl<'r, 'a> Task for Round<'r, 'a> {
    type Out = Lines;

    type Fault = ();

    ghost use Rattle.zic_compare.specs.code.Rounds.{IsOutcomeOf, count_of};

    ghost count = { count_of };

    ghost outcome = { IsOutcomeOf };

    fn pieces(&self) -> u64 {
        self.is_round();
        (self.end - self.first).div_ceil(self.size) as u64
    }

    fn perform(&self, alloc: Global, i: u64) -> Result<Lines, PieceStop<()>> {
        self.is_round();
        match self.lines(alloc, i as usize) {
            Ok(lines) => Ok(Lines { lines }),
            Err(_) => Err(PieceStop::Memory),
        }
    }
}
