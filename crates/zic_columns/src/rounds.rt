//! A round of a column.

ghost use Rattle.std.specs.Prelude.{◌≡◌, ◌<◌, ◌≤◌, ◌∷◌, [], length, take, Some};
ghost use Rattle.std.specs.List.{slice_get};

use crate::pieces::PieceRange;
use std::marker::Model;

/// Whole records of a column, cut into pieces that several threads may read. Clauses see the bytes
/// of each piece.
#[derive(Drop)]
pub struct Round<'a> {
    pub(crate) bytes: &'a [u8],
    /// The place of each piece.
    pub(crate) ranges: &'a [PieceRange],
}

impl<'a> Model for Round<'a> {
    ghost use Rattle.std.specs.Prelude.{ℕ, List, length};

    ghost Value = { List (List ℕ) };

    ghost use Rattle.zic_columns.specs.code.Range.{AreWithin, pieces_at};

    ghost view = { λ round. pieces_at round.bytes.now round.ranges.now };

    ghost invariant = { λ round. AreWithin round.ranges.now (length round.bytes.now) };
}

impl<'a> Round<'a> {
    /// Returns the number of pieces.
    pub fn len(&self) -> usize
        ensures { result ≡ length self.now }
    {
        self.ranges.len()
    }

    /// Returns a round of the first `count` pieces.
    pub fn front(&self, count: usize) -> Round<'_>
        requires { count ≤ length self.now }
        ensures { result ≡ take count self.now }
    {
        Round {
            bytes: self.bytes,
            ranges: &self.ranges[..count],
        }
    }

    /// Returns the bytes of the piece with this index.
    pub fn piece(&self, index: usize) -> &'a [u8]
        requires { index < length self.now }
        ensures { slice_get self.now index ≡ Some result.now }
    {
        let ranges = self.ranges;
        let range = ranges[index];
        &self.bytes[range.start..range.end]
    }

    /// Returns the number of line feeds in the column before the piece with this index, where they are
    /// counted. Clauses don't see it.
    pub fn lines_before(&self, index: usize) -> Option<u64>
        requires { index < length self.now }
    {
        let ranges = self.ranges;
        let range = ranges[index];
        range.lines_before
    }
}

/// Some bytes as a round by themselves. Clauses see the bytes.
#[derive(Drop)]
pub struct OnePiece<'a> {
    bytes: &'a [u8],
    ranges: [PieceRange; 1],
}

impl<'a> Model for OnePiece<'a> {
    ghost use Rattle.std.specs.Prelude.{◌≡◌, [], ◌∷◌, ℕ, List, None, length};

    ghost Value = { List ℕ };

    ghost view = { λ one. one.bytes.now };

    ghost invariant = { λ one. one.ranges
        ≡ record { start = 0; «end» = length one.bytes.now; lines_before = None } ∷ [] };
}

impl<'a> OnePiece<'a> {
    /// Returns a round of these bytes.
    pub fn new(bytes: &'a [u8]) -> OnePiece<'a>
        ensures { result ≡ bytes.now }
    {
        let range = PieceRange {
            start: 0,
            end: bytes.len(),
            lines_before: None,
        };
        OnePiece {
            bytes,
            ranges: [range],
        }
    }

    /// Returns the round, which has one piece.
    pub fn round(&self) -> Round<'_>
        ensures { result ≡ self.now ∷ [] }
    {
        Round {
            bytes: self.bytes,
            ranges: &self.ranges,
        }
    }
}
