//! Where rows with a fault are noted.

use crate::layout::LineEnd;
use std::marker::Model;
use zic_base::RowFault;

/// Where the record of a row with a fault begins, and what is wrong there. Clauses don't see this.
#[derive(Debug, Drop)]
pub struct FaultDetail {
    /// The number of the line where the record begins, from 1: one more than the line feeds before it.
    pub line: u64,
    /// The field at fault, without double quotes; empty where the fault isn't of one field.
    pub value: Vec<u8>,
}

/// A row with a fault, and the own bytes of its record if that is rejected, or none.
#[derive(Debug, Drop)]
pub struct FaultyRow {
    pub fault: RowFault,
    pub own: Vec<u8>,
    /// How the record's own line ends. Clauses don't see this.
    pub line_end: LineEnd,
    /// Where the record is, if that was requested.
    pub detail: Option<FaultDetail>,
}

impl Model for FaultyRow {
    ghost use Rattle.zic_layouts.specs.Noted.{RowNote};

    ghost Value = { RowNote };

    ghost view = { λ r. record { fault = r.fault; own = r.own.items } };
}

/// How many rows of a piece are in a zone, and how many of them another release answers differently.
/// Clauses don't see this.
#[derive(Debug, Drop)]
pub struct ZoneTally {
    /// The zone's name, as it stands in the column.
    pub zone: Vec<u8>,
    pub rows: u64,
    pub differ: u64,
}

/// Takes note of rows with a fault, in their order.
pub trait RowLog {
    ghost use Rattle.std.specs.Prelude.{◌≡◌, [], ◌∷◌, ℕ, List, Option, None, IfSome, IsFalse};
    ghost use Rattle.zic_base.specs.Growth.{Gains};
    ghost use Rattle.zic_layouts.specs.Noted.{RowNote};

    // what was noted, in order, where it is known
    ghost noted: { Self → Option (List RowNote) } = { λ _. None };

    // the own bytes of the header that it began with, where they are known
    ghost began: { Self → Option (List ℕ) } = { λ _. None };

    // what was noted could not be written
    ghost failed: { Self → Type 0 } = { λ _. ⊥ };

    /// Takes note of the own bytes of the header before the rejected records; empty if there is none.
    fn begin(&mut self, header: &[u8])
        ensures noted { noted self.new ≡ noted self.old }
        ensures began { IfSome (began self.new) (λ own. own ≡ header.now) };

    /// Takes note of a row with a fault.
    fn note(&mut self, row: &FaultyRow)
        ensures noted { Gains (noted self.old) (noted self.new) (row.now ∷ []) }
        ensures began { began self.new ≡ began self.old };

    /// Adds to the numbers of rows of a zone.
    fn tally(&mut self, tally: &ZoneTally)
        ensures noted { noted self.new ≡ noted self.old }
        ensures began { began self.new ≡ began self.old };

    /// Flushes the files, once the rows of a round were written. Returns false only if what was noted
    /// could not be written: the run then ends.
    fn flush(&mut self) -> bool
        ensures noted { noted self.new ≡ noted self.old }
        ensures began { began self.new ≡ began self.old }
        ensures failed { IsFalse result → failed self.new };
}

/// The log that takes no note.
#[derive(Clone, Copy, Debug, Drop)]
pub struct Unnoted;

impl RowLog for Unnoted {
    fn begin(&mut self, _header: &[u8]) {}

    fn note(&mut self, _row: &FaultyRow) {}

    fn tally(&mut self, _tally: &ZoneTally) {}

    fn flush(&mut self) -> bool {
        true
    }
}
