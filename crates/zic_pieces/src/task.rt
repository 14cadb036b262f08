//! A task of numbered pieces, and how it ends.

ghost use Rattle.std.specs.Prelude.{◌≡◌, ◌<◌};
ghost use Rattle.zic_pieces.specs.Task.{IsOutcome};

use std::alloc::Global;

/// Why a piece has no value.
#[derive(Debug, Drop)]
pub enum PieceStop<F> {
    /// The fault of the piece.
    Fault(F),
    /// Memory ran out. That says nothing about the piece.
    Memory,
}

/// A task of pieces 0, 1, 2, .., each of which has a value or a fault. Where more than one is
/// right, the task's relation has them all.
pub trait Task {
    type Out: Send + Drop;

    type Fault: Send + Drop;

    ghost use Rattle.std.specs.Prelude.{ℕ, Result};

    // the number of pieces
    ghost count: { Self → ℕ };

    // the outcomes that each piece may have: a value, or a fault
    ghost outcome: { Self → ℕ → Result Self.Out Self.Fault → Type 0 };

    /// Returns the number of pieces.
    fn pieces(&self) -> u64
        ensures { result ≡ count self.now };

    /// Returns the value of piece `i`, or why it has none.
    fn perform(&self, alloc: Global, i: u64) -> Result<Self::Out, PieceStop<Self::Fault>>
        requires { i < count self.now }
        ensures { IsOutcome (outcome self.now i) result };
}

/// Why a task has no values.
#[derive(Debug, Drop)]
pub enum TaskStop<F> {
    /// This piece has this fault, and every piece below it has a value.
    Fault(u64, F),
    /// Memory ran out: in this piece, or to keep its value, and every piece below it has a value;
    /// or elsewhere.
    Memory(Option<u64>),
    /// A worker could not be started. Never answered, since the other workers go on.
    NoThread,
}
