//! A caller's token of shared claims: what it knows, for contracts alone, and the gates that
//! workers pass before they perform a piece.

ghost use Rattle.std.specs.Prelude.{◌≡◌, ◌+◌, length};
ghost use Rattle.zic_pieces.specs.Given.{given};
ghost use Rattle.zic_pieces.specs.Passes.{IsSound};

use atomic_table::Seat;
use std::collections::LinkedList;
use std::marker::Model;

/// A caller's token of claims. It tells its thread's calls apart from those of other threads, and
/// remembers what they did.
///
/// Contracts see whose it is and what it knows: its events in order, the least number that it has
/// seen, its room and whether it has ended. Every pass is sound at every moment, as [`Pass::room`]
/// promises (`sound`).
#[derive(Drop)]
pub struct Pass {
    pub(crate) seat: Seat<(), Known>,
    pub(crate) room: u64,
    pub(crate) ended: bool,
    pub(crate) given: u64,
}

impl Model for Pass {
    ghost use Rattle.zic_pieces.specs.Passes.{Held};
    ghost use Rattle.zic_pieces.specs.code.Rule.{IsBetweenCalls};

    ghost Value = { Held };

    ghost view = { λ p. record { table = p.seat.table_id; known = p.seat.me.0 } };

    ghost invariant = { λ p. IsBetweenCalls p.seat.me p.room p.ended p.given };
}

impl Pass {
    /// Returns how often the pass can still be split, at most 1,023 times.
    pub fn room(&self) -> u64
        ensures room { self.now.known.parts ≡ result + 1 }
        ensures sound { IsSound self.now.known }
    {
        self.room
    }

    /// Returns whether a claim has answered `End`: of this pass, or of one that it came from or
    /// took in.
    pub fn ended(&self) -> bool
        ensures { result ≡ self.now.known.ended }
    {
        self.ended
    }

    /// Returns the number of pieces that its claims gave.
    pub fn given(&self) -> u64
        ensures { result ≡ length (given self.now.known.pieces self.now.known.events) }
    {
        self.given
    }
}

/// An event of a pass: one atomic step on one of the two shared words.
pub enum Event {
    /// The pass drew this number; then the least number that it had seen.
    Drew(u64, u64),
    /// The pass reported this number.
    Reported(u64),
    /// The pass found this to be the least number reported; then one more than its greatest draw,
    /// 0 if it had none.
    Glanced(u64, u64),
}

/// The knowledge of a pass.
pub struct Known {
    /// The number of pieces.
    pub pieces: u64,
    /// The number of passes that this one stands for: one more than its room, and 0 once it is
    /// part of another.
    pub parts: u64,
    /// The least number that it has seen reported, `pieces` if none.
    pub seen: u64,
    /// Whether a claim of it has answered `End`.
    pub ended: bool,
    /// Its events, the first one first.
    pub events: LinkedList<Event>,
}

/// A gate that a worker enters before it performs a piece. It may hold the worker back, to show in
/// which order pieces can begin.
pub trait Gate {
    /// Returns once the worker may begin piece `i`.
    fn enter(&self, i: u64);
}

/// The gate that holds nothing back.
#[derive(Clone, Copy, Debug, Drop)]
pub struct Open;

impl Gate for Open {
    fn enter(&self, _i: u64) {}
}
