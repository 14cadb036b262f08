//! Shared claims on numbered pieces, and the answers of their calls.

ghost use Rattle.std.specs.Prelude.{◌≡◌, ℕ, ◌+◌, ◌≤◌, ◌<◌, length, IfOk, IsTrue};
ghost use Rattle.zic_pieces.specs.Events.{draws, times};
ghost use Rattle.zic_pieces.specs.Given.{given, skipped};
ghost use Rattle.zic_pieces.specs.Settlement.{IsEachBelow, IsLeast, FindReports};
ghost use Rattle.zic_pieces.specs.Core.{first, both, glanced, reported};
ghost use Rattle.zic_pieces.specs.Answers.{Answers, IsCut};
ghost use Rattle.zic_pieces.specs.Passes.{IsOf, IsSound};

use crate::pass::{Known, Pass};
use crate::rule::{Core, Draw, FAULT, Glance, Learn, NEXT, Part, Report};
use atomic_table::Table;
use std::alloc::{AllocError, Global};
use std::marker::Model;

/// The greatest number of pieces that claims share out.
pub const MAX_PIECES: u64 = 4_294_967_296;

/// The number of passes that the first pass stands for.
const MAX_PASSES: u64 = 1024;

/// Claims on pieces 0, 1, 2, .. for any number of threads, over two atomic words. No call waits
/// for another.
///
/// Contracts see which claims they are, and the number of pieces.
#[derive(Drop)]
pub struct Claims {
    table: Table<(), Known, u64, Core, Global>,
    pieces: u64,
}

impl Model for Claims {
    ghost use Rattle.std.specs.Prelude.{◌≡◌, ◌≤◌};
    ghost use Rattle.zic_pieces.specs.Passes.{Shared};

    ghost Value = { Shared };

    ghost view = { λ c. record { table = c.table.shared.table_id; pieces = c.pieces } };

    ghost invariant = { λ c.
        (c.table.shared.table_id.words ≡ 2) × (c.table.shared.table_id.slots ≡ 0)
        × (c.table.shared.key ≡ c.pieces) × (c.pieces ≤ 4294967296) };
}

impl Claims {
    /// Returns claims on `pieces` pieces, and their first pass, or an error where memory runs out.
    pub fn new(alloc: Global, pieces: u64) -> Result<(Claims, Pass), AllocError>
        requires { pieces ≤ 4294967296 }
        ensures claims { IfOk result (λ r. (r.0.pieces ≡ pieces) × IsOf r.0 r.1) }
        ensures pass { IfOk result (λ r. r.1.known ≡ first pieces) }
    {
        let (table, seat) = Table::of_words(alloc, &[0, pieces], &pieces)?;
        let pass = Pass {
            seat,
            room: MAX_PASSES - 1,
            ended: false,
            given: 0,
        };
        Ok((Claims { table, pieces }, pass))
    }

    /// Draws a number, by one atomic step, and where it is a piece looks at the least number
    /// reported, by another. A pass that has ended answers `End` and takes no step.
    pub fn claim(&self, pass: &mut Pass) -> Claim
        requires { IsOf self.now pass.old }
        ensures whose { pass.new.table ≡ pass.old.table }
        ensures answer { Answers pass.old.known result pass.new.known }
        ensures sound { IsSound pass.new.known }
    {
        if pass.ended {
            return Claim::End;
        }
        let i = self.table.shared.fetch_add::<Draw>(&mut pass.seat, NEXT, 1);
        if i >= self.pieces {
            pass.ended = true;
            return Claim::End;
        }
        let least = self.table.shared.load::<Glance>(&mut pass.seat, FAULT);
        if least < i {
            return Claim::Skip(i);
        }
        pass.given += 1;
        Claim::Do(i)
    }

    /// Cuts a pass of room r above 0 into one of room r - 1, which keeps the events, and one of
    /// room 0. Both keep what the old pass had seen, and whether it had ended.
    pub fn split(&self, mut pass: Pass) -> Split
        requires { IsOf self.now pass }
        ensures { IsCut pass result }
    {
        if pass.room == 0 {
            return Split::Full(pass);
        }
        let seat = self.table.shared.split_seat::<Part>(&mut pass.seat);
        pass.room -= 1;
        let other = Pass {
            seat,
            room: 0,
            ended: pass.ended,
            given: 0,
        };
        Split::Two(pass, other)
    }

    /// Makes two passes one. Its room is the sum of the two rooms and 1; it has the first pass's
    /// events and then the second's, and the lesser of what they had seen; and it has ended if
    /// either had.
    pub fn join(&self, first: Pass, second: Pass) -> Pass
        requires first { IsOf self.now first }
        requires second { IsOf self.now second }
        ensures joined { (result.table ≡ first.table)
            × (result.known ≡ both first.known second.known) }
        ensures sound { IsSound result.known }
    {
        let Pass {
            mut seat,
            room,
            ended,
            given,
        } = first;
        let shared = &self.table.shared;
        shared.join_seat::<Part>(&mut seat, second.seat);
        shared.load::<Learn>(&mut seat, NEXT);
        Pass {
            seat,
            room: room + second.room + 1,
            ended: ended | second.ended,
            given: given + second.given,
        }
    }

    /// Reports the number `i`: a claim of a greater number that looks later isn't given.
    pub fn report(&self, pass: &mut Pass, i: u64)
        requires whose { IsOf self.now pass.old }
        requires piece { i < self.now.pieces }
        ensures reported { (pass.new.table ≡ pass.old.table)
            × (pass.new.known ≡ reported i pass.old.known) }
        ensures sound { IsSound pass.new.known }
    {
        self.table
            .shared
            .fetch_min::<Report>(&mut pass.seat, FAULT, i);
    }

    /// Returns the least number reported so far, or the number of pieces if none was.
    pub fn glance(&self, pass: &mut Pass) -> u64
        requires { IsOf self.now pass.old }
        ensures glanced { (pass.new.table ≡ pass.old.table)
            × (pass.new.known ≡ glanced result pass.old.known) }
        ensures seen { result ≤ pass.old.known.seen }
        ensures sound { IsSound pass.new.known }
    {
        self.table.shared.load::<Glance>(&mut pass.seat, FAULT)
    }

    /// Ends the claims, once all passes are joined to one, and returns what they came to.
    pub fn settle(self, pass: Pass) -> Settled
        requires whose { IsOf self pass }
        requires all { pass.known.parts ≡ 1024 }
        ensures draws { (m : ℕ) × (m ≤ self.pieces + 1024)
            × IsEachBelow m (draws pass.known.events) }
        ensures glances { FindReports self.pieces pass.known.events }
        ensures least { IsLeast self.pieces pass.known.events result.least }
        ensures given { result.given ≡ length (given self.pieces pass.known.events) }
        ensures ended { result.ended ≡ pass.known.ended }
        ensures all { IsTrue result.ended → (i : ℕ) → i < self.pieces
            → times i (draws pass.known.events) ≡ 1 }
        ensures each { IsTrue result.ended → (i : ℕ) → i < self.pieces → i ≤ result.least
            → times i (given self.pieces pass.known.events) ≡ 1 }
        ensures skipped { (i : ℕ) → i ≤ result.least
            → times i (skipped self.pieces pass.known.events) ≡ 0 }
    {
        let Claims { table, pieces: _ } = self;
        let Pass {
            seat,
            room: _,
            ended,
            given,
        } = pass;
        let closed = table.close_with(seat);
        let least = closed.word(FAULT);
        closed.free();
        Settled {
            least,
            given,
            ended,
        }
    }
}

/// The answer of a claim.
#[derive(Clone, Copy, PartialEq, Eq, Debug, Drop)]
pub enum Claim {
    /// This piece is the caller's, and no number below it was known to be reported.
    Do(u64),
    /// This piece lies above a number that was reported.
    Skip(u64),
    /// There is no further piece.
    End,
}

/// A pass that was to be cut in two.
#[derive(Drop)]
pub enum Split {
    /// The old pass with all its events, and a new one of room 0.
    Two(Pass, Pass),
    /// A pass of room 0 is not cut.
    Full(Pass),
}

/// The work of all passes together.
#[derive(Clone, Copy, PartialEq, Eq, Debug, Drop)]
pub struct Settled {
    /// The least number reported, or the number of pieces if none was.
    pub least: u64,
    /// The number of pieces that were given.
    pub given: u64,
    /// Whether the pass had ended: then every piece was drawn.
    pub ended: bool,
}
