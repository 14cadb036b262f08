//! The work of one worker.

ghost use Rattle.std.specs.Prelude.{◌≡◌, ◌<◌, ◌++◌, [], ◌∷◌, Some, true, IfOk, IfErr, MatchResult, Ok};
ghost use Rattle.zic_pieces.specs.Passes.{IsOf};
ghost use Rattle.zic_pieces.specs.Task.{IsReason};
ghost use Rattle.zic_pieces.specs.code.Work.{IsWork, the_lesser, AddsValue};

use crate::claims::{Claim, Claims};
use crate::pass::{Gate, Pass};
use crate::task::{PieceStop, Task};
use std::alloc::Global;

/// A piece at which a worker stopped, and why.
pub(crate) type Halt<F> = Option<(u64, PieceStop<F>)>;

/// The work of a worker: its pass, the values of its pieces, each with its number, and the least
/// piece that stopped it.
#[derive(Drop)]
pub(crate) struct Worked<O, F> {
    pub(crate) pass: Pass,
    pub(crate) values: Vec<(u64, O)>,
    pub(crate) halt: Halt<F>,
}

/// Returns the halt at the lesser piece.
pub(crate) fn lesser<F: Drop>(a: Halt<F>, b: Halt<F>) -> Halt<F>
    ensures { result ≡ the_lesser a b }
{
    match (a, b) {
        (Some(x), Some(y)) => Some(if y.0 < x.0 { y } else { x }),
        (Some(x), None) => Some(x),
        (None, b) => b,
    }
}

/// Performs a piece and keeps its value.
fn keep<T: Task>(
    task: &T,
    alloc: Global,
    i: u64,
    values: &mut Vec<(u64, T::Out)>,
) -> Result<(), PieceStop<T::Fault>>
    requires { i < T.count task.now }
    ensures ok { IfOk result
        (λ _. AddsValue (T.outcome task.now i) i values.old.items values.new.items) }
    ensures err { IfErr result (λ stop.
        IsReason (T.outcome task.now i) stop × (values.new.items ≡ values.old.items)) }
{
    let value = task.perform(alloc, i)?;
    if values.push((i, value)).is_err() {
        return Err(PieceStop::Memory);
    }
    Ok(())
}

/// Claims pieces until none is left, and performs those that it is given.
pub(crate) fn work<T: Task, G: Gate>(
    claims: &Claims,
    task: &T,
    gate: &G,
    alloc: Global,
    mut pass: Pass,
) -> Worked<T::Out, T::Fault>
    requires whose { IsOf claims.now pass }
    requires fresh { pass.known.events ≡ [] }
    requires pieces { claims.now.pieces ≡ T.count task.now }
    ensures whose { IsOf claims.now result.pass }
    ensures parts { result.pass.known.parts ≡ pass.known.parts }
    ensures ended { result.pass.known.ended ≡ true }
    ensures work { let known = result.pass.known in
        IsWork (T.outcome task.now) known.pieces known.events result.values.items result.halt }
{
    let mut values = Vec::new(alloc);
    let mut halt = None;
    loop {
        match claims.claim(&mut pass) {
            Claim::Do(i) => {
                gate.enter(i);
                if let Err(reason) = keep(task, alloc, i, &mut values) {
                    claims.report(&mut pass, i);
                    halt = lesser(halt, Some((i, reason)));
                }
            }
            Claim::Skip(_) => {}
            Claim::End => return Worked { pass, values, halt },
        }
    }
}
