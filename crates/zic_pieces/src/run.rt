//! A task, run by several workers.

ghost use Rattle.std.specs.Prelude.{◌≡◌, ℕ, ◌<◌, ◌≤◌, IfOk, IfErr, vec_len, slice_index_or};
ghost use Rattle.std.specs.List.{All};
ghost use Rattle.zic_pieces.specs.Task.{AreValues, IsStop};
ghost use Rattle.zic_pieces.specs.code.Stop.{the_stop};
ghost use Rattle.zic_pieces.specs.code.Crew.{Each, IsFresh, parts_of, DidWork};

use crate::claims::Claims;
use crate::crew::{deal, in_order, merge_all};
use crate::pass::{Gate, Pass};
use crate::task::{PieceStop, Task, TaskStop};
use crate::work::{Worked, work};
use std::alloc::{AllocError, Global};
use std::sync::Wait;
use std::thread;
use std::thread::Threads;

/// Has a worker for each pass claim pieces until none is left, each in a thread of its own where
/// one can be started.
fn start_workers<R: Threads + Sync, T: Task + Sync, G: Gate + Sync>(
    rt: &R,
    alloc: Global,
    task: &T,
    gate: &G,
    claims: &Claims,
    passes: Vec<Pass>,
) -> Result<Vec<Worked<T::Out, T::Fault>>, AllocError>
    requires fresh { All (IsFresh claims.now) passes.items }
    requires pieces { claims.now.pieces ≡ T.count task.now }
    ensures len { IfOk result (λ all. vec_len all ≡ vec_len passes) }
    ensures each { IfOk result (λ all. (i : ℕ) (d : _) (p : _) → i < vec_len passes
        → DidWork (T.outcome task.now) claims.now (slice_index_or passes.items i p).known.parts
        (slice_index_or all.items i d)) }
{
    thread::map_vec(
        rt,
        passes,
        &|pass| -> Worked<T::Out, T::Fault>
            requires { IsFresh claims.now pass × (claims.now.pieces ≡ T.count task.now) }
            ensures { DidWork (T.outcome task.entry.now) claims.entry.now pass.known.parts result }
        { work(claims, task, gate, alloc, pass) },
    )
}

/// Runs the workers, and returns the work of all as that of one.
fn run_workers<R: Threads + Sync, T: Task + Sync, G: Gate + Sync>(
    rt: &R,
    alloc: Global,
    task: &T,
    gate: &G,
    claims: &Claims,
    passes: Vec<Pass>,
) -> Result<Worked<T::Out, T::Fault>, AllocError>
    requires fresh { Each (IsFresh claims.now) passes.items }
    requires pieces { claims.now.pieces ≡ T.count task.now }
    requires parts { parts_of passes.items ≡ 1024 }
    ensures { IfOk result (DidWork (T.outcome task.now) claims.now 1024) }
{
    let mut others = start_workers(rt, alloc, task, gate, claims, passes)?;
    let Some(last) = others.pop() else {
        unreachable!()
    };
    merge_all::<T>(claims, last, others)
}

/// Returns how the task ends where `piece` is the least that stopped.
fn stop_at<F: Drop>(piece: u64, reason: PieceStop<F>) -> TaskStop<F>
    ensures { result ≡ the_stop piece reason }
{
    match reason {
        PieceStop::Fault(fault) => TaskStop::Fault(piece, fault),
        PieceStop::Memory => TaskStop::Memory(Some(piece)),
    }
}

/// Returns the outcome of the task, by the least piece that was reported.
fn answer<T: Task>(
    alloc: Global,
    task: &T,
    claims: Claims,
    all: Worked<T::Out, T::Fault>,
) -> Result<Vec<T::Out>, TaskStop<T::Fault>>
    requires work { DidWork (T.outcome task.now) claims 1024 all }
    requires pieces { claims.pieces ≡ T.count task.now }
    ensures ok { IfOk result
        (λ values. AreValues (T.outcome task.now) (T.count task.now) values.items) }
    ensures stop { IfErr result (IsStop (T.outcome task.now) (T.count task.now)) }
{
    let pieces = task.pieces();
    let Worked { pass, values, halt } = all;
    let least = claims.settle(pass).least;
    match halt {
        None => match in_order(alloc, values, pieces as usize) {
            Ok(values) => Ok(values),
            Err(_) => Err(TaskStop::Memory(None)),
        },
        Some((_, reason)) => Err(stop_at(least, reason)),
    }
}

/// Runs a task of at most 4,294,967,296 pieces by `workers` workers, 1 to 64, but at most one for
/// each piece. The calling thread is one of them, and each other has a thread of its own, if one
/// can be started: else the others do its work.
///
/// The answer is that of one thread which performs the pieces in order: the values of all pieces.
///
/// # Errors
///
/// The least piece that stopped. `Memory(Some(i))` says that piece `i` ran out of memory, or that
/// its value could not be stored, `Memory(None)` that memory ran out elsewhere. `NoThread` is never
/// answered.
pub fn run_task<R: Threads + Wait + Sync, T: Task + Sync, G: Gate + Sync>(
    rt: &R,
    alloc: Global,
    task: &T,
    workers: u64,
    gate: &G,
) -> Result<Vec<T::Out>, TaskStop<T::Fault>>
    requires workers { (1 ≤ workers) × (workers ≤ 64) }
    requires pieces { T.count task.now ≤ 4294967296 }
    ensures ok { IfOk result
        (λ values. AreValues (T.outcome task.now) (T.count task.now) values.items) }
    ensures stop { IfErr result (IsStop (T.outcome task.now) (T.count task.now)) }
{
    let pieces = task.pieces();
    let crew = if pieces < workers {
        pieces.max(1)
    } else {
        workers
    };
    let Ok((claims, first)) = Claims::new(alloc, pieces) else {
        return Err(TaskStop::Memory(None));
    };
    let Ok(passes) = deal(&claims, alloc, first, crew) else {
        return Err(TaskStop::Memory(None));
    };
    let Ok(all) = run_workers(rt, alloc, task, gate, &claims, passes) else {
        return Err(TaskStop::Memory(None));
    };
    answer(alloc, task, claims, all)
}
