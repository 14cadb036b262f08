//! Tasks, by examples worked by hand, with one worker and with several.

ghost use Rattle.std.specs.Prelude.{◌≡◌, ◌≤◌};

use crate::samples::{Counter, Hold, expect, wait_for};
use std::alloc::Global;
use std::process::Abort;
use std::sync::Wait;
use std::sync::atomic::{AtomicU64, Ordering};
use std::thread::Threads;
use zic_pieces::{Gate, Open, PieceStop, Task, TaskStop, run_task};

/// Piece i has the value i * i, but two pieces have a fault, and one runs out of memory.
#[derive(Drop)]
struct Squares {
    pieces: u64,
    faults: (u64, u64),
    memory: u64,
}

/// No piece has this number.
const NONE: u64 = u64::MAX;

impl Task for Squares {
    type Out = u64;

    type Fault = u64;

    ghost use Rattle.std.specs.Prelude.{◌≡◌, ◌==◌, ◌||◌, ◌*◌, ◌%◌, ◌^◌, Ok, Err, if◌then◌else◌};

    ghost count = { λ s. s.pieces };

    ghost outcome = { λ s i r. r ≡ (if (i == s.faults.0) || (i == s.faults.1) then Err i else Ok ((i * i) % 2 ^ 64)) };

    fn pieces(&self) -> u64 {
        self.pieces
    }

    fn perform(&self, _alloc: Global, i: u64) -> Result<u64, PieceStop<u64>> {
        if i == self.memory {
            return Err(PieceStop::Memory);
        }
        if i == self.faults.0 || i == self.faults.1 {
            return Err(PieceStop::Fault(i));
        }
        Ok(i.wrapping_mul(i))
    }
}

/// Runs a task, and again where it wants other memory than its own: one growth may be refused while
/// a test runs, but no two.
fn run<R: Threads + Wait + Sync, G: Gate + Sync>(
    rt: &R,
    alloc: Global,
    task: &Squares,
    workers: u64,
    gate: &G,
) -> Result<Vec<u64>, TaskStop<u64>>
    requires workers { (1 ≤ workers) × (workers ≤ 64) }
    requires pieces { task.now.pieces ≤ 4294967296 }
{
    match run_task(rt, alloc, task, workers, gate) {
        Err(TaskStop::Memory(piece)) if piece != Some(task.memory) => {
            run_task(rt, alloc, task, workers, gate)
        }
        answer => answer,
    }
}

/// Returns whether the answer has these values.
fn has_values(answer: Result<Vec<u64>, TaskStop<u64>>, values: &[u64]) -> bool {
    match answer {
        Ok(got) => got.as_slice() == values,
        Err(_) => false,
    }
}

/// Returns whether the answer is the fault of this piece.
fn is_fault(answer: Result<Vec<u64>, TaskStop<u64>>, least: u64) -> bool {
    match answer {
        Err(TaskStop::Fault(piece, fault)) => piece == least && fault == least,
        _ => false,
    }
}

#[test]
fn values_stand_in_order(rt: HostRuntime) {
    let squares = Squares {
        pieces: 5,
        faults: (NONE, NONE),
        memory: NONE,
    };
    for workers in 1..9 {
        let answer = run(&rt, rt.alloc(), &squares, workers, &Open);
        expect(&rt, has_values(answer, &[0, 1, 4, 9, 16]), "squares");
    }
    let nothing = Squares {
        pieces: 0,
        faults: (NONE, NONE),
        memory: NONE,
    };
    let answer = run(&rt, rt.alloc(), &nothing, 3, &Open);
    expect(&rt, has_values(answer, &[]), "no pieces");
}

/// The pieces with faults, the piece that runs out of memory, and the one of them that decides.
static STOPS: [((u64, u64), u64, u64); 3] = [
    ((3, 1), NONE, 1),
    ((3, NONE), 2, 2),
    ((1, NONE), 3, 1),
];

#[test]
fn the_least_stop_decides(rt: HostRuntime) {
    for (faults, memory, least) in &STOPS {
        let task = Squares {
            pieces: 5,
            faults: *faults,
            memory: *memory,
        };
        for workers in 1..9 {
            match run(&rt, rt.alloc(), &task, workers, &Open) {
                Err(TaskStop::Memory(piece)) => {
                    expect(&rt, memory == least && piece == Some(*least), "memory");
                }
                answer => expect(&rt, memory != least && is_fault(answer, *least), "a fault"),
            }
        }
    }
}

#[test]
fn every_piece_up_to_the_least_fault_is_entered_once(rt: HostRuntime) {
    let task = Squares {
        pieces: 100,
        faults: (2, NONE),
        memory: NONE,
    };
    for _ in 0..100 {
        for workers in [1, 2, 8, 64] {
            let gate = Counter::new();
            let answer = run_task(&rt, rt.alloc(), &task, workers, &gate);
            expect(&rt, is_fault(answer, 2), "the fault");
            let first = gate.first() % 1_000_000_000;
            expect(&rt, first == 1_001_001, "the pieces up to the fault");
            let is_last = gate.first() == first && gate.others() == 0;
            expect(&rt, workers > 1 || is_last, "the pieces after it");
        }
    }
}

#[test]
fn two_workers_are_at_the_gate_at_once(rt: HostRuntime) {
    let task = Squares {
        pieces: 2,
        faults: (NONE, NONE),
        memory: NONE,
    };
    for _ in 0..100 {
        let gate = Hold::new();
        let answer = run(&rt, rt.alloc(), &task, 2, &gate);
        expect(
            &rt,
            has_values(answer, &[0, 1]) && !gate.is_late(),
            "two pieces",
        );
    }
}

/// Two pieces, each of which waits until the other has begun.
#[derive(Drop)]
struct Meet {
    zero_begun: AtomicU64,
    one_begun: AtomicU64,
    late: AtomicU64,
}

impl Task for Meet {
    type Out = u64;

    type Fault = u64;

    ghost use Rattle.std.specs.Prelude.{◌≡◌, Ok};

    ghost count = { λ _. 2 };

    ghost outcome = { λ _ i r. r ≡ Ok i };

    fn pieces(&self) -> u64 {
        2
    }

    fn perform(&self, _alloc: Global, i: u64) -> Result<u64, PieceStop<u64>> {
        let (own, other) = if i == 0 {
            (&self.zero_begun, &self.one_begun)
        } else {
            (&self.one_begun, &self.zero_begun)
        };
        own.store(1, Ordering::SeqCst);
        if !wait_for(other) {
            self.late.store(1, Ordering::SeqCst);
        }
        Ok(i)
    }
}

#[test]
fn two_pieces_are_performed_at_once(rt: HostRuntime) {
    for _ in 0..100 {
        let task = Meet {
            zero_begun: AtomicU64::new(0),
            one_begun: AtomicU64::new(0),
            late: AtomicU64::new(0),
        };
        let answer = run_task(&rt, rt.alloc(), &task, 2, &Open);
        let met = has_values(answer, &[0, 1]) && task.late.load(Ordering::SeqCst) == 0;
        expect(&rt, met, "two pieces");
    }
}
