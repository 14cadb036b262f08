//! Builds of files and conversions of columns, by workers that wait for each other at the gate. Which files
//! sources have is in tests/program/trees.txt, and which rows columns have in tests/program/columns.txt.

use crate::samples::{Counter, Hold, copy_of, expect, expect_text, must};
use std::alloc::Global;
use std::process::Abort;
use std::slice;
use std::sync::Wait;
use std::thread::Threads;
use zic_base::RunStop;
use zic_compile::build;
use zic_convert::convert;
use zic_counted::Counted;
use zic_files::Files;
use zic_layouts::Plan;
use zic_pieces::{Gate, Open};

/// Builds with a number of workers and pieces of one zone.
pub fn built<R: Threads + Wait + Sync + Abort, G: Gate + Sync>(
    rt: &R,
    alloc: Global,
    text: &str,
    workers: u64,
    gate: &G,
) -> Result<Files, RunStop> {
    let text = copy_of(rt, alloc, text);
    let plan = must(rt, Plan::new(workers, 1, 1, 0, 0).ok_or(()));
    build(rt, alloc, slice::from_ref(&text), &plan, gate)
}

/// Nine zones. The fourth and the eighth have a fault.
const NINE: &str =
    "Zone Z/1 0 - AAA\nZone Z/2 0 - AAA\nZone Z/3 0 - AAA\nZone Z/4 1:00 1:00 XXX\nZone Z/5 0 - AAA\n\
Zone Z/6 0 - AAA\nZone Z/7 0 - AAA\nZone Z/8 0 - AB\nZone Z/9 0 - AAA\n";

#[test]
fn no_piece_after_the_fault_is_begun(rt: HostRuntime) {
    let gate = Counter::new();
    let files = built(&rt, rt.alloc(), NINE, 1, &gate);
    expect(&rt, files.is_err(), "a fault");
    expect(
        &rt,
        gate.first() == 1_001_001_001,
        "the pieces up to the fault",
    );
    expect(&rt, gate.others() == 0, "other pieces");
}

#[test]
fn two_workers_build_at_once(rt: HostRuntime) {
    let gate = Hold::new();
    let text = "Zone A -3 - %z\nZone Etc/UTC 0 - UTC";
    let files = must(&rt, built(&rt, rt.alloc(), text, 2, &gate));
    let whole = files.len() == 2 && files.bytes(0).len() == 113 && files.bytes(1).len() == 111;
    expect(&rt, whole, "the files");
    expect(&rt, files.find(b"Etc/UTC") == Some(1), "a name");
    expect(&rt, !gate.is_late(), "two workers at once");
}

const TWO_ROWS: &[u8] =
    b"Etc/UTC,0,1970-01-01T00:00:00,+00:00:00,0,UTC\nEtc/UTC,0,1970-01-01T00:00:00,+00:00:00,0,UTC\n";

#[test]
fn two_workers_convert_at_once(rt: HostRuntime) {
    let alloc = rt.alloc();
    let files = must(&rt, built(&rt, alloc, "Zone Etc/UTC 0 - UTC\n", 1, &Open));
    let plan = must(&rt, Plan::new(2, 1, 1, 100, 1000).ok_or(()));
    let gate = Hold::new();
    let mut reader = Counted::new(&b"Etc/UTC,0\nEtc/UTC,0\n"[..]);
    let mut writer = Counted::new(Vec::new(alloc));
    let answer = convert(&rt, alloc, &files, &mut reader, &mut writer, &plan, &gate);
    expect(&rt, answer == Ok(2) && !gate.is_late(), "two rows");
    expect_text(&rt, &writer.into_inner(), TWO_ROWS, "the rows");
}
