//! The plans that words request, which no call of the program shows. What other words ask for is in the
//! tables of tests/program, and wrong ones are in words.txt and usage.txt there.

use crate::samples::{expect_text, must, words_of};
use std::alloc::Global;
use std::process::Abort;
use zic_command_line::{Request, parse};
use zic_layouts::Plan;

/// Returns the plan of a request, if it has one.
fn plan_of(request: &Request) -> Option<&Plan> {
    match request {
        Request::Check { plan, .. } => Some(plan),
        Request::Build(building) => Some(&building.plan),
        Request::Convert(conversion) => Some(&conversion.plan),
        _ => None,
    }
}

/// Returns the plan that the words request.
fn requested(rt: &impl Abort, alloc: Global, line: &str) -> String {
    let words = words_of(rt, alloc, line);
    let line = must(rt, parse(alloc, &words));
    let plan = must(rt, plan_of(&line.request).ok_or(()));
    let text = must(rt, format!(in alloc; "{plan:?}"));
    drop(line);
    text
}

/// Words, and the plans that they request.
static PLANS: [(&str, &str); 5] = [
    (
        "pzic check -",
        "Plan { workers: 4, zone_piece: 16, row_piece: 1, max_rows: 0, max_bytes: 0 }",
    ),
    (
        "pzic check --workers 64 zones --zone-piece=65536",
        "Plan { workers: 64, zone_piece: 65536, row_piece: 1, max_rows: 0, max_bytes: 0 }",
    ),
    (
        "pzic build --workers 1 D a - b",
        "Plan { workers: 1, zone_piece: 16, row_piece: 1, max_rows: 0, max_bytes: 0 }",
    ),
    (
        "pzic convert a",
        "Plan { workers: 4, zone_piece: 16, row_piece: 1024, max_rows: 100000000, max_bytes: 4294967296 }",
    ),
    (
        "pzic convert --workers 1 --zone-piece 2 a --row-piece 65536 --max-rows 0 --max-bytes 0",
        "Plan { workers: 1, zone_piece: 2, row_piece: 65536, max_rows: 0, max_bytes: 0 }",
    ),
];

#[test]
fn words_request_a_plan(rt: HostRuntime) {
    for (line, want) in &PLANS {
        let got = requested(&rt, rt.alloc(), *line);
        expect_text(&rt, got.as_bytes(), want.as_bytes(), *line);
    }
}
