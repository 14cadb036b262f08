//! Reads source text from standard input and prints the numbers of its Rule, Zone, continuation and
//! Link lines, for `tests/outside/tzdata.sh` and `bench/source.sh`. An optional word is the number of times
//! that the text is read, by default 1. With 0, nothing is counted.

use crate::answers::print_stop;
use crate::input::{read_text, read_times};
use std::alloc::Global;
use std::process::ExitCode;
use std::rt::Env;
use std::{io, slice};
use zic_source::{Source, Stop, read_source};

/// Prints the number of lines of each kind.
pub fn run<R: Env + Input + Print + AllocGlobal>(rt: &R) -> io::Result<ExitCode> {
    let times = read_times(rt)?.unwrap_or(1);
    let text = read_text(rt)?;
    let counts = counts_of(rt.alloc(), slice::from_ref(&text), times);
    print_counts(rt, counts)
}

fn print_counts<R: Print>(rt: &R, counts: Result<Counts, Stop>) -> io::Result<ExitCode> {
    match counts {
        Ok(
            Counts {
                rules,
                zones,
                continuations,
                links,
            },
        ) => {
            println!(rt;
                "{rules} rules, {zones} zones, {continuations} continuations, {links} links"
            )?;
            Ok(ExitCode::SUCCESS)
        }
        Err(stop) => print_stop(rt, stop),
    }
}

/// The number of lines of each kind.
#[derive(Clone, Copy)]
struct Counts {
    rules: usize,
    zones: usize,
    continuations: usize,
    links: usize,
}

/// Returns the counts of the texts, after reading them a number of times.
fn counts_of(alloc: Global, texts: &[Vec<u8>], times: u32) -> Result<Counts, Stop> {
    let mut counts = Counts {
        rules: 0,
        zones: 0,
        continuations: 0,
        links: 0,
    };
    for _ in 0..times {
        let source = read_source(alloc, texts)?;
        counts = Counts {
            rules: source.rules(),
            zones: source.zones(),
            continuations: continuations_of(&source),
            links: source.links(),
        };
    }
    Ok(counts)
}

/// Returns the number of continuation lines of all zones.
fn continuations_of(source: &Source) -> usize {
    let mut count = 0usize;
    for zone in 0..source.zones() {
        count = count.saturating_add(source.lines(zone).saturating_sub(1));
    }
    count
}
