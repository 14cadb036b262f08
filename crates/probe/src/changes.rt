//! Reads source text from standard input and prints what each zone shows before its explicit end,
//! for `tests/outside/tzdata.sh`. For each zone it prints a line `NAME - OFFSET FLAG ABBREVIATION` with the
//! first state, a line `NAME INSTANT OFFSET FLAG ABBREVIATION` for each change, and a line `NAME
//! end INSTANT`. If the only word is a number, for `bench/parts.sh`, it makes the timelines of
//! all zones that number of times, and prints only the number of changes.

ghost use Rattle.std.specs.Prelude.{◌<◌, length};

use crate::answers::Answers;
use crate::input::{read_text, read_times};
use std::alloc::Global;
use std::process::ExitCode;
use std::rt::Env;
use std::{io, slice};
use zic_rules::timeline;
use zic_source::{Stop, read_source};
use zic_states::ListedSource;

/// Prints the lines of all zones, or the number of changes.
pub fn run<R: Env + Input + Print + AllocGlobal>(rt: &R) -> io::Result<ExitCode> {
    let times = read_times(rt)?;
    let text = read_text(rt)?;
    let mut answers = Answers::new(rt.alloc());
    let answered = answer(rt.alloc(), slice::from_ref(&text), times, &mut answers);
    answers.print_answered(rt, answered)
}

/// Appends the lines of all zones or, if a number of times is given, the number of changes that were
/// made.
fn answer(
    alloc: Global,
    texts: &[Vec<u8>],
    times: Option<u32>,
    answers: &mut Answers,
) -> Result<(), Stop> {
    let source = read_source(alloc, texts)?;
    let listed = ListedSource::new(alloc, &source);
    match times {
        Some(times) => push_count(alloc, &listed, times, answers),
        None => push_zones(alloc, &listed, answers),
    }
}

/// Appends the number of changes of all zones, made a number of times.
fn push_count(
    alloc: Global,
    listed: &ListedSource<'_>,
    times: u32,
    answers: &mut Answers,
) -> Result<(), Stop> {
    let mut changes = 0usize;
    for _ in 0..times {
        changes = changes.saturating_add(count(alloc, listed)?);
    }
    answers.show(&changes);
    answers.word("changes\n");
    Ok(())
}

/// Returns the number of changes of all zones.
fn count(alloc: Global, listed: &ListedSource<'_>) -> Result<usize, Stop> {
    let mut changes = 0usize;
    for zone in 0..listed.source().zones() {
        changes = changes.saturating_add(timeline(alloc, listed, zone)?.len());
    }
    Ok(changes)
}

/// Appends the lines of all zones.
fn push_zones(alloc: Global, listed: &ListedSource<'_>, answers: &mut Answers) -> Result<(), Stop> {
    for zone in 0..listed.source().zones() {
        push_zone(alloc, listed, zone, answers)?;
    }
    Ok(())
}

/// Appends the lines of a zone.
fn push_zone(
    alloc: Global,
    listed: &ListedSource<'_>,
    zone: usize,
    answers: &mut Answers,
) -> Result<(), Stop>
    requires { zone < length listed.now.zones }
{
    let name = listed.source().zone_name(zone).octets();
    let timeline = timeline(alloc, listed, zone)?;
    answers.octets(name);
    answers.word("-");
    answers.state(timeline.first());
    for number in 0..timeline.len() {
        let (instant, state) = timeline.change(number);
        answers.end_line();
        answers.octets(name);
        answers.show(&instant);
        answers.state(state);
    }
    answers.end_line();
    answers.octets(name);
    answers.word("end");
    answers.show(&timeline.end());
    answers.end_line();
    Ok(())
}
