//! A run of the program.

ghost use Rattle.std.specs.Prelude.{◌≡◌};
ghost use Rattle.zic_program.specs.Run.{ended};

use crate::answer::answer;
use crate::explained::{explained, with_hint};
use std::fs::Files;
use std::io::{Input, IsTerminal, Read, Write};
use std::random::RandomSource;
use std::rt::Env;
use std::sync::Wait;
use std::thread::Threads;
use std::time::Clock;
use zic_command_line::{CommandLine, Request, requested};
use zic_converting::{ConvertContext, expect_own_lists, read_header, read_line_end, take_stack};
use zic_failures::Explainer;
use zic_folders::Ending;
use zic_host::Refusal;

/// Does what the words of the process ask for, and explains a failure if they ask for that.
///
/// # Errors
///
/// Why the program gives up.
pub fn run<
    R: Env + Files + Input + Print + Clock + RandomSource + AllocGlobal + Threads + Wait + Sync,
    E: Write + IsTerminal + Drop,
>(rt: &R, errors: E) -> Result<(), Refusal> {
    let mut line = requested(rt)?;
    let ended = run_line(rt, errors, &mut line);
    drop(line);
    ended
}

/// Does what the words ask for, of which the fields that have names get their numbers.
fn run_line<
    R: Env + Files + Input + Print + Clock + RandomSource + AllocGlobal + Threads + Wait + Sync,
    E: Write + IsTerminal + Drop,
>(rt: &R, errors: E, line: &mut CommandLine) -> Result<(), Refusal> {
    let mut explainer = explainer_of(rt, line)?;
    let mut noted = ConvertContext::new(rt.alloc());
    let has_hint = explainer.is_none() && errors.is_terminal() && takes_explain(&line.request);
    match run_noted(rt, errors, &mut line.request, &mut explainer, &mut noted) {
        Ok(ending) => {
            drop(explainer);
            drop(noted);
            ended(ending)
        }
        Err(reason) => {
            let refusal = explained(rt, explainer, noted, reason).shown(rt.alloc());
            Err(if has_hint {
                with_hint(rt.alloc(), refusal)
            } else {
                refusal
            })
        }
    }
}

/// Returns whether a request is one that `--explain` may stand with.
fn takes_explain(request: &Request) -> bool {
    match request {
        Request::Explain { .. } | Request::Version { .. } | Request::Help { .. } => false,
        _ => true,
    }
}

/// Returns what explains a failure, if the words ask for that. Refuses a conversion whose lists are files
/// that it has another use for.
fn explainer_of<R: Files + AllocGlobal>(
    rt: &R,
    line: &CommandLine,
) -> Result<Option<Explainer>, Refusal> {
    if let Request::Convert(order) = &line.request {
        expect_own_lists(rt, order)?;
    }
    if line.explain {
        Ok(Some(Explainer::new(rt, &line.request)?))
    } else {
        Ok(None)
    }
}

/// Does what a request asks for, and takes note of what an explanation needs.
fn run_noted<
    R: Env + Files + Input + Print + Clock + RandomSource + AllocGlobal + Threads + Wait + Sync,
    E: Write + IsTerminal + Drop,
>(
    rt: &R,
    errors: E,
    request: &mut Request,
    explainer: &mut Option<Explainer>,
    noted: &mut ConvertContext,
) -> Result<Ending, Refusal> {
    if let Request::Convert(order) = request {
        take_stack(rt.alloc(), order.plan.workers())?;
        read_header(rt.alloc(), order, rt.reader(), noted)?;
        read_line_end(order, rt.reader(), noted)?;
        if let Some(explainer) = explainer {
            explainer.read_by(&order.layout);
        }
    }
    answer(rt, errors, request, noted)
}

/// Returns whether the program ends well.
fn ended(ending: Ending) -> Result<(), Refusal>
    ensures { result ≡ ended ending }
{
    match ending {
        Ending::Done => Ok(()),
        Ending::Differs => Err(Refusal::Differs),
        Ending::ZonesDiffer => Err(Refusal::ZonesDiffer),
        Ending::NoRelease => Err(Refusal::NoRelease),
        Ending::NoClock => Err(Refusal::NoClock),
    }
}
