//! Calls public functions and prints what they answer, for `tests/worked`. Each line of standard
//! input is a call: a module of `rows`, the name of a call there, and its arguments. An argument is
//! a word or, after a colon, a text in hexadecimal digits. The answer is some lines and then a line
//! with a period. If a fault is found, the last line before it is `text TEXT line LINE: KIND`. A
//! call that isn't known ends the program, with the answers before it.

mod base;
mod calendar;
mod call;
mod files;
mod lines;
mod local_times;
mod occurrences;
mod schedules;
mod sources;
mod states;
mod strings;
mod tables;
mod timelines;
mod words;

use crate::answers::Answers;
use call::{Call, Refusal};
use std::alloc::Global;
use std::io::{self, ErrorKind};
use std::process::ExitCode;
use zic_base::{Fault, Stop};
use zic_source::read_source;

/// Prints the answers to all calls.
pub fn run<R: Input + Print + AllocGlobal>(rt: &R) -> io::Result<ExitCode> {
    let calls = io::read_to_string(rt.alloc(), rt.reader())?;
    let mut answers = Answers::new(rt.alloc());
    let are_known = push_answers(rt.alloc(), calls.as_str(), &mut answers);
    let printed = answers.print(rt)?;
    if are_known {
        Ok(printed)
    } else {
        Err(io::Error::from(ErrorKind::InvalidInput))
    }
}

/// Appends the answers to calls, each on a line, up to the first that isn't known. Returns whether
/// all are.
fn push_answers(alloc: Global, calls: &str, answers: &mut Answers) -> bool {
    for line in calls.lines() {
        match answer(alloc, line, answers) {
            Ok(()) => {}
            Err(Refusal::Stop(Stop::Fault(fault))) => push_fault(fault, answers),
            Err(_) => return false,
        }
        answers.push(b".\n");
    }
    true
}

/// Appends the line of a fault.
fn push_fault(fault: Fault, answers: &mut Answers) {
    answers.word("text");
    answers.show(&fault.place.text);
    answers.word("line");
    answers.show(&fault.place.line);
    answers.push(b":");
    answers.debug_line(&fault.kind);
}

/// Appends the answer to a call.
fn answer(alloc: Global, line: &str, answers: &mut Answers) -> Result<(), Refusal> {
    let call = Call::parse(alloc, line)?;
    match call.module {
        "base" => base::answer(alloc, &call, answers),
        "calendar" => calendar::answer(&call, answers),
        "files" => files::answer(alloc, &call, answers),
        "lines" => lines::answer(alloc, &call, answers),
        "local_times" => local_times::answer(alloc, &call, answers),
        "schedules" => schedules::answer(alloc, &call, answers),
        "strings" => strings::answer(alloc, &call, answers),
        "words" => words::answer(alloc, &call, answers),
        _ => answer_of_source(alloc, &call, answers),
    }
}

/// Appends the answer to a call whose texts are a source.
fn answer_of_source(alloc: Global, call: &Call<'_>, answers: &mut Answers) -> Result<(), Refusal> {
    let source = read_source(alloc, &call.texts)?;
    match call.module {
        "occurrences" => occurrences::answer(alloc, &source, call, answers),
        "sources" => sources::answer(alloc, &source, call, answers),
        "states" => states::answer(alloc, &source, call, answers),
        "tables" => tables::answer(alloc, &source, call, answers),
        "timelines" => timelines::answer(alloc, &source, call, answers),
        _ => Err(Refusal::Call),
    }
}
