//! TZif files.

use super::call::{Call, Refusal};
use crate::answers::Answers;
use std::alloc::Global;
use zic_base::Stop;
use zic_tzif::{Answer, ReadStop, Zone, read};

/// Appends the answer to a call: the reason why the text is no file, or what the file answers.
pub fn answer(alloc: Global, call: &Call<'_>, answers: &mut Answers) -> Result<(), Refusal> {
    match read(alloc, call.text()?) {
        Ok(zone) => answer_of(&zone, call, answers),
        Err(ReadStop::Bad(reason)) => Ok(answers.debug_line(&reason)),
        Err(ReadStop::Memory) => Err(Refusal::Stop(Stop::Memory)),
    }
}

/// Appends what a file answers to a call.
fn answer_of(zone: &Zone, call: &Call<'_>, answers: &mut Answers) -> Result<(), Refusal> {
    match call.name {
        "read" => Ok(push_zone(zone, answers)),
        "at" => push_answers(zone, call, answers),
        "spans" => push_spans(zone, call, answers),
        "states" => Ok(push_states(zone, answers)),
        _ => Err(Refusal::Call),
    }
}

/// Appends the version and the footer of a file.
fn push_zone(zone: &Zone, answers: &mut Answers) {
    answers.word("version");
    answers.show(&zone.version());
    answers.word("footer");
    answers.bracketed(zone.footer_text());
    answers.end_line();
}

/// Appends an answer, as the end of a line.
fn push_answer(answer: Answer<'_>, answers: &mut Answers) {
    match answer {
        Answer::Known(state) => answers.state(state),
        Answer::Unspecified => answers.word("unspecified"),
    }
    answers.end_line();
}

/// `at INSTANT..`: appends what a file shows at instants.
fn push_answers(zone: &Zone, call: &Call<'_>, answers: &mut Answers) -> Result<(), Refusal> {
    for number in 0..call.len() {
        let t = call.instant(number)?;
        answers.show(&t);
        push_answer(zone.at(t), answers);
    }
    Ok(())
}

/// `spans INSTANT..`: appends the span round each instant, and what the file shows there.
fn push_spans(zone: &Zone, call: &Call<'_>, answers: &mut Answers) -> Result<(), Refusal> {
    for number in 0..call.len() {
        let t = call.instant(number)?;
        let span = zone.span(t);
        answers.show(&t);
        answers.show(&span.instants.first);
        answers.show(&span.instants.last);
        push_answer(span.answer, answers);
    }
    Ok(())
}

/// Appends the states of a file, in the order of their numbers.
fn push_states(zone: &Zone, answers: &mut Answers) {
    let count = zone.state_count();
    for number in 0..count {
        push_answer(Answer::Known(zone.state(number)), answers);
    }
}
