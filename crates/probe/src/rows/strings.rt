//! POSIX TZ strings: their grammar, their parts, and what they mean.

ghost use Rattle.std.specs.Prelude.{◌≡◌, ◌⊎◌};

use super::call::{Call, Refusal};
use crate::answers::Answers;
use std::alloc::Global;
use zic_base::Stop;
use zic_posix::{Footer, Instants, ParseStop, PreparedFooter, parse, print};

/// Appends the answer to a call.
pub fn answer(alloc: Global, call: &Call<'_>, answers: &mut Answers) -> Result<(), Refusal> {
    match call.name {
        "version_2" => printed(alloc, call.text()?, 2, answers),
        "version_3" => printed(alloc, call.text()?, 3, answers),
        "parts" => parts(alloc, call.text()?, answers),
        "states" => states(alloc, call, answers),
        "spans" => spans(alloc, call, answers),
        "prepared" => prepared(alloc, call.text()?, answers),
        "contains" => contains(call, answers),
        _ => Err(Refusal::Call),
    }
}

/// Appends the own text of the footer that a text is in a version, and the version that it needs.
fn printed(alloc: Global, text: &[u8], version: u8, answers: &mut Answers) -> Result<(), Refusal>
    requires { (version ≡ 2) ⊎ (version ≡ 3) }
{
    match parse(alloc, text, version) {
        Ok(footer) => push_printed(alloc, &footer, answers),
        Err(ParseStop::BadFooter) => {
            answers.push(b"BadFooter\n");
            Ok(())
        }
        Err(ParseStop::Memory) => Err(Refusal::Stop(Stop::Memory)),
    }
}

fn push_printed(alloc: Global, footer: &Footer, answers: &mut Answers) -> Result<(), Refusal> {
    let text = print(alloc, footer)?;
    answers.octets(&text);
    answers.word("version");
    answers.show(&footer.version());
    answers.end_line();
    Ok(())
}

/// Returns the footer of version 3 that a text is.
fn footer_of(alloc: Global, text: &[u8]) -> Result<Footer, Refusal> {
    match parse(alloc, text, 3) {
        Ok(footer) => Ok(footer),
        Err(ParseStop::BadFooter) => Err(Refusal::Call),
        Err(ParseStop::Memory) => Err(Refusal::Stop(Stop::Memory)),
    }
}

/// Appends the parts of a footer.
fn parts(alloc: Global, text: &[u8], answers: &mut Answers) -> Result<(), Refusal> {
    let footer = footer_of(alloc, text)?;
    answers.octets(footer.std.octets());
    answers.show(&footer.offset);
    answers.end_line();
    if let Some(dst) = &footer.dst {
        answers.octets(dst.name.octets());
        answers.show(&dst.offset);
        answers.end_line();
        answers.debug_line(&dst.start);
        answers.debug_line(&dst.stop);
    }
    Ok(())
}

/// `states INSTANT..`: appends what a footer means at instants.
fn states(alloc: Global, call: &Call<'_>, answers: &mut Answers) -> Result<(), Refusal> {
    let footer = footer_of(alloc, call.text()?)?;
    let pushed = push_states(&footer, call, answers);
    drop(footer);
    pushed
}

fn push_states(footer: &Footer, call: &Call<'_>, answers: &mut Answers) -> Result<(), Refusal> {
    for number in 0..call.len() {
        let t = call.instant(number)?;
        answers.show(&t);
        answers.state(footer.state(t));
        answers.end_line();
    }
    Ok(())
}

/// `spans INSTANT..`: appends the span of a footer round each instant, its flag, and whether the
/// prepared footer answers the same.
fn spans(alloc: Global, call: &Call<'_>, answers: &mut Answers) -> Result<(), Refusal> {
    let prepared = prepared_of(alloc, call.text()?)?;
    let pushed = push_both(alloc, &prepared, call, answers);
    drop(prepared);
    pushed
}

/// Appends the spans of a footer, and of the same one that is prepared.
fn push_both(
    alloc: Global,
    prepared: &PreparedFooter,
    call: &Call<'_>,
    answers: &mut Answers,
) -> Result<(), Refusal> {
    let footer = footer_of(alloc, call.text()?)?;
    let pushed = push_spans(&footer, prepared, call, answers);
    drop(footer);
    pushed
}

/// Returns the prepared footer of version 3 that a text is.
fn prepared_of(alloc: Global, text: &[u8]) -> Result<PreparedFooter, Refusal> {
    Ok(PreparedFooter::new(footer_of(alloc, text)?))
}

fn push_spans(
    footer: &Footer,
    prepared: &PreparedFooter,
    call: &Call<'_>,
    answers: &mut Answers,
) -> Result<(), Refusal> {
    for number in 0..call.len() {
        push_span(footer, prepared, call.instant(number)?, answers);
    }
    Ok(())
}

fn push_span(footer: &Footer, prepared: &PreparedFooter, t: i64, answers: &mut Answers) {
    let span = footer.span(t);
    let is_same = prepared.span(t) == span && prepared.state(t) == span.state;
    answers.show(&t);
    answers.show(&span.instants.first);
    answers.show(&span.instants.last);
    answers.flag(span.state.daylight);
    answers.show(&is_same);
    answers.end_line();
}

/// Appends the states of a prepared footer.
fn prepared(alloc: Global, text: &[u8], answers: &mut Answers) -> Result<(), Refusal> {
    let footer = prepared_of(alloc, text)?;
    answers.state(footer.standard_state());
    if let Some(state) = footer.daylight_state() {
        answers.push(b",");
        answers.state(state);
    }
    answers.end_line();
    Ok(())
}

/// `contains FIRST LAST INSTANT`: prints whether an instant is one of those from the first to the
/// last.
fn contains(call: &Call<'_>, answers: &mut Answers) -> Result<(), Refusal> {
    let (first, last) = (call.instant(0)?, call.instant(1)?);
    let instants = Instants { first, last };
    answers.show(&instants.contains(call.instant(2)?));
    answers.end_line();
    Ok(())
}
