//! Changes, tails and footers of the only zone of a source.

ghost use Rattle.std.specs.Prelude.{◌≡◌, length};

use super::call::{Call, Refusal};
use crate::answers::Answers;
use std::alloc::Global;
use zic_base::State;
use zic_footer::{make, print};
use zic_rules::{Tail, TailRule, Timeline, timeline};
use zic_source::Source;
use zic_states::ListedSource;

/// Appends the answer to a call.
pub fn answer(
    alloc: Global,
    source: &Source,
    call: &Call<'_>,
    answers: &mut Answers,
) -> Result<(), Refusal> {
    if source.zones() != 1 {
        return Err(Refusal::Call);
    }
    match call.name {
        "changes" => changes(alloc, source, answers),
        "tail" => tail(alloc, source, answers),
        "footer" => footer(alloc, source, answers),
        _ => Err(Refusal::Call),
    }
}

/// Appends the first state; for each change its state, and what is shown a second before it and at
/// its instant; and the explicit end. The first state is shown at the least instant too, and what
/// is shown a second before the end.
fn changes(alloc: Global, source: &Source, answers: &mut Answers) -> Result<(), Refusal>
    requires { length source.now.zones ≡ 1 }
{
    let listed = ListedSource::new(alloc, source);
    let found = timeline(alloc, &listed, 0)?;
    push_changes(&found, answers);
    Ok(())
}

fn push_changes(found: &Timeline<'_>, answers: &mut Answers) {
    answers.word("first");
    answers.state(found.first());
    push_shown(found, ", at", i64::MIN, answers);
    for number in 0..found.len() {
        let (instant, state) = found.change(number);
        answers.end_line();
        answers.show(&instant);
        answers.state(state);
        push_shown(found, ", before", instant.saturating_sub(1), answers);
        push_shown(found, ", at", instant, answers);
    }
    answers.push(b"\nend");
    answers.show(&found.end());
    push_shown(found, ", before", found.end().saturating_sub(1), answers);
    answers.end_line();
}

/// Appends what is shown at an instant before the explicit end, after this text.
fn push_shown(found: &Timeline<'_>, text: &str, t: i64, answers: &mut Answers) {
    answers.push(text.as_bytes());
    match state_at(found, t) {
        Some(state) => answers.state(state),
        None => answers.word("nothing"),
    }
}

/// Returns the state at an instant before the explicit end, or `None` at a later one.
fn state_at<'a>(found: &'a Timeline<'_>, t: i64) -> Option<State<'a>> {
    if t < found.end() {
        Some(found.state(t))
    } else {
        None
    }
}

/// Appends the one state of a tail; or its standard offset, first year and rules.
fn tail(alloc: Global, source: &Source, answers: &mut Answers) -> Result<(), Refusal>
    requires { length source.now.zones ≡ 1 }
{
    let listed = ListedSource::new(alloc, source);
    let found = timeline(alloc, &listed, 0)?;
    match found.tail() {
        Tail::Constant(state) => {
            answers.state(state);
            answers.end_line();
        }
        Tail::Rules {
            standard,
            year,
            rules,
        } => {
            answers.word("standard");
            answers.show(&standard);
            answers.word("from");
            answers.show(&year);
            push_rules(rules, answers);
        }
    }
    Ok(())
}

/// Appends a line for each rule, below the line before it.
fn push_rules(rules: &[TailRule], answers: &mut Answers) {
    answers.end_line();
    for rule in rules {
        answers.octets(rule.name.octets());
        answers.debug(&rule.saving);
        answers.debug_line(&rule.moment);
    }
}

fn footer(alloc: Global, source: &Source, answers: &mut Answers) -> Result<(), Refusal>
    requires { length source.now.zones ≡ 1 }
{
    let listed = ListedSource::new(alloc, source);
    let found = timeline(alloc, &listed, 0)?;
    let footer = make(alloc, source.line(0, 0).place, &found)?;
    match print(alloc, &footer) {
        Ok(text) => answers.octets(&text),
        Err(e) => return Err(Refusal::from(e)),
    }
    answers.end_line();
    Ok(())
}
