//! Occurrences of the set that the first line of the first zone names.

ghost use Rattle.std.specs.Prelude.{◌≤◌, IfOk};
ghost use Rattle.zic_states.specs.LineItems.{items_of};
ghost use Rattle.zic_states.specs.ByList.{AreRising};

use super::call::{Call, Refusal};
use crate::answers::Answers;
use std::alloc::Global;
use zic_source::{Rules, Source};
use zic_states::{
    LineOccurrences, ListedSource, TimedOccurrence, before, instant_by, last_named_year,
    nominal_second, occurrences, rule_at, year_second,
};

/// Appends the answer to a call.
pub fn answer(
    alloc: Global,
    source: &Source,
    call: &Call<'_>,
    answers: &mut Answers,
) -> Result<(), Refusal> {
    match call.name {
        "moment" => moment(source, call, answers),
        "listed" => listed(alloc, source, call, answers),
        "current" => current(alloc, source, call, answers),
        "last_named_year" => named(source, answers),
        _ => Err(Refusal::Call),
    }
}

/// Returns the occurrences before a year, and perhaps some more.
fn occurrences_of<'a>(
    alloc: Global,
    listed: &'a ListedSource<'_>,
    before: u16,
) -> Result<LineOccurrences<'a>, Refusal>
    requires { before ≤ 9999 }
    ensures { IfOk result (λ found. AreRising (items_of found)) }
{
    let source = listed.source();
    if source.zones() == 0 || source.lines(0) == 0 {
        return Err(Refusal::Call);
    }
    let line = source.line(0, 0);
    let Rules::Set(set) = &line.rules else {
        return Err(Refusal::Call);
    };
    match occurrences(alloc, listed, set, line.offset, before) {
        Ok(found) => Ok(found),
        Err(stop) => Err(Refusal::Stop(stop.at(line.place))),
    }
}

/// `listed BEFORE FROM COUNT`: prints occurrences before the year BEFORE, and perhaps some more: as
/// many as COUNT, from the number FROM on.
fn listed(
    alloc: Global,
    source: &Source,
    call: &Call<'_>,
    answers: &mut Answers,
) -> Result<(), Refusal> {
    let (from, count) = (call.number(1, 0, 9999)?, call.number(2, 0, 9999)?);
    let before = call.number(0, 1, 9999)? as u16;
    let listed = ListedSource::new(alloc, source);
    let found = occurrences_of(alloc, &listed, before)?;
    push_occurrences(found.items(), from as usize, count as usize, answers);
    Ok(())
}

fn push_occurrences(found: &[TimedOccurrence], from: usize, count: usize, answers: &mut Answers) {
    for occurrence in found.iter().skip(from).take(count) {
        push_occurrence(occurrence, answers);
    }
    answers.push(b"in order\n");
}

fn push_occurrence(occurrence: &TimedOccurrence, answers: &mut Answers) {
    answers.show(&occurrence.instant);
    answers.word("rule");
    answers.show(&occurrence.rule);
    answers.word("in");
    answers.show(&occurrence.year);
    answers.end_line();
}

/// `current INSTANT..`: prints the rule of the last occurrence that isn't after each instant, and how
/// many occurrences are before it.
fn current(
    alloc: Global,
    source: &Source,
    call: &Call<'_>,
    answers: &mut Answers,
) -> Result<(), Refusal> {
    let listed = ListedSource::new(alloc, source);
    let found = occurrences_of(alloc, &listed, 1)?;
    push_current(found.items(), call, answers)
}

/// Prints each instant that is given, the rule that is current then, and how many occurrences come
/// before it.
fn push_current(
    found: &[TimedOccurrence],
    call: &Call<'_>,
    answers: &mut Answers,
) -> Result<(), Refusal>
    requires { AreRising found.now }
{
    for number in 0..call.len() {
        let t = call.instant(number)?;
        answers.show(&t);
        answers.debug(&rule_at(found, t));
        answers.show(&before(found, t).len());
        answers.end_line();
    }
    Ok(())
}

/// Prints the last year that the set names.
fn named(source: &Source, answers: &mut Answers) -> Result<(), Refusal> {
    if source.zones() == 0 || source.lines(0) == 0 {
        return Err(Refusal::Call);
    }
    let Rules::Set(set) = &source.line(0, 0).rules else {
        return Err(Refusal::Call);
    };
    answers.show(&last_named_year(source, set));
    answers.end_line();
    Ok(())
}

/// `moment OFFSET`: prints the second at which the first year of the first rule begins, the nominal
/// second of the rule in that year, and its instant at this standard offset without a saving.
fn moment(source: &Source, call: &Call<'_>, answers: &mut Answers) -> Result<(), Refusal> {
    let offset = call.number(0, -86_400, 86_400)? as i32;
    if source.rules() == 0 {
        return Ok(());
    }
    let rule = source.rule(0);
    let second = nominal_second(rule.first, &rule.moment);
    answers.show(&year_second(rule.first));
    answers.show(&second);
    answers.show(&instant_by(rule.moment.at.form, offset, 0, second));
    answers.end_line();
    Ok(())
}
