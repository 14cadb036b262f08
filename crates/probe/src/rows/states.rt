//! Abbreviations, observances and UNTILs of the first zone of a source.

ghost use Rattle.std.specs.Prelude.{IfOk};
ghost use Rattle.zic_source.specs.Sound.{IsSoundLine};
ghost use Rattle.zic_states.specs.LineItems.{items_of};
ghost use Rattle.zic_states.specs.Occurrences.{AreOccurrencesFor};

use super::call::{Call, Refusal};
use crate::answers::Answers;
use std::alloc::Global;
use zic_source::{Letter, Rules, Source, ZoneLine};
use zic_states::format::abbreviation;
use zic_states::{
    Abbreviation, LineOccurrences, ListedSource, is_abbreviation, observance_by, occurrences,
    until_instant,
};

/// Appends the answer to a call.
pub fn answer(
    alloc: Global,
    source: &Source,
    call: &Call<'_>,
    answers: &mut Answers,
) -> Result<(), Refusal> {
    match call.name {
        "abbreviation" => filled(alloc, source, call, answers),
        "is_abbreviation" => Ok(abbreviations(call.word(0)?, answers)),
        "observance" => Ok(observance(source, answers)),
        "untils" => untils(alloc, source, answers),
        _ => Err(Refusal::Call),
    }
}

/// `abbreviation OFFSET FLAG` or `abbreviation OFFSET FLAG LETTER`: prints the abbreviation that the
/// FORMAT of the first line makes.
fn filled(
    alloc: Global,
    source: &Source,
    call: &Call<'_>,
    answers: &mut Answers,
) -> Result<(), Refusal> {
    let offset = call.number(0, -86_400, 86_400)? as i32;
    let flag = call.number(1, 0, 1)? == 1;
    if source.zones() == 0 {
        return Ok(());
    }
    let letter = match call.word(2) {
        Ok(word) => Letter::parse(alloc, word.as_bytes()),
        Err(_) => None,
    };
    let format = &source.line(0, 0).format;
    match abbreviation(format, offset, flag, letter.as_ref()) {
        Ok(made) => answers.octets(made.octets()),
        Err(kind) => answers.debug(&kind),
    }
    answers.end_line();
    Ok(())
}

/// `is_abbreviation WORD`: prints whether a word is an abbreviation, and then its bytes, and whether
/// it is `NZST`.
fn abbreviations(word: &str, answers: &mut Answers) {
    answers.show(&is_abbreviation(word.as_bytes()));
    if let Some(made) = Abbreviation::parse(word.as_bytes()) {
        let is_new_zealand = Some(made) == Abbreviation::parse(b"NZST");
        answers.octets(made.octets());
        answers.show(&is_new_zealand);
    }
    answers.end_line();
}

/// Prints the saving, the flag and the letter of the first line before all occurrences.
fn observance(source: &Source, answers: &mut Answers) {
    if source.zones() == 0 {
        return;
    }
    let held = observance_by(source, source.line(0, 0), None);
    answers.show(&held.saving);
    answers.show(&held.daylight);
    match held.letter {
        Some(letter) => answers.bracketed(letter.octets()),
        None => answers.word("None"),
    }
    answers.end_line();
}

/// Prints the instants of the UNTILs.
fn untils(alloc: Global, source: &Source, answers: &mut Answers) -> Result<(), Refusal> {
    if source.zones() == 0 {
        return Err(Refusal::Call);
    }
    let listed = ListedSource::new(alloc, source);
    for number in 0..source.lines(0) {
        let line = source.line(0, number);
        let found = occurrences_for(alloc, &listed, line)?;
        answers.debug_line(&until_instant(source, line, found.items()));
    }
    Ok(())
}

/// Returns the occurrences of the line's set up to its UNTIL.
fn occurrences_for<'a>(
    alloc: Global,
    listed: &'a ListedSource<'_>,
    line: &ZoneLine,
) -> Result<LineOccurrences<'a>, Refusal>
    requires { IsSoundLine listed.now.rules line.now }
    ensures { IfOk result
        (λ found. AreOccurrencesFor listed.now.rules line.now line.now.rules (items_of found)) }
{
    let Rules::Set(set) = &line.rules else {
        return Ok(LineOccurrences::Shared(&[]));
    };
    let before = match line.until {
        Some(until) => until.year + 2,
        None => 1,
    };
    match occurrences(alloc, listed, set, line.offset, before) {
        Ok(found) => Ok(found),
        Err(stop) => Err(Refusal::Stop(stop.at(line.place))),
    }
}
