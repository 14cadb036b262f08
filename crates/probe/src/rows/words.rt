//! Words of source lines.

use super::call::{Call, Refusal};
use crate::answers::Answers;
use std::alloc::{AllocError, Global};
use zic_lines::{
    Letter, Name, SetName, clock_time, ends_before, is_dash, is_one_leap_year, last_year, offset,
    parse_day_form, parse_keyword, parse_month, parse_year, save, split_at_most_once,
};

/// Appends the answer to a call, whose text is a word.
pub fn answer(alloc: Global, call: &Call<'_>, answers: &mut Answers) -> Result<(), Refusal> {
    let text = call.text()?;
    match call.name {
        "clock_time" => Ok(answers.debug_line(&clock_time(text))),
        "offset" => Ok(answers.debug_line(&offset(text))),
        "save" => Ok(answers.debug_line(&save(text))),
        "year" => Ok(answers.debug_line(&parse_year(text))),
        "month" => Ok(answers.debug_line(&parse_month(text))),
        "keyword" => Ok(answers.debug_line(&parse_keyword(text))),
        "is_dash" => Ok(answers.debug_line(&is_dash(text))),
        "last_year" => last(call, text, answers),
        "day_form" => day_form(call, text, answers),
        "split" => Ok(split(text, answers)),
        "name" => name(alloc, text, answers),
        "set_name" => set_name(alloc, text, answers),
        "letter" => Ok(letter(alloc, text, answers)),
        _ => Err(Refusal::Call),
    }
}

/// `last_year FIRST`: prints the last year that a word names after a first year, and, where it
/// names one, whether it is before 1996, and whether both are one leap year.
fn last(call: &Call<'_>, text: &[u8], answers: &mut Answers) -> Result<(), Refusal> {
    let first = call.number(0, 1, 9000)? as u16;
    answers.debug(&last_year(first, text));
    if let Some(last) = last_year(first, text) {
        answers.show(&ends_before(last, 1996));
        answers.show(&is_one_leap_year(first, last));
    }
    answers.end_line();
    Ok(())
}

/// `day_form MONTH` or `day_form MONTH leap`: prints the form of a day that a word names, in each
/// year or in one leap year.
fn day_form(call: &Call<'_>, text: &[u8], answers: &mut Answers) -> Result<(), Refusal> {
    let (month, one_leap_year) = (call.number(0, 1, 12)? as u8, call.len() > 1);
    answers.debug_line(&parse_day_form(one_leap_year, month, text));
    Ok(())
}

/// Prints the parts of a word before and after its slash, of which it has at most one.
fn split(text: &[u8], answers: &mut Answers) {
    match split_at_most_once(text, b'/') {
        None => answers.word("None"),
        Some((whole, None)) => answers.bracketed(whole),
        Some((before, Some(after))) => {
            answers.bracketed(before);
            answers.bracketed(after);
        }
    }
    answers.end_line();
}

/// Prints a name, and whether its copy is equal.
fn name(alloc: Global, text: &[u8], answers: &mut Answers) -> Result<(), Refusal> {
    match Name::parse(alloc, text) {
        Some(found) => push_name(&found?, answers)?,
        None => answers.word("None"),
    }
    answers.end_line();
    Ok(())
}

fn push_name(name: &Name, answers: &mut Answers) -> Result<(), AllocError> {
    let copy = name.clone()?;
    answers.bracketed(name.octets());
    answers.show(&(*name == copy));
    Ok(())
}

/// Prints the name of a set, and whether its copy and the set `EU` are equal.
fn set_name(alloc: Global, text: &[u8], answers: &mut Answers) -> Result<(), Refusal> {
    match SetName::parse(alloc, text) {
        Some(name) => push_set_name(alloc, &name?, answers)?,
        None => answers.word("None"),
    }
    answers.end_line();
    Ok(())
}

fn push_set_name(alloc: Global, name: &SetName, answers: &mut Answers) -> Result<(), AllocError> {
    let copy = name.clone()?;
    answers.bracketed(name.octets());
    answers.show(&(*name == copy));
    answers.show(&is_europe(alloc, name)?);
    Ok(())
}

fn is_europe(alloc: Global, name: &SetName) -> Result<bool, AllocError> {
    match SetName::parse(alloc, b"EU") {
        Some(europe) => Ok(*name == europe?),
        None => Ok(false),
    }
}

/// Prints a letter.
fn letter(alloc: Global, text: &[u8], answers: &mut Answers) {
    match Letter::parse(alloc, text) {
        None => answers.word("None"),
        Some(letter) => answers.bracketed(letter.octets()),
    }
    answers.end_line();
}
