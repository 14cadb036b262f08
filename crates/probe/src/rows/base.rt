//! Numbers of faults, places, short texts and digits.

use super::call::{Call, Refusal};
use crate::answers::Answers;
use std::alloc::Global;
use zic_base::{
    Kind, Place, ShortText, are_abbreviation_bytes, clock_text, is_abbreviation_byte, offset_text,
    two_digits,
};
use zic_tzif::Reason;

/// Appends the answer to a call.
pub fn answer(alloc: Global, call: &Call<'_>, answers: &mut Answers) -> Result<(), Refusal> {
    match call.name {
        "kinds" => Ok(kinds(answers)),
        "is_before" => is_before(call, answers),
        "short_text" => short_text(alloc, call.text()?, answers),
        "abbreviation_bytes" => Ok(abbreviation_bytes(call.text()?, answers)),
        "digits" => digits(call, answers),
        "offset_text" => offset(call, answers),
        _ => Err(Refusal::Call),
    }
}

/// Prints the numbers of three kinds of faults, and of two reasons why a file is refused.
fn kinds(answers: &mut Answers) {
    for kind in [Kind::NotAscii, Kind::PermanentDaylight, Kind::TooManyChars] {
        answers.debug(&kind);
        answers.show(&kind.number());
        answers.end_line();
    }
    for reason in [Reason::Short, Reason::TooLarge] {
        answers.debug(&reason);
        answers.show(&reason.number());
        answers.end_line();
    }
}

/// `is_before TEXT LINE TEXT LINE`: prints whether the first place is before the second.
fn is_before(call: &Call<'_>, answers: &mut Answers) -> Result<(), Refusal> {
    let (first, second) = (place(call, 0)?, place(call, 2)?);
    answers.debug_line(&first.is_before(second));
    Ok(())
}

/// Returns the place that the word of this number and the one after it spell.
fn place(call: &Call<'_>, word: usize) -> Result<Place, Refusal> {
    let text = call.number(word, 1, 9)? as u64;
    let line = call.number(word.saturating_add(1), 1, 9)? as u64;
    Ok(Place { text, line })
}

/// Prints a text of which four bytes are stored inline, and whether its copy is equal.
fn short_text(alloc: Global, octets: &[u8], answers: &mut Answers) -> Result<(), Refusal> {
    let held: ShortText<4> = ShortText::new(alloc, octets)?;
    let copy = held.clone()?;
    answers.bracketed(held.octets());
    answers.show(&(held == copy));
    answers.end_line();
    Ok(())
}

/// Prints whether all bytes of a text may stand in an abbreviation, and how many may.
fn abbreviation_bytes(text: &[u8], answers: &mut Answers) {
    let mut count = 0u64;
    for byte in text {
        if is_abbreviation_byte(*byte) {
            count = count.saturating_add(1);
        }
    }
    answers.show(&are_abbreviation_bytes(text));
    answers.show(&count);
    answers.end_line();
}

/// `digits N SECONDS`: prints a number from 0 to 99, and seconds as a clock shows them.
fn digits(call: &Call<'_>, answers: &mut Answers) -> Result<(), Refusal> {
    answers.octets(&two_digits(call.number(0, 0, 99)? as u32));
    answers.octets(&clock_text(call.number(1, 0, 359_999)? as u32));
    answers.end_line();
    Ok(())
}

/// `offset_text OFFSET`: prints an offset in seconds as `+HH:MM:SS`.
fn offset(call: &Call<'_>, answers: &mut Answers) -> Result<(), Refusal> {
    answers.octets(&offset_text(call.number(0, -359_999, 359_999)? as i32));
    answers.end_line();
    Ok(())
}
