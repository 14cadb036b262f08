//! Lines of source text, and what they say.

use super::call::{Call, Refusal};
use crate::answers::Answers;
use std::alloc::Global;
use zic_base::Place;
use zic_lines::{Entry, Fields, Format, Link, Rule, Rules, ZoneLine, line_entry};

const PLACE: Place = Place { text: 1, line: 7 };

/// Appends the answer to a call: what line 7 of a text says, where a continuation line is awaited
/// or not.
pub fn answer(alloc: Global, call: &Call<'_>, answers: &mut Answers) -> Result<(), Refusal> {
    let text = call.text()?;
    match call.name {
        "line" => line(alloc, false, text, answers),
        "continuation" => line(alloc, true, text, answers),
        _ => Err(Refusal::Call),
    }
}

fn line(alloc: Global, awaited: bool, text: &[u8], answers: &mut Answers) -> Result<(), Refusal> {
    let mut fields = Fields::new(alloc);
    fields.take_line(alloc, PLACE, text)?;
    push_fields(alloc, awaited, &fields, answers)
}

/// Appends what the fields of a line say.
fn push_fields(
    alloc: Global,
    awaited: bool,
    fields: &Fields,
    answers: &mut Answers,
) -> Result<(), Refusal> {
    if fields.len() == 0 {
        answers.push(b"nothing\n");
        return Ok(());
    }
    let entry = line_entry(alloc, awaited, PLACE, fields)?;
    push_entry(&entry, answers);
    drop(entry);
    Ok(())
}

fn push_entry(entry: &Entry, answers: &mut Answers) {
    match entry {
        Entry::Rule(rule) => push_rule(rule, answers),
        Entry::Zone(name, line) => {
            answers.word("zone");
            answers.octets(name.octets());
            push_zone_line(line, answers);
        }
        Entry::Continuation(line) => {
            answers.word("continuation");
            push_zone_line(line, answers);
        }
        Entry::Link(link) => push_link(link, answers),
    }
}

/// Appends a Rule line: its place, set, years, moment, saving and letter.
pub fn push_rule(rule: &Rule, answers: &mut Answers) {
    answers.word("rule");
    answers.place(rule.place);
    answers.octets(rule.name.octets());
    answers.show(&rule.first);
    answers.debug(&rule.last);
    answers.debug(&rule.moment);
    answers.debug(&rule.saving);
    answers.bracketed(rule.letter.octets());
    answers.end_line();
}

/// Appends a Zone or continuation line: its place, offset, RULES, FORMAT and UNTIL.
pub fn push_zone_line(line: &ZoneLine, answers: &mut Answers) {
    answers.place(line.place);
    answers.show(&line.offset);
    push_rules(&line.rules, answers);
    push_format(&line.format, answers);
    answers.debug_line(&line.until);
}

fn push_rules(rules: &Rules, answers: &mut Answers) {
    match rules {
        Rules::Standard => answers.word("standard"),
        Rules::Amount(saving) => answers.debug(saving),
        Rules::Set(name) => {
            answers.word("set");
            answers.octets(name.octets());
        }
    }
}

fn push_format(format: &Format, answers: &mut Answers) {
    match format {
        Format::Plain(text) => answers.bracketed(text.octets()),
        Format::Letter(before, after) => push_parts(
            before.octets(),
            "%s[",
            after.octets(),
            answers,
        ),
        Format::Offset(before, after) => push_parts(
            before.octets(),
            "%z[",
            after.octets(),
            answers,
        ),
        Format::Pair(standard, daylight) => {
            push_parts(standard.octets(), "/[", daylight.octets(), answers);
        }
    }
}

/// Appends the parts of a FORMAT, with what stands between them.
fn push_parts(before: &[u8], between: &str, after: &[u8], answers: &mut Answers) {
    answers.bracketed(before);
    answers.push(between.as_bytes());
    answers.push(after);
    answers.push(b"]");
}

/// Appends a Link line: its place, target and name.
pub fn push_link(link: &Link, answers: &mut Answers) {
    answers.word("link");
    answers.place(link.place);
    answers.octets(link.target.octets());
    answers.octets(link.name.octets());
    answers.end_line();
}
