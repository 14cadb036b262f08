//! Sources.

ghost use Rattle.std.specs.Prelude.{◌<◌, length};

use super::call::{Call, Refusal};
use super::lines::{push_link, push_rule, push_zone_line};
use crate::answers::Answers;
use std::alloc::{AllocError, Global};
use std::slice;
use zic_source::{SetName, Source, Stop, read_source};

/// Appends the answer to a call.
pub fn answer(
    alloc: Global,
    source: &Source,
    call: &Call<'_>,
    answers: &mut Answers,
) -> Result<(), Refusal> {
    match call.name {
        "counts" => Ok(counts(source, answers)),
        "entries" => Ok(entries(source, answers)),
        "set_rules" => set_rules(alloc, source, call.word(0)?, answers),
        "fronts" => fronts(alloc, call, answers),
        "changed" => changed(alloc, call, answers),
        _ => Err(Refusal::Call),
    }
}

/// Prints the numbers of rules, zones and links.
fn counts(source: &Source, answers: &mut Answers) {
    answers.show(&source.rules());
    answers.word("rules,");
    answers.show(&source.zones());
    answers.word("zones,");
    answers.show(&source.links());
    answers.word("links\n");
}

/// Prints all lines: rules, then zones, then links, each after the number of the zone to which it
/// leads.
fn entries(source: &Source, answers: &mut Answers) {
    for rule in 0..source.rules() {
        push_rule(source.rule(rule), answers);
    }
    for zone in 0..source.zones() {
        push_zone(source, zone, answers);
    }
    push_links(source, answers);
}

fn push_links(source: &Source, answers: &mut Answers) {
    for link in 0..source.links() {
        answers.word("zone");
        answers.show(&source.link_zone(link));
        answers.push(b":");
        push_link(source.link(link), answers);
    }
}

fn push_zone(source: &Source, zone: usize, answers: &mut Answers)
    requires { zone < length source.now.zones }
{
    let name = source.zone_name(zone).octets();
    for line in 0..source.lines(zone) {
        answers.word("zone");
        answers.octets(name);
        push_zone_line(source.line(zone, line), answers);
    }
}

/// `set_rules NAME`: prints the numbers of a set's rules.
fn set_rules(
    alloc: Global,
    source: &Source,
    name: &str,
    answers: &mut Answers,
) -> Result<(), Refusal> {
    match SetName::parse(alloc, name.as_bytes()) {
        Some(Ok(set)) => answers.debug_line(&source.set_rules(&set)),
        Some(Err(_)) => return Err(Refusal::Stop(Stop::Memory)),
        None => return Err(Refusal::Call),
    }
    Ok(())
}

/// `fronts LINES`: prints whether each front of a text is a source, or has its first fault in these
/// first lines.
fn fronts(alloc: Global, call: &Call<'_>, answers: &mut Answers) -> Result<(), Refusal> {
    let (lines, text) = (call.number(0, 1, 99)? as u64, call.text()?);
    push_is_within(last_front_line(alloc, text)?, lines, answers);
    Ok(())
}

/// Returns the last line in which a front of a text has its first fault, or 0.
fn last_front_line(alloc: Global, text: &[u8]) -> Result<u64, AllocError> {
    let mut front = Vec::new(alloc);
    let mut last = fault_line(alloc, &front)?;
    for byte in text {
        front.push(*byte)?;
        last = fault_line(alloc, &front)?.max(last);
    }
    Ok(last)
}

/// Prints whether a line is one of the first ones.
fn push_is_within(line: u64, lines: u64, answers: &mut Answers) {
    answers.show(&(line <= lines));
    answers.end_line();
}

/// `changed LINES`: prints whether each text with one byte set to any value is a source, or has its
/// first fault in these first lines.
fn changed(alloc: Global, call: &Call<'_>, answers: &mut Answers) -> Result<(), Refusal> {
    let (lines, text) = (call.number(0, 1, 99)? as u64, call.text()?);
    let mut last = 0;
    for place in 0..text.len() {
        last = last_fault_line(alloc, text, place)?.max(last);
    }
    push_is_within(last, lines, answers);
    Ok(())
}

/// Returns the last line in which a text has its first fault with a value of the byte at a place,
/// or 0.
fn last_fault_line(alloc: Global, text: &[u8], place: usize) -> Result<u64, AllocError> {
    let mut changed = Vec::from_slice(alloc, text)?;
    let mut last = 0;
    for value in 0..=255 {
        if let Some(byte) = changed.get_mut(place) {
            *byte = value;
        }
        last = fault_line(alloc, &changed)?.max(last);
    }
    Ok(last)
}

/// Returns the line of a text's first fault, or 0.
fn fault_line(alloc: Global, text: &Vec<u8>) -> Result<u64, AllocError> {
    match read_source(alloc, slice::from_ref(text)) {
        Ok(_) => Ok(0),
        Err(Stop::Fault(fault)) => Ok(fault.place.line),
        Err(Stop::Memory) => Err(AllocError),
    }
}
