//! Tables of zones, and the files of tables. tests/library/library.py has the files of zones.

use super::call::{Call, Refusal};
use crate::answers::Answers;
use std::alloc::Global;
use zic_base::{Place, Stop};
use zic_footer::make;
use zic_rules::{Timeline, timeline};
use zic_source::Source;
use zic_states::ListedSource;
use zic_table::table;
use zic_tzif::{Table, write};

/// Appends the answer to a call. It is of the first zone.
pub fn answer(
    alloc: Global,
    source: &Source,
    call: &Call<'_>,
    answers: &mut Answers,
) -> Result<(), Refusal> {
    match call.name {
        "table" => table_text(alloc, source, answers),
        "counts" => counts(alloc, source, answers),
        "written" => written(alloc, source, answers),
        _ => Err(Refusal::Call),
    }
}

/// Returns the table of the first zone.
fn table_of(alloc: Global, source: &Source) -> Result<Table, Refusal> {
    if source.zones() == 0 {
        return Err(Refusal::Call);
    }
    let place = source.line(0, 0).place;
    let listed = ListedSource::new(alloc, source);
    let found = timeline(alloc, &listed, 0)?;
    Ok(table_by(alloc, place, &found)?)
}

/// Returns the table of a zone at this place.
fn table_by(alloc: Global, place: Place, found: &Timeline<'_>) -> Result<Table, Stop> {
    let footer = make(alloc, place, found)?;
    table(alloc, place, found, &footer)
}

/// Appends the version, the transitions, the types, the designations with `/` for NUL, and the
/// footer.
fn table_text(alloc: Global, source: &Source, answers: &mut Answers) -> Result<(), Refusal> {
    let made = table_of(alloc, source)?;
    answers.word("version");
    answers.show(&made.version());
    push_changes(&made, answers);
    push_types(&made, answers);
    push_names(made.names(), answers);
    answers.octets(made.footer_text());
    answers.end_line();
    Ok(())
}

/// Appends a line for each transition, below the line before it.
fn push_changes(made: &Table, answers: &mut Answers) {
    answers.end_line();
    for change in made.changes() {
        answers.show(&change.instant);
        answers.word("type");
        answers.show(&change.number);
        answers.end_line();
    }
}

fn push_types(made: &Table, answers: &mut Answers) {
    for kind in made.types() {
        answers.word("type");
        answers.show(&kind.offset);
        answers.flag(kind.daylight);
        answers.show(&kind.place);
        answers.end_line();
    }
}

fn push_names(names: &[u8], answers: &mut Answers) {
    for byte in names {
        let shown = if *byte == 0 { b'/' } else { *byte };
        answers.push(&[shown]);
    }
    answers.end_line();
}

/// Appends the numbers of transitions, types and bytes of designations.
fn counts(alloc: Global, source: &Source, answers: &mut Answers) -> Result<(), Refusal> {
    let made = table_of(alloc, source)?;
    answers.show(&made.changes().len());
    answers.word("transitions,");
    answers.show(&made.types().len());
    answers.word("types,");
    answers.show(&made.names().len());
    answers.word("bytes\n");
    Ok(())
}

/// Appends the bytes that `write` gives, in hex.
fn written(alloc: Global, source: &Source, answers: &mut Answers) -> Result<(), Refusal> {
    let made = table_of(alloc, source)?;
    let octets = write(alloc, &made)?;
    push_hex(alloc, &octets, answers)
}

fn push_hex(alloc: Global, octets: &[u8], answers: &mut Answers) -> Result<(), Refusal> {
    let text = hex::encode(alloc, octets)?;
    answers.word(text.as_str());
    answers.end_line();
    Ok(())
}
