//! The values of words and options.

use crate::no_request::{NoRequest, usage};
use clap::ArgMatches;
use clap::parser::ValueSource;
use std::alloc::{AllocError, Global};
use zic_base::STANDARD_INPUT;
use zic_dump::Years;
use zic_layouts::{Compared, Plan};

/// Returns the word for what is required.
pub(crate) fn given<'a>(
    alloc: Global,
    matches: &'a ArgMatches<'_>,
    id: &str,
) -> Result<&'a str, NoRequest> {
    match matches.get_str(id) {
        Some(word) => Ok(word),
        None => Err(usage(alloc, "a word is missing")),
    }
}

/// Returns the same as a text of its own.
pub(crate) fn word(alloc: Global, matches: &ArgMatches<'_>, id: &str) -> Result<String, NoRequest> {
    let word = given(alloc, matches, id)?;
    Ok(String::from_str(alloc, word)?)
}

/// Returns the word of an option, if it is given.
pub(crate) fn optional(
    alloc: Global,
    matches: &ArgMatches<'_>,
    id: &str,
) -> Result<Option<String>, NoRequest> {
    match matches.get_str(id) {
        Some(word) => Ok(Some(String::from_str(alloc, word)?)),
        None => Ok(None),
    }
}

/// Returns whether the words have an option.
pub(crate) fn is_given(matches: &ArgMatches<'_>, id: &str) -> bool {
    matches!(matches.value_source(id), Some(ValueSource::CommandLine))
}

/// Returns the words that are given for what has one of these names.
pub(crate) fn all_given(
    alloc: Global,
    matches: &ArgMatches<'_>,
    ids: &[&str],
) -> Result<Vec<String>, AllocError> {
    let mut words = Vec::new(alloc);
    for id in ids {
        push_given(alloc, matches, id, &mut words)?;
    }
    Ok(words)
}

/// Adds the words that are given for what has this name.
fn push_given(
    alloc: Global,
    matches: &ArgMatches<'_>,
    id: &str,
    words: &mut Vec<String>,
) -> Result<(), AllocError> {
    for word in matches.get_strs(id).unwrap_or(&[]) {
        words.push(String::from_str(alloc, word)?)?;
    }
    Ok(())
}

/// Returns how many of these sources are standard input.
pub(crate) fn inputs_of(sources: &[String]) -> usize {
    let mut inputs: usize = 0;
    for source in sources {
        if source.as_str() == STANDARD_INPUT {
            inputs = inputs.saturating_add(1);
        }
    }
    inputs
}

/// Returns the number of an option.
pub(crate) fn number(alloc: Global, matches: &ArgMatches<'_>, id: &str) -> Result<u64, NoRequest> {
    match matches.get_one::<u64>(id) {
        Some(number) => Ok(number),
        None => Err(usage(alloc, "an option has no number")),
    }
}

/// Returns the years of two options.
pub(crate) fn years(alloc: Global, matches: &ArgMatches<'_>) -> Result<Years, NoRequest> {
    let from = number(alloc, matches, "from")?;
    let to = number(alloc, matches, "to")?;
    match Years::new(from, to) {
        Some(years) => Ok(years),
        None => Err(usage(alloc, "the year of --from is after that of --to")),
    }
}

/// Returns how work is shared, where there is no column.
pub(crate) fn plan(alloc: Global, matches: &ArgMatches<'_>) -> Result<Plan, NoRequest> {
    let workers = number(alloc, matches, "workers")?;
    let zone_piece = number(alloc, matches, "zone-piece")?;
    match Plan::new(workers, zone_piece, 1, 0, 0) {
        Some(plan) => Ok(plan),
        None => Err(usage(alloc, "an option has a number outside its range")),
    }
}

/// Returns how work is shared, and how many rows and bytes a column may have.
pub(crate) fn column_plan(alloc: Global, matches: &ArgMatches<'_>) -> Result<Plan, NoRequest> {
    let workers = number(alloc, matches, "workers")?;
    let zone_piece = number(alloc, matches, "zone-piece")?;
    let row_piece = number(alloc, matches, "row-piece")?;
    let max_rows = number(alloc, matches, "max-rows")?;
    let max_bytes = number(alloc, matches, "max-bytes")?;
    match Plan::new(workers, zone_piece, row_piece, max_rows, max_bytes) {
        Some(plan) => Ok(plan),
        None => Err(usage(alloc, "an option has a number outside its range")),
    }
}

/// Returns what is compared of answers.
pub(crate) fn compared(alloc: Global, matches: &ArgMatches<'_>) -> Result<Compared, NoRequest> {
    let (daylight, abbreviation) = match matches.get_str("ignore") {
        None => (true, true),
        Some("daylight") => (false, true),
        Some("abbreviation") => (true, false),
        Some("daylight,abbreviation" | "abbreviation,daylight") => (false, false),
        Some(_) => return Err(usage(alloc, "--ignore is daylight, abbreviation, or both")),
    };
    Ok(Compared {
        daylight,
        abbreviation,
    })
}
