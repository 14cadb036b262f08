//! Fields by their numbers, or by their names in the header.

use crate::no_request::{NoRequest, bad_value};
use clap::ArgMatches;
use std::alloc::{AllocError, Global};

/// The greatest number that a field can have in an option.
const MOST_FIELDS: u64 = 65_536;

/// Which field an option means.
#[derive(Drop)]
pub(crate) enum FieldWord {
    /// The field of this number, from 1.
    Number(u64),
    /// The field with this name in the header.
    Name(String),
}

/// The fields that options mean.
#[derive(Drop)]
pub(crate) struct FieldWords {
    pub(crate) zone: Option<FieldWord>,
    pub(crate) time: Option<FieldWord>,
}

impl FieldWords {
    /// Returns the fields that options mean.
    pub(crate) fn of(alloc: Global, matches: &ArgMatches<'_>) -> Result<FieldWords, NoRequest> {
        Ok(FieldWords {
            zone: field_word(alloc, matches, "zone-field")?,
            time: field_word(alloc, matches, "time-field")?,
        })
    }

    /// Returns whether there is such an option.
    pub(crate) fn are_given(&self) -> bool {
        self.zone.is_some() || self.time.is_some()
    }

    /// Returns whether one of them has a name.
    pub(crate) fn have_names(&self) -> bool {
        matches!(
            (&self.zone, &self.time),
            (Some(FieldWord::Name(_)), _) | (_, Some(FieldWord::Name(_)))
        )
    }

    /// Returns their names.
    pub(crate) fn names(self) -> FieldNames {
        let FieldWords { zone, time } = self;
        FieldNames {
            zone: name_of(zone),
            time: name_of(time),
        }
    }
}

/// Returns the name of a field, where it is meant by that.
fn name_of(word: Option<FieldWord>) -> Option<String> {
    match word {
        Some(FieldWord::Name(name)) => Some(name),
        Some(FieldWord::Number(_)) | None => None,
    }
}

/// The names of the fields that are read, where words have their names in the header in place of their
/// numbers.
#[derive(Drop)]
pub struct FieldNames {
    /// The name of the field of the zone.
    pub zone: Option<String>,
    /// The name of the field of the instant, or of the local time.
    pub time: Option<String>,
}

impl FieldNames {
    /// Returns whether no field has its name.
    pub fn is_empty(&self) -> bool {
        self.zone.is_none() && self.time.is_none()
    }
}

/// Returns the field that an option means, if it is given. A word of digits is a number.
fn field_word(
    alloc: Global,
    matches: &ArgMatches<'_>,
    id: &str,
) -> Result<Option<FieldWord>, NoRequest> {
    let Some(word) = matches.get_str(id) else {
        return Ok(None);
    };
    if !is_number(word) {
        return Ok(Some(FieldWord::Name(String::from_str(alloc, word)?)));
    }
    match word.parse::<u64>() {
        Ok(number) if 1 <= number && number <= MOST_FIELDS => Ok(Some(FieldWord::Number(number))),
        _ => Err(no_field(alloc, id, word)?),
    }
}

/// Returns whether a word has digits alone, after a `+` or not.
fn is_number(word: &str) -> bool {
    let digits = word.strip_prefix("+").unwrap_or(word);
    !digits.is_empty() && digits.as_bytes().iter().all(|byte| byte.is_ascii_digit())
}

/// Returns the refusal of a number that no field has, given as the option of this name.
fn no_field(alloc: Global, id: &str, word: &str) -> Result<NoRequest, AllocError> {
    let most = MOST_FIELDS;
    let why = format!(in alloc; "not from 1 to {most}")?;
    let option = ["--", id, " <F>"].concat(alloc)?;
    Ok(bad_value(alloc, word, option.as_str(), why.as_str()))
}
