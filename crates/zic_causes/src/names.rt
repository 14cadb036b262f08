//! Abbreviations that a line lacks, or that no file may have.

ghost use Rattle.zic_source.specs.Sound.{IsSoundLine};

use crate::cause::Cause;
use std::alloc::{AllocError, Global};
use zic_base::two_digits;
use zic_lines::{Format, GREATEST_OFFSET, Kind, Place, Rule, Rules, SetName, ZoneLine};
use zic_source::Source;
use zic_states::format::abbreviation;
use zic_states::{Observance, observance_by};

/// Returns a line whose FORMAT is refused for this reason, the rule by which it is, and what it
/// gives then.
pub(crate) fn name_cause(
    alloc: Global,
    source: &Source,
    kind: Kind,
    line: &ZoneLine,
) -> Result<Option<Cause>, AllocError> {
    if let Rules::Set(set) = &line.rules {
        if let Some(rule) = refused_rule(source, set, kind, line) {
            return cause_by(alloc, &[line.place, rule.place], line, &by_rule(rule));
        }
    }
    let before = observance_by(source, line, None);
    if refusal(line, &before) == Some(kind) {
        return cause_by(alloc, &[line.place], line, &before);
    }
    Ok(None)
}

/// Returns the first rule of a line's set that begins before the line ends and by which FORMAT is
/// refused for this reason.
fn refused_rule<'a>(
    source: &'a Source,
    set: &SetName,
    kind: Kind,
    line: &ZoneLine,
) -> Option<&'a Rule> {
    for number in source.set_rules(set) {
        let rule = source.rule(*number);
        if begins_on(line, rule) && refusal(line, &by_rule(rule)) == Some(kind) {
            return Some(rule);
        }
    }
    None
}

/// Returns whether the first year of a rule isn't after that of a line's UNTIL.
fn begins_on(line: &ZoneLine, rule: &Rule) -> bool {
    match line.until {
        Some(until) => rule.first <= until.year,
        None => true,
    }
}

/// Returns what a rule keeps once it has occurred.
fn by_rule(rule: &Rule) -> Observance<'_> {
    Observance {
        saving: rule.saving.seconds,
        daylight: rule.saving.daylight,
        letter: Some(&rule.letter),
    }
}

/// Returns why FORMAT gives no abbreviation, if it gives none.
fn refusal(line: &ZoneLine, kept: &Observance<'_>) -> Option<Kind> {
    let offset = line.offset.saturating_add(kept.saving);
    if offset.unsigned_abs() > GREATEST_OFFSET {
        return None;
    }
    abbreviation(&line.format, offset, kept.daylight, kept.letter).err()
}

/// Returns the cause that lines at these places are, with what FORMAT gives.
fn cause_by(
    alloc: Global,
    places: &[Place],
    line: &ZoneLine,
    kept: &Observance<'_>,
) -> Result<Option<Cause>, AllocError> {
    Ok(Some(Cause {
        places: Vec::from_slice(alloc, places)?,
        year: None,
        abbreviation: filled(alloc, line, kept)?,
    }))
}

/// Returns FORMAT filled in, unless it lacks a letter.
fn filled(
    alloc: Global,
    line: &ZoneLine,
    kept: &Observance<'_>,
) -> Result<Option<Vec<u8>>, AllocError> {
    match (&line.format, kept.letter) {
        (Format::Plain(only), _) => joined(alloc, only.octets(), &[], &[]),
        (Format::Pair(_, only), _) if kept.daylight => joined(alloc, only.octets(), &[], &[]),
        (Format::Pair(only, _), _) => joined(alloc, only.octets(), &[], &[]),
        (Format::Letter(before, after), Some(letter)) => {
            joined(alloc, before.octets(), letter.octets(), after.octets())
        }
        (Format::Letter(..), None) => Ok(None),
        (Format::Offset(before, after), _) => {
            let offset = offset_text(alloc, line.offset.saturating_add(kept.saving))?;
            joined(alloc, before.octets(), &offset, after.octets())
        }
    }
}

/// Returns the text of three parts.
fn joined(
    alloc: Global,
    before: &[u8],
    middle: &[u8],
    after: &[u8],
) -> Result<Option<Vec<u8>>, AllocError> {
    let mut text = Vec::from_slice(alloc, before)?;
    text.extend_from_slice(middle)?;
    text.extend_from_slice(after)?;
    Ok(Some(text))
}

/// Returns the shortest of `+hh`, `+hhmm` and `+hhmmss` that gives a UT offset, with `-` west of
/// Greenwich.
fn offset_text(alloc: Global, offset: i32) -> Result<Vec<u8>, AllocError> {
    let seconds = offset.unsigned_abs();
    let mut text = Vec::from_slice(alloc, if offset < 0 { b"-" } else { b"+" })?;
    text.extend_from_slice(&two_digits(seconds / 3600 % 100))?;
    if seconds % 3600 != 0 {
        text.extend_from_slice(&two_digits(seconds / 60 % 60))?;
    }
    if seconds % 60 != 0 {
        text.extend_from_slice(&two_digits(seconds % 60))?;
    }
    Ok(text)
}
