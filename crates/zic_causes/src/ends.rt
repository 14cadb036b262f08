//! Ends: UNTILs that don't rise, and what a zone shows for ever.

ghost use Rattle.std.specs.Prelude.{◌<◌, length, IfOk, IfSome};
ghost use Rattle.zic_source.specs.Sound.{IsSoundLine};
ghost use Rattle.zic_states.specs.LineItems.{items_of};
ghost use Rattle.zic_states.specs.Occurrences.{AreOccurrencesFor};

use crate::cause::Cause;
use crate::zone::line_of;
use std::alloc::{AllocError, Global};
use zic_base::ZoneStop;
use zic_lines::{Kind, Place, Rules, SetName, ZoneLine};
use zic_source::{MAX_RULES, Source};
use zic_states::{LineOccurrences, ListedSource, occurrences, until_instant};

/// The greatest number of rules that go on for ever and are told.
const MOST_RULES: usize = 4;

/// Returns the line of this number of a zone and the one before it, where its UNTIL isn't after that
/// of the one before.
pub(crate) fn until_cause(
    alloc: Global,
    listed: &ListedSource<'_>,
    zone: usize,
    number: usize,
) -> Result<Option<Cause>, AllocError>
    requires { zone < length listed.now.zones }
{
    let source = listed.source();
    let (Some(line), Some(before)) = (
        line_of(source, zone, number),
        line_of(source, zone, number.wrapping_sub(1)),
    ) else {
        return Ok(None);
    };
    match (
        until_of(alloc, listed, before)?,
        until_of(alloc, listed, line)?,
    ) {
        (Some(start), Some(end)) if end <= start => Cause::at(alloc, &[before.place, line.place]),
        _ => Ok(None),
    }
}

/// Returns the instant of the UNTIL of a line, if it has one and its set is in order.
fn until_of(
    alloc: Global,
    listed: &ListedSource<'_>,
    line: &ZoneLine,
) -> Result<Option<i64>, AllocError>
    requires { IsSoundLine listed.now.rules line.now }
{
    let Some(found) = line_occurrences(alloc, listed, line)? else {
        return Ok(None);
    };
    let source = listed.source();
    // The contract of `rules` says that the source is sound.
    prove!(source.rules() <= MAX_RULES);
    Ok(until_instant(source, line, found.items()))
}

/// Returns the occurrences that decide what a line shows, if its set is in order.
fn line_occurrences<'a>(
    alloc: Global,
    listed: &'a ListedSource<'_>,
    line: &ZoneLine,
) -> Result<Option<LineOccurrences<'a>>, AllocError>
    requires { IsSoundLine listed.now.rules line.now }
    ensures { IfOk result (λ found. IfSome found (λ xs.
        AreOccurrencesFor listed.now.rules line.now line.now.rules (items_of xs))) }
{
    let Rules::Set(set) = &line.rules else {
        return Ok(Some(LineOccurrences::Shared(&[])));
    };
    let before = match line.until {
        Some(until) => until.year + 2,
        None => 0,
    };
    match occurrences(alloc, listed, set, line.offset, before) {
        Ok(found) => Ok(Some(found)),
        Err(ZoneStop::Fault(_)) => Ok(None),
        Err(ZoneStop::Memory) => Err(AllocError),
    }
}

/// Returns the last line of a zone with the rules by which it shows something for ever: those that go
/// on for ever, or for `PermanentDaylight` the one that occurs last.
pub(crate) fn tail_cause(
    alloc: Global,
    listed: &ListedSource<'_>,
    kind: Kind,
    line: &ZoneLine,
) -> Result<Option<Cause>, AllocError>
    requires { IsSoundLine listed.now.rules line.now }
{
    let mut places = Vec::from_slice(alloc, &[line.place])?;
    match &line.rules {
        _ if line.until.is_some() => return Ok(None),
        Rules::Set(set) if kind == Kind::NoFooter => {
            push_endless(&mut places, listed.source(), set)?;
        }
        Rules::Set(_) => push_last(alloc, &mut places, listed, line)?,
        Rules::Standard | Rules::Amount(_) => {}
    }
    Cause::at(alloc, &places)
}

/// Adds the places of the first rules of a set that go on for ever.
fn push_endless(places: &mut Vec<Place>, source: &Source, set: &SetName) -> Result<(), AllocError> {
    for number in source.set_rules(set) {
        let rule = source.rule(*number);
        if rule.last.is_none() && places.len() <= MOST_RULES {
            places.push(rule.place)?;
        }
    }
    Ok(())
}

/// Adds the place of the rule of a line's set that occurs last.
fn push_last(
    alloc: Global,
    places: &mut Vec<Place>,
    listed: &ListedSource<'_>,
    line: &ZoneLine,
) -> Result<(), AllocError>
    requires { IsSoundLine listed.now.rules line.now }
{
    let Some(found) = line_occurrences(alloc, listed, line)? else {
        return Ok(());
    };
    let source = listed.source();
    if let Some(last) = found.items().last() {
        let number = usize::from(last.rule);
        if number < source.rules() {
            places.push(source.rule(number).place)?;
        }
    }
    Ok(())
}
