//! The component of a zone.

ghost use Rattle.std.specs.Prelude.{string_bytes, IfOk};
ghost use Rattle.zic_dump.specs.ContentLines.{HasShortLines};

use crate::content_lines::ContentLines;
use crate::observance::push_observances;
use crate::onset::{onset_at, push_onsets};
use crate::repeated::push_repeated;
use crate::stop::CalendarStop;
use std::alloc::Global;
use zic_tzif::Zone;

/// The start of the year 1601, in seconds from 1970-01-01T00:00:00 UT. Some readers of iCalendar take no
/// earlier dates.
pub const SINCE: i64 = -11_644_473_600;

/// The start of the year 2: from it on local time has a year from 1 on, by each UT offset of a file.
const FIRST: i64 = -62_104_060_800;

/// The start of the year 9999: up to it local time has a year of four digits.
const LAST: i64 = 253_370_764_800;

/// The start of the year 9500: local time of 400 years after it has a year of four digits.
const LATEST: i64 = 237_637_497_600;

/// Returns a zone as a component `VTIMEZONE` with this TZID (RFC 5545, 3.6.5), in lines of at most 75
/// octets that end in CRLF. Instants are in seconds from 1970-01-01T00:00:00 UT.
///
/// It has an observance for `since` and all changes after it that are alike, another for each other kind
/// of changes, and so on up to just before `until`. Changes are alike if they have the same UT offset
/// before them and the same local time after them; an observance has their dates. By `None` it goes on
/// for ever: dates end at the last transition of the file, and each rule of its footer has an observance
/// with an RRULE, whose days were compared with all changes of 400 years. An observance is `DAYLIGHT`
/// where the file has the flag of daylight saving time, also where it is negative.
///
/// # Errors
///
/// There is no such component, or memory ran out: see [`CalendarStop`].
pub fn vtimezone(
    alloc: Global,
    zone: &Zone,
    name: &str,
    since: i64,
    until: Option<i64>,
) -> Result<String, CalendarStop>
    ensures { IfOk result (λ text. HasShortLines (string_bytes text)) }
{
    let mut lines = ContentLines::new(alloc);
    match push_component(alloc, &mut lines, zone, name, since, until) {
        Ok(()) => Ok(lines.into_text()),
        Err(stop) => Err(stop),
    }
}

/// Adds the lines of a component.
fn push_component(
    alloc: Global,
    lines: &mut ContentLines,
    zone: &Zone,
    name: &str,
    since: i64,
    until: Option<i64>,
) -> Result<(), CalendarStop> {
    let last = last_listed(zone, since, until)?;
    if !is_name(name) {
        return Err(CalendarStop::Name);
    }
    lines.push_line("BEGIN:VTIMEZONE")?;
    lines.push_str("TZID:")?;
    lines.push_value(name)?;
    lines.end()?;
    push_listed(alloc, lines, zone, since, last)?;
    if until.is_none() {
        push_repeated(alloc, lines, zone, last)?;
    }
    Ok(lines.push_line("END:VTIMEZONE")?)
}

/// Returns the last instant of which a change is listed by its date.
fn last_listed(zone: &Zone, since: i64, until: Option<i64>) -> Result<i64, CalendarStop> {
    if since < FIRST || LAST < since {
        return Err(CalendarStop::Years);
    }
    match until {
        Some(until) if until <= since => Err(CalendarStop::Order),
        Some(until) if LAST < until => Err(CalendarStop::Years),
        Some(until) => Ok(until - 1),
        None => {
            let last = zone.last_transition().unwrap_or(since).max(since);
            if last < LATEST {
                Ok(last)
            } else {
                Err(CalendarStop::Years)
            }
        }
    }
}

/// Returns whether a text is a name: it isn't empty and has no control characters.
fn is_name(text: &str) -> bool {
    for byte in text.as_bytes() {
        if byte.is_ascii_control() {
            return false;
        }
    }
    !text.is_empty()
}

/// Adds the observances of an instant and of the changes after it, up to another.
fn push_listed(
    alloc: Global,
    lines: &mut ContentLines,
    zone: &Zone,
    since: i64,
    last: i64,
) -> Result<(), CalendarStop> {
    let mut onsets = Vec::new(alloc);
    onsets.push(onset_at(zone, since)?)?;
    push_onsets(&mut onsets, zone, since, last)?;
    Ok(push_observances(lines, &onsets)?)
}
