//! Observances, of which each has the dates of its onsets or a rule.

use crate::civil::civil_at;
use crate::content_lines::ContentLines;
use crate::days::Days;
use crate::onset::Onset;
use std::alloc::AllocError;

/// Adds an observance for each kind of onsets that are alike, with their dates.
pub(crate) fn push_observances(
    lines: &mut ContentLines,
    onsets: &[Onset<'_>],
) -> Result<(), AllocError> {
    for number in 0..onsets.len() {
        if !onsets[number].is_among(&onsets[..number]) {
            push_dated(lines, &onsets[number], &onsets[number + 1..])?;
        }
    }
    Ok(())
}

/// Adds the observance of an onset and of those after it that are like it.
fn push_dated(
    lines: &mut ContentLines,
    onset: &Onset<'_>,
    others: &[Onset<'_>],
) -> Result<(), AllocError> {
    push_beginning(lines, onset)?;
    if onset.is_among(others) {
        push_dates(lines, onset, others)?;
    }
    push_end(lines, onset)
}

/// Adds the dates of an onset and of others that are like it. Some readers know the first by this line
/// alone.
fn push_dates(
    lines: &mut ContentLines,
    onset: &Onset<'_>,
    others: &[Onset<'_>],
) -> Result<(), AllocError> {
    lines.push_str("RDATE:")?;
    push_date_time(lines, onset.local())?;
    for other in others {
        if onset.is_like(other) {
            lines.push(',')?;
            push_date_time(lines, other.local())?;
        }
    }
    lines.end()
}

/// Adds the observance that begins at an onset and comes again on these days of each year.
pub(crate) fn push_yearly(
    lines: &mut ContentLines,
    onset: &Onset<'_>,
    days: &Days,
) -> Result<(), AllocError> {
    push_beginning(lines, onset)?;
    lines.push_str("RRULE:FREQ=YEARLY")?;
    days.push_parts(lines)?;
    lines.end()?;
    push_end(lines, onset)
}

/// Adds the lines of an observance that begins at an onset.
fn push_beginning(lines: &mut ContentLines, onset: &Onset<'_>) -> Result<(), AllocError> {
    lines.push_str("BEGIN:")?;
    lines.push_line(onset.kind().name())?;
    lines.push_str("DTSTART:")?;
    push_date_time(lines, onset.local())?;
    lines.end()?;
    push_offset(lines, "TZOFFSETFROM:", onset.before)?;
    push_offset(lines, "TZOFFSETTO:", onset.state.offset)?;
    lines.push_str("TZNAME:")?;
    lines.push_bytes(onset.state.name)?;
    lines.end()
}

/// Adds the last line of the observance that begins at an onset.
fn push_end(lines: &mut ContentLines, onset: &Onset<'_>) -> Result<(), AllocError> {
    lines.push_str("END:")?;
    lines.push_line(onset.kind().name())
}

/// Adds a date and a time of day, in seconds from 1970-01-01T00:00:00 (RFC 5545, 3.3.5).
fn push_date_time(lines: &mut ContentLines, local: i64) -> Result<(), AllocError> {
    let civil = civil_at(local, 0);
    let year = civil.year.clamp(0, 9999) as u32;
    lines.push_two_digits(year / 100)?;
    lines.push_two_digits(year)?;
    lines.push_two_digits(u32::from(civil.month))?;
    lines.push_two_digits(u32::from(civil.day))?;
    lines.push('T')?;
    lines.push_two_digits(u32::from(civil.hour))?;
    lines.push_two_digits(u32::from(civil.minute))?;
    lines.push_two_digits(u32::from(civil.second))
}

/// Adds the line of a UT offset in seconds, positive east (RFC 5545, 3.3.14).
fn push_offset(lines: &mut ContentLines, label: &str, offset: i32) -> Result<(), AllocError> {
    let size = offset.unsigned_abs();
    lines.push_str(label)?;
    lines.push(if offset < 0 { '-' } else { '+' })?;
    lines.push_two_digits(size / 3600)?;
    lines.push_two_digits(size / 60 % 60)?;
    if size % 60 != 0 {
        lines.push_two_digits(size % 60)?;
    }
    lines.end()
}
