//! Observances that come again each year.

use crate::content_lines::ContentLines;
use crate::days::Days;
use crate::observance::push_yearly;
use crate::onset::{Kind, Onset, push_onsets};
use crate::rule::{Rule, Rules, rules_of};
use crate::stop::CalendarStop;
use std::alloc::{AllocError, Global};
use zic_tzif::Zone;

/// The seconds of 400 years, after which the calendar comes again, with its weekdays.
const CYCLE: i64 = 12_622_780_800;

/// Adds an observance for each RRULE by which local time changes for ever after an instant, from which on
/// the file answers by its footer.
pub(crate) fn push_repeated(
    alloc: Global,
    lines: &mut ContentLines,
    zone: &Zone,
    last: i64,
) -> Result<(), CalendarStop> {
    let mut onsets = Vec::new(alloc);
    push_onsets(&mut onsets, zone, last, last.saturating_add(CYCLE))?;
    push_kinds(alloc, lines, zone, &onsets)
}

/// Adds the observances of the rules of a zone, which has these onsets in 400 years.
fn push_kinds(
    alloc: Global,
    lines: &mut ContentLines,
    zone: &Zone,
    onsets: &[Onset<'_>],
) -> Result<(), CalendarStop> {
    let Some(first) = onsets.first() else {
        return Ok(());
    };
    let rules = rules_of(alloc, zone)?;
    let kind = first.kind();
    push_kind(alloc, lines, onsets, kind, &rules)?;
    push_kind(alloc, lines, onsets, kind.other(), &rules)
}

/// Adds the observances of a kind.
fn push_kind(
    alloc: Global,
    lines: &mut ContentLines,
    onsets: &[Onset<'_>],
    kind: Kind,
    rules: &Rules,
) -> Result<(), CalendarStop> {
    let alike = onsets_of(alloc, onsets, kind)?;
    push_rule(lines, &alike, rules.of(kind))
}

/// Returns the onsets of a kind.
fn onsets_of<'a>(
    alloc: Global,
    onsets: &[Onset<'a>],
    kind: Kind,
) -> Result<Vec<Onset<'a>>, AllocError> {
    let mut found = Vec::new(alloc);
    for onset in onsets {
        if onset.kind() == kind {
            found.push(*onset)?;
        }
    }
    Ok(found)
}

/// Adds the observances of a rule, by which these are all onsets of 400 years.
fn push_rule(
    lines: &mut ContentLines,
    onsets: &[Onset<'_>],
    rule: &Rule,
) -> Result<(), CalendarStop> {
    if !do_follow(onsets, rule) {
        return Err(CalendarStop::NoRule);
    }
    for days in rule {
        if let Some(onset) = first_on(onsets, days) {
            push_yearly(lines, onset, days)?;
        }
    }
    Ok(())
}

/// Returns the first onset that comes on one of some days.
fn first_on<'s, 'a>(onsets: &'s [Onset<'a>], days: &Days) -> Option<&'s Onset<'a>> {
    for onset in onsets {
        if days.has(onset.day()) {
            return Some(onset);
        }
    }
    None
}

/// Returns whether there are onsets, and all are alike, at one time of day, and come on just the days of
/// a rule, from the first of them to the last.
fn do_follow(onsets: &[Onset<'_>], rule: &Rule) -> bool {
    match (onsets.first(), onsets.last()) {
        (Some(first), Some(last)) => {
            are_like(onsets, first, rule)
                && days_between(rule, first.day(), last.day()) == onsets.len()
        }
        _ => false,
    }
}

/// Returns whether onsets are like the first, at its time of day, and come on days of a rule.
fn are_like(onsets: &[Onset<'_>], first: &Onset<'_>, rule: &Rule) -> bool {
    for onset in onsets {
        let is_like = onset.is_like(first) && onset.second_of_day() == first.second_of_day();
        if !(is_like && has(rule, onset.day())) {
            return false;
        }
    }
    true
}

/// Returns the number of days of a rule from one day to another.
fn days_between(rule: &Rule, first: i64, last: i64) -> usize {
    let mut count: usize = 0;
    for day in first..last.saturating_add(1) {
        if has(rule, day) {
            count = count.saturating_add(1);
        }
    }
    count
}

/// Returns whether a day is one of a rule.
fn has(rule: &Rule, day: i64) -> bool {
    let [one, two, three] = rule;
    one.has(day) || two.has(day) || three.has(day)
}
