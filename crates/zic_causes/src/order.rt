//! Rules of a set that are out of order.

ghost use Rattle.std.specs.Prelude.{◌≡◌, true};
ghost use Rattle.zic_source.specs.Source.{is_set};
ghost use Rattle.zic_source.specs.Sound.{IsSoundLine, IsSoundRule};
ghost use Rattle.zic_states.specs.Occurrence.{IsNear};

use crate::cause::Cause;
use std::alloc::{AllocError, Global};
use zic_lines::{ClockForm, Place, Rule, Rules, SetName, ZoneLine};
use zic_source::Source;
use zic_states::{instant_by, last_named_year, nominal_second};

/// The number of years after the last that a set names in which its rules can come out of order for
/// the first time.
const YEARS_IN_QUESTION: u16 = 405;

/// The last year in which a rule can be looked at.
const LATEST_YEAR: u16 = 9999;

/// An occurrence of a rule.
#[derive(Clone, Copy)]
struct Occurrence {
    /// Seconds from 1970-01-01 00:00 by the clock of the rule.
    second: i64,
    /// The clock of the rule.
    form: ClockForm,
    /// The seconds that are saved from then on.
    saved: i32,
    /// The year in which the rule occurs.
    year: u16,
    /// The place of the rule.
    place: Place,
    ghost near: { IsNear second },
}

/// Returns a line whose set is out of order, the first two rules that are, and the year.
pub(crate) fn order_cause(
    alloc: Global,
    source: &Source,
    line: &ZoneLine,
) -> Result<Option<Cause>, AllocError>
    requires { IsSoundLine source.now.rules line.now }
{
    let Rules::Set(set) = &line.rules else {
        return Ok(None);
    };
    let all = occurrences(alloc, source, set)?;
    match first_disorder(&all, line.offset) {
        Some(disorder) => disorder.on_line(alloc, line.place),
        None => Ok(None),
    }
}

/// Two rules that are out of order.
#[derive(Clone, Copy)]
struct Disorder {
    first: Occurrence,
    second: Occurrence,
}

impl Disorder {
    /// Returns this as the cause of a fault on a line.
    fn on_line(self, alloc: Global, line: Place) -> Result<Option<Cause>, AllocError> {
        let places = [line, self.first.place, self.second.place];
        Ok(Some(Cause {
            places: Vec::from_slice(alloc, &places)?,
            year: Some(self.second.year),
            abbreviation: None,
        }))
    }
}

/// Returns the first two occurrences of which the later has the nominal second of the earlier, or
/// an instant that isn't after that of the earlier, where standard time is `offset` seconds east.
fn first_disorder(all: &[Occurrence], offset: i32) -> Option<Disorder> {
    let mut last: Option<Dated> = None;
    for occurrence in all {
        let this = with_instant(*occurrence, offset, last);
        if let Some(first) = last {
            if !first.is_before(this) {
                return Some(Disorder {
                    first: first.occurrence,
                    second: *occurrence,
                });
            }
        }
        last = Some(this);
    }
    None
}

/// An occurrence with its instant.
#[derive(Clone, Copy)]
struct Dated {
    occurrence: Occurrence,
    /// Seconds from 1970-01-01T00:00:00 UT, without leap seconds.
    instant: i64,
}

impl Dated {
    /// Returns whether this one comes before another, by their clocks and as instants.
    fn is_before(self, other: Dated) -> bool {
        self.occurrence.second < other.occurrence.second && self.instant < other.instant
    }
}

/// Returns an occurrence with its instant, after the last one before it.
fn with_instant(occurrence: Occurrence, offset: i32, last: Option<Dated>) -> Dated {
    let saved = match last {
        Some(last) => last.occurrence.saved,
        None => 0,
    };
    Dated {
        occurrence,
        instant: instant_by(occurrence.form, offset, saved, occurrence.second),
    }
}

/// Returns the occurrences of a set in the years in question, in the order of their nominal seconds.
fn occurrences(alloc: Global, source: &Source, set: &SetName) -> Result<Vec<Occurrence>, AllocError>
    requires { is_set set.now source.now.rules ≡ true }
{
    let years = last_named_year(source, set).saturating_add(YEARS_IN_QUESTION);
    let mut all = Vec::new(alloc);
    for number in source.set_rules(set) {
        push_occurrences(&mut all, source.rule(*number), years.min(LATEST_YEAR))?;
    }
    all.sort_unstable_by_key(|occurrence| occurrence.second);
    Ok(all)
}

/// Adds the occurrences of a rule up to this year.
fn push_occurrences(all: &mut Vec<Occurrence>, rule: &Rule, last: u16) -> Result<(), AllocError>
    requires { IsSoundRule rule.now }
{
    for year in rule.first..last.saturating_add(1) {
        let Some(occurrence) = occurrence_in(rule, year) else {
            break;
        };
        all.push(occurrence)?;
    }
    Ok(())
}

/// Returns the occurrence of a rule in a year, if it holds then.
fn occurrence_in(rule: &Rule, year: u16) -> Option<Occurrence>
    requires { IsSoundRule rule.now }
{
    if year < rule.first || year > rule.last.unwrap_or(LATEST_YEAR) || year > LATEST_YEAR {
        return None;
    }
    let second = nominal_second(year, &rule.moment);
    Some(Occurrence {
        second,
        form: rule.moment.at.form,
        saved: rule.saving.seconds,
        year,
        place: rule.place,
    })
}
