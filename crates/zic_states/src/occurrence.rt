//! The occurrences of a set.

ghost use Rattle.std.specs.Prelude.{◌≡◌, ◌≤◌, true, pos, IfOk, IfSome};
ghost use Rattle.zic_base.specs.Fault.{kind_of};
ghost use Rattle.zic_base.specs.Memory.{IfRefusal};
ghost use Rattle.zic_source.specs.Source.{is_set};
ghost use Rattle.zic_source.specs.Sound.{IsWithinDay};
ghost use Rattle.zic_states.specs.Order.{IsInOrder, IsOutOfOrder};
ghost use Rattle.zic_states.specs.Occurrence.{year_second};
ghost use Rattle.zic_states.specs.Listing.{IsLastNamed, AreOccurrencesBefore, AreOccurrencesTo};
ghost use Rattle.zic_states.specs.LineItems.{items_of};
ghost use Rattle.zic_states.specs.code.Apart.{AreEnoughYears};
ghost use Rattle.zic_states.specs.code.Shared.{IsListing, IsTimedListing};

use crate::apart::lie_far_apart;
use crate::listed_source::ListedSource;
use crate::nominal::{Nominal, has_tie, in_order};
use crate::walk::timed;
use std::alloc::{AllocError, Global};
use zic_base::{Kind, ZoneStop};
use zic_lines::SetName;
use zic_source::{MAX_RULES, Source};

/// An occurrence of a rule, with its instant.
#[derive(Clone, Copy, Debug, PartialEq, Eq)]
pub struct TimedOccurrence {
    /// Seconds from 1970-01-01T00:00:00 UT, without leap seconds.
    pub instant: i64,
    /// The rule's number in the source.
    pub rule: u16,
    /// The year in which it occurs.
    pub year: u16,
}

/// The number of years after the last that a set names in which its order is checked. The
/// occurrences of 400 years later stand in the same order, so a disorder of any later year stands
/// in these years too.
const YEARS_IN_QUESTION: u16 = 405;

/// The same for a set whose rules lie so far apart that from the second year after the last on no
/// two occurrences can come out of order.
const YEARS_IF_FAR_APART: u16 = 3;

/// Returns the last year that the lines of a set name: the greatest TO of its rules, and FROM of
/// those without a last year.
pub fn last_named_year(source: &Source, set: &SetName) -> u16
    requires { is_set set.now source.now.rules ≡ true }
    ensures { IsLastNamed (record { rules = source.now.rules; name = set.now }) result }
{
    let mut greatest = 0;
    for number in source.set_rules(set) {
        let rule = source.rule(*number);
        greatest = rule.last.unwrap_or(rule.first).max(greatest);
    }
    greatest
}

/// Returns the number of years after the last that a set names in which its order is checked.
fn years_in_question(source: &Source, set: &SetName) -> u16
    ensures { AreEnoughYears (record { rules = source.now.rules; name = set.now }) result }
{
    if lie_far_apart(source, set) {
        YEARS_IF_FAR_APART
    } else {
        YEARS_IN_QUESTION
    }
}

/// The occurrences of a set in the order of their nominal seconds, through enough years to decide
/// the order of the set for ever.
#[derive(Drop)]
pub(crate) struct Listing {
    /// The year before whose beginning all are listed.
    pub(crate) last: u16,
    pub(crate) nominals: Vec<Nominal>,
}

/// Returns all occurrences of a set of nominal seconds before the year `before`, and perhaps some
/// more.
pub(crate) fn list_set(
    alloc: Global,
    source: &Source,
    set: &SetName,
    before: u16,
) -> Result<Listing, AllocError>
    requires set { is_set set.now source.now.rules ≡ true }
    requires before { before ≤ 9999 }
    ensures is { IfOk result
        (λ made. IsListing (record { rules = source.now.rules; name = set.now }) made) }
    ensures reaches { IfOk result (λ made. before ≤ made.last) }
{
    // So the number of each rule fits 16 bits.
    prove!(source.rules() <= MAX_RULES);
    let years = years_in_question(source, set);
    let last = before.max(last_named_year(source, set) + years);
    let nominals = in_order(alloc, source, set, last)?;
    Ok(Listing { last, nominals })
}

/// Returns the listed occurrences of a set with their instants, in order, on a line whose standard
/// UT offset is `offset`.
fn timed_listing(
    alloc: Global,
    source: &Source,
    set: &SetName,
    offset: i32,
    listing: &Listing,
) -> Result<Vec<TimedOccurrence>, ZoneStop>
    requires listing { IsListing (record { rules = source.now.rules; name = set.now }) listing.now }
    requires offset { IsWithinDay offset }
    ensures order { IfOk result
        (λ _. IsInOrder (record { rules = source.now.rules; name = set.now }) offset) }
    ensures all { IfOk result
        (λ made. AreOccurrencesBefore (record { rules = source.now.rules; name = set.now }) offset
        (year_second (pos listing.now.last)) made.items) }
    ensures err { IfRefusal kind_of result
        (λ kind. (kind ≡ Kind.RulesOutOfOrder)
        × IsOutOfOrder (record { rules = source.now.rules; name = set.now }) offset) }
{
    // The contract of `rules` says that the source is sound.
    prove!(source.rules() <= MAX_RULES);
    if has_tie(&listing.nominals) {
        return Err(ZoneStop::Fault(Kind::RulesOutOfOrder));
    }
    timed(alloc, source, offset, &listing.nominals)
}

/// The occurrences of a set with their instants, on lines on which standard time has one UT offset.
#[derive(Drop)]
pub(crate) struct TimedListing {
    /// The standard UT offset in seconds, positive east.
    pub(crate) offset: i32,
    /// The year before whose beginning all are listed.
    pub(crate) last: u16,
    pub(crate) occurrences: Vec<TimedOccurrence>,
}

/// Returns the listed occurrences of a set with their instants, on lines whose standard UT offset is
/// `offset`, if there is memory and the set is in order.
pub(crate) fn timed_if_in_order(
    alloc: Global,
    source: &Source,
    set: &SetName,
    offset: i32,
    listing: &Listing,
) -> Option<TimedListing>
    requires listing { IsListing (record { rules = source.now.rules; name = set.now }) listing.now }
    requires offset { IsWithinDay offset }
    ensures { IfSome result
        (IsTimedListing (record { rules = source.now.rules; name = set.now })) }
{
    match timed_listing(alloc, source, set, offset, listing) {
        Ok(occurrences) => Some(TimedListing {
            offset,
            last: listing.last,
            occurrences,
        }),
        Err(_) => None,
    }
}

/// The occurrences of a line's set: those that it shares with other lines, or its own.
#[derive(Drop)]
pub enum LineOccurrences<'a> {
    Shared(&'a [TimedOccurrence]),
    Own(Vec<TimedOccurrence>),
}

impl<'a> LineOccurrences<'a> {
    ghost use Rattle.std.specs.Prelude.{◌≡◌};
    ghost use Rattle.zic_states.specs.LineItems.{items_of};

    /// Returns the occurrences, in the order of their instants.
    pub fn items(&self) -> &[TimedOccurrence]
        ensures { result.now ≡ items_of self.now }
    {
        match self {
            LineOccurrences::Shared(items) => items,
            LineOccurrences::Own(items) => items,
        }
    }
}

/// Returns all occurrences of a set of nominal seconds before the year `before`, and perhaps some
/// more, in the order of their instants on a line whose standard UT offset is `offset` seconds,
/// positive east.
///
/// `RulesOutOfOrder` where the set is out of order in any year.
pub fn occurrences<'a>(
    alloc: Global,
    source: &'a ListedSource<'_>,
    set: &SetName,
    offset: i32,
    before: u16,
) -> Result<LineOccurrences<'a>, ZoneStop>
    requires set { is_set set.now source.now.rules ≡ true }
    requires offset { IsWithinDay offset }
    requires before { before ≤ 9999 }
    ensures order { IfOk result
        (λ _. IsInOrder (record { rules = source.now.rules; name = set.now }) offset) }
    ensures all { IfOk result
        (λ made. AreOccurrencesTo
        (record { rules = source.now.rules; name = set.now }) offset before (items_of made)) }
    ensures err { IfRefusal kind_of result
        (λ kind. (kind ≡ Kind.RulesOutOfOrder)
        × IsOutOfOrder (record { rules = source.now.rules; name = set.now }) offset) }
{
    if let Some(shared) = source.timed(set, offset, before) {
        return Ok(LineOccurrences::Shared(shared));
    }
    let own = own_occurrences(alloc, source, set, offset, before)?;
    Ok(LineOccurrences::Own(own))
}

/// Returns the same, with instants that are reckoned for one line.
fn own_occurrences(
    alloc: Global,
    source: &ListedSource<'_>,
    set: &SetName,
    offset: i32,
    before: u16,
) -> Result<Vec<TimedOccurrence>, ZoneStop>
    requires set { is_set set.now source.now.rules ≡ true }
    requires offset { IsWithinDay offset }
    requires before { before ≤ 9999 }
    ensures order { IfOk result
        (λ _. IsInOrder (record { rules = source.now.rules; name = set.now }) offset) }
    ensures all { IfOk result
        (λ made. AreOccurrencesTo
        (record { rules = source.now.rules; name = set.now }) offset before made.items) }
    ensures err { IfRefusal kind_of result
        (λ kind. (kind ≡ Kind.RulesOutOfOrder)
        × IsOutOfOrder (record { rules = source.now.rules; name = set.now }) offset) }
{
    if let Some(shared) = source.listing(set) {
        if before <= shared.last {
            return timed_listing(alloc, source.source(), set, offset, shared);
        }
    }
    let own = list_set(alloc, source.source(), set, before)?;
    timed_listing(alloc, source.source(), set, offset, &own)
}
