//! Occurrences that the zones of a source share.

ghost use Rattle.std.specs.Prelude.{◌≡◌, ◌<◌, ◌≤◌, length, IfOk, IfSome};
ghost use Rattle.zic_source.specs.Sound.{IsSoundLine, IsWithinDay};
ghost use Rattle.zic_states.specs.Order.{IsInOrder};
ghost use Rattle.zic_states.specs.Listing.{AreOccurrencesTo};
ghost use Rattle.zic_states.specs.code.Shared.{IsListing, IsTimedListing, IsListingOf, IsTimedListingOf, AreListings, AreTimedListings};

use crate::occurrence::{
    Listing, TimedListing, TimedOccurrence, last_named_year, list_set, timed_if_in_order,
};
use std::alloc::{AllocError, Global};
use std::marker::Model;
use zic_lines::SetName;
use zic_source::{Rules, Source, ZoneLine};

/// The number of years after its start, or after the last year that its set names, in which the
/// occurrences of a last line are needed: its explicit end is three years later.
const YEARS_OF_LAST_LINE: u16 = 6;

/// The same after the UNTIL of another line.
const YEARS_AFTER_UNTIL: u16 = 2;

/// The last year in which occurrences can be needed.
const LATEST_YEAR: u16 = 9999;

/// The fewest lines that share occurrences.
const FEWEST_LINES: u32 = 2;

/// What the lines of zones need of a set.
#[derive(Clone, Copy)]
struct Needed {
    /// The number of lines that name the set.
    lines: u32,
    /// The year before which they need its occurrences.
    before: u16,
    /// The standard UT offset of the first of them, in seconds, positive east.
    offset: i32,
    /// Whether another has another offset.
    offsets_differ: bool,
    ghost within_day: { IsWithinDay offset },
}

/// A source, with the occurrences of its sets, so that its zones share what is listed once. Clauses
/// see the source.
#[derive(Drop)]
pub struct ListedSource<'a> {
    source: &'a Source,
    /// By the number of a set's first rule, its occurrences, if the lines that name the set have
    /// different standard UT offsets. `None` for other rules and sets, and if memory ran out.
    listings: Vec<Option<Listing>>,
    /// The same for sets whose lines have one standard UT offset, with the instants of the
    /// occurrences.
    timed: Vec<Option<TimedListing>>,
}

impl<'a> Model for ListedSource<'a> {
    ghost use Rattle.zic_source.specs.Source.{SourceLines};
    ghost use Rattle.zic_states.specs.code.Shared.{AreListings, AreTimedListings};

    ghost Value = { SourceLines };

    ghost view = { λ s. s.source.now };

    ghost invariant = { λ s. AreListings s.source.now.rules s.listings.items
        × AreTimedListings s.source.now.rules s.timed.items };
}

impl<'a> ListedSource<'a> {
    /// Returns a source with the occurrences of each set that two or more Zone or continuation lines
    /// name, as far as there is memory for them. Others are listed for each line that needs them.
    pub fn new(alloc: Global, source: &'a Source) -> ListedSource<'a>
        ensures { result ≡ source.now }
    {
        let all = match needed_of(alloc, source) {
            Ok(all) => all,
            Err(_) => Vec::new(alloc),
        };
        let listings = match listings_of(alloc, source, &all) {
            Ok(listings) => listings,
            Err(_) => Vec::new(alloc),
        };
        let timed = match timed_of(alloc, source, &all) {
            Ok(timed) => timed,
            Err(_) => Vec::new(alloc),
        };
        ListedSource {
            source,
            listings,
            timed,
        }
    }

    /// Returns the source.
    pub fn source(&self) -> &'a Source
        ensures { result.now ≡ self.now }
    {
        self.source
    }

    /// Returns the occurrences of a set, if they are listed without instants.
    pub(crate) fn listing(&self, set: &SetName) -> Option<&Listing>
        ensures { IfSome result
            (λ shared. IsListing (record { rules = self.now.rules; name = set.now }) shared.now) }
    {
        let first = *self.source.set_rules(set).first()?;
        self.listings.get(first)?.as_ref()
    }

    /// Returns the occurrences of a set with their instants, if these are listed.
    fn timed_listing(&self, set: &SetName) -> Option<&TimedListing>
        ensures { IfSome result (λ shared. IsTimedListing
            (record { rules = self.now.rules; name = set.now }) shared.now) }
    {
        let first = *self.source.set_rules(set).first()?;
        self.timed.get(first)?.as_ref()
    }

    /// Returns the occurrences of a set before a year with their instants on lines of a standard UT
    /// offset, if these are listed.
    pub(crate) fn timed(
        &self,
        set: &SetName,
        offset: i32,
        before: u16,
    ) -> Option<&[TimedOccurrence]>
        ensures { IfSome result (λ shared.
            IsInOrder (record { rules = self.now.rules; name = set.now }) offset
            × AreOccurrencesTo (record { rules = self.now.rules; name = set.now }) offset before
            shared.now) }
    {
        let timed = self.timed_listing(set)?;
        if timed.offset != offset || timed.last < before {
            return None;
        }
        Some(&timed.occurrences)
    }
}

/// Returns the occurrences of sets on whose lines standard time has different UT offsets, by the
/// number of their set's first rule.
fn listings_of(
    alloc: Global,
    source: &Source,
    all: &[Needed],
) -> Result<Vec<Option<Listing>>, AllocError>
    requires { length all.now ≤ length source.now.rules }
    ensures { IfOk result (λ made. AreListings source.now.rules made.items) }
{
    let mut listings = Vec::with_capacity(alloc, all.len())?;
    for (number, needed) in all.iter().enumerate() {
        listings.push(listing_of(alloc, source, number, *needed))?;
    }
    Ok(listings)
}

/// Returns the occurrences of the set of the rule of this number, if lines of different offsets share
/// them and there is memory.
fn listing_of(alloc: Global, source: &Source, number: usize, needed: Needed) -> Option<Listing>
    requires { number < length source.now.rules }
    ensures { IfSome result (IsListingOf source.now.rules number) }
{
    if needed.lines < FEWEST_LINES || !needed.offsets_differ {
        return None;
    }
    let set = &source.rule(number).name;
    match list_set(alloc, source, set, needed.before.min(LATEST_YEAR)) {
        Ok(listing) => Some(listing),
        Err(_) => None,
    }
}

/// Returns the occurrences of sets on whose lines standard time has one UT offset with their
/// instants, by the number of their set's first rule.
fn timed_of(
    alloc: Global,
    source: &Source,
    all: &[Needed],
) -> Result<Vec<Option<TimedListing>>, AllocError>
    requires { length all.now ≤ length source.now.rules }
    ensures { IfOk result (λ made. AreTimedListings source.now.rules made.items) }
{
    let mut timed = Vec::with_capacity(alloc, all.len())?;
    for (number, needed) in all.iter().enumerate() {
        timed.push(timed_listing_of(alloc, source, number, *needed))?;
    }
    Ok(timed)
}

/// Returns the occurrences of the set of the rule of this number with their instants, if lines of one
/// offset share them, the set is in order on these, and there is memory.
fn timed_listing_of(
    alloc: Global,
    source: &Source,
    number: usize,
    needed: Needed,
) -> Option<TimedListing>
    requires { number < length source.now.rules }
    ensures { IfSome result (IsTimedListingOf source.now.rules number) }
{
    if needed.lines < FEWEST_LINES || needed.offsets_differ {
        return None;
    }
    let set = &source.rule(number).name;
    match list_set(alloc, source, set, needed.before.min(LATEST_YEAR)) {
        Ok(listing) => timed_if_in_order(alloc, source, set, needed.offset, &listing),
        Err(_) => None,
    }
}

/// Returns for the first rule of each set what lines need of it, and nothing for other rules.
fn needed_of(alloc: Global, source: &Source) -> Result<Vec<Needed>, AllocError>
    ensures { IfOk result (λ all. length all.items ≡ length source.now.rules) }
{
    let none = Needed {
        lines: 0,
        before: 0,
        offset: 0,
        offsets_differ: false,
    };
    let mut all = vec![in alloc; none; source.rules()]?;
    for zone in 0..source.zones() {
        note_zone(source, zone, &mut all);
    }
    Ok(all)
}

/// Notes what the lines of a zone need.
fn note_zone(source: &Source, zone: usize, all: &mut [Needed])
    requires { zone < length source.now.zones }
    ensures { length all.new ≡ length all.old }
{
    let mut start = 0;
    for number in 0..source.lines(zone) {
        let line = source.line(zone, number);
        note_line(source, line, start, all);
        if let Some(until) = line.until {
            start = until.year;
        }
    }
}

/// Notes what a line that starts in this year needs of its set.
fn note_line(source: &Source, line: &ZoneLine, start: u16, all: &mut [Needed])
    requires { IsSoundLine source.now.rules line.now }
    ensures { length all.new ≡ length all.old }
{
    let Rules::Set(set) = &line.rules else {
        return;
    };
    let before = match line.until {
        Some(until) => until.year.saturating_add(YEARS_AFTER_UNTIL),
        None => last_named_year(source, set)
            .max(start)
            .saturating_add(YEARS_OF_LAST_LINE),
    };
    let Some(first) = source.set_rules(set).first() else {
        return;
    };
    if let Some(needed) = all.get_mut(*first) {
        *needed = with_line(*needed, line.offset, before);
    }
}

/// Returns what lines need of a set together with one more, of this standard UT offset, that needs
/// its occurrences before a year.
fn with_line(needed: Needed, offset: i32, before: u16) -> Needed
    requires { IsWithinDay offset }
{
    if needed.lines == 0 {
        return Needed {
            lines: 1,
            before,
            offset,
            offsets_differ: false,
        };
    }
    Needed {
        lines: needed.lines.saturating_add(1),
        before: before.max(needed.before),
        offset: needed.offset,
        offsets_differ: needed.offsets_differ || needed.offset != offset,
    }
}
