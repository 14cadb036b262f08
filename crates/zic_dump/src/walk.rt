//! Changes of local time: found span by span, after and before an instant, and between two.

ghost use Rattle.std.specs.Prelude.{MatchOption, pos, ◌-ℤ◌};
ghost use Rattle.zic_dump.specs.Changes.{StaysSame};
ghost use Rattle.zic_dump.specs.code.Walk.{IsFirstWithin, IsLastWithin};
ghost use Rattle.zic_posix.specs.declared.span.TheConstants.{MIN_INSTANT, MAX_INSTANT};
ghost use Rattle.zic_dump.specs.NearChanges.{IsNextChange, IsPreviousChange, AreChangesWritten};

use crate::changes::are_same;
use zic_posix::MIN_INSTANT;
use zic_tzif::Zone;

/// Returns the first change after one instant that isn't after another.
pub(crate) fn first_change(zone: &Zone, first: i64, last: i64) -> Option<i64>
    ensures { MatchOption result (StaysSame zone.now first last)
        (IsFirstWithin zone.now first last) }
{
    let mut span = zone.span(first);
    while span.instants.last < last {
        let change = span.instants.last + 1;
        let next = zone.span(change);
        if !are_same(&span.answer, &next.answer) {
            return Some(change);
        }
        span = next;
    }
    None
}

/// Returns the last change that isn't after one instant, and is after another.
pub(crate) fn last_change(zone: &Zone, first: i64, last: i64) -> Option<i64>
    ensures { MatchOption result (StaysSame zone.now first last)
        (IsLastWithin zone.now first last) }
{
    let mut span = zone.span(last);
    while first < span.instants.first {
        let change = span.instants.first;
        let before = zone.span(change - 1);
        if !are_same(&before.answer, &span.answer) {
            return Some(change);
        }
        span = before;
    }
    None
}

/// The seconds of 400 years, after which a footer repeats what it says.
const PERIOD: i64 = 12_622_780_800;

/// Returns the first change of local time after an instant, in seconds from 1970-01-01T00:00:00 UT:
/// the offset, the daylight flag or the abbreviation isn't that of a second before, or local time is
/// left open from then on. `None` says that there is none in 64 bits.
///
/// Takes a binary search for each transition or edge of the footer that changes nothing, at most
/// those of 400 years after the last transition.
pub fn next_change(zone: &Zone, t: i64) -> Option<i64>
    ensures { MatchOption result (StaysSame zone.now t MAX_INSTANT) (IsNextChange zone.now t) }
{
    let from = match zone.last_transition() {
        Some(last) => last.max(t),
        None => t,
    };
    first_change(zone, t, from.saturating_add(PERIOD))
}

/// Returns the last change of local time before an instant and after the least of 64 bits. `None`
/// says that there is none. Takes as long as [`next_change`].
pub fn previous_change(zone: &Zone, t: i64) -> Option<i64>
    ensures { MatchOption result (StaysSame zone.now MIN_INSTANT (t -ℤ pos 1))
        (IsPreviousChange zone.now t) }
{
    let last = t.saturating_sub(1);
    let low = last.saturating_sub(PERIOD);
    let from = zone.last_transition().unwrap_or(MIN_INSTANT);
    if low <= from {
        return last_change(zone, MIN_INSTANT, last);
    }
    match last_change(zone, low, last) {
        Some(change) => Some(change),
        None => last_change(zone, MIN_INSTANT, from),
    }
}

/// Writes the instants of the changes of local time after one instant and up to another, in order, as
/// many as there is room for. Returns how many those are. Where the room is full, more may follow its
/// last.
pub fn write_changes(zone: &Zone, first: i64, last: i64, room: &mut [i64]) -> usize
    ensures { AreChangesWritten zone.now first last room.old room.new result }
{
    let mut from = first;
    for count in 0..room.len() {
        let Some(change) = next_within(zone, from, last) else {
            return count;
        };
        room[count] = change;
        from = change;
    }
    room.len()
}

/// Returns the first change after one instant, if it isn't after another.
fn next_within(zone: &Zone, first: i64, last: i64) -> Option<i64>
    ensures { MatchOption result (StaysSame zone.now first last)
        (IsFirstWithin zone.now first last) }
{
    match next_change(zone, first) {
        Some(change) if change <= last => Some(change),
        _ => None,
    }
}
