//! The search for the next instant at which a schedule is due.

ghost use Rattle.std.specs.Prelude.{◌≡◌, ◌↔◌, ℤ, pos, ◌+ℤ◌, ◌-ℤ◌, ◌<ℤ◌, ◌≤ℤ◌, IsTrue, MatchOption};
ghost use Rattle.zic_base.specs.declared.constants.TheConstants.{FARTHEST_FILE_OFFSET};
ghost use Rattle.zic_posix.specs.declared.span.TheConstants.{MAX_INSTANT};
ghost use Rattle.zic_local.specs.LocalTime.{HaveOffsets, IsInRange};
ghost use Rattle.zic_local.specs.Due.{AreDueWritten, IsNeverDue, IsNext, local_time_on};
ghost use Rattle.zic_local.specs.code.Search.{IsOfWalk, IsCandidate, EndsAt};

use crate::due::{due_on, local_time_on};
use crate::schedule::{Schedule, TimeOfDay};
use zic_base::FARTHEST_FILE_OFFSET;
use zic_calendar::SECONDS_OF_DAY;
use zic_tzif::{Answer, Zone};

/// The farthest that an instant lies from its local time, in seconds.
const FARTHEST: i64 = FARTHEST_FILE_OFFSET as i64;

/// The last local time whose instants are all in 64 bits.
const LAST_LOCAL: i64 = i64::MAX - FARTHEST;

/// The instant 25:59:59 after the first local time whose instants are all in 64 bits. A search from an
/// earlier instant begins on the same day.
const FIRST_SURE: i64 = i64::MIN + 2 * FARTHEST;

/// Returns the least instant after `after` and at most `until` at which a schedule is due, or `None`
/// if it is due at none. All are in seconds since 1970-01-01 00:00 UT.
///
/// Days are taken one after another, from the first on which the schedule may be due after `after` to
/// the last on which it may be due before the answer. UT offsets are within 25:59:59, so those are at
/// most three days more than lie between, ten for a weekly schedule in a usual zone. Only a day on one
/// of the weekdays takes a lookup of its local time. Where there is no answer the search goes on to
/// `until`, or to the last transition of a file that leaves local time open from it on.
pub fn next_local(zone: &Zone, schedule: &Schedule, after: i64, until: i64) -> Option<i64>
    requires { HaveOffsets zone.now }
    ensures { MatchOption result (IsNeverDue zone.now schedule.now after until)
        (IsNext zone.now schedule.now after until) }
{
    if schedule.weekdays.are_none() {
        return None;
    }
    let end = search_end(zone, until);
    let mut day = first_day(schedule.time, after);
    let mut found = None;
    while may_be_due(schedule.time, day, found.unwrap_or(end)) {
        found = earlier(found, due_on(zone, schedule, day), after, until);
        day += 1;
    }
    found
}

/// Writes the instants after `after` and at most `until` at which a schedule is due, in rising order
/// from the beginning of `room`, as many as there is room for, and returns how many those are. Each
/// takes as long as [`next_local`].
pub fn write_due(
    zone: &Zone,
    schedule: &Schedule,
    after: i64,
    until: i64,
    room: &mut [i64],
) -> usize
    requires { HaveOffsets zone.now }
    ensures { AreDueWritten zone.now schedule.now after until room.old room.new result }
{
    let mut from = after;
    for count in 0..room.len() {
        let Some(t) = next_local(zone, schedule, from, until) else {
            return count;
        };
        room[count] = t;
        from = t;
    }
    room.len()
}

/// Returns the instant near which a search up to `until` ends: no local time that is due up to `until`
/// is more than 25:59:59 after it.
fn search_end(zone: &Zone, until: i64) -> i64
    requires { HaveOffsets zone.now }
    ensures { EndsAt zone.now until result }
{
    match zone.at(until) {
        Answer::Known(_) => until,
        Answer::Unspecified => zone.last_transition().unwrap_or(until),
    }
}

/// Returns the first day since 1970-01-01 on which a time of day may be due after an instant.
fn first_day(time: TimeOfDay, after: i64) -> i64
    ensures walk { IsOfWalk (local_time_on result time) }
    ensures first { (day : ℤ) → day <ℤ result → IsInRange (local_time_on day time)
        → (local_time_on day time +ℤ pos FARTHEST_FILE_OFFSET) ≤ℤ after }
{
    let from = after.max(FIRST_SURE) - FARTHEST - i64::from(time.seconds());
    (from + (SECONDS_OF_DAY - 1)).div_euclid(SECONDS_OF_DAY)
}

/// Returns whether a time of day on a day since 1970-01-01 is in range, and may be due up to an
/// instant.
fn may_be_due(time: TimeOfDay, day: i64, bound: i64) -> bool
    requires { IsOfWalk (local_time_on day time) }
    ensures range { IsTrue result → IsInRange (local_time_on day time) }
    ensures last { IsTrue result ↔ ((local_time_on day time +ℤ pos FARTHEST_FILE_OFFSET) ≤ℤ MAX_INSTANT)
        × ((local_time_on day time -ℤ pos FARTHEST_FILE_OFFSET) ≤ℤ bound) }
{
    let local = local_time_on(day, time);
    local <= LAST_LOCAL && local - FARTHEST <= bound
}

/// Returns the earlier of the instant that was found and the one that is due on one day more, of which
/// each may be missing. An instant that isn't after `after`, or is after `until`, isn't taken.
fn earlier(found: Option<i64>, due: Option<i64>, after: i64, until: i64) -> Option<i64>
    ensures { MatchOption result ((t : ℤ) → IsCandidate found due after until t → ⊥)
        (λ t. IsCandidate found due after until t
        × ((other : ℤ) → IsCandidate found due after until other → t ≤ℤ other)) }
{
    let Some(t) = due else {
        return found;
    };
    if t <= after || until < t {
        return found;
    }
    match found {
        Some(first) if first <= t => found,
        _ => Some(t),
    }
}
