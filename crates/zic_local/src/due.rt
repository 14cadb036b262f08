//! When a schedule is due on a day.

ghost use Rattle.std.specs.Prelude.{◌≡◌, ℤ, MatchOption};
ghost use Rattle.zic_local.specs.LocalTime.{HaveOffsets, IsInRange};
ghost use Rattle.zic_local.specs.Choice.{IsFirst, Means};
ghost use Rattle.zic_local.specs.Due.{IsDueOn, IsMeant, local_time_on};
ghost use Rattle.zic_local.specs.code.Search.{IsOfWalk};

use crate::local_time::LocalInstants;
use crate::lookup::{instant, instants};
use crate::schedule::{Policy, Schedule, TimeOfDay};
use zic_calendar::SECONDS_OF_DAY;
use zic_layouts::Disambiguation;
use zic_tzif::Zone;

/// Returns the local time of a time of day, on a day since 1970-01-01.
pub(crate) fn local_time_on(day: i64, time: TimeOfDay) -> i64
    requires { IsOfWalk (local_time_on day time) }
    ensures { result ≡ local_time_on day time }
{
    day * SECONDS_OF_DAY + i64::from(time.seconds())
}

/// Returns the instant at which a schedule is due on a day since 1970-01-01, if it is.
pub(crate) fn due_on(zone: &Zone, schedule: &Schedule, day: i64) -> Option<i64>
    requires offsets { HaveOffsets zone.now }
    requires range { IsInRange (local_time_on day schedule.now.time) }
    ensures { MatchOption result ((t : ℤ) → IsDueOn zone.now schedule.now day t → ⊥)
        (IsDueOn zone.now schedule.now day) }
{
    if !schedule.weekdays.have(day) {
        return None;
    }
    meant(zone, local_time_on(day, schedule.time), schedule.policy)
}

/// Returns the instant that a policy means by a local time, if it means one.
fn meant(zone: &Zone, local: i64, policy: Policy) -> Option<i64>
    requires offsets { HaveOffsets zone.now }
    requires range { IsInRange local }
    ensures { MatchOption result ((t : ℤ) → IsMeant zone.now local policy t → ⊥)
        (IsMeant zone.now local policy) }
{
    match policy {
        Policy::Compatible => chosen(zone, local, Disambiguation::Compatible),
        Policy::Earlier => chosen(zone, local, Disambiguation::Earlier),
        Policy::Later => chosen(zone, local, Disambiguation::Later),
        Policy::Skip => first_shown(zone, local),
    }
}

/// Returns the instant that a choice means by a local time, if it means one.
fn chosen(zone: &Zone, local: i64, choice: Disambiguation) -> Option<i64>
    requires offsets { HaveOffsets zone.now }
    requires range { IsInRange local }
    ensures { MatchOption result ((t : ℤ) → Means zone.now local choice t → ⊥)
        (Means zone.now local choice) }
{
    instant(zone, local, choice).ok()
}

/// Returns the first instant at which clocks show a local time, if there is one.
fn first_shown(zone: &Zone, local: i64) -> Option<i64>
    requires offsets { HaveOffsets zone.now }
    requires range { IsInRange local }
    ensures { MatchOption result ((t : ℤ) → IsFirst zone.now local t → ⊥)
        (IsFirst zone.now local) }
{
    match instants(zone, local) {
        LocalInstants::One(t) => Some(t),
        LocalInstants::Fold(fold) => Some(fold.first),
        LocalInstants::Gap(_) | LocalInstants::Unspecified => None,
    }
}
