//! The calls on the next instants at which clocks show a time of day.

ghost use Rattle.std.specs.Prelude.{◌≡◌, ◌<◌, MatchOption};
ghost use Rattle.zic_local.specs.declared.schedule.Policy.{Policy};
ghost use Rattle.pzic_zones.specs.code.Near.{IsNear};
ghost use Rattle.pzic_zones.specs.Handle.{IsHandle, zone_in};
ghost use Rattle.pzic_zones.specs.Schedule.{AreNextLocalsGiven, HasNoSchedule, IsNextLocalGiven, IsScheduleOf, policy_number};
ghost use Rattle.pzic_zones.specs.declared.status.TheConstants.{NO_HANDLE};

use crate::handle::Handle;
use crate::held::Held;
use crate::status::{NO_HANDLE, NO_SUCH, OK, OUT_OF_RANGE};
use std::alloc::Global;
use zic_local::{Policy, Schedule, TimeOfDay, Weekdays, next_local, write_due};
use zic_tzif::Zone;

/// A time of day on weekdays, and the instants between which it is looked for, by numbers.
#[repr(C)]
#[derive(Clone, Copy, Drop)]
pub struct ScheduleOptions {
    /// The instant after which an instant is looked for, in seconds since 1970-01-01 00:00 UT.
    pub after: i64,
    /// The last instant at which it may be.
    pub until: i64,
    /// The time of day in seconds since midnight, 0 to 86,399.
    pub seconds: u32,
    /// The weekdays as bits, 0 to 127: bit 0 is Monday and bit 6 Sunday.
    pub weekdays: u32,
    /// What to take in a gap or in a fold: that of a disambiguation, 1 to 3, or 4, which takes none in a
    /// gap and the first in a fold.
    pub policy: u32,
}

/// Returns the policy of a number, if one has it.
fn policy_of(number: u32) -> Option<Policy>
    ensures { MatchOption result ((policy : Policy) → number ≡ policy_number policy → ⊥)
        (λ policy. number ≡ policy_number policy) }
{
    match number {
        1 => Some(Policy::Earlier),
        2 => Some(Policy::Later),
        3 => Some(Policy::Compatible),
        4 => Some(Policy::Skip),
        _ => None,
    }
}

/// Returns the weekdays of these bits, if they are some.
fn weekdays_of(bits: u32) -> Option<Weekdays>
    ensures { MatchOption result (bits < 128 → ⊥) (λ weekdays. (weekdays ≡ bits) × (bits < 128)) }
{
    if bits >= 128 {
        return None;
    }
    Weekdays::new(bits as u8)
}

/// Returns the schedule that the numbers say, if they say one.
fn schedule_of(given: &ScheduleOptions) -> Option<Schedule>
    ensures { MatchOption result (HasNoSchedule given.now) (IsScheduleOf given.now) }
{
    let time = TimeOfDay::new(given.seconds)?;
    let weekdays = weekdays_of(given.weekdays)?;
    let policy = policy_of(given.policy)?;
    Some(Schedule {
        time,
        weekdays,
        policy,
    })
}

/// Gives the next instant at which a schedule is due.
fn tell_next_local(zone: &Zone, given: &ScheduleOptions, found: &mut i64) -> i32
    requires { IsNear zone.now }
    ensures { IsNextLocalGiven zone.now given.now result found.old found.new }
{
    let Some(schedule) = schedule_of(given) else {
        return OUT_OF_RANGE;
    };
    match next_local(zone, &schedule, given.after, given.until) {
        Some(t) => {
            *found = t;
            OK
        }
        None => NO_SUCH,
    }
}

/// Gives the next instants at which a schedule is due, as many as there is room for.
fn tell_next_locals(
    zone: &Zone,
    given: &ScheduleOptions,
    instants: &mut [i64],
    count: &mut usize,
) -> i32
    requires { IsNear zone.now }
    ensures { AreNextLocalsGiven zone.now given.now result instants.old count.old instants.new
        count.new }
{
    let Some(schedule) = schedule_of(given) else {
        return OUT_OF_RANGE;
    };
    *count = write_due(zone, &schedule, given.after, given.until, instants);
    OK
}

/// Gives the next instant at which a zone's clocks show a time of day on given weekdays, after one
/// instant and at most another.
pub fn zone_next_local(
    alloc: Global,
    zone: &mut Handle,
    schedule: &ScheduleOptions,
    found: &mut i64,
) -> i32
    requires { IsHandle zone.old }
    ensures unchanged { zone.new ≡ zone.old }
    ensures gives { MatchOption (zone_in zone.old)
        ((result ≡ NO_HANDLE) × (found.new ≡ found.old))
        (λ content. IsNextLocalGiven content schedule.now result found.old found.new) }
{
    zone.lend(
        alloc,
        &mut |held: &Held| match held.zone() {
            Some(zone) => tell_next_local(zone, schedule, found),
            None => NO_HANDLE,
        },
    )
}

/// Gives the instants at which a zone's clocks show a time of day on given weekdays, after one instant
/// and at most another, as many as there is room for: each is the next after the one before.
pub fn zone_next_locals(
    alloc: Global,
    zone: &mut Handle,
    schedule: &ScheduleOptions,
    instants: &mut [i64],
    count: &mut usize,
) -> i32
    requires { IsHandle zone.old }
    ensures unchanged { zone.new ≡ zone.old }
    ensures gives { MatchOption (zone_in zone.old)
        ((result ≡ NO_HANDLE) × (instants.new ≡ instants.old) × (count.new ≡ count.old))
        (λ content. AreNextLocalsGiven content schedule.now result instants.old count.old
        instants.new count.new) }
{
    zone.lend(
        alloc,
        &mut |held: &Held| match held.zone() {
            Some(zone) => tell_next_locals(zone, schedule, instants, count),
            None => NO_HANDLE,
        },
    )
}
