//! The calls on zones.

ghost use Rattle.std.specs.Prelude.{◌≡◌, MatchOption};
ghost use Rattle.pzic_zones.specs.Changes.{AreChangesGiven, IsNextGiven, IsPreviousGiven};
ghost use Rattle.pzic_zones.specs.CivilTime.{IsCivilTimeAt};
ghost use Rattle.pzic_zones.specs.Column.{AreOffsetsGiven};
ghost use Rattle.pzic_zones.specs.Handle.{IsHandle, held_in, zone_in};
ghost use Rattle.pzic_zones.specs.Local.{AreInstantsGiven, IsLocalTimeGiven};
ghost use Rattle.pzic_zones.specs.Schedule.{AreNextLocalsGiven, IsNextLocalGiven};
ghost use Rattle.pzic_zones.specs.Zone.{IsAnswerAround, IsAnswerAt, IsRead, instants};
ghost use Rattle.pzic_zones.specs.declared.status.TheConstants.{NO_HANDLE};

use pzic_zones::{CivilTime, Handle, LocalTime, ScheduleOptions, State};
use std::alloc::Global;

/// Reads a zone from the bytes of a TZif file.
#[unsafe(no_mangle)]
pub extern "C" fn pzic_raw_zone_read(
    alloc: Global,
    octets: &[u8],
    zone: &mut Handle,
    reason: &mut u32,
) -> i32
    requires { IsHandle zone.old }
    ensures handle { IsHandle zone.new }
    ensures read { IsRead octets.now result reason.old reason.new (held_in zone.new) }
{
    pzic_zones::zone_read(alloc, octets, zone, reason)
}

/// Gives local time at an instant.
#[unsafe(no_mangle)]
pub extern "C" fn pzic_raw_zone_at(
    alloc: Global,
    zone: &mut Handle,
    instant: i64,
    state: &mut State,
) -> i32
    requires { IsHandle zone.old }
    ensures unchanged { zone.new ≡ zone.old }
    ensures gives { MatchOption (zone_in zone.old)
        ((result ≡ NO_HANDLE) × (state.new ≡ state.old))
        (λ content. IsAnswerAt content instant result state.new) }
{
    pzic_zones::zone_at(alloc, zone, instant, state)
}

/// Gives local time at an instant, and the instants round it at which it is the same.
#[unsafe(no_mangle)]
pub extern "C" fn pzic_raw_zone_span(
    alloc: Global,
    zone: &mut Handle,
    instant: i64,
    state: &mut State,
    first: &mut i64,
    last: &mut i64,
) -> i32
    requires { IsHandle zone.old }
    ensures unchanged { zone.new ≡ zone.old }
    ensures gives { MatchOption (zone_in zone.old)
        ((result ≡ NO_HANDLE) × (state.new ≡ state.old) × (first.new ≡ first.old)
        × (last.new ≡ last.old))
        (λ content. IsAnswerAround content instant (instants first.new last.new) result state.new) }
{
    pzic_zones::zone_span(alloc, zone, instant, state, first, last)
}

/// Gives the date and the time of day at an instant.
#[unsafe(no_mangle)]
pub extern "C" fn pzic_raw_zone_civil(
    alloc: Global,
    zone: &mut Handle,
    instant: i64,
    civil: &mut CivilTime,
) -> i32
    requires { IsHandle zone.old }
    ensures unchanged { zone.new ≡ zone.old }
    ensures gives { MatchOption (zone_in zone.old)
        ((result ≡ NO_HANDLE) × (civil.new ≡ civil.old))
        (λ content. IsCivilTimeAt content instant result civil.new) }
{
    pzic_zones::zone_civil(alloc, zone, instant, civil)
}

/// Gives the first change of local time after an instant.
#[unsafe(no_mangle)]
pub extern "C" fn pzic_raw_zone_next_change(
    alloc: Global,
    zone: &mut Handle,
    instant: i64,
    change: &mut i64,
) -> i32
    requires { IsHandle zone.old }
    ensures unchanged { zone.new ≡ zone.old }
    ensures gives { MatchOption (zone_in zone.old)
        ((result ≡ NO_HANDLE) × (change.new ≡ change.old))
        (λ content. IsNextGiven content instant result change.old change.new) }
{
    pzic_zones::zone_next_change(alloc, zone, instant, change)
}

/// Gives the last change of local time before an instant.
#[unsafe(no_mangle)]
pub extern "C" fn pzic_raw_zone_previous_change(
    alloc: Global,
    zone: &mut Handle,
    instant: i64,
    change: &mut i64,
) -> i32
    requires { IsHandle zone.old }
    ensures unchanged { zone.new ≡ zone.old }
    ensures gives { MatchOption (zone_in zone.old)
        ((result ≡ NO_HANDLE) × (change.new ≡ change.old))
        (λ content. IsPreviousGiven content instant result change.old change.new) }
{
    pzic_zones::zone_previous_change(alloc, zone, instant, change)
}

/// Gives the changes of local time after one instant and up to another, as many as there is room for.
#[unsafe(no_mangle)]
pub extern "C" fn pzic_raw_zone_changes(
    alloc: Global,
    zone: &mut Handle,
    first: i64,
    last: i64,
    changes: &mut [i64],
    count: &mut usize,
) -> i32
    requires { IsHandle zone.old }
    ensures unchanged { zone.new ≡ zone.old }
    ensures gives { MatchOption (zone_in zone.old)
        ((result ≡ NO_HANDLE) × (changes.new ≡ changes.old) × (count.new ≡ count.old))
        (λ content. AreChangesGiven content first last result changes.old changes.new count.new) }
{
    pzic_zones::zone_changes(alloc, zone, first, last, changes, count)
}

/// Gives local time at each of many instants, in any order.
#[unsafe(no_mangle)]
pub extern "C" fn pzic_raw_zone_offsets(
    alloc: Global,
    zone: &mut Handle,
    instants: &[i64],
    offsets: &mut [i32],
    flags: &mut [u8],
) -> i32
    requires { IsHandle zone.old }
    ensures unchanged { zone.new ≡ zone.old }
    ensures gives { MatchOption (zone_in zone.old)
        ((result ≡ NO_HANDLE) × (offsets.new ≡ offsets.old) × (flags.new ≡ flags.old))
        (λ content. AreOffsetsGiven content instants.now result offsets.old flags.old offsets.new
        flags.new) }
{
    pzic_zones::zone_offsets(alloc, zone, instants, offsets, flags)
}

/// Gives the instants of a local time.
#[unsafe(no_mangle)]
pub extern "C" fn pzic_raw_zone_instants(
    alloc: Global,
    zone: &mut Handle,
    local: i64,
    found: &mut LocalTime,
) -> i32
    requires { IsHandle zone.old }
    ensures unchanged { zone.new ≡ zone.old }
    ensures found { MatchOption (zone_in zone.old)
        ((result ≡ NO_HANDLE) × (found.new ≡ found.old))
        (λ content. IsLocalTimeGiven content local result found.old found.new) }
{
    pzic_zones::zone_instants(alloc, zone, local, found)
}

/// Gives the instants that are meant by local times.
#[unsafe(no_mangle)]
pub extern "C" fn pzic_raw_zone_instants_array(
    alloc: Global,
    zone: &mut Handle,
    disambiguation: u32,
    locals: &[i64],
    instants: &mut [i64],
    statuses: &mut [u8],
) -> i32
    requires { IsHandle zone.old }
    ensures unchanged { zone.new ≡ zone.old }
    ensures meant { MatchOption (zone_in zone.old)
        ((result ≡ NO_HANDLE) × (instants.new ≡ instants.old) × (statuses.new ≡ statuses.old))
        (λ content. AreInstantsGiven content disambiguation locals.now result instants.old
        statuses.old instants.new statuses.new) }
{
    pzic_zones::zone_instants_array(alloc, zone, disambiguation, locals, instants, statuses)
}

/// Gives the next instant at which a zone's clocks show a time of day.
#[unsafe(no_mangle)]
pub extern "C" fn pzic_raw_zone_next_local(
    alloc: Global,
    zone: &mut Handle,
    schedule: &ScheduleOptions,
    found: &mut i64,
) -> i32
    requires { IsHandle zone.old }
    ensures unchanged { zone.new ≡ zone.old }
    ensures gives { MatchOption (zone_in zone.old)
        ((result ≡ NO_HANDLE) × (found.new ≡ found.old))
        (λ content. IsNextLocalGiven content schedule.now result found.old found.new) }
{
    pzic_zones::zone_next_local(alloc, zone, schedule, found)
}

/// Gives the next instants at which a zone's clocks show a time of day, as many as there is room for.
#[unsafe(no_mangle)]
pub extern "C" fn pzic_raw_zone_next_locals(
    alloc: Global,
    zone: &mut Handle,
    schedule: &ScheduleOptions,
    instants: &mut [i64],
    count: &mut usize,
) -> i32
    requires { IsHandle zone.old }
    ensures unchanged { zone.new ≡ zone.old }
    ensures gives { MatchOption (zone_in zone.old)
        ((result ≡ NO_HANDLE) × (instants.new ≡ instants.old) × (count.new ≡ count.old))
        (λ content. AreNextLocalsGiven content schedule.now result instants.old count.old
        instants.new count.new) }
{
    pzic_zones::zone_next_locals(alloc, zone, schedule, instants, count)
}
