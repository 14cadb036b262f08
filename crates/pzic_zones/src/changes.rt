//! The calls on the changes of local time.

ghost use Rattle.std.specs.Prelude.{◌≡◌, MatchOption};
ghost use Rattle.pzic_zones.specs.Handle.{IsHandle, zone_in};
ghost use Rattle.pzic_zones.specs.Changes.{AreChangesGiven, IsNextGiven, IsPreviousGiven};
ghost use Rattle.pzic_zones.specs.declared.status.TheConstants.{NO_HANDLE};

use crate::handle::Handle;
use crate::held::Held;
use crate::status::{NO_HANDLE, NO_SUCH, OK};
use std::alloc::Global;
use zic_dump::{next_change, previous_change, write_changes};
use zic_tzif::Zone;

/// Gives the first change after an instant.
fn tell_next(zone: &Zone, instant: i64, change: &mut i64) -> i32
    ensures { IsNextGiven zone.now instant result change.old change.new }
{
    match next_change(zone, instant) {
        Some(found) => {
            *change = found;
            OK
        }
        None => NO_SUCH,
    }
}

/// Gives the last change before an instant.
fn tell_previous(zone: &Zone, instant: i64, change: &mut i64) -> i32
    ensures { IsPreviousGiven zone.now instant result change.old change.new }
{
    match previous_change(zone, instant) {
        Some(found) => {
            *change = found;
            OK
        }
        None => NO_SUCH,
    }
}

/// Gives the changes after one instant and up to another, as many as there is room for.
fn tell_changes(zone: &Zone, first: i64, last: i64, room: &mut [i64], count: &mut usize) -> i32
    ensures { AreChangesGiven zone.now first last result room.old room.new count.new }
{
    *count = write_changes(zone, first, last, room);
    OK
}

/// Gives the first change of local time after an instant.
pub fn zone_next_change(alloc: Global, zone: &mut Handle, instant: i64, change: &mut i64) -> i32
    requires { IsHandle zone.old }
    ensures unchanged { zone.new ≡ zone.old }
    ensures gives { MatchOption (zone_in zone.old)
        ((result ≡ NO_HANDLE) × (change.new ≡ change.old))
        (λ content. IsNextGiven content instant result change.old change.new) }
{
    zone.lend(
        alloc,
        &mut |held: &Held| match held.zone() {
            Some(zone) => tell_next(zone, instant, change),
            None => NO_HANDLE,
        },
    )
}

/// Gives the last change of local time before an instant.
pub fn zone_previous_change(alloc: Global, zone: &mut Handle, instant: i64, change: &mut i64) -> i32
    requires { IsHandle zone.old }
    ensures unchanged { zone.new ≡ zone.old }
    ensures gives { MatchOption (zone_in zone.old)
        ((result ≡ NO_HANDLE) × (change.new ≡ change.old))
        (λ content. IsPreviousGiven content instant result change.old change.new) }
{
    zone.lend(
        alloc,
        &mut |held: &Held| match held.zone() {
            Some(zone) => tell_previous(zone, instant, change),
            None => NO_HANDLE,
        },
    )
}

/// Gives the changes of local time after one instant and up to another, as many as there is room for.
pub fn zone_changes(
    alloc: Global,
    zone: &mut Handle,
    first: i64,
    last: i64,
    changes: &mut [i64],
    count: &mut usize,
) -> i32
    requires { IsHandle zone.old }
    ensures unchanged { zone.new ≡ zone.old }
    ensures gives { MatchOption (zone_in zone.old)
        ((result ≡ NO_HANDLE) × (changes.new ≡ changes.old) × (count.new ≡ count.old))
        (λ content. AreChangesGiven content first last result changes.old changes.new count.new) }
{
    zone.lend(
        alloc,
        &mut |held: &Held| match held.zone() {
            Some(zone) => tell_changes(zone, first, last, changes, count),
            None => NO_HANDLE,
        },
    )
}
