//! Columns of local times in memory.

ghost use Rattle.std.specs.Prelude.{◌≡◌, IfSome, Some, length, MatchOption};
ghost use Rattle.std.specs.List.{AllZip};
ghost use Rattle.pzic_zones.specs.code.Near.{IsNear};
ghost use Rattle.pzic_zones.specs.Handle.{IsHandle, zone_in};
ghost use Rattle.pzic_zones.specs.Local.{AreInstantsGiven, IsInstantMeant, IsStatusMeant, choice_number, instant_of, meant_status};
ghost use Rattle.zic_local.specs.Index.{IsIndexOf};
ghost use Rattle.pzic_zones.specs.declared.status.TheConstants.{NO_HANDLE};

use crate::handle::Handle;
use crate::held::Held;
use crate::local::is_in_range;
use crate::status::{FOLD, GAP, LENGTHS, NO_HANDLE, NO_SUCH, OK, OUT_OF_RANGE, UNSPECIFIED};
use std::alloc::Global;
use zic_local::{Disambiguation, LocalIndex, Unresolved, instant_by};
use zic_tzif::Zone;

/// The fewest local times for which it is worth looking whether a zone needs an index.
const MANY: usize = 64;

/// The instant that is meant by a local time, and the status, which says whether there is one.
#[derive(Clone, Copy)]
struct Meant {
    instant: i64,
    status: u8,
}

/// Returns the disambiguation of a number, if one has it.
fn choice_of(number: u32) -> Option<Disambiguation>
    ensures { MatchOption result
        ((choice : Disambiguation) → number ≡ choice_number choice → ⊥)
        (λ choice. number ≡ choice_number choice) }
{
    match number {
        0 => Some(Disambiguation::Reject),
        1 => Some(Disambiguation::Earlier),
        2 => Some(Disambiguation::Later),
        3 => Some(Disambiguation::Compatible),
        _ => None,
    }
}

/// Returns what C sees of an answer.
fn seen(answer: Result<i64, Unresolved>) -> Meant
    ensures instant { result.instant ≡ instant_of (Some answer) }
    ensures status { result.status ≡ meant_status (Some answer) }
{
    let (instant, status) = match answer {
        Ok(instant) => (instant, OK),
        Err(Unresolved::Gap) => (0, GAP),
        Err(Unresolved::Fold) => (0, FOLD),
        Err(Unresolved::Unspecified) => (0, UNSPECIFIED),
    };
    Meant {
        instant,
        status: status as u8,
    }
}

/// Returns the index by which local times are found, where a walk would be slow and they are many. Without
/// memory for it a walk serves too.
fn index_for(alloc: Global, zone: &Zone, count: usize) -> Option<LocalIndex>
    requires { IsNear zone.now }
    ensures { IfSome result (IsIndexOf zone.now) }
{
    if count < MANY {
        return None;
    }
    LocalIndex::for_zone(alloc, zone).unwrap_or(None)
}

/// Returns the instant that is meant by a local time, by the zone's index, if it has one.
fn meant_by(zone: &Zone, index: Option<&LocalIndex>, choice: Disambiguation, local: i64) -> Meant
    requires near { IsNear zone.now }
    requires index { IfSome index (λ index. IsIndexOf zone.now index.now) }
    ensures instant { IsInstantMeant zone.now choice local result.instant }
    ensures status { IsStatusMeant zone.now choice local result.status }
{
    if !is_in_range(local) {
        return Meant {
            instant: 0,
            status: OUT_OF_RANGE as u8,
        };
    }
    seen(instant_by(zone, index, local, choice))
}

/// Writes the instant that is meant by each local time, and its status.
fn write(
    zone: &Zone,
    index: Option<&LocalIndex>,
    choice: Disambiguation,
    locals: &[i64],
    instants: &mut [i64],
    statuses: &mut [u8],
)
    requires near { IsNear zone.now }
    requires index { IfSome index (λ index. IsIndexOf zone.now index.now) }
    requires instants { length instants.old ≡ length locals.now }
    requires statuses { length statuses.old ≡ length locals.now }
    ensures instants { AllZip (IsInstantMeant zone.now choice) locals.now instants.new }
    ensures statuses { AllZip (IsStatusMeant zone.now choice) locals.now statuses.new }
{
    for i in 0..locals.len() {
        let meant = meant_by(zone, index, choice, locals[i]);
        instants[i] = meant.instant;
        statuses[i] = meant.status;
    }
}

/// Gives the instants that are meant by local times, where the arrays are as long and the number is
/// that of a disambiguation.
fn tell_instants(
    alloc: Global,
    zone: &Zone,
    number: u32,
    locals: &[i64],
    instants: &mut [i64],
    statuses: &mut [u8],
) -> i32
    requires { IsNear zone.now }
    ensures { AreInstantsGiven zone.now number locals.now result instants.old statuses.old
        instants.new statuses.new }
{
    if instants.len() != locals.len() || statuses.len() != locals.len() {
        return LENGTHS;
    }
    let Some(choice) = choice_of(number) else {
        return NO_SUCH;
    };
    let index = index_for(alloc, zone, locals.len());
    write(zone, index.as_ref(), choice, locals, instants, statuses);
    OK
}

/// Gives the instants that are meant by local times.
pub fn zone_instants_array(
    alloc: Global,
    zone: &mut Handle,
    disambiguation: u32,
    locals: &[i64],
    instants: &mut [i64],
    statuses: &mut [u8],
) -> i32
    requires { IsHandle zone.old }
    ensures unchanged { zone.new ≡ zone.old }
    ensures meant { MatchOption (zone_in zone.old)
        ((result ≡ NO_HANDLE) × (instants.new ≡ instants.old) × (statuses.new ≡ statuses.old))
        (λ content. AreInstantsGiven content disambiguation locals.now result instants.old
        statuses.old instants.new statuses.new) }
{
    zone.lend(
        alloc,
        &mut |held: &Held| match held.zone() {
            Some(zone) => tell_instants(alloc, zone, disambiguation, locals, instants, statuses),
            None => NO_HANDLE,
        },
    )
}
