//! The calls on zones.

ghost use Rattle.std.specs.Prelude.{◌≡◌, MatchOption};
ghost use Rattle.pzic_zones.specs.Handle.{IsHandle, held_in, zone_in};
ghost use Rattle.pzic_zones.specs.Zone.{IsRead, IsReasonGiven, IsAnswerAt, IsAnswerAround, instants};
ghost use Rattle.pzic_zones.specs.Column.{AreOffsetsGiven};
ghost use Rattle.zic_tzif.specs.Reading.{reason_of};
ghost use Rattle.pzic_zones.specs.declared.status.TheConstants.{NO_HANDLE};

use crate::column;
use crate::handle::Handle;
use crate::held::{Held, hold_zone};
use crate::state::State;
use crate::status::{BAD_FILE, LENGTHS, NO_HANDLE, NO_MEMORY, OK};
use std::alloc::Global;
use zic_local::laws::instants_are_near;
use zic_tzif::{ReadStop, Zone, read};

/// Gives why bytes weren't read.
fn refuse_bytes(stop: ReadStop, reason: &mut u32) -> i32
    ensures { IsReasonGiven (reason_of stop) result reason.old reason.new }
{
    match stop {
        ReadStop::Bad(why) => {
            *reason = u32::from(why.number());
            BAD_FILE
        }
        ReadStop::Memory => NO_MEMORY,
    }
}

/// Gives local time at an instant.
fn tell_at(zone: &Zone, instant: i64, state: &mut State) -> i32
    ensures { IsAnswerAt zone.now instant result state.new }
{
    state.tell(zone.at(instant))
}

/// Gives local time at an instant, and the first and the last of the instants round it.
fn tell_round(zone: &Zone, instant: i64, state: &mut State, first: &mut i64, last: &mut i64) -> i32
    ensures { IsAnswerAround zone.now instant (instants first.new last.new) result state.new }
{
    let span = zone.span(instant);
    *first = span.instants.first;
    *last = span.instants.last;
    state.tell(span.answer)
}

/// Gives local time at each of many instants, where the arrays are as long.
fn tell_column(zone: &Zone, instants: &[i64], offsets: &mut [i32], flags: &mut [u8]) -> i32
    ensures { AreOffsetsGiven zone.now instants.now result offsets.old flags.old offsets.new
        flags.new }
{
    if offsets.len() != instants.len() || flags.len() != instants.len() {
        return LENGTHS;
    }
    column::write(zone, instants, offsets, flags);
    OK
}

/// Reads a zone from the bytes of a TZif file.
pub fn zone_read(alloc: Global, octets: &[u8], zone: &mut Handle, reason: &mut u32) -> i32
    requires { IsHandle zone.old }
    ensures handle { IsHandle zone.new }
    ensures read { IsRead octets.now result reason.old reason.new (held_in zone.new) }
{
    instants_are_near();
    drop(zone.take(alloc));
    let made = match read(alloc, octets) {
        Ok(made) => made,
        Err(stop) => return refuse_bytes(stop, reason),
    };
    match hold_zone(alloc, made) {
        Ok(held) => {
            zone.put(held);
            OK
        }
        Err(_) => NO_MEMORY,
    }
}

/// Gives local time at an instant.
pub fn zone_at(alloc: Global, zone: &mut Handle, instant: i64, state: &mut State) -> i32
    requires { IsHandle zone.old }
    ensures unchanged { zone.new ≡ zone.old }
    ensures gives { MatchOption (zone_in zone.old)
        ((result ≡ NO_HANDLE) × (state.new ≡ state.old))
        (λ content. IsAnswerAt content instant result state.new) }
{
    zone.lend(
        alloc,
        &mut |held: &Held| match held.zone() {
            Some(zone) => tell_at(zone, instant, state),
            None => NO_HANDLE,
        },
    )
}

/// Gives local time at an instant, and the instants round it at which it is the same.
pub fn zone_span(
    alloc: Global,
    zone: &mut Handle,
    instant: i64,
    state: &mut State,
    first: &mut i64,
    last: &mut i64,
) -> i32
    requires { IsHandle zone.old }
    ensures unchanged { zone.new ≡ zone.old }
    ensures gives { MatchOption (zone_in zone.old)
        ((result ≡ NO_HANDLE) × (state.new ≡ state.old) × (first.new ≡ first.old)
        × (last.new ≡ last.old))
        (λ content. IsAnswerAround content instant (instants first.new last.new) result state.new) }
{
    zone.lend(
        alloc,
        &mut |held: &Held| match held.zone() {
            Some(zone) => tell_round(zone, instant, state, first, last),
            None => NO_HANDLE,
        },
    )
}

/// Gives local time at each of many instants, in any order.
pub fn zone_offsets(
    alloc: Global,
    zone: &mut Handle,
    instants: &[i64],
    offsets: &mut [i32],
    flags: &mut [u8],
) -> i32
    requires { IsHandle zone.old }
    ensures unchanged { zone.new ≡ zone.old }
    ensures gives { MatchOption (zone_in zone.old)
        ((result ≡ NO_HANDLE) × (offsets.new ≡ offsets.old) × (flags.new ≡ flags.old))
        (λ content. AreOffsetsGiven content instants.now result offsets.old flags.old offsets.new
        flags.new) }
{
    zone.lend(
        alloc,
        &mut |held: &Held| match held.zone() {
            Some(zone) => tell_column(zone, instants, offsets, flags),
            None => NO_HANDLE,
        },
    )
}
