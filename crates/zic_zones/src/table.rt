//! A table of slots, from the spans of a zone.

ghost use Rattle.std.specs.Prelude.{◌≡◌, pos, ◌+ℤ◌, ◌≤ℤ◌, IfOk, vec_len};
ghost use Rattle.zic_posix.specs.Instants.{Includes};
ghost use Rattle.zic_zones.specs.Slots.{AreRight, IsRight};
ghost use Rattle.zic_zones.specs.code.Known.{IsKnown};

use crate::slot::{LAST_BASE, SLOT_SECONDS, SLOTS, Slot, UNKNOWN};
use std::alloc::{AllocError, Global};
use zic_posix::MAX_INSTANT;
use zic_tzif::{Answer, Instants, Zone};

/// Some instants, and the number at each of them.
#[derive(Clone, Copy)]
struct NumberSpan {
    instants: Instants,
    number: u16,
}

/// Returns the slots of the 2^32 seconds from an instant on, with the numbers that the states of a
/// zone have. A slot with two changes has no answer.
///
/// # Errors
///
/// Fails where memory is refused.
pub fn slots_of(
    alloc: Global,
    zone: &Zone,
    numbers: &[u16],
    base: i64,
) -> Result<Vec<Slot>, AllocError>
    requires { base ≤ℤ LAST_BASE }
    ensures long { IfOk result (λ slots. vec_len slots ≡ SLOTS) }
    ensures right { IfOk result (λ slots. AreRight zone.now numbers.now base slots.items) }
{
    let mut slots = Vec::with_capacity(alloc, SLOTS as usize)?;
    let mut known = known_at(zone, numbers, base);
    for place in 0..SLOTS {
        let start = base + i64::from(place * SLOT_SECONDS);
        slots.push(slot_from(zone, numbers, start, &mut known))?;
    }
    Ok(slots)
}

/// Returns the slot that starts at an instant. Keeps what is known of the last instants that were
/// looked up.
fn slot_from(zone: &Zone, numbers: &[u16], start: i64, known: &mut NumberSpan) -> Slot
    requires start { (start +ℤ pos SLOT_SECONDS) ≤ℤ MAX_INSTANT }
    requires known { IsKnown zone.now numbers.now known.old }
    ensures right { IsRight zone.now numbers.now start result }
    ensures known { IsKnown zone.now numbers.now known.new }
{
    let last = start + i64::from(SLOT_SECONDS - 1);
    let before = known_from(zone, numbers, start, *known);
    *known = before;
    if last <= before.instants.last {
        return Slot {
            change: 0,
            before: before.number,
            after: before.number,
        };
    }
    let change = before.instants.last + 1;
    let after = known_at(zone, numbers, change);
    *known = after;
    if last <= after.instants.last {
        return Slot {
            change: seconds_from(start, change),
            before: before.number,
            after: after.number,
        };
    }
    Slot {
        change: 0,
        before: UNKNOWN,
        after: UNKNOWN,
    }
}

/// Returns how many seconds after the start of a slot an instant comes.
fn seconds_from(start: i64, instant: i64) -> u32
    requires from { start ≤ℤ instant }
    requires to { instant ≤ℤ (start +ℤ pos SLOT_SECONDS) }
    ensures { (start +ℤ pos result) ≡ instant }
{
    (instant - start) as u32
}

/// Returns the number at an instant, and the instants round it at which it is the same: those of
/// the last look-up, if the instant is one of them.
fn known_from(zone: &Zone, numbers: &[u16], instant: i64, last: NumberSpan) -> NumberSpan
    requires { IsKnown zone.now numbers.now last }
    ensures requested { Includes result.instants instant }
    ensures known { IsKnown zone.now numbers.now result }
{
    if last.instants.contains(instant) {
        last
    } else {
        known_at(zone, numbers, instant)
    }
}

/// Returns the number at an instant, and the instants round it at which it is the same.
fn known_at(zone: &Zone, numbers: &[u16], instant: i64) -> NumberSpan
    ensures requested { Includes result.instants instant }
    ensures known { IsKnown zone.now numbers.now result }
{
    let span = zone.span(instant);
    let number = match span.answer {
        Answer::Known(_) if span.number < numbers.len() => numbers[span.number],
        _ => UNKNOWN,
    };
    NumberSpan {
        instants: span.instants,
        number,
    }
}
