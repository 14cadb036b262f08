//! The instants of local times, by TZif files.

ghost use Rattle.std.specs.Prelude.{IfOk};
ghost use Rattle.zic_local.specs.LocalTime.{HaveOffsets, IsInRange};

use super::call::{Call, Refusal};
use crate::answers::Answers;
use std::alloc::Global;
use zic_base::{FARTHEST_FILE_OFFSET, Stop};
use zic_local::laws::instants_are_near;
use zic_local::{Disambiguation, instant, instants};
use zic_tzif::{ReadStop, Zone, read};

/// The first local time whose instants are in 64 bits, whatever the UT offset is.
const FIRST: i64 = i64::MIN + FARTHEST_FILE_OFFSET as i64;

/// The last of them.
const LAST: i64 = i64::MAX - FARTHEST_FILE_OFFSET as i64;

/// Appends the answer to a call.
pub fn answer(alloc: Global, call: &Call<'_>, answers: &mut Answers) -> Result<(), Refusal> {
    let zone = zone_of(alloc, call)?;
    match call.name {
        "instants" => push_instants(&zone, call, answers),
        "reject" => push_chosen(&zone, call, Disambiguation::Reject, answers),
        "earlier" => push_chosen(&zone, call, Disambiguation::Earlier, answers),
        "later" => push_chosen(&zone, call, Disambiguation::Later, answers),
        "compatible" => push_chosen(&zone, call, Disambiguation::Compatible, answers),
        _ => Err(Refusal::Call),
    }
}

/// Returns the zone of the file that a text is.
pub fn zone_of(alloc: Global, call: &Call<'_>) -> Result<Zone, Refusal>
    ensures { IfOk result HaveOffsets }
{
    instants_are_near();
    match read(alloc, call.text()?) {
        Ok(zone) => Ok(zone),
        Err(ReadStop::Bad(_)) => Err(Refusal::Call),
        Err(ReadStop::Memory) => Err(Refusal::Stop(Stop::Memory)),
    }
}

/// Returns the local time that the word of this number spells.
fn local_of(call: &Call<'_>, number: usize) -> Result<i64, Refusal>
    ensures { IfOk result IsInRange }
{
    call.number(number, FIRST, LAST)
}

/// `instants LOCAL..`: appends the instants of local times.
fn push_instants(zone: &Zone, call: &Call<'_>, answers: &mut Answers) -> Result<(), Refusal>
    requires { HaveOffsets zone.now }
{
    for number in 0..call.len() {
        let local = local_of(call, number)?;
        answers.show(&local);
        answers.debug_line(&instants(zone, local));
    }
    Ok(())
}

/// `CHOICE LOCAL..`: appends the instants that are meant by local times.
fn push_chosen(
    zone: &Zone,
    call: &Call<'_>,
    choice: Disambiguation,
    answers: &mut Answers,
) -> Result<(), Refusal>
    requires { HaveOffsets zone.now }
{
    for number in 0..call.len() {
        let local = local_of(call, number)?;
        answers.show(&local);
        answers.debug_line(&instant(zone, local, choice));
    }
    Ok(())
}
