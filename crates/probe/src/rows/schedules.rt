//! The next instants at which schedules are due, by TZif files.

ghost use Rattle.std.specs.Prelude.{IfOk};
ghost use Rattle.zic_local.specs.LocalTime.{HaveOffsets};

use super::call::{Call, Refusal};
use super::local_times::zone_of;
use crate::answers::Answers;
use std::alloc::Global;
use zic_local::{Policy, Schedule, TimeOfDay, Weekdays, next_local, write_due};
use zic_tzif::Zone;

/// Appends the answer to a call.
pub fn answer(alloc: Global, call: &Call<'_>, answers: &mut Answers) -> Result<(), Refusal> {
    let zone = zone_of(alloc, call)?;
    match call.name {
        "next" => push_next(&zone, call, answers),
        "due" => push_due(&zone, call, answers),
        _ => Err(Refusal::Call),
    }
}

/// Returns the schedule of a policy, a time of day in seconds and weekdays as bits: the first three
/// words.
fn schedule_of(call: &Call<'_>) -> Result<Schedule, Refusal> {
    let policy = match call.word(0) {
        Ok("compatible") => Policy::Compatible,
        Ok("earlier") => Policy::Earlier,
        Ok("later") => Policy::Later,
        Ok("skip") => Policy::Skip,
        _ => return Err(Refusal::Call),
    };
    let seconds = call.number(1, 0, 86_399)? as u32;
    let bits = call.number(2, 0, 127)? as u8;
    match (TimeOfDay::new(seconds), Weekdays::new(bits)) {
        (Some(time), Some(weekdays)) => Ok(Schedule {
            time,
            weekdays,
            policy,
        }),
        _ => Err(Refusal::Call),
    }
}

/// `next POLICY SECONDS WEEKDAYS AFTER UNTIL`: appends the next due instant.
fn push_next(zone: &Zone, call: &Call<'_>, answers: &mut Answers) -> Result<(), Refusal>
    requires { HaveOffsets zone.now }
{
    let schedule = schedule_of(call)?;
    let after = call.instant(3)?;
    let until = call.instant(4)?;
    answers.debug_line(&next_local(zone, &schedule, after, until));
    Ok(())
}

/// `due POLICY SECONDS WEEKDAYS AFTER UNTIL`: appends the due instants in a row, at most eight.
fn push_due(zone: &Zone, call: &Call<'_>, answers: &mut Answers) -> Result<(), Refusal>
    requires { HaveOffsets zone.now }
{
    let schedule = schedule_of(call)?;
    let after = call.instant(3)?;
    let until = call.instant(4)?;
    let mut room = [0; 8];
    let count = write_due(zone, &schedule, after, until, &mut room);
    for due in room.iter().take(count) {
        answers.show(due);
    }
    answers.end_line();
    Ok(())
}
