//! The call on the date and the time of day at an instant.

ghost use Rattle.std.specs.Prelude.{◌≡◌, MatchOption};
ghost use Rattle.zic_tzif.specs.Answer.{answered};
ghost use Rattle.pzic_zones.specs.Handle.{IsHandle, zone_in};
ghost use Rattle.pzic_zones.specs.CivilTime.{IsCivilTime, IsCivilTimeAt};
ghost use Rattle.pzic_zones.specs.declared.status.TheConstants.{NO_HANDLE};

use crate::handle::Handle;
use crate::held::Held;
use crate::state::State;
use crate::status::NO_HANDLE;
use std::alloc::Global;
use zic_dump::civil_at;
use zic_tzif::{Answer, Zone};

/// The date and the time of day that clocks show at an instant, and local time.
#[repr(C)]
#[derive(Drop)]
pub struct CivilTime {
    /// The year; the one before 1 is 0.
    pub year: i64,
    /// The month, 1 to 12.
    pub month: u32,
    /// The day of the month, from 1.
    pub day: u32,
    pub hour: u32,
    pub minute: u32,
    pub second: u32,
    /// The offset, the flag and the abbreviation.
    pub state: State,
}

impl CivilTime {
    /// Turns to what clocks show at an instant, where a file answers this. Returns the status that
    /// says what the answer is.
    fn tell(&mut self, answer: Answer<'_>, instant: i64) -> i32
        ensures { IsCivilTime instant (answered answer.entry) result self.new }
    {
        let status = self.state.tell(answer);
        let shown = civil_at(instant, self.state.offset);
        self.year = shown.year;
        self.month = u32::from(shown.month);
        self.day = u32::from(shown.day);
        self.hour = u32::from(shown.hour);
        self.minute = u32::from(shown.minute);
        self.second = u32::from(shown.second);
        status
    }
}

/// Gives the date and the time of day at an instant.
fn tell_civil(zone: &Zone, instant: i64, civil: &mut CivilTime) -> i32
    ensures { IsCivilTimeAt zone.now instant result civil.new }
{
    civil.tell(zone.at(instant), instant)
}

/// Gives the date and the time of day at an instant.
pub fn zone_civil(alloc: Global, zone: &mut Handle, instant: i64, civil: &mut CivilTime) -> i32
    requires { IsHandle zone.old }
    ensures unchanged { zone.new ≡ zone.old }
    ensures gives { MatchOption (zone_in zone.old)
        ((result ≡ NO_HANDLE) × (civil.new ≡ civil.old))
        (λ content. IsCivilTimeAt content instant result civil.new) }
{
    zone.lend(
        alloc,
        &mut |held: &Held| match held.zone() {
            Some(zone) => tell_civil(zone, instant, civil),
            None => NO_HANDLE,
        },
    )
}
