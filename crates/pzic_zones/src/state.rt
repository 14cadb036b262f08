//! Local time as C sees it.

ghost use Rattle.std.specs.Prelude.{◌≡◌, take};
ghost use Rattle.zic_base.specs.State.{shown};
ghost use Rattle.zic_tzif.specs.Answer.{answered};
ghost use Rattle.pzic_zones.specs.State.{IsStateOf, padded};
ghost use Rattle.pzic_zones.specs.Zone.{IsAnswer};

use crate::status::{OK, UNSPECIFIED};
use zic_base::State as Shown;
use zic_tzif::Answer;

/// The most bytes of an abbreviation that a state has.
const NAME_ROOM: usize = 16;

/// Local time at an instant.
#[repr(C)]
#[derive(Drop)]
pub struct State {
    /// Total UT offset in seconds, positive east.
    pub offset: i32,
    /// 1 in daylight saving time, and else 0.
    pub daylight: u32,
    /// The length of the abbreviation in bytes.
    pub name_length: usize,
    /// The first 16 bytes of the abbreviation, and NULs.
    pub name: [u8; NAME_ROOM + 1],
}

impl State {
    /// Returns local time of a state.
    fn new(state: Shown<'_>) -> State
        ensures { IsStateOf (shown state.entry) result }
    {
        State {
            offset: state.offset,
            daylight: u32::from(state.daylight),
            name_length: state.name.len(),
            name: padded(state.name),
        }
    }

    /// Turns to what a file answers. Returns its status.
    pub(crate) fn tell(&mut self, answer: Answer<'_>) -> i32
        ensures { IsAnswer (answered answer.entry) result self.new }
    {
        match answer {
            Answer::Known(state) => {
                *self = State::new(state);
                OK
            }
            Answer::Unspecified => {
                *self = State::new(Shown {
                    offset: 0,
                    daylight: false,
                    name: b"",
                });
                UNSPECIFIED
            }
        }
    }
}

/// Returns the first 16 bytes of an abbreviation, and NULs after them.
fn padded(name: &[u8]) -> [u8; NAME_ROOM + 1]
    ensures { result ≡ padded (take 16 name.now) }
{
    let cached = name.len().min(NAME_ROOM);
    let mut octets = [0; NAME_ROOM + 1];
    octets[..cached].copy_from_slice(&name[..cached]);
    octets
}
