//! The states that a file shows, by number.

ghost use Rattle.std.specs.Prelude.{◌<◌, length};

use super::Zone;
use crate::designation::designation_of;
use zic_base::State;

impl Zone {
    ghost use Rattle.zic_base.specs.State.{shown};
    ghost use Rattle.zic_tzif.specs.Content.{IsStateOfType};
    ghost use Rattle.zic_tzif.specs.States.{AreStates, HasStateOfNumber, IsStateOfNumber};

    /// Returns the number of states that the file shows: local time of each of its types, and the
    /// footer's standard time and daylight saving time.
    pub fn state_count(&self) -> usize
        ensures { AreStates self.now result }
    {
        let types = self.types.len();
        match &self.footer {
            Some(footer) if footer.daylight_state().is_some() => types + 2,
            Some(_) => types + 1,
            None => types,
        }
    }

    /// Returns the state of a number, from 0 to just before `state_count`: the types come first,
    /// in the file's order, then the footer's standard time, and then its daylight saving time.
    pub fn state(&self, number: usize) -> State<'_>
        requires { HasStateOfNumber self.now number }
        ensures { IsStateOfNumber self.now number (shown result) }
    {
        let types = self.types.len();
        match &self.footer {
            Some(footer) if number >= types => match footer.daylight_state() {
                Some(state) if number > types => state,
                _ => footer.standard_state(),
            },
            _ => self.state_of(number),
        }
    }

    /// Returns local time of the type of a number.
    pub(super) fn state_of(&self, number: usize) -> State<'_>
        requires { number < length self.now.types }
        ensures { IsStateOfType self.now number (shown result) }
    {
        let local_type = self.types[number];
        let length = self.lengths[number];
        State {
            offset: local_type.offset,
            daylight: local_type.daylight,
            name: designation_of(&self.names, local_type.place, length),
        }
    }
}
