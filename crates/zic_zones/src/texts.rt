//! The texts of states, by number.

ghost use Rattle.std.specs.Prelude.{◌≡◌, IfOk, IfSome};
ghost use Rattle.zic_base.specs.State.{shown};
ghost use Rattle.zic_zones.specs.States.{HasState};
ghost use Rattle.zic_zones.specs.code.Numbered.{Keeps};
ghost use Rattle.zic_zones.specs.code.Texts.{AreNumbersOf};

use crate::numbered::{Numbered, mixed};
use crate::slot::UNKNOWN;
use std::alloc::{AllocError, Global};
use zic_base::{LONGEST_ABBREVIATION, State};
use zic_row_text::{FARTHEST_OFFSET, StateText};
use zic_tzif::Zone;

/// The number of bits that number the places of texts: some four for each state of the tz database.
pub(crate) const TEXT_BITS: u32 = 13;

impl Numbered<StateText> {
    /// Adds the texts of all states of a zone, and returns their numbers by the numbers of the
    /// states. A state that several zones show has one text.
    pub(crate) fn add_zone(&mut self, alloc: Global, zone: &Zone) -> Result<Vec<u16>, AllocError>
        ensures stays { Keeps self.old self.new }
        ensures numbers { IfOk result (λ numbers. AreNumbersOf zone.now self.new numbers.items) }
    {
        let count = zone.state_count();
        let mut numbers = Vec::with_capacity(alloc, count)?;
        for number in 0..count {
            numbers.push(self.add(zone.state(number))?)?;
        }
        Ok(numbers)
    }

    /// Returns the number of the text of a state, which is added if it isn't here, or `UNKNOWN` where
    /// no row may have the state or all numbers are taken.
    fn add(&mut self, state: State<'_>) -> Result<u16, AllocError>
        ensures stays { Keeps self.old self.new }
        ensures number { IfOk result (λ n. HasState self.new n (λ text. text ≡ shown state.entry)) }
    {
        let place = match self.find(hash_of(&state), |text| text.is_of(&state)) {
            Ok(number) => return Ok(number),
            Err(place) => place,
        };
        let Some(text) = text_of(state) else {
            return Ok(UNKNOWN);
        };
        Ok(self.push(text, place)?.unwrap_or(UNKNOWN))
    }
}

/// Returns the text of a state, or `None` where no row may have the state.
fn text_of(state: State<'_>) -> Option<StateText>
    ensures { IfSome result (λ text. text ≡ shown state.entry) }
{
    if FARTHEST_OFFSET < state.offset.unsigned_abs() || LONGEST_ABBREVIATION < state.name.len() {
        return None;
    }
    Some(StateText::new(state))
}

/// Returns the hash of a state, by its offset and its abbreviation.
fn hash_of(state: &State<'_>) -> u64 {
    let mut hash = u64::from(state.offset.unsigned_abs());
    for byte in state.name {
        hash = mixed(hash, u64::from(*byte));
    }
    hash
}
