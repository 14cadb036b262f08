//! Slots by number, each stored once.

ghost use Rattle.std.specs.Prelude.{◌≡◌, IfOk, IfSome, IsTrue, Some, slice_get};
ghost use Rattle.zic_zones.specs.code.Numbered.{Keeps};
ghost use Rattle.zic_zones.specs.code.Tables.{AreNumbersOfSlots};

use crate::numbered::{Numbered, mixed};
use crate::slot::{Slot, UNKNOWN};
use std::alloc::{AllocError, Global};

/// The number of bits that number the places of slots: some eight for each slot of the tz database.
pub(crate) const SLOT_BITS: u32 = 17;

impl Numbered<Slot> {
    /// Returns the numbers of some slots, of which those that aren't here are added, or `None` where
    /// the numbers are all taken.
    pub(crate) fn numbers_of(
        &mut self,
        alloc: Global,
        slots: &[Slot],
    ) -> Result<Option<Vec<u16>>, AllocError>
        ensures stays { Keeps self.old self.new }
        ensures numbers { IfOk result (λ found. IfSome found
            (λ numbers. AreNumbersOfSlots self.new numbers.items slots.now)) }
    {
        let mut numbers = Vec::with_capacity(alloc, slots.len())?;
        let mut last = UNKNOWN;
        for slot in slots {
            let Some(number) = self.number(*slot, last)? else {
                return Ok(None);
            };
            numbers.push(number)?;
            last = number;
        }
        Ok(Some(numbers))
    }

    /// Returns the number of a slot, which is added if it isn't here, or `None` where the numbers are
    /// all taken. Many slots are the same as the one before, whose number is the last.
    fn number(&mut self, slot: Slot, last: u16) -> Result<Option<u16>, AllocError>
        ensures stays { Keeps self.old self.new }
        ensures number { IfOk result (λ found. IfSome found
            (λ number. slice_get self.new number ≡ Some slot)) }
    {
        if self.is_slot(last, slot) {
            return Ok(Some(last));
        }
        match self.find(hash_of(slot), |held| *held == slot) {
            Ok(number) => Ok(Some(number)),
            Err(place) => self.push(slot, place),
        }
    }

    /// Returns whether a number is that of a slot.
    fn is_slot(&self, number: u16, slot: Slot) -> bool
        ensures { IsTrue result → slice_get self.now number ≡ Some slot }
    {
        match self.get(number) {
            Some(found) => *found == slot,
            None => false,
        }
    }
}

/// Returns the hash of a slot.
fn hash_of(slot: Slot) -> u64 {
    let numbers = u64::from(slot.before) << 16 | u64::from(slot.after);
    mixed(0, u64::from(slot.change) << 32 | numbers)
}
