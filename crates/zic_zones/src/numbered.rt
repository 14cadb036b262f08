//! Values by number, each of which finds its own number.

ghost use Rattle.std.specs.Fn.{FnReturnsAt};
ghost use Rattle.std.specs.Prelude.{◌≡◌, ◌<◌, [], IfOk, IfSome, Some, length, slice_get, true};
ghost use Rattle.zic_zones.specs.code.Numbered.{IsValue, Keeps};

use crate::slot::UNKNOWN;
use std::alloc::{AllocError, Global};
use std::marker::Model;

/// The number of places, one after another, that a value may have.
const TRIES: usize = 8;

/// Values, each by its number, which is below [`UNKNOWN`], in the order in which they were added.
/// Clauses see the values.
#[derive(Drop)]
pub(crate) struct Numbered<T: Drop> {
    values: Vec<T>,
    /// The numbers of values, each at one of the places of its value, and [`UNKNOWN`] elsewhere.
    /// There are no places until a value is added.
    places: Vec<u16>,
    /// The number of bits that number the places.
    bits: u32,
}

impl<T: Drop> Model for Numbered<T> {
    ghost use Rattle.std.specs.Prelude.{◌≤◌, List, length};
    ghost use Rattle.zic_zones.specs.declared.slot.TheConstants.{UNKNOWN};

    ghost Value = { List T };

    ghost view = { λ n. n.values.items };

    ghost invariant = { λ n. length n.values.items ≤ UNKNOWN };
}

impl<T: Drop> Numbered<T> {
    /// Returns no values. They will have 2 to the power of `bits` places, best a few for each value.
    pub(crate) fn new(alloc: Global, bits: u32) -> Numbered<T>
        ensures { result ≡ [] }
    {
        Numbered {
            values: Vec::new(alloc),
            places: Vec::new(alloc),
            bits,
        }
    }

    /// Returns the value of a number.
    #[inline(always)]
    pub(crate) fn value(&self, number: u16) -> &T
        requires { number < length self.now }
        ensures { slice_get self.now number ≡ Some result.now }
    {
        &self.values[usize::from(number)]
    }

    /// Returns the value of a number, if there is one.
    #[inline(always)]
    pub(crate) fn get(&self, number: u16) -> Option<&T>
        ensures { IfSome result (λ value. IsValue self.now number value.now) }
    {
        self.values.get(usize::from(number))
    }

    /// Returns the number of a value of which `is` holds, by the hash of such values, or else a place
    /// where its number may be written: one after all others, where all places of the hash are taken.
    pub(crate) fn find<F: Fn(&T) -> bool>(&self, hash: u64, is: F) -> Result<u16, usize>
        requires { F.IsAlwaysCallable is }
        ensures { IfOk result (λ number. (value : T) × (slice_get self.now number ≡ Some value)
            × FnReturnsAt F.Fn is value true) }
    {
        let first = hash
            .wrapping_mul(0xc2b2_ae3d_27d4_eb4f)
            .wrapping_shr(u64::BITS.wrapping_sub(self.bits)) as usize;
        for place in first..first.saturating_add(TRIES) {
            let Some(held) = self.places.get(place) else {
                return Err(place);
            };
            let number = *held;
            match self.get(number) {
                Some(value) if is(value) => return Ok(number),
                Some(_) => {}
                None => return Err(place),
            }
        }
        Err(self.places.len())
    }

    /// Adds a value, whose number is written at a place, if there is such a place, and returns the
    /// number, or `None` where the numbers are all taken.
    pub(crate) fn push(&mut self, value: T, place: usize) -> Result<Option<u16>, AllocError>
        ensures stays { Keeps self.old self.new }
        ensures number { IfOk result (λ found. IfSome found
            (λ number. slice_get self.new number ≡ Some value)) }
    {
        let number = self.values.len();
        if number >= usize::from(UNKNOWN) {
            return Ok(None);
        }
        if self.places.is_empty() {
            self.places.resize(1usize.wrapping_shl(self.bits), UNKNOWN)?;
        }
        self.values.push(value)?;
        if let Some(held) = self.places.get_mut(place) {
            *held = number as u16;
        }
        Ok(Some(number as u16))
    }
}

/// Returns the hash of some numbers and one more, by the hash of those.
#[inline]
pub(crate) fn mixed(hash: u64, number: u64) -> u64 {
    (hash ^ number)
        .wrapping_mul(0x9e37_79b9_7f4a_7c15)
        .rotate_left(23)
}
