//! The images of files, by number.

ghost use Rattle.std.specs.Prelude.{◌≡◌, ◌<◌, List, ◌++◌, Some, length, slice_get, IfOk, IfSome};
ghost use Rattle.zic_files.specs.File.{FileImage};

use crate::image::Image;
use std::alloc::{AllocError, Global};
use std::marker::Model;
use zic_tzif::laws::files_say_one;

/// The number of places of images.
const PLACES: usize = 16_384;

/// The greatest number of bytes that give the place of an image.
const SAMPLED: usize = 256;

/// Images by number. Many names of a tree may have one file, so one with the bytes of another is not
/// added, where that is seen. Clauses see the images.
#[derive(Debug, Drop)]
pub(crate) struct Images {
    list: Vec<Image>,
    /// Of each place the number of the last image that was added there, or 0. There are none until one
    /// is added.
    places: Vec<u32>,
}

impl Model for Images {
    ghost use Rattle.std.specs.Prelude.{List};
    ghost use Rattle.zic_files.specs.File.{FileImage};

    ghost Value = { List FileImage };

    ghost view = { λ i. i.list.items };
}

impl Images {
    /// Returns these images.
    pub(crate) fn of(alloc: Global, list: Vec<Image>) -> Images
        ensures { result ≡ list.items }
    {
        Images {
            list,
            places: Vec::new(alloc),
        }
    }

    /// Returns an image.
    pub(crate) fn get(&self, number: usize) -> &Image
        requires { number < length self.now }
        ensures { slice_get self.now number ≡ Some result.now }
    {
        &self.list[number]
    }

    /// Returns the number of an image, which is added if none has its bytes.
    pub(crate) fn add(&mut self, image: Image) -> Result<usize, AllocError>
        ensures number { IfOk result (λ number. slice_get self.new number ≡ Some image) }
        ensures grown { (more : List FileImage) × (self.new ≡ self.old ++ more) }
    {
        let place = place_of(image.octets());
        if let Some(number) = self.same_at(place, &image) {
            return Ok(number);
        }
        let number = self.list.len();
        self.list.push(image)?;
        self.note(place, number)?;
        Ok(number)
    }

    /// Returns the number of an image with the bytes of another, if there is one at its place.
    fn same_at(&self, place: usize, image: &Image) -> Option<usize>
        ensures { IfSome result (λ number. slice_get self.now number ≡ Some image.now) }
    {
        let number = *self.places.get(place)? as usize;
        let held = self.list.get(number)?;
        if held.octets() == image.octets() {
            // A reader makes the same zone of the same bytes.
            files_say_one();
            let _ = held.zone();
            let _ = image.zone();
            return Some(number);
        }
        None
    }

    /// Notes the number of the image that was added last at its place.
    fn note(&mut self, place: usize, number: usize) -> Result<(), AllocError>
        ensures { self.new ≡ self.old }
    {
        if self.places.is_empty() {
            self.places.resize(PLACES, 0)?;
        }
        if let (Some(held), Ok(number)) = (self.places.get_mut(place), u32::try_from(number)) {
            *held = number;
        }
        Ok(())
    }
}

/// Returns the place of an image with these bytes, by a hash of their number and some of them.
fn place_of(octets: &[u8]) -> usize {
    let mut hash = octets.len() as u64;
    for byte in octets.iter().step_by(octets.len() / SAMPLED + 1) {
        hash = (hash ^ u64::from(*byte)).wrapping_mul(0x9e37_79b9_7f4a_7c15);
        hash ^= hash.wrapping_shr(29);
    }
    hash as usize % PLACES
}
