//! The bytes of a file, and the zone that a reader makes of them.

ghost use Rattle.std.specs.Prelude.{◌≡◌, IfOk, IfErr};
ghost use Rattle.zic_tzif.specs.Reading.{IsFile};
ghost use Rattle.zic_files.specs.File.{FileImage};
ghost use Rattle.zic_files.specs.Fit.{IsFit, IsUnfit};
ghost use Rattle.zic_files.specs.Sound.{IsAlwaysKnown};

use crate::limit::check_fit;
use std::alloc::Global;
use std::marker::Model;
use zic_tzif::laws::{footers_leave_nothing_open, states_have_numbers};
use zic_tzif::{ReadStop, Reason, Zone, read};

/// The bytes of a file, and the zone that a reader of TZif makes of them.
#[derive(Debug, Drop)]
pub struct Image {
    octets: Vec<u8>,
    zone: Zone,
}

impl Model for Image {
    ghost use Rattle.zic_files.specs.File.{FileImage};
    ghost use Rattle.zic_tzif.specs.Reading.{IsFile};

    ghost Value = { FileImage };

    ghost view = { λ i. record { octets = i.octets.items; content = i.zone } };

    ghost invariant = { λ i. IsFile i.octets.items i.zone };
}

/// Why no image is made of bytes that rows are to be made of.
#[derive(Clone, Copy, Debug, PartialEq, Eq)]
pub enum Unfit {
    /// `zic_tzif::read` refuses them: the first check that fails.
    Bad(Reason),
    /// The TZ string is empty: local time is left open from the last transition on, if there is one.
    NoFooter,
    /// Some local time type, or a state of the footer, is farther than 24:00:00 from UT, or its
    /// abbreviation is other than 3 to 16 ASCII letters, digits, `+` and `-`.
    OutsideLimits,
    /// A growth of memory was refused.
    Memory,
}

impl From<ReadStop> for Unfit {
    ghost use Rattle.zic_files.specs.Fit.{IsUnfitFor};

    ghost from_gives = { IsUnfitFor };

    fn from(stop: ReadStop) -> Unfit {
        match stop {
            ReadStop::Bad(reason) => Unfit::Bad(reason),
            ReadStop::Memory => Unfit::Memory,
        }
    }
}

impl Image {
    /// Returns the image of these bytes and of the zone that a reader makes of them.
    pub fn new(octets: Vec<u8>, zone: Zone) -> Image
        requires { IsFile octets.items zone }
        ensures { result ≡ record { octets = octets.items; content = zone } }
    {
        Image { octets, zone }
    }

    /// Reads the bytes of a file that is to have rows: a TZif file of version 2 or 3 of at most
    /// 1,048,576 bytes, with a TZ string, whose states are within 24:00:00 of UT under abbreviations
    /// of 3 to 16 ASCII letters, digits, `+` and `-`.
    ///
    /// # Errors
    ///
    /// `Bad` where `zic_tzif::read` refuses the bytes, then `NoFooter`, then `OutsideLimits`, which
    /// is also for a state that the file shows at no instant; `Memory` only where `zic_tzif::read`
    /// may return it.
    pub fn read(alloc: Global, octets: Vec<u8>) -> Result<Image, Unfit>
        ensures octets { IfOk result (λ image. image.octets ≡ octets.items) }
        ensures read { IfOk result (λ image. IsFile image.octets image.content) }
        ensures fit { IfOk result (λ image. IsFit image.content) }
        ensures known { IfOk result (λ image. IsAlwaysKnown image.content) }
        ensures err { IfErr result (IsUnfit octets.items) }
    {
        let zone = read(alloc, &octets)?;
        check_fit(&zone)?;
        // So it gives local time at each instant.
        states_have_numbers();
        footers_leave_nothing_open();
        Ok(Image { octets, zone })
    }

    /// Returns the bytes of the file.
    pub fn octets(&self) -> &[u8]
        ensures { result.now ≡ self.now.octets }
    {
        &self.octets
    }

    /// Returns the zone that a reader makes of the bytes.
    pub fn zone(&self) -> &Zone
        ensures zone { result.now ≡ self.now.content }
        ensures read { IsFile self.now.octets self.now.content }
    {
        &self.zone
    }
}
