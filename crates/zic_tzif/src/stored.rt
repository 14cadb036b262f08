//! The parts of a file that a zone keeps.

ghost use Rattle.std.specs.Prelude.{◌≡◌, map, OnOk};
ghost use Rattle.zic_tzif.specs.Block.{type_in};
ghost use Rattle.zic_tzif.specs.code.Parts.{records_of};

use crate::content::LocalType;
use crate::reader::Parts;
use crate::times::Times;
use crate::type_record::local_types;
use std::alloc::{AllocError, Global};

/// The parts of a file, as a zone keeps them.
#[derive(Drop)]
pub struct Stored {
    /// The version, 2 or 3.
    pub version: u8,
    /// The times of the transitions.
    pub times: Times,
    /// The numbers of the types that begin at the transitions.
    pub numbers: Vec<u8>,
    pub types: Vec<LocalType>,
    /// The bytes of designations.
    pub names: Vec<u8>,
    /// The footer's text.
    pub text: Vec<u8>,
}

impl Stored {
    /// Returns the parts of a file of this version and these times that has nothing else. Takes no
    /// memory.
    pub(crate) fn new(alloc: Global, version: u8, times: Times) -> Stored
        ensures version { result.version ≡ version }
        ensures times { result.times ≡ times }
    {
        Stored {
            version,
            times,
            numbers: Vec::new(alloc),
            types: Vec::new(alloc),
            names: Vec::new(alloc),
            text: Vec::new(alloc),
        }
    }

    /// Copies all but the version and the times out of the parts of a file.
    pub(crate) fn copy(&mut self, alloc: Global, parts: &Parts<'_>) -> Result<(), AllocError>
        ensures version { OnOk result (self.new.version ≡ self.old.version) }
        ensures times { OnOk result (self.new.times ≡ self.old.times) }
        ensures numbers { OnOk result (self.new.numbers.items ≡ parts.now.block.numbers.now) }
        ensures types { OnOk result
            (self.new.types.items ≡ map type_in (records_of parts.now.block)) }
        ensures names { OnOk result (self.new.names.items ≡ parts.now.block.names.now) }
        ensures text { OnOk result (self.new.text.items ≡ parts.now.text.now) }
    {
        let block = &parts.block;
        self.numbers = Vec::from_slice(alloc, block.numbers)?;
        self.types = local_types(alloc, block.types, block.records)?;
        self.names = Vec::from_slice(alloc, block.names)?;
        self.text = Vec::from_slice(alloc, parts.text)?;
        Ok(())
    }
}
