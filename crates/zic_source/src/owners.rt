//! Owners of names.

ghost use Rattle.std.specs.Prelude.{◌≡◌, None, true, is_some, IfOk, OnOk, OnErr};
ghost use Rattle.zic_base.specs.declared.fault.Kind.TheVariants.{DuplicateName};
ghost use Rattle.zic_base.specs.Fault.{fault_of, fault_at};
ghost use Rattle.zic_base.specs.Memory.{IfRefusal, OnOutOfMemory};
ghost use Rattle.zic_source.specs.code.Lines.{no_lines};
ghost use Rattle.zic_source.specs.code.Owners.{who, Gives, IndexesNames};

use std::alloc::{AllocError, Global};
use std::collections::HashMap;
use zic_lines::{Kind, Name, Place, Stop};

/// The owner of a name: the zone or link of this number, from 0.
#[derive(Clone, Copy)]
pub(crate) enum Owner {
    Zone(usize),
    Link(usize),
}

/// The zones and links by their names.
#[derive(Drop)]
pub(crate) struct Owners {
    names: HashMap<Name, Owner>,
}

impl Owners {
    /// Returns no owners. Takes no memory.
    pub(crate) fn new(alloc: Global) -> Self
        ensures { IndexesNames result no_lines }
    {
        Owners {
            names: HashMap::new(alloc),
        }
    }

    /// Returns the owner of this name, if it has one.
    pub(crate) fn get(&self, name: &Name) -> Option<Owner>
        ensures { result ≡ who self.now name.now }
    {
        self.names.get(name).copied()
    }

    /// Gives a name without an owner to a zone or a link; returns the owner that it had. Takes memory
    /// only for a name without an owner.
    pub(crate) fn give(&mut self, name: &Name, owner: Owner) -> Result<Option<Owner>, AllocError>
        ensures had { IfOk result (λ had. had ≡ who self.old name.now) }
        ensures given { IfOk result (λ had. had ≡ None → Gives self.old name.now owner self.new) }
        ensures memory { OnErr result (who self.old name.now ≡ None) }
    {
        match name.clone() {
            Ok(key) => Ok(self.names.insert(key, owner)?),
            Err(error) => match self.get(name) {
                None => Err(error),
                had => Ok(had),
            },
        }
    }

    /// Gives a name to a zone or a link, or returns the fault of a line at this place whose name has
    /// an owner.
    pub(crate) fn give_new(&mut self, place: Place, name: &Name, owner: Owner) -> Result<(), Stop>
        ensures new { OnOk result (who self.old name.now ≡ None) }
        ensures given { OnOk result (Gives self.old name.now owner self.new) }
        ensures fault { IfRefusal fault_of result (λ fault. (fault ≡ fault_at place DuplicateName)
            × (is_some (who self.old name.now) ≡ true)) }
        ensures memory { OnOutOfMemory fault_of result (who self.old name.now ≡ None) }
    {
        match self.give(name, owner)? {
            None => Ok(()),
            Some(_) => Err(Stop::at(place, Kind::DuplicateName)),
        }
    }
}
