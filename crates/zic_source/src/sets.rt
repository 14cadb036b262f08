//! The rules of each set.

ghost use Rattle.std.specs.Prelude.{◌≡◌, ◌<◌, ◌≤◌, ℕ, List, [], ◌∷◌, ◌++◌, length, IfOk, OnOk, if◌then◌else◌, bytes_eq};
ghost use Rattle.zic_base.specs.Fault.{fault_at, fault_of};
ghost use Rattle.zic_base.specs.Memory.{IfRefusal, OnOutOfMemory};
ghost use Rattle.zic_base.specs.declared.fault.Kind.TheVariants.{TooMany};
ghost use Rattle.zic_source.specs.code.Sets.{numbers_of};

use crate::source::MAX_RULES_OF_SET;
use smallvec::SmallVec;
use std::alloc::{AllocError, Global};
use std::collections::HashMap;
use zic_lines::{Kind, Place, SetName, Stop};

/// The numbers of each set's rules, from 0 in the order of the texts and their lines.
#[derive(Debug, Drop)]
pub(crate) struct Sets {
    numbers: HashMap<SetName, SmallVec<usize, 2>>,
}

impl Sets {
    /// Returns sets without a rule. Takes no memory.
    pub(crate) fn new(alloc: Global) -> Self
        ensures { (name : List ℕ) → numbers_of result name ≡ [] }
    {
        Sets {
            numbers: HashMap::new(alloc),
        }
    }

    /// Returns the numbers of a set's rules, none where no rule has the name.
    pub(crate) fn numbers_of(&self, name: &SetName) -> &[usize]
        ensures { result.now ≡ numbers_of self.now name.now }
    {
        match self.numbers.get(name) {
            Some(numbers) => numbers.as_slice(),
            None => &[],
        }
    }

    /// Adds the rule of this number, whose line stands at `place`, to the set, where that may have
    /// one more.
    pub(crate) fn add(
        &mut self,
        alloc: Global,
        place: Place,
        name: &SetName,
        rule: usize,
    ) -> Result<(), Stop>
        ensures added { OnOk result ((other : List ℕ) → numbers_of self.new other
            ≡ (if bytes_eq name.now other then numbers_of self.old other ++ rule ∷ []
            else numbers_of self.old other)) }
        ensures room { OnOk result (length (numbers_of self.old name.now) < MAX_RULES_OF_SET) }
        ensures fault { IfRefusal fault_of result (λ fault. (fault ≡ fault_at place TooMany)
            × (MAX_RULES_OF_SET ≤ length (numbers_of self.old name.now))) }
        ensures memory { OnOutOfMemory fault_of result
            (length (numbers_of self.old name.now) < MAX_RULES_OF_SET) }
    {
        let Some(numbers) = self.numbers.get_mut(name) else {
            self.begin(alloc, name, rule)?;
            return Ok(());
        };
        if numbers.len() >= MAX_RULES_OF_SET {
            return Err(Stop::at(place, Kind::TooMany));
        }
        numbers.push(rule)?;
        Ok(())
    }

    /// Begins the set with this rule, whatever rules it had.
    fn begin(&mut self, alloc: Global, name: &SetName, rule: usize) -> Result<(), AllocError>
        ensures { OnOk result ((other : List ℕ) → numbers_of self.new other
            ≡ (if bytes_eq name.now other then rule ∷ [] else numbers_of self.old other)) }
    {
        let mut first = SmallVec::new(alloc);
        first.push(rule)?;
        self.numbers.insert(name.clone()?, first)?;
        Ok(())
    }
}
