//! Entries, each of which gives a name an image, and their names, each looked up by hash.

ghost use Rattle.std.specs.Prelude.{◌≡◌, [], ◌∷◌, ◌++◌, Contains, IfOk, IfErr};
ghost use Rattle.std.specs.Bool.{Decides};

use crate::name_index::NameIndex;
use std::alloc::{AllocError, Global};
use std::marker::Model;
use zic_lines::Name;

/// Names in the order in which they were added. Clauses see them.
#[derive(Drop)]
pub(crate) struct Names {
    /// Of each name an entry, whose zone means nothing.
    entries: Vec<Entry>,
    index: NameIndex,
}

impl Model for Names {
    ghost use Rattle.std.specs.Prelude.{ℕ, List, map};
    ghost use Rattle.zic_files.specs.code.NameIndex.{AreNumbersOf};

    ghost Value = { List (List ℕ) };

    ghost view = { λ n. map (λ entry. entry.name) n.entries.items };

    ghost invariant = { λ n. AreNumbersOf n.entries.items n.index };
}

impl Names {
    /// Returns no names, which are looked up by this key.
    pub(crate) fn new(alloc: Global, key: u64) -> Names
        ensures { result ≡ [] }
    {
        Names {
            entries: Vec::new(alloc),
            index: NameIndex::new(alloc, key),
        }
    }

    /// Returns whether a name is among these.
    pub(crate) fn has(&self, name: &[u8]) -> bool
        ensures { Decides result (Contains self.now name.now) }
    {
        self.index.number(&self.entries, name).is_some()
    }

    /// Adds a copy of a name. The names stay as they are where memory is refused.
    pub(crate) fn add(&mut self, alloc: Global, name: &Name) -> Result<(), AllocError>
        ensures ok { IfOk result (λ _. self.new ≡ self.old ++ name.now ∷ []) }
        ensures err { IfErr result (λ _. self.new ≡ self.old) }
    {
        let name = name.clone()?;
        let number = self.entries.len();
        self.entries.push(Entry { name, zone: 0 })?;
        match self.index.add(alloc, &self.entries, number) {
            Ok(()) => Ok(()),
            Err(error) => {
                self.entries.pop();
                Err(error)
            }
        }
    }
}

/// A file's name, and the number of the zone whose image it has.
#[derive(Debug, Drop)]
pub struct Entry {
    /// The name.
    pub name: Name,
    /// The number of the zone, from 0.
    pub zone: usize,
}
