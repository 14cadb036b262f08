//! Tables of slots, one after another.

ghost use Rattle.std.specs.Prelude.{◌≡◌, ◌<◌, ◌≤◌, ◌≤ℤ◌, [], IfOk, IfSome, slice_get, Some, ◌+◌};
ghost use Rattle.zic_zones.specs.Places.{base_of};
ghost use Rattle.zic_zones.specs.declared.slot.TheConstants.{ERAS, LAST_BASE, SLOTS};
ghost use Rattle.zic_zones.specs.code.Tables.{HasTable, HaveTables};
ghost use Rattle.zic_zones.specs.code.Numbered.{Keeps};

use crate::numbered::Numbered;
use crate::runs::Runs;
use crate::slot::{ERAS, FIRST_BASE, Slot};
use crate::slot_set::SLOT_BITS;
use crate::table::slots_of;
use std::alloc::{AllocError, Global};
use std::marker::Model;
use zic_tzif::Zone;

/// How many rows are expected, and of which years. Making the tables of one era takes as long as some ten
/// thousand rows.
#[derive(Clone, Copy, Debug, Drop)]
pub(crate) enum Expected {
    FewRows,
    /// Of the first era.
    ManyRows,
    /// Of all eras.
    LateRows,
}

impl Expected {
    /// Returns the number of eras, from the first on, that tables pay for.
    fn eras(self) -> usize
        ensures { result ≤ ERAS }
    {
        match self {
            Expected::FewRows => 0,
            Expected::ManyRows => 1,
            Expected::LateRows => ERAS,
        }
    }
}

/// The slots of tables, one table after another: each slot is stored once, with a number, and a table
/// is the numbers of its slots. Clauses see the slots.
#[derive(Drop)]
pub(crate) struct Tables {
    slots: Numbered<Slot>,
    /// The numbers of the slots.
    numbers: Runs,
    expected: Expected,
}

impl Model for Tables {
    ghost use Rattle.std.specs.Prelude.{List, map};
    ghost use Rattle.zic_zones.specs.declared.slot.Slot.{Slot};
    ghost use Rattle.zic_zones.specs.code.Tables.{HaveSlots, slot_of};

    ghost Value = { List Slot };

    ghost view = { λ t. map (slot_of t.slots) t.numbers };

    ghost invariant = { λ t. HaveSlots t.slots t.numbers };
}

impl Tables {
    /// Returns no tables.
    pub(crate) fn new(alloc: Global, expected: Expected) -> Tables
        ensures { result ≡ [] }
    {
        Tables {
            slots: Numbered::new(alloc, SLOT_BITS),
            numbers: Runs::new(alloc),
            expected,
        }
    }

    /// Adds the tables of a zone, of the eras that are expected, and returns where they begin. An era
    /// has none where there are too many tables.
    pub(crate) fn add_zone(
        &mut self,
        alloc: Global,
        zone: &Zone,
        numbers: &[u16],
    ) -> Result<[Option<u32>; ERAS], AllocError>
        ensures stays { Keeps self.old self.new }
        ensures tables { IfOk result (HaveTables zone.now numbers.now self.new) }
    {
        let mut starts = [None; ERAS];
        let eras = self.expected.eras();
        for era in 0..eras {
            starts[era] = self.add(alloc, zone, numbers, base_of(era))?;
        }
        Ok(starts)
    }

    /// Adds the table of a zone from an instant on, and returns where it begins, or `None` where there
    /// are too many tables.
    fn add(
        &mut self,
        alloc: Global,
        zone: &Zone,
        numbers: &[u16],
        base: i64,
    ) -> Result<Option<u32>, AllocError>
        requires { base ≤ℤ LAST_BASE }
        ensures stays { Keeps self.old self.new }
        ensures table { IfOk result (λ start. IfSome start
            (HasTable zone.now numbers.now self.new base)) }
    {
        let slots = slots_of(alloc, zone, numbers, base)?;
        match self.slots.numbers_of(alloc, &slots)? {
            Some(run) => self.numbers.add(&run),
            None => Ok(None),
        }
    }

    /// Returns a slot of the table that begins there, by its number in the table.
    #[inline(always)]
    pub(crate) fn slot(&self, start: u32, number: usize) -> Option<Slot>
        requires { number < SLOTS }
        ensures { IfSome result (λ slot. slice_get self.now (start + number) ≡ Some slot) }
    {
        let found = self.numbers.number(start as usize + number)?;
        Some(*self.slots.value(found))
    }
}

/// Returns the first instant of an era.
fn base_of(era: usize) -> i64
    requires { era < ERAS }
    ensures value { result ≡ base_of era }
    ensures far { result ≤ℤ LAST_BASE }
{
    FIRST_BASE + era as i64 * (1 << 32)
}
