//! The rows with a fault of a run in memory.

ghost use Rattle.std.specs.Prelude.{◌≡◌, ◌++◌, ◌∷◌, [], IfOk, OnOk};

use std::alloc::{AllocError, Global};
use std::marker::Model;
use zic_layouts::{FaultDetail, FaultyRow, Noted, RowLog, ZoneTally};

/// A log that keeps rows with a fault. Clauses see what was noted, also where memory to keep it was refused.
#[derive(Drop)]
pub(crate) struct Notes {
    alloc: Global,
    faults: Vec<FaultyRow>,
    /// Whether memory to keep a row was refused.
    is_short: bool,
    noted: Noted,
}

impl Model for Notes {
    ghost use Rattle.std.specs.Prelude.{◌≡◌, false, List};
    ghost use Rattle.zic_layouts.specs.Noted.{RowNote};

    ghost Value = { List RowNote };

    ghost view = { λ notes. notes.noted.faults };

    ghost invariant = { λ notes. notes.is_short ≡ false → notes.faults.items ≡ notes.noted.faults };
}

impl Notes {
    /// Returns a log without rows.
    pub(crate) fn new(alloc: Global) -> Notes
        ensures { result ≡ [] }
    {
        Notes {
            alloc,
            faults: Vec::new(alloc),
            is_short: false,
            noted: Noted::new(&alloc),
        }
    }

    /// Returns the rows that were noted.
    ///
    /// # Errors
    ///
    /// Fails where memory to keep one was refused.
    pub(crate) fn into_faults(self) -> Result<Vec<FaultyRow>, AllocError>
        ensures { IfOk result (λ faults. faults.items ≡ self) }
    {
        if self.is_short {
            return Err(AllocError);
        }
        Ok(self.faults)
    }
}

impl RowLog for Notes {
    ghost use Rattle.std.specs.Prelude.{Some};

    ghost noted = { λ notes. Some notes };

    fn begin(&mut self, _header: &[u8]) {}

    fn note(&mut self, row: &FaultyRow) {
        self.noted = self.noted.and(row);
        self.is_short = self.is_short || add(self.alloc, &mut self.faults, row).is_err();
    }

    fn tally(&mut self, _tally: &ZoneTally) {}

    fn flush(&mut self) -> bool {
        true
    }
}

/// Adds a copy of a row with a fault.
fn add(alloc: Global, faults: &mut Vec<FaultyRow>, row: &FaultyRow) -> Result<(), AllocError>
    ensures { OnOk result (faults.new.items ≡ faults.old.items ++ row.now ∷ []) }
{
    let own = Vec::from_slice(alloc, &row.own)?;
    let detail = match &row.detail {
        Some(detail) => Some(FaultDetail {
            line: detail.line,
            value: Vec::from_slice(alloc, &detail.value)?,
        }),
        None => None,
    };
    faults.push(FaultyRow {
        fault: row.fault,
        own,
        line_end: row.line_end,
        detail,
    })?;
    Ok(())
}
