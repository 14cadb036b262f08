//! The rows with a fault that a log has noted, as proofs know them.

ghost use Rattle.std.specs.Prelude.{◌≡◌, ℕ, [], ◌∷◌, ◌++◌, List, Option};
ghost use Rattle.std.specs.Borrow.{ftrue};
ghost use Rattle.zic_layouts.specs.Noted.{RowNote};

use crate::row_log::FaultyRow;
use std::marker::{Model, PhantomData};

/// Rows with a fault in the order in which they were noted, and what a file held before them, where that is
/// known. Only proofs read this: it takes no memory, and its methods do nothing when the program
/// runs.
#[derive(Drop)]
pub struct Noted {
    none: PhantomData<()>,
    pub ghost faults: { List RowNote },
    pub ghost start: { Option (List ℕ) },
}

impl Model for Noted {
    ghost also_owns = { λ _. ftrue };
}

impl Noted {
    /// Returns no rows, for a file that holds what the caller says.
    pub fn new<T>(_file: &T) -> Noted
        ghost held: { Option (List ℕ) }
        ensures { (result.faults ≡ []) × (result.start ≡ held) }
    {
        Noted { none: PhantomData }
    }

    /// Returns these rows and one more.
    pub fn and(&self, row: &FaultyRow) -> Noted
        ensures { (result.faults ≡ self.now.faults ++ row.now ∷ [])
            × (result.start ≡ self.now.start) }
    {
        Noted { none: PhantomData }
    }
}
