//! What a tree has in addition to the files of zones: the release that it is of, and tables.

ghost use Rattle.std.specs.Prelude.{[], ◌∷◌, ◌++◌, OnOk, OnErr, IfErr};
ghost use Rattle.zic_base.specs.Growth.{Gains};
ghost use Rattle.zic_bulk.specs.Failing.{IsUnplacedAs};

use std::alloc::Global;
use zic_io::{Failure, Tree, Unplaced};

/// Places a file that is none of a zone in the folder of a tree, under a name, whole or not at all.
///
/// # Errors
///
/// `CannotWrite` with the path where the folder has no name or the tree refuses it, or `Memory`.
pub fn place_extra<D: Tree>(
    alloc: Global,
    tree: &mut D,
    folder: &str,
    name: &str,
    bytes: &[u8],
) -> Result<(), Failure>
    ensures ok { OnOk result (Gains (D.placed tree.old) (D.placed tree.new)
        (record { path = folder.now ++ 47 ∷ name.now; bytes = bytes.now } ∷ [])) }
    ensures keeps { OnErr result (Gains (D.placed tree.old) (D.placed tree.new) []) }
    ensures err { IfErr result (IsUnplacedAs (D.refused tree.new) folder.now name.now) }
    ensures links { Gains (D.linked tree.old) (D.linked tree.new) [] }
{
    let path = format!(in alloc; "{folder}/{name}")?;
    // A folder without a name is not the root.
    if folder.is_empty() {
        return Err(Failure::CannotWrite(path));
    }
    match tree.place(path.as_str(), bytes) {
        Ok(()) => Ok(()),
        Err(Unplaced::Refused) => Err(Failure::CannotWrite(path)),
        Err(Unplaced::Memory) => Err(Failure::Memory),
    }
}
