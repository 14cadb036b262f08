//! `build`: compiles texts, and places their files in a folder.

ghost use Rattle.std.specs.Prelude.{◌≡◌, ◌≢◌, ◌<◌, ◌⊎◌, [], ◌∷◌, ◌++◌, map, true, length, slice_get, IfOk, IfErr, IfSome, OnOk, OnErr, string_bytes};
ghost use Rattle.zic_lines.specs.Name.{is_name};
ghost use Rattle.zic_source.specs.Texts.{texts_of};
ghost use Rattle.zic_bulk.specs.Failing.{IsFailureOfFiles, IsFailureOfFolder, IsFailureOfTexts, IsUnplaced};
ghost use Rattle.zic_base.specs.Growth.{Gains};
ghost use Rattle.zic_bulk.specs.Tree.{in_folder, AreBuilt};

use crate::compiler::files_of;
use std::alloc::{AllocError, Global};
use std::sync::Wait;
use std::thread::Threads;
use zic_files::Files;
use zic_io::{Failure, Tree, Unplaced};
use zic_layouts::Plan;

/// Compiles the texts, by the plan's workers, and places each file in the folder of a tree under
/// its name, in the order of the texts and their lines. Nothing is placed where there is no file.
///
/// # Errors
///
/// Why the texts have no files, or the first file that can't be placed, named by the folder and
/// its name; the files before it stay.
pub fn build<T: Threads + Wait + Sync, D: Tree>(
    rt: &T,
    alloc: Global,
    plan: &Plan,
    texts: &[Vec<u8>],
    tree: &mut D,
    folder: &str,
) -> Result<(), Failure>
    ensures ok { OnOk result
        (AreBuilt (texts_of texts.now) folder.now (D.placed tree.old) (D.placed tree.new)) }
    ensures err { IfErr result (λ failure.
        (IsFailureOfTexts (texts_of texts.now) failure × (tree.new ≡ tree.old))
        ⊎ IsFailureOfFiles (D.refused tree.new) (texts_of texts.now) folder.now
        (D.placed tree.old) (D.placed tree.new) failure) }
    ensures links { Gains (D.linked tree.old) (D.linked tree.new) [] }
{
    let files = files_of(rt, alloc, plan, texts)?;
    place_files(alloc, &files, tree, folder)
}

/// Places each file in the folder, in order.
fn place_files<D: Tree>(
    alloc: Global,
    files: &Files,
    tree: &mut D,
    folder: &str,
) -> Result<(), Failure>
    ensures ok { OnOk result
        (Gains (D.placed tree.old) (D.placed tree.new) (map (in_folder folder.now) files.now)) }
    ensures named { OnOk result (files.now ≢ [] → folder.now ≢ []) }
    ensures err { IfErr result (IsFailureOfFolder (D.refused tree.new) folder.now files.now
        (D.placed tree.old) (D.placed tree.new)) }
    ensures links { Gains (D.linked tree.old) (D.linked tree.new) [] }
{
    for file in 0..files.len() {
        place_file(alloc, files, file, tree, folder)?;
    }
    Ok(())
}

/// Places the file of this number in the folder.
pub(crate) fn place_file<D: Tree>(
    alloc: Global,
    files: &Files,
    file: usize,
    tree: &mut D,
    folder: &str,
) -> Result<(), Failure>
    requires { file < length files.now }
    ensures ok { OnOk result (IfSome (slice_get files.now file)
        (λ file. Gains (D.placed tree.old) (D.placed tree.new) (in_folder folder.now file ∷ []))) }
    ensures named { OnOk result (folder.now ≢ []) }
    ensures keeps { OnErr result (Gains (D.placed tree.old) (D.placed tree.new) []) }
    ensures err { IfErr result (λ failure. IfSome (slice_get files.now file)
        (λ file. IsUnplaced (D.refused tree.new) folder.now file failure)) }
    ensures links { Gains (D.linked tree.old) (D.linked tree.new) [] }
{
    let path = path_of(alloc, folder, files.name(file))?;
    // A folder without a name is not the root.
    if folder.is_empty() {
        return Err(Failure::CannotWrite(path));
    }
    match tree.place(path.as_str(), files.bytes(file)) {
        Ok(()) => Ok(()),
        Err(Unplaced::Refused) => Err(Failure::CannotWrite(path)),
        Err(Unplaced::Memory) => Err(Failure::Memory),
    }
}

/// Returns the path of the file of this name.
pub(crate) fn path_of(alloc: Global, folder: &str, name: &[u8]) -> Result<String, AllocError>
    requires { is_name name.now ≡ true }
    ensures { IfOk result (λ path. string_bytes path ≡ folder.now ++ 47 ∷ name.now) }
{
    with_name(format!(in alloc; "{folder}/")?, name)
}

/// Returns the path with a name at its end.
pub(crate) fn with_name(mut path: String, name: &[u8]) -> Result<String, AllocError>
    requires { is_name name.now ≡ true }
    ensures { IfOk result (λ whole. string_bytes whole ≡ string_bytes path ++ name.now) }
{
    for byte in name {
        path.push(char::from(*byte))?;
    }
    Ok(path)
}
