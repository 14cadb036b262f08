//! Whether a tree has files.

ghost use Rattle.std.specs.Prelude.{◌≡◌, ◌<◌, ◌∷◌, ◌++◌, [], List, ℕ, Option, length, map, slice_get, string_bytes, IfOk, IfSome, OnOk};
ghost use Rattle.zic_compare.specs.Verifying.{finding, finding_line, AreExtras, AreFindings, HasFiles, IsExtraLine};
ghost use Rattle.zic_files.specs.Tree.{Gains};

use std::alloc::{AllocError, Global};
use zic_files::{Files, ZoneTree};
use zic_lines::Name;

/// Asks a tree for the name of each file, in their order, and returns a line for each file that it
/// doesn't have as it is: `missing NAME` where it has no file of that name, and `differs NAME` where
/// that has other bytes. Where there is no line, the tree has all files.
pub fn verify<Z: ZoneTree>(
    alloc: Global,
    files: &Files,
    tree: &mut Z,
) -> Result<Vec<u8>, AllocError>
    ensures lines { IfOk result (λ lines.
        AreFindings files.now (Z.replied tree.old) (Z.replied tree.new) lines.items) }
    ensures none { IfOk result (λ lines. lines.items ≡ []
        → HasFiles files.now (Z.replied tree.old) (Z.replied tree.new)) }
{
    let mut lines = Vec::new(alloc);
    for file in 0..files.len() {
        push_finding(alloc, &mut lines, files, file, tree)?;
    }
    Ok(lines)
}

/// Adds the line of the file of this number, if a tree doesn't have it as it is.
fn push_finding<Z: ZoneTree>(
    alloc: Global,
    lines: &mut Vec<u8>,
    files: &Files,
    file: usize,
    tree: &mut Z,
) -> Result<(), AllocError>
    requires { file < length files.now }
    ensures { OnOk result (IfSome (slice_get files.now file) (λ file.
        (octets : Option (List ℕ))
        × Gains (Z.replied tree.old) (Z.replied tree.new)
        (record { name = file.name; octets = octets } ∷ [])
        × (lines.new.items ≡ lines.old.items ++ finding file octets))) }
{
    let name = name_of(alloc, files, file)?;
    match tree.read(alloc, &name)? {
        None => push_line(lines, b"missing ", files.name(file)),
        Some(octets) if octets.as_slice() == files.bytes(file) => Ok(()),
        Some(_) => push_line(lines, b"differs ", files.name(file)),
    }
}

/// Returns the name of the file of this number.
fn name_of(alloc: Global, files: &Files, file: usize) -> Result<Name, AllocError>
    requires { file < length files.now }
    ensures { IfOk result (λ name. IfSome (slice_get files.now file) (λ file. name ≡ file.name)) }
{
    match Name::parse(alloc, files.name(file)) {
        Some(name) => name,
        None => unreachable!(),
    }
}

/// Returns a line `extra NAME` for each of the names of a tree that no file has, in their order.
pub fn extra(alloc: Global, files: &Files, names: &[String]) -> Result<Vec<u8>, AllocError>
    ensures { IfOk result
        (λ lines. AreExtras files.now (map string_bytes names.now) lines.items) }
{
    let mut lines = Vec::new(alloc);
    for i in 0..names.len() {
        push_extra(&mut lines, files, names[i].as_bytes())?;
    }
    Ok(lines)
}

/// Adds the line of a name, if no file has it.
fn push_extra(lines: &mut Vec<u8>, files: &Files, name: &[u8]) -> Result<(), AllocError>
    ensures { OnOk result ((more : List ℕ) × IsExtraLine files.now name.now more
        × (lines.new.items ≡ lines.old.items ++ more)) }
{
    if files.find(name).is_some() {
        return Ok(());
    }
    push_line(lines, b"extra ", name)
}

/// Adds a word, a name and a newline.
fn push_line(lines: &mut Vec<u8>, word: &[u8], name: &[u8]) -> Result<(), AllocError>
    ensures { OnOk result (lines.new.items ≡ lines.old.items ++ finding_line word.now name.now) }
{
    lines.extend_from_slice(word)?;
    lines.extend_from_slice(name)?;
    lines.push(b'\n')?;
    Ok(())
}
