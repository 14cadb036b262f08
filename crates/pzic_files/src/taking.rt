//! The call that makes files of names and bytes.

ghost use Rattle.std.specs.Prelude.{◌≡◌, ◌*◌, [], IfOk, length};
ghost use Rattle.std.specs.List.{sum};
ghost use Rattle.std.specs.Bool.{Decides};
ghost use Rattle.pzic_files.specs.FilesOf.{AreFilesMade, AreTaken, AreWhole, IsLeftOutFor, IsNew, IsTaken, given, given_in};
ghost use Rattle.pzic_zones.specs.Handle.{IsHandle, held_in};

use crate::compiling::is_whole;
use pzic_zones::status::{BAD_FILE, BAD_NAME, LENGTHS, NO_MEMORY, OK, TAKEN, UNFIT};
use pzic_zones::{Handle, hold_files};
use std::alloc::{AllocError, Global};
use zic_files::{Files, Image, Unfit};
use zic_lines::Name;

/// Files that were taken, and of each that was given a status.
#[derive(Drop)]
struct Taken {
    files: Files,
    statuses: Vec<u8>,
}

/// Returns whether there are the lengths of a name and of bytes for each of `files` files, and their sum
/// is `count`.
fn are_whole(lengths: &[usize], files: usize, count: usize) -> bool
    ensures { Decides result (AreWhole lengths.now files count) }
{
    lengths.len() % 2 == 0 && lengths.len() / 2 == files && is_whole(lengths, count)
}

/// Returns the status of bytes that are no file which rows can be made of.
fn refuse(unfit: Unfit) -> Result<u8, AllocError>
    ensures { IfOk result (IsLeftOutFor unfit) }
{
    match unfit {
        Unfit::Bad(_) => Ok(BAD_FILE as u8),
        Unfit::NoFooter | Unfit::OutsideLimits => Ok(UNFIT as u8),
        Unfit::Memory => Err(AllocError),
    }
}

/// Adds the file of a new name, if rows can be made of its bytes. Returns its status.
fn take_named(alloc: Global, files: &mut Files, name: Name, octets: &[u8]) -> Result<u8, AllocError>
    requires { IsNew files.old name }
    ensures { IfOk result (λ status. IsTaken files.old (given name octets.now) status files.new) }
{
    match Image::read(alloc, Vec::from_slice(alloc, octets)?) {
        Ok(image) => {
            files.add(alloc, name, image)?;
            Ok(OK as u8)
        }
        Err(unfit) => {
            let status = refuse(unfit)?;
            Ok(status)
        }
    }
}

/// Adds the file of a name and bytes, if it can be one of these files. Returns its status.
fn take_file(alloc: Global, files: &mut Files, name: &[u8], octets: &[u8]) -> Result<u8, AllocError>
    ensures { IfOk result
        (λ status. IsTaken files.old (given name.now octets.now) status files.new) }
{
    let Some(parsed) = Name::parse(alloc, name) else {
        return Ok(BAD_NAME as u8);
    };
    if files.find(name).is_some() {
        return Ok(TAKEN as u8);
    }
    let parsed = parsed?;
    take_named(alloc, files, parsed, octets)
}

/// Returns the files of names and bytes of these lengths, in order, but for those that can't be one.
fn take_all(
    alloc: Global,
    texts: &[u8],
    lengths: &[usize],
    count: usize,
) -> Result<Taken, AllocError>
    requires { AreWhole lengths.now count (length texts.now) }
    ensures taken { IfOk result (λ taken.
        AreTaken [] (given_in lengths.now texts.now) taken.statuses.items taken.files) }
    ensures count { IfOk result (λ taken. length taken.statuses.items ≡ count) }
{
    let mut files = Files::new(alloc, Vec::new(alloc), Vec::new(alloc))?;
    let mut statuses = Vec::new(alloc);
    let mut rest = texts;
    for i in 0..count {
        let (name, after) = rest.split_at(lengths[2 * i]);
        let (octets, after) = after.split_at(lengths[2 * i + 1]);
        let status = take_file(alloc, &mut files, name, octets)?;
        statuses.push(status)?;
        rest = after;
    }
    Ok(Taken { files, statuses })
}

/// Makes files of names and bytes of these lengths, which lie one after another.
pub fn files_of(
    alloc: Global,
    texts: &[u8],
    lengths: &[usize],
    statuses: &mut [u8],
    files: &mut Handle,
) -> i32
    requires { IsHandle files.old }
    ensures handle { IsHandle files.new }
    ensures made { AreFilesMade texts.now lengths.now result statuses.old statuses.new
        (held_in files.new) }
{
    drop(files.take(alloc));
    if !are_whole(lengths, statuses.len(), texts.len()) {
        return LENGTHS;
    }
    let Ok(taken) = take_all(alloc, texts, lengths, statuses.len()) else {
        return NO_MEMORY;
    };
    match hold_files(alloc, taken.files) {
        Ok(held) => {
            files.put(held);
            statuses.copy_from_slice(&taken.statuses);
            OK
        }
        Err(_) => NO_MEMORY,
    }
}
