//! `build`: places the files of sources in a folder.

use crate::ending::Ending;
use crate::extras::Extras;
use std::alloc::Global;
use std::fs::Files;
use std::io::Input;
use std::random::RandomSource;
use std::sync::Wait;
use std::thread::Threads;
use zic_command_line::{Building, Links, NoRequest, usage_of};
use zic_host::{Refusal, WriteReason, random_number, read_texts};
use zic_io::{Disk, Durability, Failure, LinkKind, LinkedFolder};

/// Compiles sources, and places their files in a folder, with tables and the name of a release if these
/// are requested. Takes note of why the system refuses one.
///
/// # Errors
///
/// The text of usage where the folder's path is empty or a zone has the name of one of the other files, why
/// the texts or tables aren't read or the texts have no files, `CannotWrite` with the path of a file or
/// folder, or `Memory`.
pub fn build<R: Files + Input + RandomSource + AllocGlobal + Threads + Wait + Sync>(
    rt: &R,
    order: &Building,
    texts: &mut Vec<Vec<u8>>,
    reason: &WriteReason,
) -> Result<Ending, Refusal> {
    expect_path(rt.alloc(), order.folder.as_str())?;
    read_texts(rt, &order.sources, texts)?;
    let Some(extras) = Extras::of(rt, &order.release_files, texts)? else {
        return Ok(Ending::NoRelease);
    };
    let placed = place_with(rt, order, texts, &extras, reason);
    drop(extras);
    placed
}

/// Refuses an empty path of a folder, as an unset variable gives it: the files would be placed in the root
/// of the file system.
fn expect_path(alloc: Global, folder: &str) -> Result<(), NoRequest> {
    if folder.is_empty() {
        return Err(usage_of(alloc, "build", "DIR is empty"));
    }
    Ok(())
}

/// Places the files of the texts and these others in the folder, unless two of them have one name.
fn place_with<R: Files + RandomSource + AllocGlobal + Threads + Wait + Sync>(
    rt: &R,
    order: &Building,
    texts: &[Vec<u8>],
    extras: &Extras,
    reason: &WriteReason,
) -> Result<Ending, Refusal> {
    extras.expect_room(rt.alloc(), "build", texts)?;
    Ok(place(rt, order, texts, extras, reason)?)
}

/// Places the files of the texts and these others in the folder.
fn place<R: Files + RandomSource + AllocGlobal + Threads + Wait + Sync>(
    rt: &R,
    order: &Building,
    texts: &[Vec<u8>],
    extras: &Extras,
    reason: &WriteReason,
) -> Result<Ending, Failure> {
    let durability = if order.sync {
        Durability::Synced
    } else {
        Durability::Later
    };
    let mut disk = Disk::new(rt.alloc(), rt, random_number(rt), durability);
    let placed = place_on(rt, order, texts, extras, &mut disk);
    reason.set(disk.reason());
    drop(disk);
    placed
}

/// Places the same on a disk.
fn place_on<R: Files + AllocGlobal + Threads + Wait + Sync>(
    rt: &R,
    order: &Building,
    texts: &[Vec<u8>],
    extras: &Extras,
    disk: &mut Disk<'_, R>,
) -> Result<Ending, Failure> {
    place_files(rt, order, texts, disk)?;
    extras.place(rt.alloc(), disk, order.folder.as_str())?;
    disk.sync()?;
    Ok(Ending::Done)
}

/// Compiles the texts, and places their files on a disk.
fn place_files<R: Files + AllocGlobal + Threads + Wait + Sync>(
    rt: &R,
    order: &Building,
    texts: &[Vec<u8>],
    disk: &mut Disk<'_, R>,
) -> Result<(), Failure> {
    let alloc = rt.alloc();
    let (plan, path) = (&order.plan, order.folder.as_str());
    let kind = match order.links {
        Links::Copy => return zic_bulk::build_command::build(rt, alloc, plan, texts, disk, path),
        Links::Hard => LinkKind::Hard,
        Links::Symbolic => LinkKind::Symbolic,
    };
    let folder = LinkedFolder { path, kind };
    zic_bulk::build_linked(rt, alloc, plan, texts, disk, &folder)
}
