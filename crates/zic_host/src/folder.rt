//! Folders, and the names of their files.

use std::alloc::{AllocError, Global};
use std::fs::{self, DirEntry, Files};
use std::io::{self, ErrorKind, Read};
use zic_explain::push_bytes;
use zic_io::Failure;

/// Refuses a path that isn't that of a folder.
///
/// # Errors
///
/// `CannotRead` with the path, or `Memory`.
pub fn expect_folder<R: Files>(rt: &R, path: &String) -> Result<(), Failure> {
    match fs::metadata(rt, path.as_str()) {
        Ok(info) if info.is_dir() => Ok(()),
        Err(e) if e.kind() == ErrorKind::OutOfMemory => Err(Failure::Memory),
        _ => Err(Failure::CannotRead(path.clone()?)),
    }
}

/// Returns whether nothing has a path.
pub fn is_missing<R: Files>(rt: &R, path: &str) -> bool {
    match fs::metadata(rt, path) {
        Err(e) => e.kind() == ErrorKind::NotFound,
        Ok(_) => false,
    }
}

/// The number of bytes that are read at a time of names that aren't all UTF-8.
const BLOCK: usize = 8_192;

/// The names below a folder, each from that folder on.
#[derive(Drop)]
pub struct NamesBelow {
    /// The names of files, in the order of their bytes. A link counts as a file, also one that leads to a
    /// folder.
    pub files: Vec<String>,
    /// The names that aren't UTF-8, of files or folders, as they are shown. What stands below such a folder
    /// isn't listed.
    pub others: Vec<String>,
}

/// The names of files and folders below a folder, each from that folder on.
#[derive(Drop)]
struct Names {
    below: NamesBelow,
    /// The folders that aren't listed yet. Each name ends in a slash, but for that of the folder itself,
    /// which is empty.
    folders: Vec<String>,
}

/// Returns the names of the files of a folder and of the folders below it.
///
/// # Errors
///
/// `CannotRead` with the path of a folder that can't be read, or `Memory`.
pub fn names_below<R: Files + AllocGlobal>(rt: &R, root: &String) -> Result<NamesBelow, Failure> {
    let mut names = Names {
        below: NamesBelow {
            files: Vec::new(rt.alloc()),
            others: Vec::new(rt.alloc()),
        },
        folders: Vec::new(rt.alloc()),
    };
    list_all(rt, root, &mut names)?;
    let mut below = names.below;
    below.files.sort_unstable();
    below.others.sort_unstable();
    Ok(below)
}

/// Adds the names of the files of a folder and of the folders below it.
fn list_all<R: Files + AllocGlobal>(
    rt: &R,
    root: &String,
    names: &mut Names,
) -> Result<(), Failure> {
    names.folders.push(String::new(rt.alloc()))?;
    for _ in 0..u64::MAX {
        let Some(folder) = names.folders.pop() else {
            break;
        };
        list(rt, root, folder.as_str(), names)?;
    }
    Ok(())
}

/// Adds the names of the files and folders in a folder below the root.
fn list<R: Files + AllocGlobal>(
    rt: &R,
    root: &String,
    folder: &str,
    names: &mut Names,
) -> Result<(), Failure> {
    let path = format!(in rt.alloc(); "{root}/{folder}")?;
    list_at(rt, path.as_str(), folder, names)
}

/// Adds the names of the files and folders in the folder at a path.
fn list_at<R: Files + AllocGlobal>(
    rt: &R,
    path: &str,
    folder: &str,
    names: &mut Names,
) -> Result<(), Failure> {
    let mut has_others = false;
    match fs::read_dir(&rt, path) {
        Ok(entries) => {
            for entry in entries {
                has_others |= is_other(rt.alloc(), entry, path, folder, names)?;
            }
        }
        Err(e) => return Err(unreadable(rt.alloc(), &e, path)),
    }
    if has_others {
        list_others(rt, path, folder, &mut names.below.others)?;
    }
    Ok(())
}

/// Adds the name of an entry of the folder at a path, or returns that it isn't UTF-8.
fn is_other<D: Files + Drop>(
    alloc: Global,
    entry: io::Result<DirEntry<D>>,
    path: &str,
    folder: &str,
    names: &mut Names,
) -> Result<bool, Failure> {
    match entry {
        Ok(entry) => {
            let added = add(alloc, &entry, path, folder, names);
            drop(entry);
            added?;
            Ok(false)
        }
        Err(e) if e.kind() == ErrorKind::InvalidFilename => Ok(true),
        Err(e) => Err(unreadable(alloc, &e, path)),
    }
}

/// Adds the names in the folder at a path that aren't UTF-8, as they are shown.
fn list_others<R: Files + AllocGlobal>(
    rt: &R,
    path: &str,
    folder: &str,
    others: &mut Vec<String>,
) -> Result<(), Failure> {
    let mut block = [0; BLOCK];
    let mut names = match rt.open_dir(path) {
        Ok(names) => names,
        Err(e) => return Err(unreadable(rt.alloc(), &e, path)),
    };
    for _ in 0..u64::MAX {
        match names.read(&mut block) {
            Ok(0) => break,
            Ok(n) => push_others(rt.alloc(), folder, &block[..n], others)?,
            Err(e) => return Err(unreadable(rt.alloc(), &e, path)),
        }
    }
    Ok(())
}

/// Adds those of these names, of which a zero byte ends each, that aren't UTF-8, as they are shown.
fn push_others(
    alloc: Global,
    folder: &str,
    names: &[u8],
    others: &mut Vec<String>,
) -> Result<(), AllocError> {
    for name in names.split(|byte| *byte == 0) {
        if str::from_utf8(name).is_err() {
            let mut shown = String::from_str(alloc, folder)?;
            push_bytes(&mut shown, name)?;
            others.push(shown)?;
        }
    }
    Ok(())
}

/// Adds the name of a file or of a folder. What can't be told to be either isn't taken for a file: it may
/// be a folder whose path is too long, or that may not be entered.
fn add<D: Files>(
    alloc: Global,
    entry: &DirEntry<D>,
    path: &str,
    folder: &str,
    names: &mut Names,
) -> Result<(), Failure> {
    let name = entry.file_name();
    match entry.file_type() {
        Ok(kind) if kind.is_dir() => names.folders.push(format!(in alloc; "{folder}{name}/")?)?,
        Ok(_) => names
            .below
            .files
            .push(format!(in alloc; "{folder}{name}")?)?,
        // It was removed since the folder was listed.
        Err(e) if e.kind() == ErrorKind::NotFound => {}
        Err(e) => {
            let path = format!(in alloc; "{path}{name}")?;
            return Err(unreadable(alloc, &e, path.as_str()));
        }
    }
    Ok(())
}

/// Returns the failure for a path that can't be read for this reason.
fn unreadable(alloc: Global, e: &io::Error, path: &str) -> Failure {
    match String::from_str(alloc, path) {
        Ok(path) if e.kind() != ErrorKind::OutOfMemory => Failure::CannotRead(path),
        _ => Failure::Memory,
    }
}
