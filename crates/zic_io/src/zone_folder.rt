//! A folder of TZif files, each below it at the name of its zone.

use crate::failure::Failure;
use crate::sources::{path_in, read_file};
use std::alloc::{AllocError, Global};
use std::fs::{self, Files as FileSystem};
use std::str;
use zic_files::ZoneTree;
use zic_lines::Name;

/// A folder of TZif files, as `build` makes one: the file of a zone is at the folder's path, a slash
/// and the zone's name. No contract says anything about the files.
#[derive(Drop)]
pub struct ZoneFolder<'a, F> {
    system: &'a F,
    path: &'a str,
}

impl<'a, F: FileSystem> ZoneFolder<'a, F> {
    /// Returns the folder at a path, which need not be there. An empty path is that of no folder.
    pub fn new(system: &'a F, path: &'a str) -> ZoneFolder<'a, F> {
        ZoneFolder { system, path }
    }
}

impl<F: FileSystem> ZoneTree for ZoneFolder<'_, F> {
    /// Reads the file of a name, or of a larger file as much as shows that it is too large to be a
    /// TZif file. One that can't be opened or read counts as missing, and so does what is no regular
    /// file, such as a pipe or a device, which is not opened.
    fn read(&mut self, alloc: Global, name: &Name) -> Result<Option<Vec<u8>>, AllocError> {
        // A name is ASCII.
        let Ok(name) = str::from_utf8(name.octets()) else {
            return Ok(None);
        };
        if self.path.is_empty() {
            return Ok(None);
        }
        let path = path_in(alloc, self.path, name)?;
        match fs::metadata(self.system, path.as_str()) {
            Ok(info) if info.is_file() => {}
            _ => return Ok(None),
        }
        found(read_file(alloc, self.system, path.as_str()))
    }
}

/// Returns the bytes of a file, or none where it can't be read. Out of memory is an error.
fn found(read: Result<Vec<u8>, Failure>) -> Result<Option<Vec<u8>>, AllocError> {
    match read {
        Ok(bytes) => Ok(Some(bytes)),
        Err(Failure::Memory) => Err(AllocError),
        Err(_) => Ok(None),
    }
}
