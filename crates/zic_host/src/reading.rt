//! The files of a folder of zones, where what can't be read isn't taken for what isn't there.

use std::alloc::{AllocError, Global};
use std::cell::Cell;
use std::fs::{self, File, Files};
use std::io::{self, ErrorKind};
use zic_files::ZoneTree;
use zic_io::{Failure, ZoneFolder};
use zic_lines::Name;

/// The path of a file that is there and can't be read, as an error of the disk or a lack of descriptors
/// makes one. A tree ends the reading there as if memory had run out, since it can give no other reason,
/// and the path is noted here.
#[derive(Drop)]
pub struct UnreadFile {
    path: Cell<Option<String>>,
}

impl UnreadFile {
    /// Returns the note of folders of which each file could be read until now.
    pub fn none() -> UnreadFile {
        UnreadFile {
            path: Cell::new(None),
        }
    }

    /// Returns the path that was noted, if one was, and removes it from the note.
    pub fn take(&self) -> Option<String> {
        self.path.replace(None)
    }

    /// Returns the failure of a run that ended as if memory had run out: `CannotRead` with the path that
    /// was noted, or else `Memory`.
    pub fn failure(&self) -> Failure {
        match self.take() {
            Some(path) => Failure::CannotRead(path),
            None => Failure::Memory,
        }
    }
}

/// A folder of TZif files in which a file that is there and can't be read ends the reading, and is noted.
/// No contract says anything about the files.
#[derive(Drop)]
pub struct WholeFolder<'a, F> {
    system: &'a F,
    path: &'a str,
    unread: &'a UnreadFile,
}

impl<'a, F: Files> WholeFolder<'a, F> {
    /// Returns the folder at a path.
    pub fn new(system: &'a F, path: &'a str, unread: &'a UnreadFile) -> WholeFolder<'a, F> {
        WholeFolder {
            system,
            path,
            unread,
        }
    }

    /// Ends the reading where the file of a name is there after all, since it wasn't read.
    fn expect_missing(&self, alloc: Global, name: &Name) -> Result<(), AllocError> {
        let name = str::from_utf8(name.octets()).unwrap_or("");
        let path = format!(in alloc; "{}/{name}", self.path)?;
        let is_there = match open_regular(self.system, path.as_str()) {
            Ok(file) => file.is_some(),
            Err(e) if e.kind() == ErrorKind::OutOfMemory => return Err(AllocError),
            Err(_) => true,
        };
        if is_there {
            self.unread.path.set(Some(path));
            return Err(AllocError);
        }
        Ok(())
    }
}

impl<F: Files> ZoneTree for WholeFolder<'_, F> {
    /// Reads the file of a name, as a [`ZoneFolder`] does.
    fn read(&mut self, alloc: Global, name: &Name) -> Result<Option<Vec<u8>>, AllocError> {
        let read = ZoneFolder::new(self.system, self.path).read(alloc, name)?;
        if read.is_none() {
            self.expect_missing(alloc, name)?;
        }
        Ok(read)
    }
}

/// Opens the regular file at a path, or the one that a symbolic link there leads to. Returns `None` where
/// there is none. What is no regular file, such as a pipe or a device, is not opened.
///
/// # Errors
///
/// It is there, or may be, and can't be opened.
pub fn open_regular<F: Files>(system: &F, path: &str) -> io::Result<Option<F::File>> {
    match opened(system, path) {
        Ok(file) => Ok(file),
        Err(e) if is_of_none(e.kind()) => Ok(None),
        Err(e) => Err(e),
    }
}

/// Opens the regular file at a path. No other is opened.
fn opened<F: Files>(system: &F, path: &str) -> io::Result<Option<F::File>> {
    if !fs::metadata(system, path)?.is_file() {
        return Ok(None);
    }
    Ok(Some(File::open(system, path)?))
}

/// Returns whether a path that gives this error is that of no file.
fn is_of_none(kind: ErrorKind) -> bool {
    match kind {
        ErrorKind::NotFound | ErrorKind::NotADirectory => true,
        // Such a link leads to no file, and no file has so long a path.
        ErrorKind::FilesystemLoop | ErrorKind::InvalidFilename => true,
        _ => false,
    }
}
