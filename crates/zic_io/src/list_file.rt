//! The file of a list, which replaces what has its path once the list is whole.

use std::alloc::{AllocError, Global};
use std::fs::{self, File, Files as FileSystem, OpenFile, OpenOptions};
use std::io::{self, ErrorKind, Write};

/// The begin of the name of a file until it has its path. A number follows.
const TEMPORARY: &str = "~pzic";

/// The greatest number of times that a file is made.
const TRIES: u32 = 1_000;

/// The greatest number of symbolic links that are followed, as many as the system follows.
const LINKS: u32 = 40;

/// The folders of open files. What one of their paths leads to is known by others as an open file, and
/// not by its path.
const OPEN_FILES: [&str; 2] = ["/dev/fd/", "/proc/"];

/// A file that is written under a temporary name in the folder of its path, and has its path in the end. If
/// it isn't finished, it is removed. Two kinds of files are written where they are: what isn't a regular
/// file, as a pipe or a device; and a file in a folder where none may be made, which is emptied by the first
/// write or flush.
pub struct ListFile<'a, F: FileSystem> {
    system: &'a F,
    file: F::File,
    /// The names of the file; `None` where it is written where it is.
    names: Option<Names>,
    /// Whether the file has no bytes but those of the list.
    is_begun: bool,
}

/// The names of a file.
#[derive(Drop)]
struct Names {
    temporary: String,
    /// The path that it gets.
    path: String,
}

impl<'a, F: FileSystem> ListFile<'a, F> {
    /// Opens a file for the list at a path, and changes nothing there. Where a symbolic link has the path,
    /// the file is for what this leads to. The number is that of its temporary name, or of the first that is
    /// tried.
    ///
    /// # Errors
    ///
    /// What has the path can't be written, or nothing has it and no file can be made there, or memory ran
    /// out.
    pub fn open(
        alloc: Global,
        system: &'a F,
        path: &str,
        number: u64,
    ) -> io::Result<ListFile<'a, F>> {
        let path = followed(alloc, system, path)?;
        match OpenOptions::new().write(true).open(system, path.as_str()) {
            Ok(earlier) => ListFile::for_earlier(alloc, system, earlier, path, number),
            Err(e) if e.kind() == ErrorKind::NotFound => {
                ListFile::beside(alloc, system, path, number)
            }
            Err(e) => Err(e),
        }
    }

    /// Returns the file for a list in place of an earlier file, which is open.
    fn for_earlier(
        alloc: Global,
        system: &'a F,
        earlier: F::File,
        path: String,
        number: u64,
    ) -> io::Result<ListFile<'a, F>> {
        let info = earlier.metadata()?;
        if !info.is_file() || is_open_file(path.as_str()) {
            return Ok(ListFile::over(system, earlier));
        }
        match ListFile::beside(alloc, system, path, number) {
            Ok(list) => {
                // Some file systems have no permissions to set.
                let _ = list.file.set_permissions(info.permissions());
                Ok(list)
            }
            Err(e) if e.kind() == ErrorKind::PermissionDenied => {
                Ok(ListFile::over(system, earlier))
            }
            Err(e) => Err(e),
        }
    }

    /// Returns the file for a list that is written where it is.
    fn over(system: &'a F, file: F::File) -> ListFile<'a, F> {
        ListFile {
            system,
            file,
            names: None,
            is_begun: false,
        }
    }

    /// Makes a file that gets a path in the end.
    fn beside(
        alloc: Global,
        system: &'a F,
        path: String,
        number: u64,
    ) -> io::Result<ListFile<'a, F>> {
        if path.is_empty() || path.ends_with('/') {
            return Err(io::Error::from(ErrorKind::NotFound));
        }
        let (temporary, file) = made(alloc, system, path.as_str(), number)?;
        Ok(ListFile {
            system,
            file,
            names: Some(Names { temporary, path }),
            is_begun: true,
        })
    }

    /// Empties the file, unless it has no other bytes than those of the list.
    fn begin(&mut self) -> io::Result<()> {
        if !self.is_begun {
            empty(&self.file)?;
            self.is_begun = true;
        }
        Ok(())
    }

    /// Writes the file to its disk if it is a regular one, since no error is reported when a file is
    /// closed, and gives it its path.
    ///
    /// # Errors
    ///
    /// The file can't be emptied, written or renamed.
    pub fn finish(&mut self) -> io::Result<()> {
        self.begin()?;
        synchronize(&self.file)?;
        if let Some(names) = &self.names {
            fs::rename(self.system, names.temporary.as_str(), names.path.as_str())?;
        }
        drop(self.names.take());
        Ok(())
    }
}

impl<F: FileSystem> Drop for ListFile<'_, F> {
    /// Closes the file, and removes it where it didn't get its path.
    fn drop(self) {
        let ListFile {
            system,
            file,
            names,
            is_begun: _,
        } = self;
        drop(file);
        if let Some(names) = &names {
            // One that can't be removed is left.
            let _ = fs::remove_file(system, names.temporary.as_str());
        }
    }
}

impl<F: FileSystem> Write for ListFile<'_, F> {
    fn write(&mut self, buf: &[u8]) -> io::Result<usize> {
        self.begin()?;
        self.file.write(buf)
    }

    fn flush(&mut self) -> io::Result<()> {
        self.begin()?;
        self.file.flush()
    }
}

/// Empties a file if it is a regular one: others hold nothing.
fn empty<O: OpenFile>(file: &O) -> io::Result<()> {
    if file.metadata()?.is_file() {
        file.set_len(0)?;
    }
    Ok(())
}

/// Writes a file to its disk if it is a regular one.
fn synchronize<O: OpenFile>(file: &O) -> io::Result<()> {
    if file.metadata()?.is_file() {
        file.sync_data()?;
    }
    Ok(())
}

/// Makes a file beside a path, under the first temporary name that is free from this number on. Returns its
/// name too.
fn made<F: FileSystem>(
    alloc: Global,
    system: &F,
    path: &str,
    number: u64,
) -> io::Result<(String, F::File)> {
    let mut number = number;
    for _ in 0..TRIES {
        let temporary = temporary_beside(alloc, path, number)?;
        match File::create_new(system, temporary.as_str()) {
            Ok(file) => return Ok((temporary, file)),
            Err(e) if e.kind() == ErrorKind::AlreadyExists => number = number.wrapping_add(1),
            Err(e) => return Err(e),
        }
    }
    Err(io::Error::from(ErrorKind::AlreadyExists))
}

/// Returns the temporary name of this number in the folder of a path.
fn temporary_beside(alloc: Global, path: &str, number: u64) -> Result<String, AllocError> {
    match path.rsplit_once('/') {
        Some((folder, _)) => format!(in alloc; "{folder}/{TEMPORARY}{number}"),
        None => format!(in alloc; "{TEMPORARY}{number}"),
    }
}

/// Returns whether a path is in a folder of open files.
fn is_open_file(path: &str) -> bool {
    OPEN_FILES.iter().any(|folder| path.starts_with(*folder))
}

/// Returns the path that a path leads to, over the symbolic links that have it: there may be nothing. An open
/// file is not followed further.
///
/// # Errors
///
/// There are too many links, one can't be read, or memory ran out.
pub fn followed<F: FileSystem>(alloc: Global, system: &F, path: &str) -> io::Result<String> {
    let mut path = String::from_str(alloc, path)?;
    for _ in 0..LINKS {
        match next_path(alloc, system, path.as_str())? {
            Some(next) => path = next,
            None => return Ok(path),
        }
    }
    Err(io::Error::from(ErrorKind::FilesystemLoop))
}

/// Returns the path to which the symbolic link at a path leads; `None` where there is no link, or an open
/// file.
fn next_path<F: FileSystem>(alloc: Global, system: &F, path: &str) -> io::Result<Option<String>> {
    if is_open_file(path) {
        return Ok(None);
    }
    match system.read_link(alloc, path) {
        Ok(target) => Ok(Some(path_of_target(alloc, path, target.as_str())?)),
        Err(e) => match e.kind() {
            ErrorKind::InvalidInput | ErrorKind::NotFound | ErrorKind::Unsupported => Ok(None),
            _ => Err(e),
        },
    }
}

/// Returns the path to which a symbolic link with this target leads.
fn path_of_target(alloc: Global, link: &str, target: &str) -> Result<String, AllocError> {
    match link.rsplit_once('/') {
        Some((folder, _)) if !target.starts_with('/') => format!(in alloc; "{folder}/{target}"),
        _ => String::from_str(alloc, target),
    }
}

/// Returns the path of the folder that has a file.
pub fn folder_of(path: &str) -> &str {
    match path.rsplit_once('/') {
        Some(("", _)) => "/",
        Some((folder, _)) => folder,
        None => ".",
    }
}
