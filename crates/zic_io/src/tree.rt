//! Where files are placed.

ghost use Rattle.std.specs.Prelude.{◌≡◌, [], ◌∷◌, OnOk, OnErr, Err};
ghost use Rattle.zic_base.specs.Growth.{Gains};

use crate::failure::Failure;
use crate::link_kind::LinkKind;
use crate::list_file::folder_of;
use crate::sources::path_in;
use std::alloc::{AllocError, AllocFailed, Global};
use std::collections::HashSet;
use std::fs::{self, File, Files as FileSystem, Metadata, OpenFile};
use std::io::{self, ErrorKind, Read, Write};
use std::os::unix::fs::{MetadataExt, symlink};

/// The begin of the name under which a file or a link is made in its folder, before it is renamed. A
/// number follows. No zone can have such a name.
const TEMPORARY: &str = "~pzic";

/// The greatest number of times that a file or a link is made.
const TRIES: u32 = 1_000;

/// A path whose owner is the user of the process.
const PROCESS: &str = "/proc/self";

/// The number of bytes that are read of a folder's names at a time.
const BLOCK: usize = 8_192;

/// Why a file or a link isn't placed.
#[derive(Clone, Copy, Debug, PartialEq, Eq)]
pub enum Unplaced {
    /// The tree refused it.
    Refused,
    /// Memory ran out.
    Memory,
}

/// Why the system doesn't make a file, a link or a folder.
#[derive(Clone, Copy)]
enum Unmade {
    /// It gives an error of this kind.
    Refused(ErrorKind),
    /// Memory ran out.
    Memory,
}

impl From<io::Error> for Unmade {
    fn from(e: io::Error) -> Unmade {
        Unmade::Refused(e.kind())
    }
}

impl<T: Drop> From<AllocFailed<T>> for Unmade {
    fn from(_e: AllocFailed<T>) -> Unmade {
        Unmade::Memory
    }
}

impl From<AllocError> for Unmade {
    fn from(_e: AllocError) -> Unmade {
        Unmade::Memory
    }
}

/// A place for files and links, each at a path, with slashes between the names of folders. It makes
/// the folders that a path needs.
pub trait Tree {
    ghost use Rattle.std.specs.Prelude.{ℕ, ⊤, List, Option, None};
    ghost use Rattle.zic_io.specs.Tree.{Linked, Placed};

    // the files that were placed, in order, where they are known
    ghost placed: { Self → Option (List Placed) } = { λ _. None };

    // the links that were made, in order, where they are known
    ghost linked: { Self → Option (List Linked) } = { λ _. None };

    // the tree refused a file or a link at a path, where anything is known of it
    ghost refused: { Self → List ℕ → Type 0 } = { λ _ _. ⊤ };

    /// Places a file of these bytes at a path, whole or not at all, and in place of what had the
    /// path.
    fn place(&mut self, path: &str, bytes: &[u8]) -> Result<(), Unplaced>
        ensures placed { OnOk result (Gains (placed self.old) (placed self.new)
            (record { path = path.now; bytes = bytes.now } ∷ [])) }
        ensures unplaced { OnErr result (Gains (placed self.old) (placed self.new) []) }
        ensures links { Gains (linked self.old) (linked self.new) [] }
        ensures refused { result ≡ Err Unplaced.Refused → refused self.new path.now };

    /// Makes a link at a path, whole or not at all, and in place of what had the path. The target is
    /// the path of the file that a hard link names, or the text of a symbolic link.
    fn link(&mut self, kind: LinkKind, target: &str, path: &str) -> Result<(), Unplaced>
        ensures linked { OnOk result (Gains (linked self.old) (linked self.new)
            (record { kind = kind; path = path.now; target = target.now } ∷ [])) }
        ensures unlinked { OnErr result (Gains (linked self.old) (linked self.new) []) }
        ensures files { Gains (placed self.old) (placed self.new) [] }
        ensures refused { result ≡ Err Unplaced.Refused → refused self.new path.now };
}

/// When what is placed in a file system has to be on its disk.
#[derive(Clone, Copy, Debug, PartialEq, Eq)]
pub enum Durability {
    /// When the system writes it.
    Later,
    /// The bytes of a file before it has its name, and the names in folders by the end.
    Synced,
}

/// Whose a file is, who may read and write it, and how many names it has.
#[derive(Clone, Copy, PartialEq, Eq)]
struct Rights {
    user: u32,
    group: u32,
    mode: u32,
    names: u64,
}

/// A tree in a file system, about whose files and links no contract says anything.
///
/// A file that has the bytes already is left as it is, unless it has other names too, or the run would
/// make it another user's or give it other permissions. The first file of a run is always made, and shows
/// which these are.
///
/// Several runs may place files in one tree at the same time: each file is that of one of them, and
/// whole. Each run has temporary names of its own. What a run that was ended left is removed
/// by the next of the same user that enters the folder. That may remove a file or a link that another
/// run is making, which then makes it again.
#[derive(Drop)]
pub struct Disk<'a, F> {
    alloc: Global,
    system: &'a F,
    /// The number in temporary names.
    number: u64,
    durability: Durability,
    /// The rights of a file that the run made. `None` before the first.
    rights: Option<Rights>,
    /// The folders that were entered.
    folders: HashSet<String>,
    /// The folders in which names are to be synced.
    unsynced: HashSet<String>,
    /// The kind of the last error for which the system refused a file, a link or a folder.
    reason: Option<ErrorKind>,
}

/// What is to have a path.
#[derive(Clone, Copy)]
enum Content<'a> {
    /// A file of these bytes.
    Bytes(&'a [u8]),
    /// A link of this kind to the target.
    Link(LinkKind, &'a str),
}

/// The outcome of making a file or a link.
#[derive(Clone, Copy)]
enum Written {
    /// It has its name.
    Placed,
    /// The temporary name is that of another file.
    Taken,
    /// It was removed before it had its name, or another run replaced what it links to.
    Removed,
}

impl<'a, F: FileSystem> Disk<'a, F> {
    /// Returns the tree of a file system. Files are first written under temporary names of this
    /// number, or of the next that is free; runs at the same time have different ones.
    pub fn new(alloc: Global, system: &'a F, number: u64, durability: Durability) -> Disk<'a, F> {
        Disk {
            alloc,
            system,
            number,
            durability,
            rights: None,
            folders: HashSet::new(alloc),
            unsynced: HashSet::new(alloc),
            reason: None,
        }
    }

    /// Returns the kind of the last error for which the system refused a file, a link or a folder, if it
    /// refused one.
    pub fn reason(&self) -> Option<ErrorKind> {
        self.reason
    }

    /// Has the system write the names that folders got. After that a tree whose files are synced is
    /// whole also if the power fails. Does nothing where nothing is to be synced.
    ///
    /// # Errors
    ///
    /// `CannotWrite` with the path of a folder that can't be synced, or memory ran out.
    pub fn sync(&mut self) -> Result<(), Failure> {
        for folder in &self.unsynced {
            if let Err(e) = sync_folder(self.system, folder.as_str()) {
                self.reason = Some(e.kind());
                return Err(Failure::CannotWrite(folder.clone()?));
            }
        }
        Ok(())
    }

    /// Makes a folder, or removes the temporary files of earlier runs from it. Does so once.
    fn enter(&mut self, folder: &str) -> Result<(), Unmade> {
        if self.folders.contains(folder) {
            return Ok(());
        }
        // With the slash a link to a folder is followed.
        let slashed = path_in(self.alloc, folder, "")?;
        match self.system.open_dir(slashed.as_str()) {
            Ok(names) => self.clear(folder, names)?,
            Err(_) => {
                self.note_above(folder)?;
                fs::create_dir_all(self.system, folder)?;
            }
        }
        self.note(folder)?;
        self.folders.insert(String::from_str(self.alloc, folder)?)?;
        Ok(())
    }

    /// Takes note of a folder in which names are to be synced, if any are.
    fn note(&mut self, folder: &str) -> Result<(), AllocError> {
        if self.durability == Durability::Synced {
            self.unsynced.insert(String::from_str(self.alloc, folder)?)?;
        }
        Ok(())
    }

    /// Takes note of the folders that get the name of a folder, where this one is made with those
    /// above it that are missing.
    fn note_above(&mut self, folder: &str) -> Result<(), AllocError> {
        let mut missing = folder;
        for _ in 0..folder.len() {
            if fs::metadata(self.system, missing).is_ok() {
                break;
            }
            missing = folder_of(missing);
            self.note(missing)?;
        }
        Ok(())
    }

    /// Removes the temporary files from a folder, of which these are the names.
    fn clear(&self, folder: &str, mut names: F::Dir) -> Result<(), AllocError> {
        let mut block = [0; BLOCK];
        for _ in 0..u64::MAX {
            match names.read(&mut block) {
                Ok(0) | Err(_) => return Ok(()),
                Ok(n) => self.remove(folder, &block[..n])?,
            }
        }
        Ok(())
    }

    /// Removes the user's temporary files of these names, of which a zero byte ends each, from a folder.
    fn remove(&self, folder: &str, names: &[u8]) -> Result<(), AllocError> {
        for name in names.split(|byte| *byte == 0) {
            if let Some(name) = temporary_name(name) {
                let path = path_in(self.alloc, folder, name)?;
                if self.is_own(path.as_str()) {
                    // One that can't be removed is left.
                    let _ = fs::remove_file(self.system, path.as_str());
                }
            }
        }
        Ok(())
    }

    /// Returns whether a file belongs to the user of the process. Where the system doesn't say, it
    /// belongs to another.
    fn is_own(&self, path: &str) -> bool {
        match (
            fs::symlink_metadata(self.system, path),
            fs::metadata(self.system, PROCESS),
        ) {
            (Ok(file), Ok(process)) => file.uid() == process.uid(),
            _ => false,
        }
    }

    /// Places a file or a link at a path, or keeps why the system refuses it.
    fn place_content(&mut self, path: &str, content: Content<'_>) -> Result<(), Unplaced> {
        match self.make(path, content) {
            Ok(()) => Ok(()),
            Err(Unmade::Refused(kind)) => {
                self.reason = Some(kind);
                Err(Unplaced::Refused)
            }
            Err(Unmade::Memory) => Err(Unplaced::Memory),
        }
    }

    /// Makes a file or a link at a path.
    fn make(&mut self, path: &str, content: Content<'_>) -> Result<(), Unmade> {
        let folder = parent(path);
        self.enter(folder)?;
        if self.has(path, content) {
            return Ok(());
        }
        for _ in 0..TRIES {
            let temporary = format!(in self.alloc; "{folder}/{TEMPORARY}{}", self.number)?;
            let temporary = temporary.as_str();
            let written = match content {
                Content::Bytes(bytes) => self.write(temporary, path, bytes)?,
                Content::Link(LinkKind::Hard, target) => self.write_link(temporary, path, target)?,
                Content::Link(LinkKind::Symbolic, text) => {
                    self.write_symlink(temporary, path, text)?
                }
            };
            match written {
                Written::Placed => return Ok(()),
                Written::Taken => self.number = self.number.wrapping_add(1),
                Written::Removed => {}
            }
        }
        Err(Unmade::Refused(ErrorKind::AlreadyExists))
    }

    /// Returns whether the path is that of a file with this content, as the run would make it.
    fn has(&self, path: &str, content: Content<'_>) -> bool {
        let Content::Bytes(bytes) = content else {
            return false;
        };
        match fs::symlink_metadata(self.system, path) {
            Ok(found) if found.is_file() && Some(rights_of(&found)) == self.rights => {
                self.holds(path, bytes).unwrap_or(false)
            }
            _ => false,
        }
    }

    /// Returns whether a file holds these bytes and no others. Has the system write it to its disk if
    /// files are synced.
    fn holds(&self, path: &str, bytes: &[u8]) -> io::Result<bool> {
        let mut file = File::open(self.system, path)?;
        if !gives(&mut file, bytes)? {
            return Ok(false);
        }
        if self.durability == Durability::Synced {
            file.sync_all()?;
        }
        Ok(true)
    }

    /// Takes note of the rights of a file that the run made, if it is the first.
    fn note_rights(&mut self, path: &str) {
        if self.rights.is_none() {
            if let Ok(made) = fs::symlink_metadata(self.system, path) {
                self.rights = Some(rights_of(&made));
            }
        }
    }

    /// Writes the bytes under the temporary name, and then renames that to the path.
    fn write(&self, temporary: &str, path: &str, bytes: &[u8]) -> io::Result<Written> {
        let file = match File::create_new(self.system, temporary) {
            Ok(file) => file,
            Err(e) => return taken_or(e),
        };
        let placed = match write_and_close(file, bytes, self.durability) {
            Ok(()) => fs::rename(self.system, temporary, path),
            Err(e) => Err(e),
        };
        self.finish(temporary, placed)
    }

    /// Makes the hard link under the temporary name, and then renames that to the path.
    fn write_link(&self, temporary: &str, path: &str, target: &str) -> io::Result<Written> {
        match fs::hard_link(self.system, target, temporary) {
            Ok(()) => {}
            // Another run gave the path of the zone's file to a file of its own at that moment.
            Err(e) if e.kind() == ErrorKind::NotFound => return Ok(Written::Removed),
            Err(e) => return taken_or(e),
        }
        let written = self.finish(temporary, fs::rename(self.system, temporary, path));
        if written.is_ok() {
            // Where the path was a name of the same file before, both names are left.
            let _ = fs::remove_file(self.system, temporary);
        }
        written
    }

    /// Makes the symbolic link under the temporary name, and renames that to the path once the link
    /// is known to lead to its file. Below a folder that is a link itself, `..` leads elsewhere.
    fn write_symlink(&self, temporary: &str, path: &str, text: &str) -> Result<Written, Unmade> {
        let file = path_of_text(self.alloc, temporary, text)?;
        if let Err(e) = symlink(self.system, text, temporary) {
            return Ok(taken_or(e)?);
        }
        match self.leads_to(temporary, file.as_str()) {
            Ok(true) => Ok(self.finish(temporary, fs::rename(self.system, temporary, path))?),
            // Another run gave the path of the zone's file to a file of its own at that moment.
            Ok(false) => {
                let _ = fs::remove_file(self.system, temporary);
                Ok(Written::Removed)
            }
            Err(e) => match fs::remove_file(self.system, temporary) {
                Err(gone) if gone.kind() == ErrorKind::NotFound => Ok(Written::Removed),
                _ => Err(Unmade::Refused(e.kind())),
            },
        }
    }

    /// Returns whether a symbolic link leads to the regular file at a path.
    fn leads_to(&self, link: &str, path: &str) -> io::Result<bool> {
        let found = fs::metadata(self.system, link)?;
        let file = fs::metadata(self.system, path)?;
        Ok(found.is_file() && found.dev() == file.dev() && found.ino() == file.ino())
    }

    /// Returns what came of a file or a link that was renamed. Removes the temporary name where that
    /// failed.
    fn finish(&self, temporary: &str, placed: io::Result<()>) -> io::Result<Written> {
        match placed {
            Ok(()) => Ok(Written::Placed),
            Err(e) if e.kind() == ErrorKind::NotFound => Ok(Written::Removed),
            Err(e) => {
                let _ = fs::remove_file(self.system, temporary);
                Err(e)
            }
        }
    }
}

impl<'a, F: FileSystem> Tree for Disk<'a, F> {
    fn place(&mut self, path: &str, bytes: &[u8]) -> Result<(), Unplaced> {
        self.place_content(path, Content::Bytes(bytes))?;
        self.note_rights(path);
        Ok(())
    }

    fn link(&mut self, kind: LinkKind, target: &str, path: &str) -> Result<(), Unplaced> {
        self.place_content(path, Content::Link(kind, target))
    }
}

/// Returns the rights of a file.
fn rights_of(file: &Metadata) -> Rights {
    Rights {
        user: file.uid(),
        group: file.gid(),
        mode: file.mode(),
        names: file.nlink(),
    }
}

/// Returns whether a reader gives these bytes and no others.
fn gives<R: Read>(reader: &mut R, bytes: &[u8]) -> io::Result<bool> {
    let mut block = [0; BLOCK];
    let mut rest = bytes;
    for _ in 0..u64::MAX {
        let count = reader.read(&mut block)?;
        match rest.strip_prefix(&block[..count]) {
            Some(_) if count == 0 => return Ok(rest.is_empty()),
            Some(left) => rest = left,
            None => return Ok(false),
        }
    }
    Ok(false)
}

/// Has the system write the names in a folder.
fn sync_folder<F: FileSystem>(system: &F, folder: &str) -> io::Result<()> {
    File::open(system, folder)?.sync_all()
}

/// Returns that the temporary name is taken, or the error for which a file or a link can't be made.
fn taken_or(e: io::Error) -> io::Result<Written> {
    if e.kind() == ErrorKind::AlreadyExists {
        Ok(Written::Taken)
    } else {
        Err(e)
    }
}

/// Returns the path up to its last slash.
fn parent(path: &str) -> &str {
    match path.rsplit_once('/') {
        Some((parent, _)) => parent,
        None => path,
    }
}

/// Returns the path of the text of a symbolic link: for each `../` at its begin one folder is left, of
/// those that the path of the link names.
fn path_of_text(alloc: Global, link: &str, text: &str) -> Result<String, AllocError> {
    let mut folder = parent(link);
    let mut rest = text;
    for _ in 0..text.len() {
        let Some(next) = rest.strip_prefix("../") else {
            break;
        };
        rest = next;
        folder = parent(folder);
    }
    path_in(alloc, folder, rest)
}

/// Returns the name of a file if it is a temporary one.
fn temporary_name(name: &[u8]) -> Option<&str> {
    let name = str::from_utf8(name).ok()?;
    let number = name.strip_prefix(TEMPORARY)?;
    if !number.is_empty() && number.bytes().all(|byte| byte.is_ascii_digit()) {
        Some(name)
    } else {
        None
    }
}

/// Writes the bytes to a file, and closes it. Where they are to be synced, the system writes them to
/// its disk before, and reports also what it else would report only when the file is closed.
fn write_and_close<W: Write + OpenFile + Drop>(
    mut file: W,
    bytes: &[u8],
    durability: Durability,
) -> io::Result<()> {
    file.write_all(bytes)?;
    file.flush()?;
    match durability {
        Durability::Later => Ok(()),
        Durability::Synced => file.sync_all(),
    }
}
