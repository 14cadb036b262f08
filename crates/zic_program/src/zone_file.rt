//! The file of a zone that a word names.

use std::alloc::AllocError;
use std::env::{self, VarError};
use std::fs::{self, Files};
use std::io::ErrorKind;
use std::rt::Env;
use zic_host::is_missing;

/// The folder in which the files of zones are looked for last.
const ZONEINFO: &str = "/usr/share/zoneinfo";

/// Returns the path of the file that a word names. Where nothing has this path, and the word begins with
/// neither a slash nor a dot, it names a zone: then it is the file of that name in the folder of the
/// variable `TZDIR`, or else in `/usr/share/zoneinfo`, as for zdump(8). A file there that can't be read is
/// the one that is meant. Returns the word where there is no such file.
pub(crate) fn path_of<R: Env + Files + AllocGlobal>(
    rt: &R,
    word: &str,
) -> Result<String, AllocError> {
    if may_be_zone(word) && is_missing(rt, word) {
        if let Some(folder) = zone_folder(rt)? {
            let path = [folder.as_str(), "/", word].concat(rt.alloc())?;
            if may_be_file(rt, path.as_str()) {
                return Ok(path);
            }
        }
        let path = [ZONEINFO, "/", word].concat(rt.alloc())?;
        if may_be_file(rt, path.as_str()) {
            return Ok(path);
        }
    }
    String::from_str(rt.alloc(), word)
}

/// Returns whether a word may be the name of a zone.
fn may_be_zone(word: &str) -> bool {
    !word.is_empty() && !word.starts_with('/') && !word.starts_with('.')
}

/// Returns the folder that the variable `TZDIR` names, if it is set and is UTF-8.
fn zone_folder<R: Env + AllocGlobal>(rt: &R) -> Result<Option<String>, AllocError> {
    match env::var(rt, "TZDIR") {
        Ok(folder) => Ok(Some(folder)),
        Err(VarError::OutOfMemory) => Err(AllocError),
        Err(_) => Ok(None),
    }
}

/// Returns whether a path is that of a regular file, or of a link to one, or whether the system refuses
/// to say what has it.
fn may_be_file<R: Files>(rt: &R, path: &str) -> bool {
    match fs::metadata(rt, path) {
        Ok(info) => info.is_file(),
        Err(e) => !matches!(e.kind(), ErrorKind::NotFound | ErrorKind::NotADirectory),
    }
}
