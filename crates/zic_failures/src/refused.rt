//! Why the file of a zone in a folder is refused.

use crate::expected::expectation;
use std::alloc::{AllocError, Global};
use std::fs::{self, Files};
use zic_explain::{entries, shown_word};
use zic_files::{Image, Unfit, ZoneTree};
use zic_io::ZoneFolder;
use zic_lines::Name;

/// Returns lines that say why no rows can be made of the file of a zone in a folder,
/// `--> PATH: REASON`, and what is expected of such a file. Where it is missing, or nothing is wrong
/// with it, there are none.
pub(crate) fn refused_file<R: Files + AllocGlobal>(
    rt: &R,
    folder: &str,
    name: &[u8],
) -> Result<String, AllocError> {
    match Name::parse(rt.alloc(), name) {
        Some(name) => refused_zone(rt, folder, &name?),
        None => Ok(String::new(rt.alloc())),
    }
}

/// Returns the same for the name of a zone.
fn refused_zone<R: Files + AllocGlobal>(
    rt: &R,
    folder: &str,
    name: &Name,
) -> Result<String, AllocError> {
    let alloc = rt.alloc();
    if is_special(rt, folder, name)? {
        return lines(alloc, folder, name, "not a regular file");
    }
    match ZoneFolder::new(rt, folder).read(alloc, name)? {
        Some(octets) => bad_file(alloc, folder, name, octets),
        None => Ok(String::new(alloc)),
    }
}

/// Returns the lines for a file that has these octets, if no rows can be made of it.
fn bad_file(
    alloc: Global,
    folder: &str,
    name: &Name,
    octets: Vec<u8>,
) -> Result<String, AllocError> {
    match Image::read(alloc, octets).err() {
        Some(unfit) => lines(alloc, folder, name, reason(unfit)?),
        None => Ok(String::new(alloc)),
    }
}

/// Returns whether what has the name of a zone in a folder is no regular file.
fn is_special<R: Files + AllocGlobal>(
    rt: &R,
    folder: &str,
    name: &Name,
) -> Result<bool, AllocError> {
    let path = [folder, "/", text_of(name)].concat(rt.alloc())?;
    match fs::metadata(rt, path.as_str()) {
        Ok(info) => Ok(!info.is_file()),
        Err(_) => Ok(false),
    }
}

/// Returns why no rows can be made of a file.
fn reason(unfit: Unfit) -> Result<&'static str, AllocError> {
    match unfit {
        Unfit::Bad(reason) => Ok(reason.name()),
        Unfit::NoFooter => Ok("an empty POSIX TZ string"),
        Unfit::OutsideLimits => Ok("an offset or an abbreviation that no row may have"),
        Unfit::Memory => Err(AllocError),
    }
}

/// Returns the lines for the file of a zone.
fn lines(alloc: Global, folder: &str, name: &Name, reason: &str) -> Result<String, AllocError> {
    let folder = shown_word(alloc, folder)?;
    let path = [folder.as_str(), "/", text_of(name)].concat(alloc)?;
    let expected = expectation(alloc, &entries(alloc)?, reason)?;
    ["--> ", path.as_str(), ": ", reason, "\n", expected.as_str()].concat(alloc)
}

/// Returns a name, which is ASCII, as text.
fn text_of(name: &Name) -> &str {
    str::from_utf8(name.octets()).unwrap_or("")
}
