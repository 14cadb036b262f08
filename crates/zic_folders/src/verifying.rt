//! `verify`: whether a folder has just the files of sources.

use crate::ending::Ending;
use crate::extras::Extras;
use std::alloc::{AllocError, Global};
use std::fs::Files;
use std::io::Input;
use std::sync::Wait;
use std::thread::Threads;
use zic_bulk::files_of;
use zic_command_line::ReleaseFiles;
use zic_explain::shown_word;
use zic_files::Files as ZoneFiles;
use zic_host::{
    NamesBelow, Refusal, UnreadFile, WholeFolder, WriteReason, expect_folder, is_missing,
    names_below, read_texts, tell,
};
use zic_io::Failure;
use zic_layouts::Plan;

/// Which folder is compared with which sources.
#[derive(Clone, Copy)]
pub struct Verifying<'a> {
    pub folder: &'a String,
    pub sources: &'a [String],
    pub plan: &'a Plan,
    /// What the folder is to have besides the files of zones.
    pub release_files: &'a ReleaseFiles,
    /// Whether other files of the folder count.
    pub strict: bool,
    /// Where it is noted why the system refuses what is printed.
    pub reason: &'a WriteReason,
}

/// Reads the texts of the sources, and prints which of the files that `build` places for them, and for the
/// same options, the folder doesn't have as they are and, if that counts, which others it has. Returns
/// whether there are any.
///
/// # Errors
///
/// Why the texts or tables aren't read or the texts have no files, the text of usage where a zone has the
/// name of one of the other files, `CannotRead` with the path of a folder or of a file in it,
/// `CannotWriteOutput`, or `Memory`.
pub fn verify<R: Files + Input + Print + AllocGlobal + Threads + Wait + Sync>(
    rt: &R,
    verifying: &Verifying<'_>,
    texts: &mut Vec<Vec<u8>>,
) -> Result<Ending, Refusal> {
    read_texts(rt, verifying.sources, texts)?;
    let Some(extras) = Extras::of(rt, verifying.release_files, texts)? else {
        return Ok(Ending::NoRelease);
    };
    let verified = verify_with(rt, verifying, texts, &extras);
    drop(extras);
    verified
}

/// Verifies that the folder has the files of the texts and these others, unless two of them have one name.
fn verify_with<R: Files + Print + AllocGlobal + Threads + Wait + Sync>(
    rt: &R,
    verifying: &Verifying<'_>,
    texts: &[Vec<u8>],
    extras: &Extras,
) -> Result<Ending, Refusal> {
    extras.expect_room(rt.alloc(), "verify", texts)?;
    Ok(verify_texts(rt, verifying, texts, extras)?)
}

/// Compiles the texts, and prints what the folder doesn't have of their files and of these others.
fn verify_texts<R: Files + Print + AllocGlobal + Threads + Wait + Sync>(
    rt: &R,
    verifying: &Verifying<'_>,
    texts: &[Vec<u8>],
    extras: &Extras,
) -> Result<Ending, Failure> {
    let missing = is_missing(rt, verifying.folder.as_str());
    if !missing {
        expect_folder(rt, verifying.folder)?;
    }
    let files = files_of(rt, rt.alloc(), verifying.plan, texts)?;
    let ending = if missing {
        verify_none(verifying.folder, files.len() == 0 && extras.is_empty())
    } else {
        verify_files(rt, verifying, &files, extras)
    };
    drop(files);
    ending
}

/// Ends well where there is nothing to have: `build` makes no folder for that.
///
/// # Errors
///
/// `CannotRead` with the path of the folder, which is missing, or `Memory`.
fn verify_none(folder: &String, is_nothing: bool) -> Result<Ending, Failure> {
    if is_nothing {
        Ok(Ending::Done)
    } else {
        Err(Failure::CannotRead(folder.clone()?))
    }
}

/// Prints what the folder doesn't have of these files and, if that counts, has besides them.
fn verify_files<R: Files + Print + AllocGlobal>(
    rt: &R,
    verifying: &Verifying<'_>,
    files: &ZoneFiles,
    extras: &Extras,
) -> Result<Ending, Failure> {
    let mut lines = missing(rt, files, verifying.folder)?;
    extras.push_findings(rt, verifying.folder, &mut lines)?;
    if verifying.strict {
        let names = others(rt, verifying.folder, extras)?;
        lines.extend_from_slice(&zic_compare::extra(rt.alloc(), files, &names)?)?;
    }
    tell(rt, verifying.reason, &lines)?;
    Ok(Ending::of(&lines))
}

/// Returns a line for each file that the folder doesn't have as it is.
fn missing<R: Files + AllocGlobal>(
    rt: &R,
    files: &ZoneFiles,
    path: &String,
) -> Result<Vec<u8>, Failure> {
    let unread = UnreadFile::none();
    let mut folder = WholeFolder::new(rt, path.as_str(), &unread);
    match zic_compare::verify(rt.alloc(), files, &mut folder) {
        Ok(lines) => Ok(lines),
        Err(_) => Err(unread.failure()),
    }
}

/// Returns the names of the folder's files but for those of the extras, as they are shown: no line end in one
/// begins another line. That of a zone stays as it is. Names that aren't UTF-8 come last.
fn others<R: Files + AllocGlobal>(
    rt: &R,
    path: &String,
    extras: &Extras,
) -> Result<Vec<String>, Failure> {
    let names = names_below(rt, path)?;
    let shown = shown_but(rt.alloc(), &names, extras);
    drop(names);
    Ok(shown?)
}

/// Returns these names but for those of the extras, as they are shown.
fn shown_but(
    alloc: Global,
    names: &NamesBelow,
    extras: &Extras,
) -> Result<Vec<String>, AllocError> {
    let mut shown = Vec::new(alloc);
    for name in &names.files {
        if !extras.has(name.as_str()) {
            shown.push(shown_word(alloc, name.as_str())?)?;
        }
    }
    for name in &names.others {
        shown.push(shown_word(alloc, name.as_str())?)?;
    }
    Ok(shown)
}
