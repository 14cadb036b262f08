//! Why the system refuses a file, and what helps where the words name another than was meant.

use crate::place::line_about;
use std::alloc::{AllocError, Global};
use std::fs::{self, Files};
use std::io::ErrorKind;
use zic_base::STANDARD_INPUT;
use zic_command_line::{Request, Zones};
use zic_explain::cases::{CANNOT_READ_PATH_FOLDER, CANNOT_READ_PATH_ORDER};
use zic_explain::shown_word;
use zic_io::MAX_SOURCE;

/// What is said of a folder where a file is needed.
const DIRECTORY: &str = "is a directory";

/// What the words of a request name, as far as it helps where one can't be read.
#[derive(Clone, Copy)]
pub(crate) enum Paths {
    /// Sources, where folders have the files of zones by this option.
    SourcesOr(&'static str),
    /// Sources, after the folder for their files.
    SourcesAfterFolder,
    /// Sources, or nothing.
    Others,
}

impl Paths {
    /// Returns what the words of a request name.
    pub(crate) fn of(request: &Request) -> Paths {
        match request {
            Request::Convert(order) => match &order.zones {
                Zones::Sources(_) => Paths::SourcesOr("--tree"),
                Zones::Tree(_) => Paths::Others,
            },
            Request::Diff { trees: false, .. } => Paths::SourcesOr("--trees"),
            Request::Build(_) | Request::Verify { .. } => Paths::SourcesAfterFolder,
            _ => Paths::Others,
        }
    }

    /// Returns a line that says why a file can't be read, `--> PATH: REASON`, where the system says so
    /// again, and a line that helps where another word was meant, by the folder that the words name.
    pub(crate) fn unread<R: Files + AllocGlobal>(
        self,
        rt: &R,
        path: &str,
        folder: &str,
    ) -> Result<String, AllocError> {
        if path == STANDARD_INPUT {
            return Ok(String::new(rt.alloc()));
        }
        let reason = why_unread(rt, path);
        let mut lines = line(rt.alloc(), path, reason)?;
        let advice = match self {
            Paths::SourcesOr(option) if reason == DIRECTORY => {
                line_about(rt.alloc(), &CANNOT_READ_PATH_FOLDER, option)?
            }
            Paths::SourcesAfterFolder if is_file(rt, folder) => order(rt.alloc(), folder)?,
            _ => return Ok(lines),
        };
        lines.push_str(advice.as_str())?;
        Ok(lines)
    }
}

/// Returns a line that names the order of words, where a file stands for the folder.
fn order(alloc: Global, file: &str) -> Result<String, AllocError> {
    let file = shown_word(alloc, file)?;
    line_about(alloc, &CANNOT_READ_PATH_ORDER, file.as_str())
}

/// Returns why a path can't be read, as far as the system says so again.
fn why_unread<R: Files>(rt: &R, path: &str) -> &'static str {
    match fs::metadata(rt, path) {
        Err(e) => words(e.kind()),
        Ok(info) if info.is_dir() => match rt.open_dir(path) {
            Err(e) => words(e.kind()),
            Ok(_) => DIRECTORY,
        },
        Ok(info) if !info.is_file() => "",
        Ok(info) if info.len() > MAX_SOURCE => "has more than 67,108,864 bytes",
        Ok(_) => match fs::open(rt, path) {
            Err(e) => words(e.kind()),
            Ok(_) => "",
        },
    }
}

/// Returns a line that says why a file can't be written: a part of its path is no folder, or the system
/// gave an error of this kind. Where neither is known, there is no line.
pub(crate) fn unwritten<R: Files + AllocGlobal>(
    rt: &R,
    path: &str,
    reason: Option<ErrorKind>,
) -> Result<String, AllocError> {
    let alloc = rt.alloc();
    match (file_above(rt, path), reason) {
        (Some(file), _) => line(alloc, file, "not a directory"),
        (None, reason) => refused_line(alloc, path, reason),
    }
}

/// Returns a line that says why the system refuses what has this path or name, where that is known.
pub(crate) fn refused_line(
    alloc: Global,
    path: &str,
    reason: Option<ErrorKind>,
) -> Result<String, AllocError> {
    match reason {
        Some(kind) => line(alloc, path, words(kind)),
        None => Ok(String::new(alloc)),
    }
}

/// Returns the first part of a path that is none of a folder where one is needed, if one is.
fn file_above<'a, R: Files>(rt: &R, path: &'a str) -> Option<&'a str> {
    for (slash, byte) in path.as_bytes().iter().enumerate() {
        let part = path.get(..slash).unwrap_or("");
        if *byte == b'/' && is_no_folder(rt, part) {
            return Some(part);
        }
    }
    None
}

/// Returns whether a path is that of something else than a folder.
fn is_no_folder<R: Files>(rt: &R, path: &str) -> bool {
    match fs::metadata(rt, path) {
        Ok(info) => !info.is_dir(),
        Err(_) => false,
    }
}

/// Returns whether a path is that of a regular file, or of a link to one.
fn is_file<R: Files>(rt: &R, path: &str) -> bool {
    match fs::metadata(rt, path) {
        Ok(info) => info.is_file(),
        Err(_) => false,
    }
}

/// Returns a line for a path and a reason, or nothing where no reason is known.
fn line(alloc: Global, path: &str, reason: &str) -> Result<String, AllocError> {
    if reason.is_empty() {
        return Ok(String::new(alloc));
    }
    let path = shown_word(alloc, path)?;
    ["--> ", path.as_str(), ": ", reason, "\n"].concat(alloc)
}

/// Returns the words for an error of the system.
fn words(kind: ErrorKind) -> &'static str {
    match kind {
        ErrorKind::NotFound => "no such file or directory",
        ErrorKind::PermissionDenied => "permission denied",
        ErrorKind::NotADirectory => "not a directory",
        ErrorKind::IsADirectory => DIRECTORY,
        ErrorKind::FilesystemLoop => "too many symbolic links",
        ErrorKind::InvalidFilename => "file name too long",
        ErrorKind::ReadOnlyFilesystem => "read-only file system",
        ErrorKind::StorageFull => "no space left on device",
        ErrorKind::QuotaExceeded => "disk quota exceeded",
        ErrorKind::FileTooLarge => "file too large",
        ErrorKind::AlreadyExists => "file exists",
        ErrorKind::CrossesDevices => "another file system",
        ErrorKind::TooManyLinks => "too many hard links",
        _ => "",
    }
}
