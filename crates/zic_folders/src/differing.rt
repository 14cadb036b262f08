//! `diff`: when the files of two releases answer otherwise.

ghost use Rattle.std.specs.Prelude.{◌≡◌, ◌≤ℤ◌, IfOk, IfSome};
ghost use Rattle.zic_compare.specs.Files.{HasInstants};
ghost use Rattle.zic_compile.specs.Build.{AreFilesOfTexts};
ghost use Rattle.zic_source.specs.Texts.{texts_of};

use crate::ending::Ending;
use crate::folder::Folder;
use std::fs::Files;
use std::io::{self, Input, Write};
use std::random::RandomSource;
use std::sync::Wait;
use std::thread::Threads;
use std::time::Clock;
use zic_bulk::files_of;
use zic_command_line::Differences;
use zic_compare::{
    Comparison, DiffStop, Grouping, Listed, Refused, Sides, Style, Survey, write_diff,
};
use zic_counted::Counted;
use zic_files::Files as ZoneFiles;
use zic_host::{OldAndNew, fault_in, old_and_new, read_texts, show_of_folders, show_of_sources};
use zic_io::Failure;
use zic_layouts::{Compared, Plan};
use zic_row_text::FIRST_INSTANT;
use zic_tzif::Instants;

/// Which two releases are compared, and what is listed of them.
#[derive(Clone, Copy)]
pub struct Differing<'a> {
    /// The old sources and then the new ones, or the folders.
    pub sources: &'a [String],
    /// How many of these are old.
    pub old: usize,
    /// Whether they are folders of TZif files.
    pub trees: bool,
    pub plan: &'a Plan,
    pub differences: &'a Differences,
    pub compared: Compared,
    /// How instants are written.
    pub style: Style,
    /// Which names have lines of their own.
    pub grouping: Grouping,
    /// Whether the releases of both are printed.
    pub shows_release: bool,
    /// Whether the command ends otherwise where zones differ.
    pub tells_status: bool,
}

/// Lists when the files of the new sources or the new folder answer otherwise than those of the old. Reads
/// the texts of sources. Returns how the command ends.
///
/// # Errors
///
/// Why the texts aren't read or have no files, `CannotRead` with the path of a folder, `CannotWriteOutput`,
/// or `Memory`. By then a beginning of the list may be printed.
pub fn diff<
    R: Files + Input + Print + Clock + RandomSource + AllocGlobal + Threads + Wait + Sync,
    E: Write + Drop,
>(
    rt: &R,
    errors: E,
    differing: &Differing<'_>,
    texts: &mut Vec<Vec<u8>>,
) -> Result<Ending, Failure> {
    let mut errors = errors;
    let Some(how) = listed(rt, differing) else {
        return Ok(Ending::NoClock);
    };
    let differ = if differing.trees {
        if differing.shows_release {
            show_of_folders(rt, &mut errors, differing.sources)?;
        }
        diff_trees(rt, &mut errors, differing.plan, differing.sources, &how)?
    } else {
        read_texts(rt, differing.sources, texts)?;
        if differing.shows_release {
            show_of_sources(rt.alloc(), &mut errors, differing.sources, texts)?;
        }
        let texts = old_and_new(texts, differing.old);
        diff_texts(rt, differing.plan, &texts, &how)?
    };
    Ok(Ending::of_zones(differing.tells_status, differ))
}

/// Returns what is listed of two sources or folders, or `None` where that needs a clock that can't be read.
fn listed<R: Clock>(rt: &R, differing: &Differing<'_>) -> Option<Listed>
    ensures { IfSome result HasInstants }
{
    let (compared, style) = (differing.compared, differing.style);
    let grouping = differing.grouping;
    match differing.differences {
        Differences::Within { years, since } => Some(Listed::Spans(Comparison {
            compared,
            style,
            grouping,
            bounds: from_on(years.instants(), *since),
        })),
        Differences::Summary { since } => Some(Listed::Summaries(Survey {
            compared,
            style,
            grouping,
            since: since.unwrap_or(FIRST_INSTANT),
            present: present(rt, *since)?,
        })),
    }
}

/// Returns these instants from another one on, if one is given, or the last of them where that comes after
/// all.
fn from_on(bounds: Instants, since: Option<i64>) -> Instants
    requires { bounds.first ≤ℤ bounds.last }
    ensures order { result.first ≤ℤ result.last }
    ensures last { result.last ≡ bounds.last }
{
    match since {
        Some(since) if since <= bounds.last => Instants {
            first: since,
            last: bounds.last,
        },
        Some(_) => Instants {
            first: bounds.last,
            last: bounds.last,
        },
        None => bounds,
    }
}

/// Returns the instant that is given as now, or the clock's in whole seconds, if it can be read.
fn present<R: Clock>(rt: &R, given: Option<i64>) -> Option<i64> {
    if given.is_some() {
        return given;
    }
    match rt.since_1970() {
        Ok(time) => Some(i64::try_from(time.as_secs()).unwrap_or(i64::MAX)),
        Err(_) => None,
    }
}

/// Lists when the files of the new texts answer otherwise than those of the old.
fn diff_texts<R: Print + AllocGlobal + Threads + Wait + Sync>(
    rt: &R,
    plan: &Plan,
    texts: &OldAndNew<'_>,
    how: &Listed,
) -> Result<bool, Failure>
    requires { HasInstants how.now }
{
    let old = text_files(rt, plan, texts.old, 0)?;
    let done = diff_new(rt, plan, &old, texts, how);
    drop(old);
    done
}

/// Lists when the files of the new texts answer otherwise than these.
fn diff_new<R: Print + AllocGlobal + Threads + Wait + Sync>(
    rt: &R,
    plan: &Plan,
    old: &ZoneFiles,
    texts: &OldAndNew<'_>,
    how: &Listed,
) -> Result<bool, Failure>
    requires { HasInstants how.now }
{
    let new = text_files(rt, plan, texts.new, texts.old.len() as u64)?;
    let none: Vec<String> = Vec::new(rt.alloc());
    let refused = Refused {
        old: &none,
        new: &none,
    };
    let sides = Sides {
        old,
        new: &new,
        refused,
    };
    let done = diff_files(rt, plan, &sides, how);
    drop(new);
    done
}

/// Returns the files of texts, before which this many others stand. A fault of one is that of several texts.
fn text_files<R: AllocGlobal + Threads + Wait + Sync>(
    rt: &R,
    plan: &Plan,
    texts: &[Vec<u8>],
    before: u64,
) -> Result<ZoneFiles, Failure>
    ensures { IfOk result (AreFilesOfTexts (texts_of texts.now)) }
{
    match files_of(rt, rt.alloc(), plan, texts) {
        Ok(files) => Ok(files),
        Err(failure) => Err(fault_in(before, failure)),
    }
}

/// Lists when the files of the last folder answer otherwise than those of the first.
fn diff_trees<R: Files + Print + RandomSource + AllocGlobal + Threads + Wait + Sync, E: Write>(
    rt: &R,
    errors: &mut E,
    plan: &Plan,
    folders: &[String],
    how: &Listed,
) -> Result<bool, Failure>
    requires { HasInstants how.now }
{
    let (Some(old), Some(new)) = (folders.first(), folders.last()) else {
        return Ok(false);
    };
    let old = Folder::read(rt, old)?;
    let done = diff_tree(rt, errors, plan, &old, new, how);
    drop(old);
    done
}

/// Lists when the files of a folder answer otherwise than those of this one.
fn diff_tree<R: Files + Print + RandomSource + AllocGlobal + Threads + Wait + Sync, E: Write>(
    rt: &R,
    errors: &mut E,
    plan: &Plan,
    old: &Folder<'_>,
    new: &String,
    how: &Listed,
) -> Result<bool, Failure>
    requires { HasInstants how.now }
{
    let new = Folder::read(rt, new)?;
    let done = diff_folders(rt, errors, plan, old, &new, how);
    drop(new);
    done
}

/// Lists when the files of two folders answer otherwise, and which are refused. A name whose file is
/// refused in one of them is left out of the files of both: it is neither removed nor added.
fn diff_folders<R: Files + Print + RandomSource + AllocGlobal + Threads + Wait + Sync, E: Write>(
    rt: &R,
    errors: &mut E,
    plan: &Plan,
    old: &Folder<'_>,
    new: &Folder<'_>,
    how: &Listed,
) -> Result<bool, Failure>
    requires { HasInstants how.now }
{
    let refused_old = old.tell_refused(rt, errors, new.zones.files())?;
    let refused_new = new.tell_refused(rt, errors, old.zones.files())?;
    let refused = Refused {
        old: &refused_old,
        new: &refused_new,
    };
    diff_fit(rt, plan, old, new, &refused, how)
}

/// Lists when the files of two folders that aren't refused answer otherwise, and which are.
fn diff_fit<R: Files + Print + RandomSource + AllocGlobal + Threads + Wait + Sync>(
    rt: &R,
    plan: &Plan,
    old: &Folder<'_>,
    new: &Folder<'_>,
    refused: &Refused<'_>,
    how: &Listed,
) -> Result<bool, Failure>
    requires { HasInstants how.now }
{
    if refused.old.is_empty() && refused.new.is_empty() {
        let sides = Sides {
            old: old.zones.files(),
            new: new.zones.files(),
            refused: *refused,
        };
        return diff_files(rt, plan, &sides, how);
    }
    let old = old.read_but(rt, refused.new)?;
    let done = diff_but(rt, plan, old.files(), new, refused, how);
    drop(old);
    done
}

/// Lists when the files of a folder that aren't refused answer otherwise than these, and which are.
fn diff_but<R: Files + Print + RandomSource + AllocGlobal + Threads + Wait + Sync>(
    rt: &R,
    plan: &Plan,
    old: &ZoneFiles,
    new: &Folder<'_>,
    refused: &Refused<'_>,
    how: &Listed,
) -> Result<bool, Failure>
    requires { HasInstants how.now }
{
    let new = new.read_but(rt, refused.old)?;
    let sides = Sides {
        old,
        new: new.files(),
        refused: *refused,
    };
    let done = diff_files(rt, plan, &sides, how);
    drop(new);
    done
}

/// Lists when the files of two lists answer otherwise, and which are refused. Returns whether anything is
/// listed.
fn diff_files<R: Print + AllocGlobal + Threads + Wait + Sync>(
    rt: &R,
    plan: &Plan,
    sides: &Sides<'_>,
    how: &Listed,
) -> Result<bool, Failure>
    requires { HasInstants how.now }
{
    let mut output = Counted::new(io::writer(rt));
    match write_diff(rt, rt.alloc(), plan, sides, how, &mut output) {
        Ok(differ) => Ok(differ),
        Err(DiffStop::Memory) => Err(Failure::Memory),
        Err(DiffStop::WriteFailed) => Err(Failure::CannotWriteOutput),
    }
}
