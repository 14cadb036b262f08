//! `convert`, from the texts of its sources to the report of its end.

ghost use Rattle.std.specs.Option.{option_copied};
ghost use Rattle.std.specs.Prelude.{◌≡◌, option_map, string_bytes};
ghost use Rattle.zic_converting.specs.Ending.{ended, faults_in, path_of, told_beside, IsReportOf};

use crate::ending::{Unwritten, ended, keeps_lists, report};
use crate::header::Head;
use crate::lists::{ListReasons, Lists};
use crate::ready::{keep_memory, ready_releases};
use crate::rows::{convert_rows, end_at_header};
use std::alloc::Global;
use std::fs::Files;
use std::io::{Input, IsTerminal, Write};
use std::mem;
use std::random::RandomSource;
use std::sync::Wait;
use std::thread::Threads;
use std::time::Clock;
use zic_command_line::ConvertOptions;
use zic_host::WriteReason;
use zic_io::{Failure, ProgressLine};

/// What a command has read, and what the message of its failure needs besides it.
#[derive(Drop)]
pub struct ConvertContext {
    /// The texts of the sources, once all of them are read.
    pub texts: Vec<Vec<u8>>,
    /// What was read of the column for its header.
    pub(crate) head: Head,
    /// Why the header can't be read, where fields have names.
    pub(crate) header: Option<Failure>,
    /// What ended a run, where a list is reported before it that can't be written.
    pub ended: Option<Failure>,
    /// The faults of rows after which a run went on, where something else ended it.
    pub faults: Option<Failure>,
    /// Why the system refused what was to be written, as far as that is known.
    pub reason: WriteReason,
    /// Whether the column begins as a file that gzip made.
    pub is_gzip: bool,
}

impl ConvertContext {
    /// Returns what is noted before anything is read.
    pub fn new(alloc: Global) -> ConvertContext {
        ConvertContext {
            texts: Vec::new(alloc),
            head: Head::new(alloc),
            header: None,
            ended: None,
            faults: None,
            reason: WriteReason::none(),
            is_gzip: false,
        }
    }
}

/// Converts standard input to standard output, and reports the rows. Where the run goes on after
/// faults, it writes them and their records to the files that are named for these, if any, and where rows
/// are compared with another release, the numbers of rows of each zone to the file for these.
///
/// # Errors
///
/// Why a header with names can't be read, why the texts aren't read or have no files, `CannotRead` with the
/// path of a folder or of a file in it, `CannotWrite` with the path of a list, why a conversion ends, `Rows` or
/// `Rejected` for the faults after which it went on, or `Memory`.
pub fn convert<
    R: Files + Input + Print + Clock + RandomSource + AllocGlobal + Threads + Wait + Sync,
    E: Write + IsTerminal + Drop,
>(rt: &R, order: &ConvertOptions, errors: E, noted: &mut ConvertContext) -> Result<(), Failure> {
    let mut errors = errors;
    if let Some(failure) = mem::replace(&mut noted.header, None) {
        let line = progress_line(order.progress, errors);
        return end_at_header(rt, order, &noted.reason, line, failure);
    }
    keep_memory(rt.alloc());
    ready_releases(rt, order, &mut errors, noted)?;
    let line = progress_line(order.progress, errors);
    convert_listed(rt, order, noted, line)
}

/// Returns where to report progress, if requested.
fn progress_line<E: IsTerminal + Drop>(progress: bool, errors: E) -> ProgressLine<E> {
    if !progress {
        ProgressLine::Never
    } else if errors.is_terminal() {
        ProgressLine::Anew(errors)
    } else {
        ProgressLine::Once(errors)
    }
}

/// Converts standard input, and writes the lists of faults, of their records and of the rows of each zone. A
/// fault of the source, an unknown zone, a file that can't be read or lack of memory before the first fault leaves earlier lists as
/// they are. A list that can't be written is reported whatever ended the rows, and before it.
fn convert_listed<
    R: Files + Input + Print + Clock + RandomSource + AllocGlobal + Threads + Wait + Sync,
    E: Write + Drop,
>(
    rt: &R,
    order: &ConvertOptions,
    noted: &mut ConvertContext,
    line: ProgressLine<E>,
) -> Result<(), Failure> {
    let reasons = ListReasons::none();
    let converted = convert_into(rt, order, noted, line, &reasons);
    if let Some(kind) = reasons.take() {
        noted.reason.set(Some(kind));
    }
    converted
}

/// Converts standard input, and writes the lists, of which it is noted there why the system refuses one.
fn convert_into<
    R: Files + Input + Print + Clock + RandomSource + AllocGlobal + Threads + Wait + Sync,
    E: Write + Drop,
>(
    rt: &R,
    order: &ConvertOptions,
    noted: &mut ConvertContext,
    line: ProgressLine<E>,
    reasons: &ListReasons,
) -> Result<(), Failure> {
    let mut lists = Lists::open(rt, order, reasons)?;
    let converted = convert_rows(rt, order, &mut *noted, line, &mut lists.list);
    let converted = lists.unless_short(converted);
    end(order, noted, lists, converted)
}

/// Takes note of the faults of rows, writes the lists, and returns how the run ends.
fn end<R: Files>(
    order: &ConvertOptions,
    noted: &mut ConvertContext,
    lists: Lists<'_, R>,
    converted: Result<u64, Failure>,
) -> Result<(), Failure>
    ensures told { let faults = faults_in order.now.layout.at_fault lists.entry.list.noted in
        noted.new.faults ≡ told_beside faults (ended faults converted) }
    ensures reported { let faults = faults_in order.now.layout.at_fault lists.entry.list.noted in
        IsReportOf order.now faults (ended faults converted) result noted.new.ended }
{
    let faults = lists.faults(order);
    let ended = ended(converted, &faults);
    drop(mem::replace(&mut noted.faults, faults.told_beside(&ended)));
    let unwritten = if keeps_lists(&faults, &ended) {
        drop(lists);
        None
    } else {
        lists.finish()
    };
    report(ended, path_of(order, unwritten), &mut noted.ended)
}

/// Returns the path of a list.
fn path_of(order: &ConvertOptions, unwritten: Option<Unwritten>) -> Option<&String>
    ensures { option_map string_bytes (option_copied result) ≡ path_of order.now unwritten }
{
    match unwritten? {
        Unwritten::Faults => order.faults.as_ref(),
        Unwritten::Rejects => order.rejects.as_ref(),
        Unwritten::Summary => order.summary.as_ref(),
    }
}
