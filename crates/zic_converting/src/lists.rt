//! The lists of a conversion: the files for the faults of rows, for their records, and for the numbers of rows
//! of each zone.

ghost use Rattle.std.specs.Prelude.{◌≡◌};
ghost use Rattle.zic_converting.specs.Ending.{faults_in};

use crate::ending::{Faults, Unwritten, first_unwritten};
use std::fs::Files;
use std::io::{BufWriter, ErrorKind};
use std::random::RandomSource;
use zic_command_line::ConvertOptions;
use zic_host::{Noting, WriteReason, random_number};
use zic_io::{Failure, FaultList, ListFile, ZoneTallies};

/// Why the system refuses the lists of a conversion, as far as it is known.
#[derive(Drop)]
pub(crate) struct ListReasons {
    faults: WriteReason,
    rejects: WriteReason,
    summary: WriteReason,
}

impl ListReasons {
    /// Returns the note where no list was refused until now.
    pub(crate) fn none() -> ListReasons {
        ListReasons {
            faults: WriteReason::none(),
            rejects: WriteReason::none(),
            summary: WriteReason::none(),
        }
    }

    /// Returns why the first list that is refused is, if one is, and removes that from the note.
    pub(crate) fn take(&self) -> Option<ErrorKind> {
        let rejects_or_summary = self.rejects.take().or(self.summary.take());
        self.faults.take().or(rejects_or_summary)
    }
}

/// The writer into the file of a list.
type ListWriter<'a, R> = BufWriter<Noting<'a, ListFile<'a, R>>>;

/// The lists of a conversion, as far as files are named for them. Each has its path once it is finished by
/// [`Lists::finish`]; until then what has the path stays, but for a [`ListFile`] that is written where it is.
#[derive(Drop)]
pub(crate) struct Lists<'a, R: Files> {
    pub(crate) list: FaultList<ListWriter<'a, R>>,
    /// The file for the numbers of rows of each zone.
    summary: Option<ListWriter<'a, R>>,
}

impl<'a, R: Files + RandomSource + AllocGlobal> Lists<'a, R> {
    /// Opens the files, and writes nothing to them. It is noted there why the system refuses one, also later.
    ///
    /// # Errors
    ///
    /// `CannotWrite` with the path of a file that can't be made or opened, or `Memory`.
    pub(crate) fn open(
        rt: &'a R,
        order: &ConvertOptions,
        reasons: &'a ListReasons,
    ) -> Result<Lists<'a, R>, Failure> {
        let list = fault_list(rt, order, reasons)?;
        match list_file(rt, &order.summary, &reasons.summary) {
            Ok(summary) => Ok(Lists { list, summary }),
            Err(failure) => {
                drop(list);
                Err(failure)
            }
        }
    }
}

/// Opens the files for faults and for their records.
fn fault_list<'a, R: Files + RandomSource + AllocGlobal>(
    rt: &'a R,
    order: &ConvertOptions,
    reasons: &'a ListReasons,
) -> Result<FaultList<ListWriter<'a, R>>, Failure> {
    let faults = list_file(rt, &order.faults, &reasons.faults)?;
    match list_file(rt, &order.rejects, &reasons.rejects) {
        Ok(rejects) => Ok(FaultList::new(rt.alloc(), faults, rejects, order.fault_fields)),
        Err(failure) => {
            drop(faults);
            Err(failure)
        }
    }
}

impl<R: Files> Lists<'_, R> {
    /// Returns the faults that were noted.
    pub(crate) fn faults(&self, order: &ConvertOptions) -> Faults
        ensures { result ≡ faults_in order.now.layout.at_fault self.now.list.noted }
    {
        Faults {
            at_fault: order.layout.at_fault,
            first: self.list.first(),
            count: self.list.count(),
        }
    }

    /// Returns how rows ended, or that memory ran out where some of the numbers of rows are missing.
    pub(crate) fn unless_short(&self, converted: Result<u64, Failure>) -> Result<u64, Failure> {
        if self.list.tallies().is_short() {
            drop(converted);
            Err(Failure::Memory)
        } else {
            converted
        }
    }

    /// Has the files pass on what they hold back, and the system write it, and gives each that is whole its
    /// path. Returns the first that isn't, if there is one.
    pub(crate) fn finish(self) -> Option<Unwritten> {
        let Lists { list, summary } = self;
        let mut list = list;
        let has_faults = list.finish_faults();
        let has_rejects = list.finish_rejects();
        let has_summary = has_summary(list.tallies(), summary);
        let (faults, rejects) = list.into_files();
        first_unwritten(
            has_faults && is_finished(faults),
            has_rejects && is_finished(rejects),
            has_summary,
        )
    }
}

/// Writes the numbers of rows of each zone to their file, if there is one, has the system write it, and gives
/// it its path. Where some numbers are missing, the file is given up. Returns whether that succeeded.
fn has_summary<R: Files>(tallies: &ZoneTallies, summary: Option<ListWriter<'_, R>>) -> bool {
    let Some(file) = summary else {
        return true;
    };
    if tallies.is_short() {
        drop(file);
        return true;
    }
    match tallies.written(file) {
        Some(file) => is_finished(Some(file)),
        None => false,
    }
}

/// Returns the file of a list at this path, if there is one, which nothing is written to yet.
fn list_file<'a, R: Files + RandomSource + AllocGlobal>(
    rt: &'a R,
    path: &Option<String>,
    reason: &'a WriteReason,
) -> Result<Option<ListWriter<'a, R>>, Failure> {
    let Some(path) = path else {
        return Ok(None);
    };
    let file = open_file(rt, path, reason)?;
    match BufWriter::new(rt.alloc(), Noting::new(file, reason)) {
        Ok(file) => Ok(Some(file)),
        Err(_) => Err(Failure::Memory),
    }
}

/// Opens the file of a list at this path.
fn open_file<'a, R: Files + RandomSource + AllocGlobal>(
    rt: &'a R,
    path: &String,
    reason: &WriteReason,
) -> Result<ListFile<'a, R>, Failure> {
    match ListFile::open(rt.alloc(), rt, path.as_str(), random_number(rt)) {
        Ok(file) => Ok(file),
        Err(e) if e.kind() == ErrorKind::OutOfMemory => Err(Failure::Memory),
        Err(e) => {
            reason.set(Some(e.kind()));
            Err(Failure::CannotWrite(path.clone()?))
        }
    }
}

/// Has the system write a file, if there is one, and gives it its path. Returns whether that succeeded.
fn is_finished<R: Files>(file: Option<ListWriter<'_, R>>) -> bool {
    let Some(mut file) = file else {
        return true;
    };
    let writer = file.get_mut();
    let finished = writer.get_mut().finish();
    if let Err(e) = &finished {
        writer.note(e);
    }
    finished.is_ok()
}
