//! Why a command gives up, and the status that the program then ends with.

ghost use Rattle.std.specs.Fmt.{decimal};
ghost use Rattle.std.specs.Prelude.{◌≡◌, ◌⊎◌, ◌++◌};
ghost use Rattle.zic_io.specs.declared.failure.Failure.TheVariants.{CannotWriteOutput, Memory};
ghost use Rattle.zic_io.specs.Failing.{fault_failure, run_failure, IsCannotRead, IsUnknownZone};
ghost use Rattle.zic_io.specs.Words.{count_words, status_of};
ghost use Rattle.zic_io.specs.code.Message.{first_words, name_in};

use std::alloc::{AllocError, AllocFailed, Global};
use std::{error, fmt};
use zic_base::{Fault, Kind, RowKind, RunStop};
use zic_counted::WriteFailed;
use zic_tzif::{ReadStop, Reason};

/// Why a command gives up. Its text is what the program prints on standard error.
#[derive(Debug, Drop)]
pub enum Failure {
    /// The first fault of a source that is one text: `line L: NAME`.
    Line { line: u64, kind: Kind },
    /// The first fault of a source that is several texts: `text T line L: NAME`.
    TextLine { text: u64, line: u64, kind: Kind },
    /// The first row with a fault: `row N: NAME`.
    Row { row: u64, kind: RowKind },
    /// Some rows have faults: the first of them, and how many: `row N: NAME`, and on a second line
    /// `COUNT rows with faults`, or `1 row with a fault`.
    Rows { row: u64, kind: RowKind, count: u64 },
    /// The same, where the records of these rows are rejected.
    Rejected { row: u64, kind: RowKind, count: u64 },
    /// A column has more bytes than it may: `column: ColumnTooLong`.
    ColumnTooLong,
    /// The first check that a file fails: `file: REASON`.
    File(Reason),
    /// A source or a file, by the word that names it: `cannot read PATH`.
    CannotRead(String),
    /// `cannot read column`.
    CannotReadColumn,
    /// A file that is to be written: `cannot write PATH`.
    CannotWrite(String),
    /// `cannot write rows`.
    CannotWriteRows,
    /// A list of rows with a fault, where the run ended for it: `cannot write list`. The program reports
    /// the path of the list in its place.
    CannotWriteList,
    /// `cannot write output`.
    CannotWriteOutput,
    /// All rows are to be in a zone that no file has the name of: `unknown zone NAME`.
    UnknownZone(String),
    /// Memory ran out: `out of memory`.
    Memory,
    /// No thread could be started: `no thread`. Never answered.
    NoThread,
}

impl Failure {
    /// Returns the status of a program that ends with the failure: 1 for a fault of what is read,
    /// 2 for a zone that isn't there, 3 for what can't be read or written, 4 where memory ran out or no
    /// thread could be started, 5 where records were rejected.
    pub fn status(&self) -> u8
        ensures { result ≡ status_of self.now }
    {
        match self {
            Failure::Line { .. } | Failure::TextLine { .. } => 1,
            Failure::Row { .. } | Failure::Rows { .. } => 1,
            Failure::Rejected { .. } => 5,
            Failure::ColumnTooLong | Failure::File(_) => 1,
            Failure::UnknownZone(_) => 2,
            Failure::CannotRead(_) | Failure::CannotReadColumn => 3,
            Failure::CannotWrite(_) | Failure::CannotWriteRows => 3,
            Failure::CannotWriteList | Failure::CannotWriteOutput => 3,
            Failure::Memory | Failure::NoThread => 4,
        }
    }

    /// Returns the words with which the text begins.
    fn words(&self) -> &'static str
        ensures { result.now ≡ first_words self.now }
    {
        match self {
            Failure::Line { .. } => "line ",
            Failure::TextLine { .. } => "text ",
            Failure::Row { .. } | Failure::Rows { .. } | Failure::Rejected { .. } => "row ",
            Failure::ColumnTooLong => "column: ",
            Failure::File(_) => "file: ",
            Failure::CannotRead(_) | Failure::CannotReadColumn => "cannot read ",
            Failure::CannotWrite(_) | Failure::CannotWriteRows => "cannot write ",
            Failure::CannotWriteList | Failure::CannotWriteOutput => "cannot write ",
            Failure::UnknownZone(_) => "unknown zone ",
            Failure::Memory => "out of ",
            Failure::NoThread => "no ",
        }
    }

    /// Returns the name in the text: of a fault, a reason, a path, a zone, or what is wanting.
    fn name(&self) -> &str
        ensures { result.now ≡ name_in self.now }
    {
        match self {
            Failure::Line { kind, .. } | Failure::TextLine { kind, .. } => kind.name(),
            Failure::Row { kind, .. } | Failure::Rows { kind, .. } => kind.name(),
            Failure::Rejected { kind, .. } => kind.name(),
            Failure::ColumnTooLong => "ColumnTooLong",
            Failure::File(reason) => reason.name(),
            Failure::CannotRead(name) | Failure::CannotWrite(name) => name,
            Failure::UnknownZone(name) => name,
            Failure::CannotReadColumn => "column",
            Failure::CannotWriteRows => "rows",
            Failure::CannotWriteList => "list",
            Failure::CannotWriteOutput => "output",
            Failure::Memory => "memory",
            Failure::NoThread => "thread",
        }
    }
}

impl fmt::Display for Failure {
    ghost use Rattle.std.specs.Prelude.{Some};
    ghost use Rattle.zic_io.specs.Words.{failure_text};

    ghost output = { λ f. Some (failure_text f) };

    fn fmt<W: fmt::Write>(&self, f: &mut fmt::Formatter<W>) -> fmt::Result {
        let (words, name) = (self.words(), self.name());
        match self {
            Failure::Line { line: number, .. } | Failure::Row { row: number, .. } => {
                write!(f, "{words}{number}: {name}")
            }
            Failure::TextLine { text, line, .. } => write!(f, "{words}{text} line {line}: {name}"),
            Failure::Rows { row, count, .. } | Failure::Rejected { row, count, .. } => {
                let rows = rows_with_faults(*count);
                write!(f, "{words}{row}: {name}\n{count}{rows}")
            }
            _ => write!(f, "{words}{name}"),
        }
    }
}

/// Returns what stands after the number of rows with faults.
fn rows_with_faults(count: u64) -> &'static str
    ensures { count_words count ≡ decimal count ++ result.now }
{
    if count == 1 {
        " row with a fault"
    } else {
        " rows with faults"
    }
}

impl error::Error for Failure {}

impl From<AllocError> for Failure {
    ghost from_gives = { λ _ e. e ≡ Memory };

    fn from(_e: AllocError) -> Failure {
        Failure::Memory
    }
}

impl<T: Drop> From<AllocFailed<T>> for Failure {
    ghost from_gives = { λ _ e. e ≡ Memory };

    fn from(_e: AllocFailed<T>) -> Failure {
        Failure::Memory
    }
}

impl From<WriteFailed> for Failure {
    ghost from_gives = { λ _ e. e ≡ CannotWriteOutput };

    fn from(_e: WriteFailed) -> Failure {
        Failure::CannotWriteOutput
    }
}

impl From<ReadStop> for Failure {
    ghost use Rattle.zic_io.specs.Failing.{read_failure};

    ghost from_gives = { λ stop e. e ≡ read_failure stop };

    fn from(stop: ReadStop) -> Failure {
        match stop {
            ReadStop::Bad(reason) => Failure::File(reason),
            ReadStop::Memory => Failure::Memory,
        }
    }
}

/// Returns the failure of a run over a source of this number of texts.
pub fn run_failure(stop: RunStop, texts: usize) -> Failure
    ensures { result ≡ run_failure stop texts }
{
    match stop {
        RunStop::Source(fault) => fault_failure(fault, texts),
        RunStop::Row { row, kind } => Failure::Row { row, kind },
        RunStop::ReadFailed => Failure::CannotReadColumn,
        RunStop::WriteFailed => Failure::CannotWriteRows,
        RunStop::ColumnTooLong => Failure::ColumnTooLong,
        RunStop::Memory => Failure::Memory,
        RunStop::NoThread => Failure::NoThread,
        RunStop::LogFailed => Failure::CannotWriteList,
    }
}

/// Returns the failure for the fault of a source of this number of texts.
fn fault_failure(fault: Fault, texts: usize) -> Failure
    ensures { result ≡ fault_failure fault texts }
{
    let (place, kind) = (fault.place, fault.kind);
    if texts == 1 {
        Failure::Line {
            line: place.line,
            kind,
        }
    } else {
        Failure::TextLine {
            text: place.text,
            line: place.line,
            kind,
        }
    }
}

/// Returns the failure for a source or a file that can't be read, or that memory ran out.
pub(crate) fn cannot_read(alloc: Global, path: &str) -> Failure
    ensures { (result ≡ Memory) ⊎ IsCannotRead path.now result }
{
    match String::from_str(alloc, path) {
        Ok(path) => Failure::CannotRead(path),
        Err(_) => Failure::Memory,
    }
}

/// Returns the failure for a zone that no file has the name of, or that memory ran out.
pub fn unknown_zone(alloc: Global, name: &str) -> Failure
    ensures { (result ≡ Memory) ⊎ IsUnknownZone name.now result }
{
    match String::from_str(alloc, name) {
        Ok(name) => Failure::UnknownZone(name),
        Err(_) => Failure::Memory,
    }
}
