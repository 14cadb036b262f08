//! Explains a failure, by the request and by what was read.

use crate::column::{column_start, find_record};
use crate::expected::{Expected, expectation};
use crate::nearest::{nearest_file, nearest_rules, nearest_zone};
use crate::place::{line_about, line_place, quote_place, row_place, year_place};
use crate::reason::{Paths, refused_line, unwritten};
use crate::record::RecordForm;
use crate::refused::refused_file;
use crate::related::{TextLine, bad_abbreviation, first_name};
use crate::scan::{ShownRecord, Target};
use std::alloc::{AllocError, Global};
use std::fs::Files;
use std::io::ErrorKind;
use std::slice;
use zic_base::{Kind, Place, RowKind};
use zic_causes::{Cause, cause_of};
use zic_command_line::{Building, Exporting, Request, Zones};
use zic_explain::cases::{A_COLUMN_GZIP, A_SOURCE_GZIP, DUPLICATE_NAME_FIRST};
use zic_explain::{entries, entry_named, error_in, shown_word};
use zic_io::Failure;
use zic_layouts::{Header, Layout, Records, ZoneFrom};

/// The bytes with which a file begins that gzip made.
const GZIP: &[u8] = b"\x1f\x8b";

/// What stands for a path where output is refused.
const OUTPUT: &str = "standard output";

/// Explains the failure of a request.
#[derive(Drop)]
pub struct Explainer {
    /// The words that name sources or a file, as they are shown to people.
    words: Vec<String>,
    /// The texts of the sources.
    texts: Vec<Vec<u8>>,
    /// How many of the texts come first and are compiled apart from the others: those of OLD.
    old: usize,
    /// Where standard input begins in its file, if it is one.
    start: Option<u64>,
    /// The number of records before the rows of the column: 1 for a header, else 0.
    before: u64,
    /// Where a record of the column ends.
    records: Records,
    /// What the records of the column have.
    expected: Expected,
    /// The folder that has the files of zones, or that is to have them, if the words name one.
    folder: Option<String>,
    /// What the paths are of.
    paths: Paths,
    /// Why the system refused what was written, if that was noted.
    reason: Option<ErrorKind>,
    /// Whether the column begins as a file that gzip made.
    is_gzip: bool,
}

impl Explainer {
    /// Returns what explains the failures of a request, before it is answered.
    ///
    /// # Errors
    ///
    /// `Memory`.
    pub fn new<R: Files + AllocGlobal>(rt: &R, request: &Request) -> Result<Explainer, Failure> {
        Ok(Explainer {
            words: words_of(rt.alloc(), request)?,
            texts: Vec::new(rt.alloc()),
            old: old_count(request),
            start: column_start(rt),
            before: records_before(request),
            records: records_of(request),
            expected: expected_of(request),
            folder: folder_of(request)?,
            paths: Paths::of(request),
            reason: None,
            is_gzip: false,
        })
    }

    /// Takes the layout of the column, where its header says which fields are read.
    pub fn read_by(&mut self, layout: &Layout) {
        self.expected = expected_by(layout);
    }

    /// Takes note of why the system refused what was written, if it did.
    pub fn refused_for(&mut self, reason: Option<ErrorKind>) {
        self.reason = reason;
    }

    /// Takes note of whether the column begins as a file that gzip made.
    pub fn begins_as_gzip(&mut self, is_gzip: bool) {
        self.is_gzip = is_gzip;
    }

    /// Returns the lines that explain a failure of a request over sources of these texts, without the last
    /// line end. They may be none.
    ///
    /// # Errors
    ///
    /// Fails where memory is refused.
    pub fn explanation<R: Files + AllocGlobal>(
        mut self,
        rt: &R,
        failure: &Failure,
        texts: Vec<Vec<u8>>,
    ) -> Result<String, AllocError> {
        self.texts = texts;
        let explanation = self.explained(rt, failure);
        drop(self);
        explanation
    }

    /// Returns these lines, by the texts of the sources.
    fn explained<R: Files + AllocGlobal>(
        &self,
        rt: &R,
        failure: &Failure,
    ) -> Result<String, AllocError> {
        let record = self.record(rt, failure);
        let lines = self.lines(rt, failure, record.as_ref());
        drop(record);
        lines
    }

    /// Returns the same, by what is shown of the record at fault.
    fn lines<R: Files + AllocGlobal>(
        &self,
        rt: &R,
        failure: &Failure,
        record: Option<&ShownRecord>,
    ) -> Result<String, AllocError> {
        let mut text = self.place(rt, failure, record)?;
        let reason = self.reason(rt, failure, record)?;
        text.push_str(reason.as_str())?;
        let _ = text.pop();
        Ok(text)
    }

    /// Returns the lines that say why there is a failure, and what is expected.
    fn reason<R: Files + AllocGlobal>(
        &self,
        rt: &R,
        failure: &Failure,
        record: Option<&ShownRecord>,
    ) -> Result<String, AllocError> {
        let refused = self.refused(rt, failure, record)?;
        if refused.is_empty() {
            return self.sections(rt.alloc(), failure);
        }
        Ok(refused)
    }

    /// Returns the sections that say what is expected.
    fn sections(&self, alloc: Global, failure: &Failure) -> Result<String, AllocError> {
        let entries = entries(alloc)?;
        let message = message_of(alloc, failure)?;
        let name = error_in(&entries, message.as_str());
        match (row_of(failure), entry_named(&entries, name)) {
            (Some((_, kind)), Some(entry)) => self.expected.sections(alloc, kind, &entry),
            _ => expectation(alloc, &entries, name),
        }
    }

    /// Returns the lines that say why the file of a zone that a failure names is refused, if it is.
    fn refused<R: Files + AllocGlobal>(
        &self,
        rt: &R,
        failure: &Failure,
        record: Option<&ShownRecord>,
    ) -> Result<String, AllocError> {
        let Some(folder) = &self.folder else {
            return Ok(String::new(rt.alloc()));
        };
        match (failure, row_of(failure), record) {
            (Failure::UnknownZone(name), _, _) => refused_file(
                rt,
                folder.as_str(),
                name.as_bytes(),
            ),
            (_, Some((_, RowKind::RowZone)), Some(record)) => {
                refused_file(rt, folder.as_str(), &record.zone)
            }
            _ => Ok(String::new(rt.alloc())),
        }
    }

    /// Returns the lines that say where a failure is, if it is at a place, and which name is nearest where
    /// one is unknown.
    fn place<R: Files + AllocGlobal>(
        &self,
        rt: &R,
        failure: &Failure,
        record: Option<&ShownRecord>,
    ) -> Result<String, AllocError> {
        let alloc = rt.alloc();
        match failure {
            Failure::Line { line, kind } => self.line_place(alloc, *kind, 0, *line),
            Failure::TextLine { text, line, kind } => {
                self.line_place(alloc, *kind, text.saturating_sub(1) as usize, *line)
            }
            Failure::File(_) => ["--> ", self.word(0), "\n"].concat(alloc),
            Failure::Row { row, kind }
            | Failure::Rows { row, kind, .. }
            | Failure::Rejected { row, kind, .. } => { self.row_place(rt, *kind, *row, record) }
            Failure::UnknownZone(name) => self.nearest(rt, name.as_bytes()),
            Failure::CannotRead(path) => self.paths.unread(rt, path.as_str(), self.folder()),
            Failure::CannotWrite(path) => unwritten(rt, path.as_str(), self.reason),
            Failure::CannotWriteRows | Failure::CannotWriteOutput => {
                refused_line(alloc, OUTPUT, self.reason)
            }
            _ => Ok(String::new(alloc)),
        }
    }

    /// Returns the lines that say where the fault of a line is, what it is about, and which line or name
    /// it is to be compared with.
    fn line_place(
        &self,
        alloc: Global,
        kind: Kind,
        text: usize,
        line: u64,
    ) -> Result<String, AllocError> {
        let mut place = line_place(alloc, kind, self.word(text), self.text(text), line)?;
        if self.text(text).starts_with(GZIP) {
            place.push_str(A_SOURCE_GZIP)?;
            place.push('\n')?;
        }
        let related = self.related(alloc, kind, text, line)?;
        place.push_str(related.as_str())?;
        Ok(place)
    }

    /// Returns the lines that say which line or name the fault of a line is to be compared with, if any.
    fn related(
        &self,
        alloc: Global,
        kind: Kind,
        text: usize,
        line: u64,
    ) -> Result<String, AllocError> {
        let Side { texts, before } = self.side(text);
        let at = TextLine {
            text: text.saturating_sub(before),
            line,
        };
        match kind {
            Kind::UnknownRules => nearest_rules(alloc, texts, at),
            Kind::DuplicateName => match first_name(alloc, texts, at)? {
                Some(first) => {
                    self.given_first(alloc, before.saturating_add(first.text), first.line)
                }
                None => Ok(String::new(alloc)),
            },
            _ => self.caused(alloc, kind, texts, before, at),
        }
    }

    /// Returns the lines that say which lines besides its Zone line cause the fault of a zone. The texts
    /// of the source are those from the one at index `first` on.
    fn caused(
        &self,
        alloc: Global,
        kind: Kind,
        texts: &[Vec<u8>],
        first: usize,
        at: TextLine,
    ) -> Result<String, AllocError> {
        let zone = Place {
            text: (at.text as u64).saturating_add(1),
            line: at.line,
        };
        let Some(cause) = cause_of(alloc, texts, kind, zone)? else {
            return Ok(String::new(alloc));
        };
        let lines = self.cause_lines(alloc, kind, zone, first, &cause);
        drop(cause);
        lines
    }

    /// Returns the lines for what causes the fault of the zone whose Zone line stands at `zone`.
    fn cause_lines(
        &self,
        alloc: Global,
        kind: Kind,
        zone: Place,
        first: usize,
        cause: &Cause,
    ) -> Result<String, AllocError> {
        let mut lines = String::new(alloc);
        for place in &cause.places {
            if *place != zone {
                let text = first.saturating_add(place.text.saturating_sub(1) as usize);
                let shown = line_place(alloc, kind, self.word(text), self.text(text), place.line)?;
                lines.push_str(shown.as_str())?;
            }
        }
        lines.push_str(detail(alloc, cause)?.as_str())?;
        Ok(lines)
    }

    /// Returns a line that says where a name is given first.
    fn given_first(&self, alloc: Global, text: usize, line: u64) -> Result<String, AllocError> {
        let path = self.word(text);
        let place = format!(in alloc; "{path}:{line}")?;
        line_about(alloc, &DUPLICATE_NAME_FIRST, place.as_str())
    }

    /// Returns the lines that say where the fault of a row is, and which zone's name is nearest.
    fn row_place<R: Files + AllocGlobal>(
        &self,
        rt: &R,
        kind: RowKind,
        row: u64,
        record: Option<&ShownRecord>,
    ) -> Result<String, AllocError> {
        let text = match record {
            Some(record) => Some(&record.text[..]),
            None => None,
        };
        let alloc = rt.alloc();
        let mut place = row_place(alloc, kind, row, self.expected.form, text)?;
        if self.is_gzip {
            place.push_str(A_COLUMN_GZIP)?;
            place.push('\n')?;
        }
        let Some(record) = record else {
            return Ok(place);
        };
        if let Some(lines) = record.lines {
            place.push_str(quote_place(alloc, lines)?.as_str())?;
        }
        if kind == RowKind::RowZone {
            place.push_str(self.nearest(rt, &record.zone)?.as_str())?;
        }
        Ok(place)
    }

    /// Returns the lines that name the zone whose name is nearest to this one, if one is near.
    fn nearest<R: Files + AllocGlobal>(&self, rt: &R, name: &[u8]) -> Result<String, AllocError> {
        match &self.folder {
            Some(folder) => nearest_file(rt, folder, name),
            None => nearest_zone(rt.alloc(), self.side(self.old).texts, name),
        }
    }

    /// Returns what is shown of the record of the row that a failure is about, where it can be read
    /// again.
    fn record<R: Files + AllocGlobal>(&self, rt: &R, failure: &Failure) -> Option<ShownRecord> {
        let (row, _) = row_of(failure)?;
        let sought = Target {
            number: self.before.saturating_add(row),
            records: self.records,
            delimiter: self.expected.form.delimiter,
            zone: self.expected.form.zone,
        };
        find_record(rt, self.start?, sought)
    }

    /// Returns the texts that are compiled together with the one at this index.
    fn side(&self, text: usize) -> Side<'_> {
        let (old, new) = self.texts.split_at(self.old.min(self.texts.len()));
        if text < self.old {
            Side {
                texts: old,
                before: 0,
            }
        } else {
            Side {
                texts: new,
                before: self.old,
            }
        }
    }

    /// Returns the folder that the words name, or an empty text.
    fn folder(&self) -> &str {
        match &self.folder {
            Some(folder) => folder.as_str(),
            None => "",
        }
    }

    /// Returns the word at this index, or an empty text.
    fn word(&self, index: usize) -> &str {
        match self.words.get(index) {
            Some(word) => word.as_str(),
            None => "",
        }
    }

    /// Returns the text at this index, or an empty one.
    fn text(&self, index: usize) -> &[u8] {
        match self.texts.get(index) {
            Some(text) => text,
            None => &[],
        }
    }
}

/// Returns the line that says in which year rules are out of order, or what is no abbreviation.
fn detail(alloc: Global, cause: &Cause) -> Result<String, AllocError> {
    match (cause.year, &cause.abbreviation) {
        (Some(year), _) => year_place(alloc, year),
        (None, Some(abbreviation)) => bad_abbreviation(alloc, abbreviation),
        (None, None) => Ok(String::new(alloc)),
    }
}

/// The texts of a release, and how many others come before them.
#[derive(Clone, Copy)]
struct Side<'a> {
    texts: &'a [Vec<u8>],
    before: usize,
}

/// Returns how many texts are compiled apart from those after them.
fn old_count(request: &Request) -> usize {
    match request {
        Request::Diff { old, .. } => *old,
        _ => old_of(request).len(),
    }
}

/// Returns the number of records of the column that are no rows.
fn records_before(request: &Request) -> u64 {
    match request {
        Request::Convert(order) if order.layout.header != Header::Absent => 1,
        _ => 0,
    }
}

/// Returns where a record of the column ends.
fn records_of(request: &Request) -> Records {
    match request {
        Request::Convert(order) => order.layout.records,
        _ => Records::Csv,
    }
}

/// Returns what the records of the column have.
fn expected_of(request: &Request) -> Expected {
    match request {
        Request::Convert(order) => expected_by(&order.layout),
        _ => expected_by(&Layout::plain(Header::Absent)),
    }
}

/// Returns what the records of a column of this layout have.
fn expected_by(layout: &Layout) -> Expected {
    let form = RecordForm {
        zone: match &layout.zone {
            ZoneFrom::Field(index) => Some(*index),
            ZoneFrom::Name(_) => None,
        },
        time: layout.time,
        from: layout.from,
        unit: layout.unit,
        delimiter: layout.delimiter.byte(),
    };
    Expected {
        form,
        count: layout.count,
        max_record: layout.max_record,
    }
}

/// Returns the folder that has the files of zones, or that is to have them, if the words name one.
fn folder_of(request: &Request) -> Result<Option<String>, AllocError> {
    match request {
        Request::Build(Building { folder, .. }) | Request::Verify { folder, .. } => {
            Ok(Some(folder.clone()?))
        }
        Request::Convert(order) => match &order.zones {
            Zones::Tree(folder) => Ok(Some(folder.clone()?)),
            Zones::Sources(_) => Ok(None),
        },
        _ => Ok(None),
    }
}

/// Returns the words of a request that name sources or a file, as they are shown to people.
fn words_of(alloc: Global, request: &Request) -> Result<Vec<String>, AllocError> {
    let mut words = Vec::new(alloc);
    push_words(alloc, old_of(request), &mut words)?;
    push_words(alloc, named_in(request), &mut words)?;
    Ok(words)
}

/// Adds words as they are shown to people.
fn push_words(alloc: Global, named: &[String], words: &mut Vec<String>) -> Result<(), AllocError> {
    for word in named {
        words.push(shown_word(alloc, word.as_str())?)?;
    }
    Ok(())
}

/// Returns the sources that rows are compared with, if there are any.
fn old_of(request: &Request) -> &[String] {
    match request {
        Request::Convert(order) => match &order.against {
            Some(Zones::Sources(old)) => old,
            Some(Zones::Tree(_)) | None => &[],
        },
        _ => &[],
    }
}

/// Returns the words of a request that name sources or a file, but for those of [`old_of`].
fn named_in(request: &Request) -> &[String] {
    match request {
        Request::Convert(order) => match &order.zones {
            Zones::Sources(sources) => sources,
            Zones::Tree(_) => &[],
        },
        Request::Check { sources, .. }
        | Request::Build(Building { sources, .. })
        | Request::Verify { sources, .. }
        | Request::Diff { sources, .. } => sources,
        Request::Show { file, .. }
        | Request::ShowLocal { file, .. }
        | Request::ShowNext { file, .. }
        | Request::Dump { file, .. }
        | Request::Export(Exporting { file, .. }) => slice::from_ref(file),
        Request::Explain { .. } | Request::Version { .. } | Request::Help { .. } => &[],
    }
}

/// Returns the message by which the error of a failure is found. A path in it is `PATH`, since a file may
/// have the name `column`.
fn message_of(alloc: Global, failure: &Failure) -> Result<String, AllocError> {
    match failure {
        Failure::CannotRead(_) => String::from_str(alloc, "cannot read PATH"),
        Failure::CannotWrite(_) => String::from_str(alloc, "cannot write PATH"),
        _ => format!(in alloc; "{failure}"),
    }
}

/// Returns the number of the row that a failure is about, and its fault, if it is about one.
fn row_of(failure: &Failure) -> Option<(u64, RowKind)> {
    match failure {
        Failure::Row { row, kind }
        | Failure::Rows { row, kind, .. }
        | Failure::Rejected { row, kind, .. } => Some((*row, *kind)),
        _ => None,
    }
}
