//! Lines of a source, as the compiler reads them, and what their fields are called.

use std::alloc::{AllocError, Global};
use zic_base::{Place, Stop};
use zic_lines::{Entry, Fields, Keyword, line_entry};

/// A place where no line is: the compiler's answers here are not shown with theirs.
const NOWHERE: Place = Place { text: 1, line: 1 };

/// Returns whether a byte ends a line.
pub(crate) fn is_line_feed(byte: &u8) -> bool {
    *byte == b'\n'
}

/// Takes a line apart. Returns whether it can be cut into fields, and has some.
pub(crate) fn has_fields<'a>(
    alloc: Global,
    fields: &mut Fields<'a>,
    line: &'a [u8],
) -> Result<bool, AllocError> {
    match fields.take_line(alloc, NOWHERE, line) {
        Ok(()) => Ok(fields.len() > 0),
        Err(Stop::Fault(_)) => Ok(false),
        Err(Stop::Memory) => Err(AllocError),
    }
}

/// Returns what a line says, where a continuation line is awaited or not; `None` where it says nothing
/// or has a fault.
pub(crate) fn entry_of(
    alloc: Global,
    awaited: bool,
    line: &[u8],
) -> Result<Option<Box<Entry>>, AllocError> {
    let mut fields = Fields::new(alloc);
    let _ = has_fields(alloc, &mut fields, line)?;
    if fields.len() == 0 {
        return Ok(None);
    }
    match line_entry(alloc, awaited, NOWHERE, &fields) {
        Ok(entry) => Ok(Some(Box::new(alloc, entry)?)),
        Err(Stop::Fault(_)) => Ok(None),
        Err(Stop::Memory) => Err(AllocError),
    }
}

/// Returns whether a continuation line follows a line that says this.
pub(crate) fn goes_on(entry: &Entry) -> bool {
    match entry {
        Entry::Zone(_, line) | Entry::Continuation(line) => line.until.is_some(),
        Entry::Rule(_) | Entry::Link(_) => false,
    }
}

/// Returns whether a continuation line is awaited after this number of lines of a text.
pub(crate) fn awaits(alloc: Global, text: &[u8], lines: u64) -> Result<bool, AllocError> {
    let mut awaited = false;
    let mut left = lines;
    for line in text.split(is_line_feed) {
        if left == 0 {
            break;
        }
        left -= 1;
        if let Some(entry) = entry_of(alloc, awaited, line)? {
            awaited = goes_on(&entry);
        }
    }
    Ok(awaited)
}

/// Returns the line of this number, from 1 on.
pub(crate) fn line_at(text: &[u8], line: u64) -> Option<&[u8]> {
    let mut left = line;
    for bytes in text.split(is_line_feed) {
        if left == 1 {
            return Some(bytes);
        }
        left = left.saturating_sub(1);
    }
    None
}

/// What a line of a source is.
#[derive(Clone, Copy, PartialEq, Eq)]
pub(crate) enum Form {
    Rule,
    Zone,
    Continuation,
    Link,
    /// Its first field is no keyword, or it has no field.
    Other,
}

impl Form {
    /// Returns what the fields are called, in order.
    pub(crate) fn labels(self) -> &'static [&'static str] {
        match self {
            Form::Rule => &[
                "Rule", "NAME", "FROM", "TO", "-", "IN", "ON", "AT", "SAVE", "LETTER",
            ],
            Form::Zone => &[
                "Zone", "NAME", "STDOFF", "RULES", "FORMAT", "YEAR", "MONTH", "DAY", "TIME",
            ],
            Form::Continuation => &["STDOFF", "RULES", "FORMAT", "YEAR", "MONTH", "DAY", "TIME"],
            Form::Link => &["Link", "TARGET", "LINK-NAME"],
            Form::Other => &[],
        }
    }
}

/// Returns what a line with this keyword is, where a continuation line is awaited or not.
pub(crate) fn form_of(awaited: bool, keyword: Option<Keyword>) -> Form {
    if awaited {
        return Form::Continuation;
    }
    match keyword {
        Some(Keyword::Rule) => Form::Rule,
        Some(Keyword::Zone) => Form::Zone,
        Some(Keyword::Link) => Form::Link,
        None => Form::Other,
    }
}
