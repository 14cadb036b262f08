//! The fields of a record of a column, as far as its explanation needs them.

use crate::faulty::Part;
use zic_base::RowKind;
use zic_explain::Span;
use zic_layouts::{InstantText, TimeFrom, Unit};

/// Where the records of a column have the zone and the instant of a row.
#[derive(Clone, Copy, Debug)]
pub struct RecordForm {
    /// The index of the field with the name of the zone, from 0, if records have one.
    pub zone: Option<usize>,
    /// The index of the field with the instant, or with the local time, from 0.
    pub time: usize,
    /// How that field has it.
    pub from: TimeFrom,
    /// What instants count.
    pub unit: Unit,
    /// The byte between fields.
    pub delimiter: u8,
}

impl RecordForm {
    /// Returns the index of the field that a fault of this kind is about, if it is about one.
    fn faulty_index(self, kind: RowKind) -> Option<usize> {
        match kind {
            RowKind::RowZone => self.zone,
            RowKind::RowInstant
            | RowKind::RowRange
            | RowKind::RowLocal
            | RowKind::RowSkipped
            | RowKind::RowRepeated => Some(self.time),
            RowKind::RowFields
            | RowKind::TooManyRows
            | RowKind::RowQuote
            | RowKind::RowTooLong
            | RowKind::HeaderIsRow => None,
        }
    }

    /// Returns what the field is called that a fault of this kind is about.
    pub fn label(self, kind: RowKind) -> &'static str {
        match (kind, self.from, self.unit) {
            (RowKind::RowZone, _, _) => "NAME",
            (_, TimeFrom::Text(InstantText::Seconds), _) => "SECONDS",
            (_, TimeFrom::Text(_), _) => "INSTANT",
            (_, TimeFrom::Local(_), _) => "LOCAL TIME",
            (_, TimeFrom::Count, Unit::Second) => "SECONDS",
            (_, TimeFrom::Count, Unit::Millisecond) => "MILLISECONDS",
            (_, TimeFrom::Count, Unit::Microsecond) => "MICROSECONDS",
            (_, TimeFrom::Count, Unit::Nanosecond) => "NANOSECONDS",
        }
    }
}

/// Returns the part of a record that a fault of this kind is about: a field, or all of it.
pub(crate) fn faulty_field(kind: RowKind, form: RecordForm, record: &[u8]) -> Part {
    let field = form.faulty_index(kind);
    let span = field.and_then(|index| field_span(record, form.delimiter, index));
    let all = Span {
        start: 0,
        end: record.len(),
    };
    Part {
        span: span.unwrap_or(all),
        field,
    }
}

/// Returns where the field at this index stands, with its double quotes, if the record has it.
fn field_span(record: &[u8], delimiter: u8, index: usize) -> Option<Span> {
    let mut start = 0;
    let mut left = index;
    let mut quoted = false;
    for (at, byte) in record.iter().enumerate() {
        // A quote in a field that doesn't begin with one is text.
        if *byte == b'"' && record.get(start) == Some(&b'"') {
            quoted = !quoted;
        } else if *byte == delimiter && !quoted {
            if left == 0 {
                return Some(Span { start, end: at });
            }
            left -= 1;
            start = at + 1;
        }
    }
    let end = record.trim_ascii_end().len();
    if left == 0 {
        Some(Span { start, end })
    } else {
        None
    }
}
