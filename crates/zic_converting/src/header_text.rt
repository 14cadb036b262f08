//! The fields of a header, one after another.

use std::alloc::{AllocError, Global};
use zic_columns::{Field, Span, push_field};
use zic_command_line::HeaderFields;
use zic_layouts::Delimiter;

/// The least number of bytes of a field after which no more of them are looked at.
const LEAST: usize = 65_536;

/// Where a reader of CSV stands in a record.
#[derive(Clone, Copy, Drop)]
pub(crate) enum Place {
    /// At the start of a field.
    Start,
    /// In a field, and not between double quotes.
    Plain,
    /// Between double quotes.
    Quoted,
    /// After a double quote that ends the quoted text, unless another follows.
    QuoteSeen,
}

/// Returns the place after a byte, or `None` where the byte ends the field.
pub(crate) fn place_after(place: Place, byte: u8, delimiter: u8) -> Option<Place> {
    match (place, byte) {
        (Place::Start, b'"') | (Place::QuoteSeen, b'"') => Some(Place::Quoted),
        (Place::Quoted, b'"') => Some(Place::QuoteSeen),
        (Place::Quoted, _) => Some(Place::Quoted),
        (_, b'\r' | b'\n') => None,
        (_, _) if byte == delimiter => None,
        (_, _) => Some(Place::Plain),
    }
}

/// Takes note of the fields of a record by its own bytes, with this delimiter between them. No bytes have no
/// field. A byte order mark belongs to the first: that of the column isn't among these bytes.
///
/// # Errors
///
/// Fails where memory is refused.
pub(crate) fn note_fields(
    alloc: Global,
    record: &[u8],
    delimiter: &Delimiter,
    fields: &mut HeaderFields<'_>,
) -> Result<(), AllocError> {
    let mut text = FieldText::new(alloc, delimiter, fields.telling_len());
    let mut start = 0;
    let mut place = Place::Start;
    for (index, byte) in record.iter().enumerate() {
        match place_after(place, *byte, delimiter.byte()) {
            Some(next) => place = next,
            None => {
                fields.push(alloc, text.of(&record[start..index])?)?;
                if *byte != delimiter.byte() {
                    return Ok(());
                }
                start = index + 1;
                place = Place::Start;
            }
        }
    }
    if record.is_empty() {
        return Ok(());
    }
    fields.push(alloc, text.of(&record[start..])?)
}

/// The text of a field, made in the place of that of the field before.
#[derive(Drop)]
struct FieldText<'a> {
    text: Vec<u8>,
    delimiter: &'a Delimiter,
    /// The number of bytes of a field that are looked at, if it has more.
    most: usize,
}

impl<'a> FieldText<'a> {
    /// Makes a text of no field. Of the text of a field that has more bytes, `telling_len` bytes at least are
    /// made.
    fn new(alloc: Global, delimiter: &'a Delimiter, telling_len: usize) -> FieldText<'a> {
        // Two double quotes may stand for one in the text, and the first opens it.
        let most = telling_len.saturating_mul(2).saturating_add(8);
        FieldText {
            text: Vec::new(alloc),
            delimiter,
            most: most.max(LEAST),
        }
    }

    /// Returns the text of the field in these bytes, or its start.
    fn of(&mut self, field: &[u8]) -> Result<&[u8], AllocError> {
        let field = front(field, self.most);
        let all = Span {
            start: 0,
            end: field.len(),
        };
        let field_now = match field.first() {
            Some(b'"') => Field::Quoted(all),
            _ => Field::Plain(all),
        };
        self.text.clear();
        push_field(&mut self.text, field, field_now, self.delimiter)?;
        Ok(&self.text)
    }
}

/// Returns the first `most` bytes of a field, or up to three fewer, so that they don't end within a
/// character; all bytes where it has no more.
fn front(field: &[u8], most: usize) -> &[u8] {
    if field.len() <= most {
        return field;
    }
    for end in (most.saturating_sub(3)..most + 1).rev() {
        if !is_within_character(field[end]) {
            return &field[..end];
        }
    }
    &field[..most]
}

/// Returns whether a byte goes on with a character of UTF-8.
fn is_within_character(byte: u8) -> bool {
    byte & 0b1100_0000 == 0b1000_0000
}
