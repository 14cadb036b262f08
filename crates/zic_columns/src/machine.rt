//! The machine by which a CSV reader reads a field or a record.

ghost use Rattle.std.specs.Prelude.{◌≡◌, ℕ, List, MatchOption, MatchResult, take};
ghost use Rattle.zic_columns.specs.Column.{CanDelimit};
ghost use Rattle.zic_columns.specs.code.Field.{EndsField, HasQuotes, IsField, IsOfField};
ghost use Rattle.zic_columns.specs.code.Machine.{EndsRecord, GoesOn, IsEndOfRecord, ReadsTo, state_at};

use crate::fields::Separator;
use crate::lines::ends_line;

/// The state of a CSV reader in a record.
#[derive(Clone, Copy, Drop)]
pub(crate) enum Place {
    /// At the start of a field.
    Start,
    /// In a field, and not between double quotes.
    Plain,
    /// Between double quotes.
    Quoted,
    /// After a double quote that ends the quoted text, unless another follows.
    QuoteSeen,
}

/// A byte of a field.
#[derive(Clone, Copy, Drop)]
pub(crate) struct FieldByte {
    /// The place after it.
    pub(crate) next: Place,
    /// Whether it joins the text of the field.
    pub(crate) is_text: bool,
    /// Whether it follows the double quote that ends the field, and isn't another one.
    pub(crate) is_past: bool,
}

/// The number of bytes of a field, and whether it has a stray double quote.
#[derive(Clone, Copy, Drop)]
pub(crate) struct FieldLen {
    pub(crate) len: usize,
    pub(crate) stray: bool,
}

/// Returns what a double quote is to a field: text after text that has no quotes round it, and after
/// another quote.
fn quote_byte(place: Place) -> FieldByte
    ensures { (delimiter : ℕ) → CanDelimit delimiter → IsOfField delimiter place 34 result }
{
    let (next, is_text) = match place {
        Place::Start => (Place::Quoted, false),
        Place::Plain => (Place::Plain, true),
        Place::Quoted => (Place::QuoteSeen, false),
        Place::QuoteSeen => (Place::Quoted, true),
    };
    FieldByte {
        next,
        is_text,
        is_past: false,
    }
}

/// Returns what a byte is to a field, or `None` where it ends the field.
pub(crate) fn field_byte(place: Place, byte: u8, delimiter: Separator) -> Option<FieldByte>
    ensures { MatchOption result (EndsField delimiter.byte place byte) (IsOfField delimiter.byte place byte) }
{
    if byte == b'"' {
        return Some(quote_byte(place));
    }
    let next = match place {
        Place::Quoted => Place::Quoted,
        _ if byte == delimiter.byte || ends_line(byte) => return None,
        _ => Place::Plain,
    };
    Some(FieldByte {
        next,
        is_text: true,
        is_past: matches!(place, Place::QuoteSeen),
    })
}

/// Returns the number of bytes of the field at the start of the bytes, up to its delimiter or line end, or
/// all, and whether it has a stray double quote.
pub(crate) fn field_len(bytes: &[u8], delimiter: Separator) -> FieldLen
    ensures { (text : List ℕ) × (field : IsField delimiter.byte bytes.now text result.len)
        × HasQuotes delimiter.byte (take result.len bytes.now) field.place_now result.stray }
{
    let mut place_now = Place::Start;
    let mut stray = false;
    for (index, byte) in bytes.iter().enumerate() {
        match field_byte(place_now, *byte, delimiter) {
            None => return FieldLen { len: index, stray },
            Some(read) => {
                if read.is_past {
                    stray = true;
                }
                place_now = read.next;
            }
        }
    }
    let len = bytes.len();
    match place_now {
        Place::Quoted => FieldLen { len, stray: true },
        _ => FieldLen { len, stray },
    }
}

/// Returns the place after a byte of a record, or `None` where the byte ends the record.
pub(crate) fn place_after(place: Place, byte: u8, delimiter: Separator) -> Option<Place>
    ensures { MatchOption result (EndsRecord delimiter.byte (state_at place) byte)
        (λ next. GoesOn delimiter.byte (state_at place) byte (state_at next)) }
{
    match field_byte(place, byte, delimiter) {
        Some(read) => Some(read.next),
        None if byte == delimiter.byte => Some(Place::Start),
        None => None,
    }
}

/// Returns the number of bytes up to the end of a record and with its line end.
///
/// # Errors
///
/// Returns the place after all bytes where none of them ends the record.
pub(crate) fn record_end(place: Place, bytes: &[u8], delimiter: Separator) -> Result<usize, Place>
    ensures { MatchResult result (IsEndOfRecord delimiter.byte (state_at place) bytes.now)
        (λ next. ReadsTo delimiter.byte (state_at place) bytes.now (state_at next)) }
{
    let mut place_now = place;
    for (index, byte) in bytes.iter().enumerate() {
        match place_after(place_now, *byte, delimiter) {
            Some(next) => place_now = next,
            None => return Ok(index + 1),
        }
    }
    Err(place_now)
}
