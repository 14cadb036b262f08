//! Double quotes in a column.

ghost use Rattle.std.specs.Prelude.{◌≡◌, true, MatchOption};
ghost use Rattle.zic_columns.specs.Column.{HasNoQuote};
ghost use Rattle.zic_columns.specs.Quotes.{has_stray, is_past_quote};
ghost use Rattle.zic_columns.specs.code.Machine.{state_at};
ghost use Rattle.zic_columns.specs.code.Quote.{IsFirstQuote, StraysOn};

use crate::fields::Separator;
use crate::machine::{Place, field_byte};
use memchr::memchr;
use zic_layouts::Delimiter;

/// Returns the index of the first double quote.
///
/// Whole lines before it have plain records. From its line on, the column is for a CSV reader.
pub fn first_quote(bytes: &[u8]) -> Option<usize>
    ensures { MatchOption result (HasNoQuote bytes.now) (λ at. IsFirstQuote bytes.now at) }
{
    memchr(b'"', bytes)
}

/// Returns the place after a byte of own bytes, or `None` where it follows the double quote that ends a
/// field and is neither a delimiter, a double quote nor a line end.
fn next_place(place: Place, byte: u8, delimiter: Separator) -> Option<Place>
    ensures { MatchOption result (is_past_quote delimiter.byte (state_at place) byte ≡ true)
        (StraysOn delimiter.byte place byte) }
{
    match field_byte(place, byte, delimiter) {
        Some(read) if read.is_past => None,
        Some(read) => Some(read.next),
        None => Some(Place::Start),
    }
}

/// Returns whether the own bytes of a record have a stray double quote.
fn has_stray(own: &[u8], delimiter: Separator) -> bool
    ensures { result ≡ has_stray delimiter.byte own.now }
{
    let mut place_now = Place::Start;
    for byte in own {
        match next_place(place_now, *byte, delimiter) {
            Some(next) => place_now = next,
            None => return true,
        }
    }
    matches!(place_now, Place::Quoted)
}

/// Returns whether the own bytes of a record have a stray double quote: one that is open at their end, or
/// one that ends a field, with a byte after it that is neither a delimiter, a double quote nor a line end.
///
/// RFC 4180, 2, has no such record.
pub fn has_stray_quote(own: &[u8], delimiter: &Delimiter) -> bool
    ensures { result ≡ has_stray delimiter.now own.now }
{
    has_stray(own, Separator::of(delimiter))
}
