//! What stands between the fields of records and of rows.

ghost use Rattle.std.specs.Prelude.{◌≡◌, true, false, IfSome, IfNone};
ghost use Rattle.zic_layouts.specs.Delimiter.{is_delimiter, is_row_byte};

use std::marker::Model;

/// The byte between the fields of a record and of a row: an ASCII byte that no field of a row can
/// have, and neither a double quote nor a line end. Clauses see the byte.
#[derive(Debug, Drop)]
pub struct Delimiter {
    byte: u8,
}

impl Model for Delimiter {
    ghost use Rattle.std.specs.Prelude.{◌≡◌, ℕ, true};
    ghost use Rattle.zic_layouts.specs.Delimiter.{is_delimiter};

    ghost Value = { ℕ };

    ghost view = { λ d. d.byte };

    ghost invariant = { λ d. is_delimiter d.byte ≡ true };
}

impl Delimiter {
    /// Returns the byte as a delimiter, or `None` if it can't be one: a letter, a digit, one
    /// of `+ - . / : _`, a double quote, a line feed, a carriage return, or a byte above 127.
    pub fn new(byte: u8) -> Option<Delimiter>
        ensures none { IfNone result (is_delimiter byte ≡ false) }
        ensures some { IfSome result (λ delimiter. delimiter ≡ byte) }
    {
        if !is_delimiter(byte) {
            return None;
        }
        Some(Delimiter { byte })
    }

    /// Returns the comma.
    pub fn comma() -> Delimiter
        ensures { result ≡ 44 }
    {
        Delimiter { byte: b',' }
    }

    /// Returns the same delimiter.
    pub(crate) fn copy(&self) -> Delimiter
        ensures { result ≡ self.now }
    {
        Delimiter { byte: self.byte }
    }

    /// Returns the byte.
    pub fn byte(&self) -> u8
        ensures byte { result ≡ self.now }
        ensures sound { is_delimiter self.now ≡ true }
    {
        self.byte
    }
}

/// Returns whether a byte can stand between fields.
fn is_delimiter(byte: u8) -> bool
    ensures { result ≡ is_delimiter byte }
{
    let of_csv = byte == b'"' || byte == b'\n' || byte == b'\r';
    byte < 128 && !is_row_byte(byte) && !of_csv
}

/// Returns whether a field of a row can have a byte.
pub(crate) fn is_row_byte(byte: u8) -> bool
    ensures { result ≡ is_row_byte byte }
{
    byte.is_ascii_alphanumeric()
        || byte == b'+'
        || byte == b'-'
        || byte == b'.'
        || byte == b'/'
        || byte == b':'
        || byte == b'_'
}
