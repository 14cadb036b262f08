//! States of a zone, as callers see them, and the bytes of abbreviations.

ghost use Rattle.std.specs.Prelude.{◌≡◌};
ghost use Rattle.std.specs.List.{list_all};
ghost use Rattle.zic_base.specs.Byte.{is_abbreviation_byte};

/// The state that a zone shows at an instant: RFC 9636, 2.
#[derive(Clone, Copy, Debug, PartialEq, Eq, Hash)]
pub struct State<'a> {
    /// Total UT offset in seconds, positive east.
    pub offset: i32,
    /// Whether this is daylight saving time.
    pub daylight: bool,
    /// The abbreviation, in ASCII.
    pub name: &'a [u8],
}

/// Returns whether abbreviations of local time may have the byte: an ASCII letter, a digit, `+` or
/// `-`.
pub fn is_abbreviation_byte(byte: u8) -> bool
    ensures { result ≡ is_abbreviation_byte byte }
{
    byte.is_ascii_alphanumeric() || matches!(byte, b'+' | b'-')
}

/// Returns whether abbreviations of local time may have each of these bytes.
pub fn are_abbreviation_bytes(bytes: &[u8]) -> bool
    ensures { result ≡ list_all is_abbreviation_byte bytes.now }
{
    bytes.iter().all(|byte| is_abbreviation_byte(*byte))
}
