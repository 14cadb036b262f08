//! Headers.

ghost use Rattle.std.specs.Prelude.{◌≡◌, ◌+◌, ◌≤◌, length};
ghost use Rattle.zic_tzif.specs.Header.{number_at, counts_at, block_length};
ghost use Rattle.zic_tzif.specs.Reading.{are_counts};

use byteorder::{BigEndian, ByteOrder};

/// The length of a header in bytes.
pub const HEADER_LENGTH: usize = 44;

/// The six counts of a header, in their order.
#[derive(Clone, Copy)]
pub struct Counts {
    pub ut_indicators: u32,
    pub standard_indicators: u32,
    pub leap_seconds: u32,
    pub transitions: u32,
    pub types: u32,
    pub characters: u32,
}

/// Returns the number in the four bytes at a place, the highest first.
fn number_at(octets: &[u8], place: usize) -> u32
    requires { place + 4 ≤ length octets.now }
    ensures { result ≡ number_at octets.now place }
{
    BigEndian::read_u32(&octets[place..])
}

/// Returns the counts of the header at a place.
pub fn counts_at(octets: &[u8], place: usize) -> Counts
    requires { place + 44 ≤ length octets.now }
    ensures { result ≡ counts_at octets.now place }
{
    Counts {
        ut_indicators: number_at(octets, place + 20),
        standard_indicators: number_at(octets, place + 24),
        leap_seconds: number_at(octets, place + 28),
        transitions: number_at(octets, place + 32),
        types: number_at(octets, place + 36),
        characters: number_at(octets, place + 40),
    }
}

impl Counts {
    /// Returns the length in bytes of a data block without leap seconds, where a time has `width`
    /// bytes.
    pub fn block_length(self, width: usize) -> usize
        requires { width ≤ 8 }
        ensures { result ≡ block_length self width }
    {
        self.transitions as usize * (width + 1)
            + self.types as usize * 6
            + self.characters as usize
            + self.standard_indicators as usize
            + self.ut_indicators as usize
    }

    /// Returns whether a second data block may have these counts: it has a type, designations, and
    /// for each type an indicator or for none.
    pub fn are_readable(self) -> bool
        ensures { result ≡ are_counts self }
    {
        self.types > 0
            && self.characters > 0
            && (self.standard_indicators == 0 || self.standard_indicators == self.types)
            && (self.ut_indicators == 0 || self.ut_indicators == self.types)
    }
}
