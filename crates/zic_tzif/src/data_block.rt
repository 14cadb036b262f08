//! The second data block.

ghost use Rattle.std.specs.Prelude.{◌≡◌, ◌+◌, ◌*◌, ◌≤◌, nat_le, length};
ghost use Rattle.std.specs.List.{list_all};

use crate::header::Counts;
use crate::reason::Reason;
use crate::transition::{TIME_LENGTH, do_rise, have_types};
use crate::type_record::{RECORD_LENGTH, are_designated, are_type_records};

/// A data block without leap seconds, cut into its parts.
#[derive(Clone, Copy)]
pub struct DataBlock<'a> {
    /// The number of transitions.
    pub transitions: u32,
    /// Their times.
    pub times: &'a [u8],
    /// The numbers of the types that begin at them.
    pub numbers: &'a [u8],
    /// The number of local time types.
    pub types: u32,
    /// Their records.
    pub records: &'a [u8],
    /// The bytes of designations.
    pub names: &'a [u8],
    /// The standard and UT indicators.
    pub indicators: &'a [u8],
    /// The place after the block.
    pub end: usize,
    ghost times_are_there: { transitions * 8 ≤ length times.now },
    ghost numbers_are_there: { length numbers.now ≡ transitions },
    ghost records_are_there: { types * 6 ≤ length records.now },
}

impl<'a> DataBlock<'a> {
    ghost use Rattle.zic_tzif.specs.Header.{block_length, second_block, second_counts};
    ghost use Rattle.zic_tzif.specs.code.Parts.{Checks, HasParts, checks_of};

    /// Cuts the second data block, which begins at `place`, into its parts.
    pub fn second(octets: &'a [u8], place: usize, counts: Counts) -> Self
        requires place { place ≡ second_block octets.now }
        requires counts { counts ≡ second_counts octets.now }
        requires inside { place + block_length counts 8 ≤ length octets.now }
        ensures { HasParts octets.now result }
    {
        let transitions = counts.transitions as usize;
        let (_, rest) = octets.split_at(place);
        let (times, rest) = rest.split_at(transitions * TIME_LENGTH);
        let (numbers, rest) = rest.split_at(transitions);
        let (records, rest) = rest.split_at(counts.types as usize * RECORD_LENGTH);
        let (names, rest) = rest.split_at(counts.characters as usize);
        let number = counts.standard_indicators as usize + counts.ut_indicators as usize;
        let (indicators, _) = rest.split_at(number);
        DataBlock {
            transitions: counts.transitions,
            times,
            numbers,
            types: counts.types,
            records,
            names,
            indicators,
            end: place + counts.block_length(8),
        }
    }

    /// Checks the times, the numbers of their types, the designations, the other bytes of the
    /// records, and the indicators, in this order.
    pub fn check(&self) -> Result<(), Reason>
        ensures { Checks (checks_of self.now) (λ _. Unit {0}) result }
    {
        if !do_rise(self.transitions, self.times) {
            return Err(Reason::TimesNotRising);
        }
        if !have_types(self.numbers, self.types) {
            return Err(Reason::TypeIndex);
        }
        if !are_designated(self.types, self.records, self.names) {
            return Err(Reason::Designation);
        }
        if !are_type_records(self.types, self.records) {
            return Err(Reason::TypeRecord);
        }
        if !are_indicators(self.indicators) {
            return Err(Reason::Indicators);
        }
        Ok(())
    }
}

/// Returns whether each indicator is 0 or 1.
fn are_indicators(octets: &[u8]) -> bool
    ensures { result ≡ list_all (λ b. nat_le b 1) octets.now }
{
    octets.iter().all(|b| *b <= 1)
}
