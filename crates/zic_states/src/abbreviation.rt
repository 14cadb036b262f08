//! Abbreviations of local time.

ghost use Rattle.std.specs.Prelude.{◌≡◌, true, bytes_eq};
ghost use Rattle.std.specs.Cmp.{partial_equiv_from_equiv};
ghost use Rattle.std.specs.Cmp.Lexicographic.{nat_list_eq_equiv};
ghost use Rattle.zic_lines.specs.Limits.{is_abbreviation};
ghost use Rattle.zic_states.specs.Abbreviation.{abbreviation_of};

use std::marker::Model;
use zic_base::{LONGEST_ABBREVIATION, SHORTEST_ABBREVIATION, are_abbreviation_bytes};

/// An abbreviation of local time: 3 to 16 ASCII letters, digits, `+` and `-`, stored inline; clauses
/// see its bytes. Two are equal where their bytes are.
#[derive(Clone, Copy, Debug)]
pub struct Abbreviation {
    /// Its bytes, with zeros after them.
    octets: [u8; LONGEST_ABBREVIATION],
    len: usize,
}

impl Model for Abbreviation {
    ghost use Rattle.std.specs.Prelude.{ℕ, List, length, take};
    ghost use Rattle.zic_states.specs.code.Octets.{padded, HoldAbbreviation};

    ghost Value = { List ℕ };

    ghost view = { λ a. take a.len a.octets };

    ghost invariant = { λ a. HoldAbbreviation a.octets a.len };

    ghost inverse = { λ name. record { octets = padded name; len = length name } };
}

impl Abbreviation {
    /// Returns the abbreviation that these bytes are, or `None` where they aren't one.
    pub fn parse(octets: &[u8]) -> Option<Abbreviation>
        ensures { result ≡ abbreviation_of octets.now }
    {
        if !is_abbreviation(octets) {
            return None;
        }
        let len = octets.len();
        let mut room = [0; LONGEST_ABBREVIATION];
        room[..len].copy_from_slice(octets);
        Some(Abbreviation { octets: room, len })
    }

    /// Returns the bytes.
    pub fn octets(&self) -> &[u8]
        ensures octets { result.now ≡ self.now }
        ensures abbreviation { is_abbreviation self.now ≡ true }
    {
        &self.octets[..self.len]
    }
}

impl PartialEq for Abbreviation {
    ghost eq = { bytes_eq };

    ghost laws = { partial_equiv_from_equiv nat_list_eq_equiv };

    fn eq(&self, other: &Abbreviation) -> bool {
        self.octets() == other.octets()
    }
}

impl Eq for Abbreviation {
    ghost laws = { nat_list_eq_equiv };
}

/// Returns whether these bytes are an abbreviation: 3 to 16 ASCII letters, digits, `+` and `-`.
pub fn is_abbreviation(name: &[u8]) -> bool
    ensures { result ≡ is_abbreviation name.now }
{
    name.len() >= SHORTEST_ABBREVIATION
        && name.len() <= LONGEST_ABBREVIATION
        && are_abbreviation_bytes(name)
}
