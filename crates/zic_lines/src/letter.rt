//! Letters of rules.

ghost use Rattle.std.specs.Prelude.{◌≡◌};
ghost use Rattle.zic_lines.specs.Letter.{letter_of, is_letter};

use crate::word::is_dash;
use std::alloc::Global;
use std::marker::Model;
use zic_base::{ShortText, are_abbreviation_bytes};

/// The greatest length of a letter, in bytes.
pub const LONGEST_LETTER: usize = 16;

/// The text for which `%s` of a FORMAT stands: at most 16 ASCII letters, digits, `+` and `-`, all
/// stored inline; clauses see its bytes.
#[derive(Debug, Drop)]
pub struct Letter {
    text: ShortText<LONGEST_LETTER>,
}

impl Model for Letter {
    ghost use Rattle.std.specs.Prelude.{◌≡◌, List, ℕ, true};
    ghost use Rattle.zic_lines.specs.Letter.{is_letter};

    ghost Value = { List ℕ };

    ghost view = { λ l. l.text };

    ghost invariant = { λ l. is_letter l.text ≡ true };
}

impl Letter {
    ghost use Rattle.std.specs.Prelude.{true};

    /// Returns the letter that the field is, or `None` where it isn't one; the field `-` is the
    /// empty letter. Takes no memory.
    #[tactic(auto, unfolding(crate::specs::Letter::letter_of))]
    pub fn parse(alloc: Global, field: &[u8]) -> Option<Letter>
        ensures { result ≡ letter_of field.now }
    {
        let octets = if is_dash(field) { &[] } else { field };
        if !is_letter(octets) {
            return None;
        }
        match ShortText::new(alloc, octets) {
            Ok(text) => Some(Letter { text }),
            Err(_) => unreachable!(),
        }
    }

    /// Returns the bytes, none where the field is `-`.
    pub fn octets(&self) -> &[u8]
        ensures octets { result.now ≡ self.now }
        ensures letter { is_letter self.now ≡ true }
    {
        self.text.octets()
    }
}

/// Returns whether there are at most 16 bytes, and abbreviations may have each of them.
fn is_letter(octets: &[u8]) -> bool
    ensures { result ≡ is_letter octets.now }
{
    octets.len() <= LONGEST_LETTER && are_abbreviation_bytes(octets)
}
