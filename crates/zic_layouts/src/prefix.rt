//! What the names of added fields begin with.

ghost use Rattle.std.specs.Prelude.{◌≡◌, [], true, false, IfSome, IfNone};
ghost use Rattle.std.specs.List.{list_all};
ghost use Rattle.zic_layouts.specs.Delimiter.{is_row_byte};
ghost use Rattle.zic_layouts.specs.Prefix.{is_prefix};

use crate::delimiter::is_row_byte;
use arrayvec::ArrayVec;
use std::marker::Model;

/// The most bytes of a prefix.
pub const MAX_PREFIX: usize = 64;

/// What the names of the fields begin with, in a header, that rows add to records: at most
/// [`MAX_PREFIX`] bytes, each a letter, a digit or one of `+ - . / : _`. Clauses see the bytes.
#[derive(Drop)]
pub struct Prefix {
    text: ArrayVec<u8, MAX_PREFIX>,
}

impl Model for Prefix {
    ghost use Rattle.std.specs.Prelude.{◌≡◌, ℕ, List, true};
    ghost use Rattle.zic_layouts.specs.Prefix.{is_prefix};

    ghost Value = { List ℕ };

    ghost view = { λ p. p.text.items };

    ghost invariant = { λ p. is_prefix p.text.items ≡ true };
}

impl Prefix {
    /// Returns the prefix of no bytes.
    pub fn none() -> Prefix
        ensures { result ≡ [] }
    {
        Prefix {
            text: ArrayVec::new(),
        }
    }

    /// Returns some bytes as a prefix, or `None` if they are too many, or one is no letter, no digit and
    /// none of `+ - . / : _`.
    pub fn new(bytes: &[u8]) -> Option<Prefix>
        ensures none { IfNone result (is_prefix bytes.now ≡ false) }
        ensures some { IfSome result (λ prefix. prefix ≡ bytes.now) }
    {
        if bytes.len() > MAX_PREFIX || !are_row_bytes(bytes) {
            return None;
        }
        let mut text = ArrayVec::new();
        text.try_extend_from_slice(bytes).unwrap();
        Some(Prefix { text })
    }

    /// Returns the same prefix.
    pub(crate) fn copy(&self) -> Prefix
        ensures { result ≡ self.now }
    {
        let mut text = ArrayVec::new();
        text.try_extend_from_slice(self.text.as_slice()).unwrap();
        Prefix { text }
    }

    /// Returns the bytes.
    pub fn bytes(&self) -> &[u8]
        ensures bytes { result.now ≡ self.now }
        ensures sound { is_prefix self.now ≡ true }
    {
        self.text.as_slice()
    }
}

/// Returns whether each byte is one that a field of a row can have.
fn are_row_bytes(bytes: &[u8]) -> bool
    ensures { result ≡ list_all is_row_byte bytes.now }
{
    bytes.iter().all(|byte| is_row_byte(*byte))
}
