//! Names of rule sets.

ghost use Rattle.std.specs.Prelude.{◌≡◌, IsSome, IfSome, IfOk};
ghost use Rattle.std.specs.List.{list_all};
ghost use Rattle.zic_lines.specs.SetName.{is_visible, begins_name, is_set_name};

use crate::name::LONGEST_NAME;
use std::alloc::{AllocError, Global};
use std::marker::Model;
use zic_base::ShortText;

/// The name of a rule set: 1 to 255 bytes from 0x21 to 0x7E, the first no digit, `-` or `+`;
/// clauses see its bytes. Up to 16 bytes are stored inline.
#[derive(Debug, Drop, Clone, PartialEq, Eq, Hash)]
pub struct SetName {
    text: ShortText<16>,
}

impl Model for SetName {
    ghost use Rattle.std.specs.Prelude.{◌≡◌, List, ℕ, true};
    ghost use Rattle.zic_lines.specs.SetName.{is_set_name};

    ghost Value = { List ℕ };

    ghost view = { λ n. n.text };

    ghost invariant = { λ n. is_set_name n.text ≡ true };

    ghost inverse = { λ octets. record { text = octets } };
}

impl SetName {
    ghost use Rattle.std.specs.Prelude.{◌↔◌, true};

    /// Returns the name that the field is, or `None` where it isn't one. Takes memory only where it
    /// is.
    pub fn parse(alloc: Global, field: &[u8]) -> Option<Result<SetName, AllocError>>
        ensures just { IsSome result ↔ (is_set_name field.now ≡ true) }
        ensures name { IfSome result (λ made. IfOk made (λ name. name ≡ field.now)) }
    {
        if !is_set_name(field) {
            return None;
        }
        match ShortText::new(alloc, field) {
            Ok(text) => Some(Ok(SetName { text })),
            Err(error) => Some(Err(error)),
        }
    }

    /// Returns the bytes.
    pub fn octets(&self) -> &[u8]
        ensures octets { result.now ≡ self.now }
        ensures name { is_set_name self.now ≡ true }
    {
        self.text.octets()
    }
}

fn is_visible(byte: u8) -> bool
    ensures { result ≡ is_visible byte }
{
    matches!(byte, 0x21..=0x7e)
}

fn are_visible(field: &[u8]) -> bool
    ensures { result ≡ list_all is_visible field.now }
{
    field.iter().all(|byte| is_visible(*byte))
}

/// Returns whether the field isn't empty and doesn't begin as an amount of saving does.
fn begins_name(field: &[u8]) -> bool
    ensures { result ≡ begins_name field.now }
{
    match field {
        [] => false,
        [byte, ..] => !(byte.is_ascii_digit() || matches!(*byte, b'-' | b'+')),
    }
}

/// Returns whether the field is the name of a rule set.
fn is_set_name(field: &[u8]) -> bool
    ensures { result ≡ is_set_name field.now }
{
    field.len() <= LONGEST_NAME && begins_name(field) && are_visible(field)
}
