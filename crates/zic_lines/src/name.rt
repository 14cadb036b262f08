//! Names of zones and links.

ghost use Rattle.std.specs.Prelude.{◌≡◌, ◌==◌, Some, IsSome, IfSome, IfOk};
ghost use Rattle.std.specs.List.{list_all, slice_split};
ghost use Rattle.zic_lines.specs.Name.{is_name, is_name_byte, is_name_part};

use crate::word::is_dash;
use std::alloc::{AllocError, Global};
use std::marker::Model;
use zic_base::ShortText;

/// The greatest length of the name of a zone, a link or a rule set, in bytes.
pub const LONGEST_NAME: usize = 255;

/// The name of a zone or a link: 1 to 255 ASCII letters, digits, `_`, `-`, `+`, `.` and `/`, and no
/// part between slashes is empty, `.` or `..`; clauses see its bytes. Up to 32 bytes are stored
/// inline.
#[derive(Debug, Drop, Clone, PartialEq, Eq, Hash)]
pub struct Name {
    text: ShortText<32>,
}

impl Model for Name {
    ghost use Rattle.std.specs.Prelude.{◌≡◌, List, ℕ, true};
    ghost use Rattle.zic_lines.specs.Name.{is_name};

    ghost Value = { List ℕ };

    ghost view = { λ n. n.text };

    ghost invariant = { λ n. is_name n.text ≡ true };

    ghost inverse = { λ octets. record { text = octets } };
}

impl Name {
    ghost use Rattle.std.specs.Prelude.{◌↔◌, true};

    /// Returns the name that the field is, or `None` where it isn't one. Takes memory only where it
    /// is.
    pub fn parse(alloc: Global, field: &[u8]) -> Option<Result<Name, AllocError>>
        ensures just { IsSome result ↔ (is_name field.now ≡ true) }
        ensures name { IfSome result (λ made. IfOk made (λ name. name ≡ field.now)) }
    {
        if !is_name(field) {
            return None;
        }
        match ShortText::new(alloc, field) {
            Ok(text) => Some(Ok(Name { text })),
            Err(error) => Some(Err(error)),
        }
    }

    /// Returns the bytes.
    pub fn octets(&self) -> &[u8]
        ensures octets { result.now ≡ self.now }
        ensures name { is_name self.now ≡ true }
    {
        self.text.octets()
    }
}

fn is_name_byte(byte: u8) -> bool
    ensures { result ≡ is_name_byte byte }
{
    byte.is_ascii_alphanumeric() || matches!(byte, b'_' | b'-' | b'+' | b'.' | b'/')
}

/// Returns whether each byte may stand in a name.
fn are_name_bytes(field: &[u8]) -> bool
    ensures { result ≡ list_all is_name_byte field.now }
{
    field.iter().all(|byte| is_name_byte(*byte))
}

/// Returns whether this part may stand between the slashes of a name.
fn is_name_part(part: &[u8]) -> bool
    ensures { result ≡ is_name_part part.now }
{
    match part {
        [] => false,
        [a] => *a != b'.',
        [a, b] => *a != b'.' || *b != b'.',
        _ => true,
    }
}

/// Returns whether each part between slashes may stand there.
fn are_name_parts(field: &[u8]) -> bool
    ensures { result ≡ list_all is_name_part (slice_split (λ byte. byte == 47) field.now) }
{
    field
        .split(|byte| *byte == b'/')
        .all(|part| is_name_part(part))
}

/// Returns whether the field is the name of a zone or a link.
fn is_name(field: &[u8]) -> bool
    ensures { result ≡ is_name field.now }
{
    field.len() <= LONGEST_NAME && !is_dash(field) && are_name_bytes(field) && are_name_parts(field)
}
