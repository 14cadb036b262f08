//! POSIX TZ strings from text.

ghost use Rattle.std.specs.Prelude.{◌≡◌, ◌⊎◌, ℕ, IfOk, OnErr};
ghost use Rattle.zic_base.specs.Memory.{NeverRefuses, OnOutOfMemory};
ghost use Rattle.zic_posix.specs.Footer.{TzString};
ghost use Rattle.zic_posix.specs.Grammar.{IsTzString, Spells};
ghost use Rattle.zic_posix.specs.Parsing.{refusal_of, IsLong, HasLongName, NeedsMemory};
ghost use Rattle.zic_posix.specs.code.Text.{daylight, string};

use crate::footer::{Abbr, Dst, Footer};
use crate::reader::{DstText, TzText, string_of};
use std::alloc::{AllocError, Global};

/// The reason why a text isn't parsed.
#[derive(Clone, Copy, Debug, PartialEq, Eq)]
pub enum ParseStop {
    /// The text isn't in the grammar of its version.
    BadFooter,
    /// A growth of memory was refused.
    Memory,
}

impl From<AllocError> for ParseStop {
    ghost use Rattle.zic_posix.specs.declared.parser.ParseStop.TheVariants.{Memory};

    ghost from_gives = { λ _ e. e ≡ Memory };

    fn from(_e: AllocError) -> ParseStop {
        ParseStop::Memory
    }
}

/// Parses a text of TZif version 2 or 3.
///
/// Returns `BadFooter` exactly where the text spells no string, and `Memory` only where it spells
/// one with a name of more than 16 bytes.
pub fn parse(alloc: Global, text: &[u8], version: u8) -> Result<Footer, ParseStop>
    requires { (version ≡ 2) ⊎ (version ≡ 3) }
    ensures ok { IfOk result (Spells version text.now) }
    ensures only { (f : TzString) → Spells version text.now f → NeverRefuses refusal_of result }
    ensures memory { OnOutOfMemory refusal_of result (NeedsMemory version text.now) }
{
    let Some(string) = string_of(version, text) else {
        return Err(ParseStop::BadFooter);
    };
    Ok(footer_of(alloc, string)?)
}

/// Copies the names of a string out of its text.
fn footer_of(alloc: Global, text: TzText<'_>) -> Result<Footer, AllocError>
    requires { IsTzString (string text) }
    ensures ok { IfOk result (λ f. f ≡ string text.entry) }
    ensures long { OnErr result (HasLongName (string text.entry)) }
{
    let std = Abbr::new(alloc, text.std)?;
    let dst = match text.dst {
        Some(dst) => Some(dst_of(alloc, dst)?),
        None => None,
    };
    Ok(Footer {
        std,
        offset: text.offset,
        dst,
    })
}

/// Copies the name of a daylight part out of its text.
fn dst_of(alloc: Global, text: DstText<'_>) -> Result<Dst, AllocError>
    ensures ok { IfOk result (λ dst. dst ≡ daylight text.entry) }
    ensures long { OnErr result (IsLong text.entry.name.now) }
{
    Ok(Dst {
        name: Abbr::new(alloc, text.name)?,
        offset: text.offset,
        start: text.start,
        stop: text.stop,
    })
}
