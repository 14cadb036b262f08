//! The FORMAT of a zone's line.

ghost use Rattle.std.specs.Prelude.{◌≡◌, is_some, IfSome, IfOk, Some};
ghost use Rattle.zic_lines.specs.Parts.{split_at_most_once};
ghost use Rattle.zic_lines.specs.Format.{format_of, has_slash, slashed, conversion};

use crate::word::{is_dash, split_at_most_once};
use std::alloc::{AllocError, Global};
use zic_base::ShortText;

/// A part of a FORMAT, printable ASCII and white space; up to 16 bytes are stored inline.
pub type FormatPart = ShortText<16>;

/// The FORMAT of a Zone or continuation line: the form of its abbreviations (zic(8), FORMAT).
#[derive(Debug, Drop)]
pub enum Format {
    /// This abbreviation, empty where the field is `-`.
    Plain(FormatPart),
    /// `%s`: the letter of the rule, between these parts.
    Letter(FormatPart, FormatPart),
    /// `%z`: the UT offset, between these parts.
    Offset(FormatPart, FormatPart),
    /// `/`: the first for standard time, the second for daylight saving time.
    Pair(FormatPart, FormatPart),
}

/// Returns whether the text has a `/`.
fn has_slash(text: &[u8]) -> bool
    ensures { result ≡ has_slash text.now }
{
    text.contains(&b'/')
}

/// Returns copies of two parts.
fn parts(alloc: Global, first: &[u8], second: &[u8]) -> Result<(FormatPart, FormatPart), AllocError>
    ensures { IfOk result (λ parts. (parts.0 ≡ first.now) × (parts.1 ≡ second.now)) }
{
    let first = ShortText::new(alloc, first)?;
    let second = ShortText::new(alloc, second)?;
    Ok((first, second))
}

/// Returns a FORMAT without `%`: one abbreviation, or two with `/` between them.
fn slashed(alloc: Global, text: &[u8]) -> Option<Result<Format, AllocError>>
    ensures just { is_some result ≡ is_some (slashed (split_at_most_once text.now 47)) }
    ensures format { IfSome result
        (λ made. IfOk made (λ format. slashed (split_at_most_once text.now 47) ≡ Some format)) }
{
    let (standard, daylight) = split_at_most_once(text, b'/')?;
    let Some(daylight) = daylight else {
        return Some(ShortText::new(alloc, standard).map(Format::Plain));
    };
    Some(parts(alloc, standard, daylight).map(|parts| Format::Pair(parts.0, parts.1)))
}

/// Returns the FORMAT that has these texts before and after its `%`.
fn conversion(alloc: Global, before: &[u8], rest: &[u8]) -> Option<Result<Format, AllocError>>
    ensures just { is_some result ≡ is_some (conversion before.now rest.now) }
    ensures format { IfSome result
        (λ made. IfOk made (λ format. conversion before.now rest.now ≡ Some format)) }
{
    match rest {
        [b's', after @ ..] => Some(parts(alloc, before, after).map(|parts| Format::Letter(
            parts.0, parts.1,
        ))),
        [b'z', after @ ..] => Some(parts(alloc, before, after).map(|parts| Format::Offset(
            parts.0, parts.1,
        ))),
        _ => None,
    }
}

/// Returns the FORMAT that the field is, or `None` where it is wrong.
#[tactic(auto, unfolding(crate::specs::Format::format_of))]
pub(crate) fn parse_format(alloc: Global, field: &[u8]) -> Option<Result<Format, AllocError>>
    ensures just { is_some result ≡ is_some (format_of field.now) }
    ensures format { IfSome result
        (λ made. IfOk made (λ format. format_of field.now ≡ Some format)) }
{
    if is_dash(field) {
        return Some(ShortText::new(alloc, &[]).map(Format::Plain));
    }
    let (before, rest) = split_at_most_once(field, b'%')?;
    let Some(rest) = rest else {
        return slashed(alloc, before);
    };
    if has_slash(before) || has_slash(rest) {
        return None;
    }
    conversion(alloc, before, rest)
}
