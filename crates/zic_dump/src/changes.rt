//! The changes of a file, found span by span.

ghost use Rattle.std.specs.Prelude.{◌≡◌, ◌↔◌, ◌≤ℤ◌, ◌++◌, List, IsTrue, OnOk, IfOk};
ghost use Rattle.std.specs.List.{flat_map};
ghost use Rattle.zic_base.specs.Memory.{IfRefusal};
ghost use Rattle.zic_tzif.specs.Answer.{answered};
ghost use Rattle.zic_tzif.specs.Reading.{IsFault, reason_of};
ghost use Rattle.zic_dump.specs.Changes.{Change, AreChanges};
ghost use Rattle.zic_dump.specs.Text.{change_line, IsDump};
ghost use Rattle.zic_dump.specs.code.Listed.{IsListed};
ghost use Rattle.zic_dump.specs.code.Offsets.{HaveOffsets};
ghost use Rattle.zic_dump.specs.code.Listing.{IsTextOf};

use crate::line::{head, push_change};
use crate::years::Years;
use std::alloc::{AllocError, Global};
use zic_tzif::{Answer, ReadStop, Zone, read};

/// Returns the text of `zdump -i` for the bytes of a TZif file at a path: what the file answers at
/// the start of the first year, in UT, and each change of that after it, up to and including the
/// start of the second.
///
/// # Errors
///
/// The first check that the bytes fail, or memory ran out.
pub fn dump(alloc: Global, path: &str, bytes: &[u8], years: &Years) -> Result<Vec<u8>, ReadStop>
    ensures ok { IfOk result (λ text. IsDump path.now bytes.now years.now text.items) }
    ensures err { IfRefusal reason_of result (IsFault bytes.now) }
{
    let zone = read(alloc, bytes)?;
    Ok(text_of(alloc, path, &zone, years)?)
}

/// Returns the text for a file at a path.
fn text_of(alloc: Global, path: &str, zone: &Zone, years: &Years) -> Result<Vec<u8>, AllocError>
    requires { HaveOffsets zone.now }
    ensures { IfOk result (λ text. IsTextOf path.now zone.now years.now text.items) }
{
    let first = years.first_instant();
    let mut text = head(alloc, path, &zone.at(first))?;
    push_changes(alloc, &mut text, zone, first, years.last_instant())?;
    Ok(text)
}

/// Adds the lines of the changes after one instant and up to another.
fn push_changes(
    alloc: Global,
    text: &mut Vec<u8>,
    zone: &Zone,
    first: i64,
    last: i64,
) -> Result<(), AllocError>
    requires offsets { HaveOffsets zone.now }
    requires from { IsListed first }
    requires to { IsListed last }
    requires order { first ≤ℤ last }
    ensures { OnOk result ((changes : List Change) × AreChanges zone.now first last changes
        × (text.new.items ≡ text.old.items ++ flat_map change_line changes)) }
{
    let mut span = zone.span(first);
    while span.instants.last < last {
        let at = span.instants.last + 1;
        let next = zone.span(at);
        if !are_same(&span.answer, &next.answer) {
            push_change(alloc, text, at, &next.answer)?;
        }
        span = next;
    }
    Ok(())
}

/// Returns whether two answers are the same: the same offset, flag and abbreviation, or that local
/// time is left open.
pub fn are_same(one: &Answer<'_>, other: &Answer<'_>) -> bool
    ensures { IsTrue result ↔ (answered one.now ≡ answered other.now) }
{
    match (one, other) {
        (Answer::Known(one), Answer::Known(other)) => {
            one.offset == other.offset && one.daylight == other.daylight && one.name == other.name
        }
        (Answer::Unspecified, Answer::Unspecified) => true,
        _ => false,
    }
}
