//! Link lines.

ghost use Rattle.std.specs.Prelude.{◌≡◌, OnOk, IfOk, IfErr, Some, None};
ghost use Rattle.zic_base.specs.Check.{first_failed};
ghost use Rattle.zic_lines.specs.declared.keyword.Keyword.TheVariants as keywords;
ghost use Rattle.zic_lines.specs.Checks.{link_checks};
ghost use Rattle.zic_lines.specs.code.Entries.{IsOtherLine};
ghost use Rattle.zic_lines.specs.code.Texts.{texts_of, BeginsWith};

use crate::entry::{Entry, FieldFault};
use crate::name::Name;
use std::alloc::{AllocError, Global};
use std::borrow::CowSlice;
use zic_base::{Kind, Place};

/// A Link line: one more name for a zone.
#[derive(Debug, Drop)]
pub struct Link {
    /// The place of the line.
    pub place: Place,
    /// The name of a zone or of another link.
    pub target: Name,
    /// LINK-NAME: the name that this link gives.
    pub name: Name,
}

/// Returns the link of these names, or out of memory where one of them is.
fn link_of(
    place: Place,
    target: Result<Name, AllocError>,
    name: Result<Name, AllocError>,
) -> Result<Link, AllocError>
    ensures place { IfOk result (λ link. link.place ≡ place) }
    ensures target { IfOk result (λ link. target ≡ Ok link.target) }
    ensures name { IfOk result (λ link. name ≡ Ok link.name) }
{
    Ok(Link {
        place,
        target: target?,
        name: name?,
    })
}

/// Returns the entry of the fields of a Link line, or their first fault.
pub(crate) fn link_line(
    alloc: Global,
    place: Place,
    fields: &[CowSlice<'_, u8>],
) -> Result<Result<Entry, AllocError>, FieldFault>
    requires { BeginsWith keywords.Link (texts_of fields.now) }
    ensures ok { OnOk result (first_failed (link_checks (texts_of fields.now)) ≡ None) }
    ensures says { IfOk result (λ made. IfOk made (IsOtherLine place (texts_of fields.now))) }
    ensures fault { IfErr result
        (λ fault. first_failed (link_checks (texts_of fields.now)) ≡ Some fault) }
{
    let [_, target, name] = fields else {
        return Err(FieldFault::Count);
    };
    let Some(target) = Name::parse(alloc, target.as_slice()) else {
        return Err(FieldFault::At(Kind::Name, 1));
    };
    let Some(name) = Name::parse(alloc, name.as_slice()) else {
        return Err(FieldFault::At(Kind::Name, 2));
    };
    Ok(link_of(place, target, name).map(Entry::Link))
}
