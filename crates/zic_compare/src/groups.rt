//! The names that share the lines of the text: those whose files have the same bytes in both
//! releases, as the links of one zone do.

ghost use Rattle.std.specs.Prelude.{◌≡◌, ◌<◌, ◌++◌, ◌∷◌, [], if◌then◌else◌, length, slice_get, option_map, MatchBool, IfOk, IfSome, OnOk};
ghost use Rattle.zic_compare.specs.Files.{grouping_of};
ghost use Rattle.zic_compare.specs.Groups.{are_same, field_of, group_of, names_in, octets_of, stand_together, zone_field};
ghost use Rattle.zic_compare.specs.code.Groups.{HasNoneBefore, HasOneBefore};

use crate::sides::{Grouping, Listed};
use std::alloc::{AllocError, Global};
use zic_files::Files;

/// Returns the first field of the lines of a file of one release: its name or, where names share
/// lines, the names of its group, with a space between two. `None` says that another file of its
/// group comes before it, so that it has no lines.
pub(crate) fn zone_field(
    alloc: Global,
    how: &Listed,
    own: &Files,
    file: usize,
    others: &Files,
) -> Result<Option<Vec<u8>>, AllocError>
    requires { file < length own.now }
    ensures { IfOk result (λ field. IfSome (slice_get own.now file)
        (λ file. option_map (λ f. f.items) field
        ≡ zone_field (grouping_of how.now) own.now others.now file)) }
{
    match grouping_of(how) {
        Grouping::Apart => Ok(Some(Vec::from_slice(alloc, own.name(file))?)),
        Grouping::Together => field_of_group(alloc, own, file, others),
    }
}

/// Returns whether names share lines.
fn grouping_of(how: &Listed) -> Grouping
    ensures { result ≡ grouping_of how.now }
{
    match how {
        Listed::Spans(how) => how.grouping,
        Listed::Summaries(survey) => survey.grouping,
    }
}

/// Returns the names of the group of a file, if it is the first of them.
fn field_of_group(
    alloc: Global,
    own: &Files,
    file: usize,
    others: &Files,
) -> Result<Option<Vec<u8>>, AllocError>
    requires { file < length own.now }
    ensures { IfOk result (λ field. IfSome (slice_get own.now file)
        (λ file. option_map (λ f. f.items) field
        ≡ field_of (group_of own.now others.now file) file)) }
{
    // `len` also states that the names of files differ.
    let count = own.len();
    if !is_first(own, file, others) {
        return Ok(None);
    }
    let mut field = Vec::from_slice(alloc, own.name(file))?;
    for link in file + 1..count {
        push_link(&mut field, own, file, link, others)?;
    }
    Ok(Some(field))
}

/// Returns whether no file before this one is of its group.
fn is_first(own: &Files, file: usize, others: &Files) -> bool
    requires { file < length own.now }
    ensures { IfSome (slice_get own.now file) (λ one. MatchBool result
        (HasNoneBefore own.now others.now one file) (HasOneBefore own.now others.now one file)) }
{
    for other in 0..file {
        if stand_together(own, file, other, others) {
            return false;
        }
    }
    true
}

/// Adds a space and the name of a file, if it is of the group of another.
fn push_link(
    field: &mut Vec<u8>,
    own: &Files,
    file: usize,
    link: usize,
    others: &Files,
) -> Result<(), AllocError>
    requires file { file < length own.now }
    requires link { link < length own.now }
    ensures { OnOk result (IfSome (slice_get own.now file) (λ file.
        IfSome (slice_get own.now link) (λ link. field.new.items ≡ field.old.items
        ++ (if stand_together others.now file link then 32 ∷ link.name else [])))) }
{
    if stand_together(own, file, link, others) {
        field.push(b' ')?;
        field.extend_from_slice(own.name(link))?;
    }
    Ok(())
}

/// Returns whether two files of one release have the same bytes, and so have the files of their
/// names in the other release, or it has neither.
fn stand_together(own: &Files, one: usize, other: usize, others: &Files) -> bool
    requires one { one < length own.now }
    requires other { other < length own.now }
    ensures { IfSome (slice_get own.now one) (λ one. IfSome (slice_get own.now other)
        (λ other. result ≡ stand_together others.now one other)) }
{
    if own.bytes(one) != own.bytes(other) {
        return false;
    }
    let theirs = octets_of(others, own.name(one));
    are_same(theirs, octets_of(others, own.name(other)))
}

/// Returns whether these are the same bytes, or none twice.
fn are_same(one: Option<&[u8]>, other: Option<&[u8]>) -> bool
    ensures { result
        ≡ are_same (option_map (λ o. o.now) one.entry) (option_map (λ o. o.now) other.entry) }
{
    match (one, other) {
        (Some(one), Some(other)) => one == other,
        (None, None) => true,
        _ => false,
    }
}

/// Returns the bytes of the file of this name, if one has it.
fn octets_of<'a>(files: &'a Files, name: &[u8]) -> Option<&'a [u8]>
    ensures { option_map (λ o. o.now) result ≡ octets_of files.now name.now }
{
    // `len` also states that the names of files differ.
    let _count = files.len();
    match files.find(name) {
        Some(file) => Some(files.bytes(file)),
        None => None,
    }
}
