//! The text for two lists of files.

ghost use Rattle.std.specs.Prelude.{◌≡◌, ◌<◌, ◌≤◌, ◌++◌, ℕ, List, length, slice_get, slice_range, IfOk, IfSome, OnOk};
ghost use Rattle.zic_compare.specs.Files.{AreLinesOfBoth, AreLinesOfNew, AreLinesOfOld, HasInstants, IsDiff, IsLineOfNew, IsLineOfOld, names_of};
ghost use Rattle.zic_compare.specs.Lines.{AreLinesOfAll};
ghost use Rattle.zic_compare.specs.Refused.{none_refused};
ghost use Rattle.zic_compare.specs.Text.{with_names};
ghost use Rattle.zic_compare.specs.code.Short.{AreShort};

use crate::groups::zone_field;
use crate::sides::{Listed, seen};
use crate::summary::{push_lone, push_summary};
use crate::text::{push_added, push_differences, push_removed};
use std::alloc::{AllocError, Global};
use zic_files::Files;
use zic_tzif::Zone;
use zic_tzif::laws::files_say_one;

/// The names of the fields of spans.
const SPAN_NAMES: &[u8] =
    b"zone,from,until,old_offset,old_daylight,old_abbreviation,new_offset,new_daylight,new_abbreviation\n";

/// Those of the fields of summaries.
const SUMMARY_NAMES: &[u8] = b"zone,from,until,old_offset,new_offset,kind\n";

/// Returns the lines of the names of two lists of files, with the names of their fields before them;
/// without lines the text is empty. Names come in the order of the old files, and then of the new ones.
/// Each has lines of its own, or shares them as the [grouping](crate::Grouping) says. Instants are in
/// seconds from 1970-01-01T00:00:00 UT, or as their [style](crate::Style) has them.
///
/// Of spans there is a line for each name and each longest span within the bounds at which each of its
/// two files gives one answer, as far as they are compared, and the two differ: the name, the first
/// instant of the span and the one after its last, and the UT offset, the daylight flag and the
/// abbreviation of the old file and of the new one. An instant is empty where the span reaches to the
/// bounds. A name that one list alone has is one line, with what its file answers at the first instant
/// of the bounds, and nothing for the other.
///
/// Of summaries there is a line for each name whose two files ever differ from the first instant on: the
/// name, the first instant at which they do, which is empty where it is the first of all, the instant
/// from which on they agree for ever, the UT offsets of the old file and of the new one at the first
/// of these instants, and `past` where the second isn't after now, else `future`. Where they differ
/// again and again, the second is empty, and the word is `forever`. A name that one list alone has is
/// `removed` or `added`.
pub fn diff(alloc: Global, old: &Files, new: &Files, how: &Listed) -> Result<Vec<u8>, AllocError>
    requires { HasInstants how.now }
    ensures { IfOk result (λ text. IsDiff how.now old.now new.now none_refused text.items) }
{
    let mut lines = lines_of_old(alloc, how, old, new, 0, old.len())?;
    let mut of_new = lines_of_new(alloc, how, old, new, 0, new.len())?;
    lines.append(&mut of_new)?;
    with_names(alloc, how, lines)
}

/// Returns the names of the fields of lines.
pub(crate) fn names_of(how: &Listed) -> &'static [u8]
    ensures { result.now ≡ names_of how.now }
{
    match how {
        Listed::Spans(_) => SPAN_NAMES,
        Listed::Summaries(_) => SUMMARY_NAMES,
    }
}

/// Returns lines of [`diff`] with the names of their fields before them; without lines the text is
/// empty.
pub fn with_names(alloc: Global, how: &Listed, lines: Vec<u8>) -> Result<Vec<u8>, AllocError>
    ensures { IfOk result (λ text. text.items ≡ with_names (names_of how.now) lines.items) }
{
    if lines.is_empty() {
        return Ok(lines);
    }
    let mut text = Vec::from_slice(alloc, names_of(how))?;
    text.extend_from_slice(&lines)?;
    Ok(text)
}

/// Returns the lines of [`diff`] for the old files from one number on up to another, without the names
/// of their fields.
pub fn lines_of_old(
    alloc: Global,
    how: &Listed,
    old: &Files,
    new: &Files,
    first: usize,
    end: usize,
) -> Result<Vec<u8>, AllocError>
    requires instants { HasInstants how.now }
    requires order { first ≤ end }
    requires within { end ≤ length old.now }
    ensures { IfOk result (λ lines. AreLinesOfAll (AreLinesOfOld how.now old.now new.now)
        (slice_range old.now first end) lines.items) }
{
    let mut lines = Vec::new(alloc);
    for file in first..end {
        push_old(alloc, &mut lines, how, old, file, new)?;
    }
    Ok(lines)
}

/// Adds the lines of the old file of this number, unless it shares those of one before it.
fn push_old(
    alloc: Global,
    lines: &mut Vec<u8>,
    how: &Listed,
    old: &Files,
    file: usize,
    new: &Files,
) -> Result<(), AllocError>
    requires instants { HasInstants how.now }
    requires within { file < length old.now }
    ensures { OnOk result (IfSome (slice_get old.now file) (λ file. (more : List ℕ)
        × AreLinesOfOld how.now old.now new.now file more
        × (lines.new.items ≡ lines.old.items ++ more))) }
{
    // Files with the same bytes say the same.
    files_say_one();
    let (name, zone) = (old.name(file), old.zone(file));
    match new.find(name) {
        Some(other) => {
            let new_zone = new.zone(other);
            if old.bytes(file) == new.bytes(other) {
                return Ok(());
            }
            match zone_field(alloc, how, old, file, new)? {
                Some(field) => push_both(alloc, lines, how, &field, zone, new_zone),
                None => Ok(()),
            }
        }
        None => match zone_field(alloc, how, old, file, new)? {
            Some(field) => push_old_alone(lines, how, &field, zone),
            None => Ok(()),
        },
    }
}

/// Adds the lines of a name, or of names, with two files.
fn push_both(
    alloc: Global,
    lines: &mut Vec<u8>,
    how: &Listed,
    name: &[u8],
    old: &Zone,
    new: &Zone,
) -> Result<(), AllocError>
    requires instants { HasInstants how.now }
    requires old { AreShort old.now }
    requires new { AreShort new.now }
    ensures { OnOk result ((more : List ℕ) × AreLinesOfBoth how.now name.now old.now new.now more
        × (lines.new.items ≡ lines.old.items ++ more)) }
{
    match how {
        Listed::Spans(how) => push_differences(alloc, lines, how, name, old, new),
        Listed::Summaries(survey) => push_summary(alloc, lines, survey, name, old, new),
    }
}

/// Adds the line of a name that only the old files have.
fn push_old_alone(
    lines: &mut Vec<u8>,
    how: &Listed,
    name: &[u8],
    zone: &Zone,
) -> Result<(), AllocError>
    requires { AreShort zone.now }
    ensures { OnOk result ((more : List ℕ) × IsLineOfOld how.now name.now zone.now more
        × (lines.new.items ≡ lines.old.items ++ more)) }
{
    match how {
        Listed::Spans(how) => {
            let answer = seen(how.compared, zone.at(how.bounds.first));
            push_removed(lines, how.compared, name, &answer)
        }
        Listed::Summaries(_) => push_lone(lines, name, b"removed"),
    }
}

/// Returns the lines of [`diff`] for the new files from one number on up to another, without the names
/// of their fields. A name that the old files have has none.
pub fn lines_of_new(
    alloc: Global,
    how: &Listed,
    old: &Files,
    new: &Files,
    first: usize,
    end: usize,
) -> Result<Vec<u8>, AllocError>
    requires order { first ≤ end }
    requires within { end ≤ length new.now }
    ensures { IfOk result (λ lines. AreLinesOfAll (AreLinesOfNew how.now old.now new.now)
        (slice_range new.now first end) lines.items) }
{
    let mut lines = Vec::new(alloc);
    for file in first..end {
        push_new(alloc, &mut lines, how, old, new, file)?;
    }
    Ok(lines)
}

/// Adds the line of the new file of this number, unless an old one has its name or it shares that of
/// one before it.
fn push_new(
    alloc: Global,
    lines: &mut Vec<u8>,
    how: &Listed,
    old: &Files,
    new: &Files,
    file: usize,
) -> Result<(), AllocError>
    requires { file < length new.now }
    ensures { OnOk result (IfSome (slice_get new.now file) (λ file. (more : List ℕ)
        × AreLinesOfNew how.now old.now new.now file more
        × (lines.new.items ≡ lines.old.items ++ more))) }
{
    let name = new.name(file);
    if old.find(name).is_some() {
        return Ok(());
    }
    match zone_field(alloc, how, new, file, old)? {
        Some(field) => push_new_alone(lines, how, &field, new.zone(file)),
        None => Ok(()),
    }
}

/// Adds the line of a name that only the new files have.
fn push_new_alone(
    lines: &mut Vec<u8>,
    how: &Listed,
    name: &[u8],
    zone: &Zone,
) -> Result<(), AllocError>
    requires { AreShort zone.now }
    ensures { OnOk result ((more : List ℕ) × IsLineOfNew how.now name.now zone.now more
        × (lines.new.items ≡ lines.old.items ++ more)) }
{
    match how {
        Listed::Spans(how) => {
            let answer = seen(how.compared, zone.at(how.bounds.first));
            push_added(lines, how.compared, name, &answer)
        }
        Listed::Summaries(_) => push_lone(lines, name, b"added"),
    }
}
