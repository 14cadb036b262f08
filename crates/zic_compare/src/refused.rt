//! The lines of files that are refused.

ghost use Rattle.std.specs.Prelude.{◌≡◌, ◌++◌, map, string_bytes, IfOk, OnOk};
ghost use Rattle.zic_compare.specs.Refused.{after_new, after_old, lines_with, names_refused, refused_lines};

use crate::sides::{Listed, Refused};
use std::alloc::{AllocError, Global};

/// Returns a line for each file that is refused: first for the old ones, and then for the new ones.
pub(crate) fn refused_lines(
    alloc: Global,
    how: &Listed,
    refused: &Refused<'_>,
) -> Result<Vec<u8>, AllocError>
    ensures { IfOk result
        (λ lines. lines.items ≡ refused_lines how.now (names_refused refused.now)) }
{
    let mut lines = Vec::new(alloc);
    push_names(&mut lines, refused.old, after_old(how))?;
    push_names(&mut lines, refused.new, after_new(how))?;
    Ok(lines)
}

/// Adds a line for each name, which ends like this.
fn push_names(lines: &mut Vec<u8>, names: &[String], after: &[u8]) -> Result<(), AllocError>
    ensures { OnOk result
        (lines.new.items ≡ lines.old.items ++ lines_with after.now (map string_bytes names.now)) }
{
    for i in 0..names.len() {
        push_name(lines, names[i].as_bytes(), after)?;
    }
    Ok(())
}

/// Adds the line of a name, which ends like this.
fn push_name(lines: &mut Vec<u8>, name: &[u8], after: &[u8]) -> Result<(), AllocError>
    ensures { OnOk result (lines.new.items ≡ lines.old.items ++ (name.now ++ after.now)) }
{
    lines.extend_from_slice(name)?;
    lines.extend_from_slice(after)
}

/// Returns what follows the name of an old file.
fn after_old(how: &Listed) -> &'static [u8]
    ensures { result.now ≡ after_old how.now }
{
    match how {
        Listed::Spans(_) => b",,,refused,,,,,\n",
        Listed::Summaries(_) => b",,,refused,,refused\n",
    }
}

/// Returns what follows the name of a new file.
fn after_new(how: &Listed) -> &'static [u8]
    ensures { result.now ≡ after_new how.now }
{
    match how {
        Listed::Spans(_) => b",,,,,,refused,,\n",
        Listed::Summaries(_) => b",,,,refused,refused\n",
    }
}
