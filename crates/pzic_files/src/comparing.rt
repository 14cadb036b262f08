//! The call on the differences of the files of two handles.

ghost use Rattle.std.specs.Prelude.{◌≡◌, None};
ghost use Rattle.zic_compare.specs.Files.{HasInstants};
ghost use Rattle.pzic_files.specs.FilesDiff.{AreDiffRowsHeld, IsDiffBy, IsDiffGiven, IsDiffWith, lines_after_first};
ghost use Rattle.pzic_zones.specs.Handle.{IsHandle, files_in, held_in};

use crate::diff_options::{DiffOptions, listed_of};
use pzic_zones::status::{NO_HANDLE, NO_MEMORY, NO_SUCH, OK};
use pzic_zones::{Handle, Held, Made, hold_rows};
use std::alloc::Global;
use zic_compare::{Listed, diff};
use zic_files::Files;

/// Returns how many lines a text has after the first.
fn lines_after_first(text: &[u8]) -> u64
    ensures { result ≡ lines_after_first text.now }
{
    let lines = text.iter().filter(|byte| **byte == b'\n').count() as u64;
    lines.saturating_sub(1)
}

/// Has an empty handle hold what is listed of old and new files.
fn put_diff(alloc: Global, old: &Files, new: &Files, how: &Listed, rows: &mut Handle) -> i32
    requires handle { IsHandle rows.old }
    requires empty { held_in rows.old ≡ None }
    requires instants { HasInstants how.now }
    ensures handle { IsHandle rows.new }
    ensures gives { AreDiffRowsHeld how.now old.now new.now result (held_in rows.new) }
{
    let Ok(text) = diff(alloc, old, new, how) else {
        return NO_MEMORY;
    };
    let count = lines_after_first(&text);
    let made = Made {
        text,
        count,
        faults: Vec::new(alloc),
    };
    match hold_rows(alloc, made) {
        Ok(held) => {
            rows.put(held);
            OK
        }
        Err(_) => NO_MEMORY,
    }
}

/// Has an empty handle hold what options list of old and new files.
fn compare(alloc: Global, old: &Files, new: &Files, options: &DiffOptions, rows: &mut Handle) -> i32
    requires handle { IsHandle rows.old }
    requires empty { held_in rows.old ≡ None }
    ensures handle { IsHandle rows.new }
    ensures gives { IsDiffBy options.now old.now new.now result (held_in rows.new) }
{
    match listed_of(options) {
        Some(how) => put_diff(alloc, old, new, &how, rows),
        None => NO_SUCH,
    }
}

/// Has an empty handle hold what options list of old files and the files of another handle.
fn compare_with(
    alloc: Global,
    old: &Files,
    new_files: &mut Handle,
    options: &DiffOptions,
    rows: &mut Handle,
) -> i32
    requires files { IsHandle new_files.old }
    requires rows { IsHandle rows.old }
    requires empty { held_in rows.old ≡ None }
    ensures unchanged { new_files.new ≡ new_files.old }
    ensures handle { IsHandle rows.new }
    ensures gives { IsDiffWith options.now old.now (files_in new_files.old) result
        (held_in rows.new) }
{
    new_files.lend(
        alloc,
        &mut |held: &Held| match held.files() {
            Some(new) => compare(alloc, old, new, options, rows),
            None => NO_HANDLE,
        },
    )
}

/// Lists when the files of one handle answer otherwise than those of another.
pub fn files_diff(
    alloc: Global,
    old_files: &mut Handle,
    new_files: &mut Handle,
    options: &DiffOptions,
    rows: &mut Handle,
) -> i32
    requires old { IsHandle old_files.old }
    requires new { IsHandle new_files.old }
    requires rows { IsHandle rows.old }
    ensures old_unchanged { old_files.new ≡ old_files.old }
    ensures new_unchanged { new_files.new ≡ new_files.old }
    ensures handle { IsHandle rows.new }
    ensures gives { IsDiffGiven options.now (files_in old_files.old) (files_in new_files.old) result
        (held_in rows.new) }
{
    drop(rows.take(alloc));
    old_files.lend(
        alloc,
        &mut |held: &Held| match held.files() {
            Some(old) => compare_with(alloc, old, new_files, options, rows),
            None => NO_HANDLE,
        },
    )
}
