//! The calls on the rows of columns.

ghost use Rattle.std.specs.Prelude.{◌≡◌, ◌+◌, ◌^◌, ◌<◌, None, MatchOption};
ghost use Rattle.pzic_zones.specs.Handle.{IsHandle, files_in, held_in, rows_in};
ghost use Rattle.pzic_files.specs.Rows.{AreRowsGiven, IsRowFaultGiven};
ghost use Rattle.pzic_files.specs.Text.{IsTextCopied};
ghost use Rattle.pzic_zones.specs.declared.status.TheConstants.{NO_HANDLE, OK};

use crate::copying::copy;
use pzic_zones::status::{BAD_ROW, NO_HANDLE, NO_MEMORY, OK};
use pzic_zones::{Handle, Held, Made, RowFault, hold_rows};
use std::alloc::Global;
use zic_base::RowKind;
use zic_convert::rows_of_column;
use zic_files::Files;
use zic_layouts::MAX_ROWS;

/// Gives the fault of the row after `count` rows, if it has one.
fn tell_fault(fault: Option<RowKind>, count: u64, reported: &mut RowFault) -> i32
    requires { count + 1 < 2 ^ 64 }
    ensures { IsRowFaultGiven fault count result reported.old reported.new }
{
    let Some(kind) = fault else {
        return OK;
    };
    *reported = RowFault {
        row: count + 1,
        kind: u32::from(kind.number()),
    };
    BAD_ROW
}

/// Has an empty handle hold the rows of a column.
fn put_rows(
    alloc: Global,
    files: &Files,
    column: &[u8],
    rows: &mut Handle,
    fault: &mut RowFault,
) -> i32
    requires handle { IsHandle rows.old }
    requires empty { held_in rows.old ≡ None }
    ensures handle { IsHandle rows.new }
    ensures gives { AreRowsGiven files.now column.now result fault.old fault.new
        (held_in rows.new) }
{
    let Ok(made) = rows_of_column(alloc, files, MAX_ROWS, column) else {
        return NO_MEMORY;
    };
    let rows_made = Made {
        text: made.text,
        count: made.count,
        faults: Vec::new(alloc),
    };
    match hold_rows(alloc, rows_made) {
        Ok(held) => {
            rows.put(held);
            tell_fault(made.fault, made.count, fault)
        }
        Err(_) => NO_MEMORY,
    }
}

/// Converts a column.
pub fn rows(
    alloc: Global,
    files: &mut Handle,
    column: &[u8],
    rows: &mut Handle,
    fault: &mut RowFault,
) -> i32
    requires files { IsHandle files.old }
    requires rows { IsHandle rows.old }
    ensures unchanged { files.new ≡ files.old }
    ensures handle { IsHandle rows.new }
    ensures gives { MatchOption (files_in files.old)
        ((result ≡ NO_HANDLE) × (fault.new ≡ fault.old) × (held_in rows.new ≡ None))
        (λ all. AreRowsGiven all column.now result fault.old fault.new (held_in rows.new)) }
{
    drop(rows.take(alloc));
    files.lend(
        alloc,
        &mut |held: &Held| match held.files() {
            Some(all) => put_rows(alloc, all, column, rows, fault),
            None => NO_HANDLE,
        },
    )
}

/// Copies the text of rows, as much as there is room for.
pub fn rows_text(alloc: Global, rows: &mut Handle, room: &mut [u8], count: &mut usize) -> i32
    requires { IsHandle rows.old }
    ensures unchanged { rows.new ≡ rows.old }
    ensures gives { MatchOption (rows_in rows.old)
        ((result ≡ NO_HANDLE) × (room.new ≡ room.old) × (count.new ≡ count.old))
        (λ made. IsTextCopied made.text.items result room.old room.new count.new) }
{
    rows.lend(
        alloc,
        &mut |held: &Held| match held.rows() {
            Some(made) => {
                copy(&made.text, room, count);
                OK
            }
            None => NO_HANDLE,
        },
    )
}

/// Gives how many rows there are, without the header, and with those that are left out.
pub fn rows_len(alloc: Global, rows: &mut Handle, count: &mut u64) -> i32
    requires { IsHandle rows.old }
    ensures unchanged { rows.new ≡ rows.old }
    ensures gives { MatchOption (rows_in rows.old)
        ((result ≡ NO_HANDLE) × (count.new ≡ count.old))
        (λ made. (result ≡ OK) × (count.new ≡ made.count)) }
{
    rows.lend(
        alloc,
        &mut |held: &Held| match held.rows() {
            Some(made) => {
                *count = made.count;
                OK
            }
            None => NO_HANDLE,
        },
    )
}
