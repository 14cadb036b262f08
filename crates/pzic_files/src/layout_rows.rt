//! The calls on the rows of columns by layouts.

ghost use Rattle.std.specs.Prelude.{◌≡◌, ◌≤◌, None, MatchOption, IfOk, length, map};
ghost use Rattle.zic_layouts.specs.declared.plan.TheConstants.{MAX_BYTES};
ghost use Rattle.pzic_zones.specs.Handle.{IsHandle, files_in, held_in, rows_in};
ghost use Rattle.pzic_files.specs.LayoutRows.{AreFaultsCopied, AreRowsBy, IsConvertedBy, fault_seen, faults_with_end, note_seen, status_of_end};
ghost use Rattle.pzic_files.specs.RowLayout.{usual_rows};
ghost use Rattle.pzic_files.specs.Text.{overwritten};
ghost use Rattle.pzic_zones.specs.declared.status.TheConstants.{NO_HANDLE};

use crate::layout::{ColumnLayout, LayoutStop, layout_of};
use crate::row_layout::{RowLayout, with_usual_rows};
use pzic_zones::status::{BAD_ROW, LENGTHS, NO_HANDLE, NO_MEMORY, NO_SUCH, OK};
use pzic_zones::{Handle, Held, Made, RowFault, hold_rows};
use std::alloc::{AllocError, Global};
use zic_base::RowKind;
use zic_convert::{LayoutRows, rows_by_layout};
use zic_files::Files;
use zic_layouts::{FaultyRow, Layout, MAX_BYTES, MAX_OF_PIECE, MAX_ROWS, Plan};

/// Returns a fault as C sees it.
fn seen(row: u64, kind: RowKind) -> RowFault
    ensures { result ≡ fault_seen (record { row = row; kind = kind }) }
{
    RowFault {
        row,
        kind: u32::from(kind.number()),
    }
}

/// Returns the faults of rows as C sees them.
fn all_seen(alloc: Global, faults: &[FaultyRow]) -> Result<Vec<RowFault>, AllocError>
    ensures { IfOk result (λ all. all.items ≡ map note_seen faults.now) }
{
    let mut all = Vec::new(alloc);
    for fault in faults {
        all.push(seen(fault.fault.row, fault.fault.kind))?;
    }
    Ok(all)
}

/// Returns what C has of rows: the fault that ends the run is the last.
fn made_of(alloc: Global, rows: LayoutRows) -> Result<Made, AllocError>
    ensures text { IfOk result (λ made. made.text ≡ rows.text) }
    ensures count { IfOk result (λ made. made.count ≡ rows.count) }
    ensures faults { IfOk result (λ made. made.faults.items
        ≡ map note_seen (faults_with_end rows.faults.items rows.fault)) }
{
    let mut faults = all_seen(alloc, &rows.faults)?;
    if let Some(fault) = rows.fault {
        faults.push(seen(fault.row, fault.kind))?;
    }
    Ok(Made {
        text: rows.text,
        count: rows.count,
        faults,
    })
}

/// Returns the status of rows that a fault ended, or none did.
fn status_of(fault: Option<zic_base::RowFault>) -> i32
    ensures { result ≡ status_of_end fault }
{
    match fault {
        Some(_) => BAD_ROW,
        None => OK,
    }
}

/// Has an empty handle hold the rows of a column by a layout.
fn put_rows(alloc: Global, files: &Files, layout: &Layout, column: &[u8], rows: &mut Handle) -> i32
    requires handle { IsHandle rows.old }
    requires empty { held_in rows.old ≡ None }
    requires len { length column.now ≤ MAX_BYTES }
    ensures handle { IsHandle rows.new }
    ensures gives { AreRowsBy files.now layout.now column.now result (held_in rows.new) }
{
    let Some(plan) = Plan::new(1, 1, MAX_OF_PIECE, MAX_ROWS, MAX_BYTES) else {
        return NO_MEMORY;
    };
    let Ok(made) = rows_by_layout(alloc, files, &plan, layout, column) else {
        return NO_MEMORY;
    };
    let status = status_of(made.fault);
    let Ok(made) = made_of(alloc, made) else {
        return NO_MEMORY;
    };
    match hold_rows(alloc, made) {
        Ok(held) => {
            rows.put(held);
            status
        }
        Err(_) => NO_MEMORY,
    }
}

/// Has an empty handle hold the rows of a column by the layout of numbers and of a zone's name.
fn convert(
    alloc: Global,
    files: &Files,
    given: &RowLayout,
    name: &[u8],
    column: &[u8],
    rows: &mut Handle,
) -> i32
    requires handle { IsHandle rows.old }
    requires empty { held_in rows.old ≡ None }
    ensures handle { IsHandle rows.new }
    ensures gives { IsConvertedBy files.now given.now name.now column.now result
        (held_in rows.new) }
{
    if MAX_BYTES < column.len() as u64 {
        return LENGTHS;
    }
    match layout_of(alloc, given, name) {
        Ok(layout) => put_rows(alloc, files, &layout, column, rows),
        Err(LayoutStop::None) => NO_SUCH,
        Err(LayoutStop::Memory) => NO_MEMORY,
    }
}

/// Converts a column by a layout with all that rows may have.
pub fn rows_with(
    alloc: Global,
    files: &mut Handle,
    layout: &RowLayout,
    name: &[u8],
    column: &[u8],
    rows: &mut Handle,
) -> i32
    requires files { IsHandle files.old }
    requires rows { IsHandle rows.old }
    ensures unchanged { files.new ≡ files.old }
    ensures handle { IsHandle rows.new }
    ensures gives { MatchOption (files_in files.old)
        ((result ≡ NO_HANDLE) × (held_in rows.new ≡ None))
        (λ all. IsConvertedBy all layout.now name.now column.now result (held_in rows.new)) }
{
    drop(rows.take(alloc));
    files.lend(
        alloc,
        &mut |held: &Held| match held.files() {
            Some(all) => convert(alloc, all, layout, name, column, rows),
            None => NO_HANDLE,
        },
    )
}

/// Converts a column by a layout.
pub fn rows_by(
    alloc: Global,
    files: &mut Handle,
    layout: &ColumnLayout,
    name: &[u8],
    column: &[u8],
    rows: &mut Handle,
) -> i32
    requires files { IsHandle files.old }
    requires rows { IsHandle rows.old }
    ensures unchanged { files.new ≡ files.old }
    ensures handle { IsHandle rows.new }
    ensures gives { MatchOption (files_in files.old)
        ((result ≡ NO_HANDLE) × (held_in rows.new ≡ None))
        (λ all. IsConvertedBy all (usual_rows layout.now) name.now column.now result
        (held_in rows.new)) }
{
    rows_with(alloc, files, &with_usual_rows(layout), name, column, rows)
}

/// Copies as many faults as there is room for, and returns their number.
fn copy_faults(from: &[RowFault], room: &mut [RowFault], count: &mut usize)
    ensures room { room.new ≡ overwritten room.old from.now }
    ensures count { count.new ≡ length from.now }
{
    let copied = from.len().min(room.len());
    room[..copied].copy_from_slice(&from[..copied]);
    *count = from.len();
}

/// Copies the faults of rows, as many as there is room for.
pub fn rows_faults(
    alloc: Global,
    rows: &mut Handle,
    room: &mut [RowFault],
    count: &mut usize,
) -> i32
    requires { IsHandle rows.old }
    ensures unchanged { rows.new ≡ rows.old }
    ensures gives { MatchOption (rows_in rows.old)
        ((result ≡ NO_HANDLE) × (room.new ≡ room.old) × (count.new ≡ count.old))
        (λ made. AreFaultsCopied made.faults.items result room.old room.new count.new) }
{
    rows.lend(
        alloc,
        &mut |held: &Held| match held.rows() {
            Some(made) => {
                copy_faults(&made.faults, room, count);
                OK
            }
            None => NO_HANDLE,
        },
    )
}
