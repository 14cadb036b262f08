//! The calls on rows.

ghost use Rattle.std.specs.Prelude.{◌≡◌, MatchOption, None};
ghost use Rattle.pzic_zones.specs.Handle.{IsHandle, files_in, held_in, rows_in};
ghost use Rattle.pzic_files.specs.LayoutRows.{AreFaultsCopied, IsConvertedBy};
ghost use Rattle.pzic_files.specs.RowLayout.{usual_rows};
ghost use Rattle.pzic_files.specs.Rows.{AreRowsGiven};
ghost use Rattle.pzic_files.specs.Text.{IsTextCopied};
ghost use Rattle.pzic_zones.specs.declared.status.TheConstants.{NO_HANDLE, OK};

use pzic_files::{ColumnLayout, RowLayout};
use pzic_zones::{Handle, RowFault};
use std::alloc::Global;

/// Converts a column.
#[unsafe(no_mangle)]
pub extern "C" fn pzic_raw_rows(
    alloc: Global,
    files: &mut Handle,
    column: &[u8],
    rows: &mut Handle,
    fault: &mut RowFault,
) -> i32
    requires files { IsHandle files.old }
    requires rows { IsHandle rows.old }
    ensures unchanged { files.new ≡ files.old }
    ensures handle { IsHandle rows.new }
    ensures gives { MatchOption (files_in files.old)
        ((result ≡ NO_HANDLE) × (fault.new ≡ fault.old) × (held_in rows.new ≡ None))
        (λ all. AreRowsGiven all column.now result fault.old fault.new (held_in rows.new)) }
{
    pzic_files::rows(alloc, files, column, rows, fault)
}

/// Converts a column by a layout.
#[unsafe(no_mangle)]
pub extern "C" fn pzic_raw_rows_by(
    alloc: Global,
    files: &mut Handle,
    layout: &ColumnLayout,
    name: &[u8],
    column: &[u8],
    rows: &mut Handle,
) -> i32
    requires files { IsHandle files.old }
    requires rows { IsHandle rows.old }
    ensures unchanged { files.new ≡ files.old }
    ensures handle { IsHandle rows.new }
    ensures gives { MatchOption (files_in files.old)
        ((result ≡ NO_HANDLE) × (held_in rows.new ≡ None))
        (λ all. IsConvertedBy all (usual_rows layout.now) name.now column.now result
        (held_in rows.new)) }
{
    pzic_files::rows_by(alloc, files, layout, name, column, rows)
}

/// Converts a column by a layout with all that rows may have.
#[unsafe(no_mangle)]
pub extern "C" fn pzic_raw_rows_with(
    alloc: Global,
    files: &mut Handle,
    layout: &RowLayout,
    name: &[u8],
    column: &[u8],
    rows: &mut Handle,
) -> i32
    requires files { IsHandle files.old }
    requires rows { IsHandle rows.old }
    ensures unchanged { files.new ≡ files.old }
    ensures handle { IsHandle rows.new }
    ensures gives { MatchOption (files_in files.old)
        ((result ≡ NO_HANDLE) × (held_in rows.new ≡ None))
        (λ all. IsConvertedBy all layout.now name.now column.now result (held_in rows.new)) }
{
    pzic_files::rows_with(alloc, files, layout, name, column, rows)
}

/// Copies the text of rows, as much as there is room for.
#[unsafe(no_mangle)]
pub extern "C" fn pzic_raw_rows_text(
    alloc: Global,
    rows: &mut Handle,
    room: &mut [u8],
    count: &mut usize,
) -> i32
    requires { IsHandle rows.old }
    ensures unchanged { rows.new ≡ rows.old }
    ensures gives { MatchOption (rows_in rows.old)
        ((result ≡ NO_HANDLE) × (room.new ≡ room.old) × (count.new ≡ count.old))
        (λ made. IsTextCopied made.text.items result room.old room.new count.new) }
{
    pzic_files::rows_text(alloc, rows, room, count)
}

/// Gives how many rows there are, without the header, and with those that are left out.
#[unsafe(no_mangle)]
pub extern "C" fn pzic_raw_rows_len(alloc: Global, rows: &mut Handle, count: &mut u64) -> i32
    requires { IsHandle rows.old }
    ensures unchanged { rows.new ≡ rows.old }
    ensures gives { MatchOption (rows_in rows.old)
        ((result ≡ NO_HANDLE) × (count.new ≡ count.old))
        (λ made. (result ≡ OK) × (count.new ≡ made.count)) }
{
    pzic_files::rows_len(alloc, rows, count)
}

/// Copies the faults of rows, as many as there is room for.
#[unsafe(no_mangle)]
pub extern "C" fn pzic_raw_rows_faults(
    alloc: Global,
    rows: &mut Handle,
    room: &mut [RowFault],
    count: &mut usize,
) -> i32
    requires { IsHandle rows.old }
    ensures unchanged { rows.new ≡ rows.old }
    ensures gives { MatchOption (rows_in rows.old)
        ((result ≡ NO_HANDLE) × (room.new ≡ room.old) × (count.new ≡ count.old))
        (λ made. AreFaultsCopied made.faults.items result room.old room.new count.new) }
{
    pzic_files::rows_faults(alloc, rows, room, count)
}
