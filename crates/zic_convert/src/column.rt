//! Converts plain columns in memory.

ghost use Rattle.std.specs.Prelude.{◌≡◌, ◌+◌, ◌≤◌, IfOk, length, option_map};
ghost use Rattle.zic_base.specs.declared.row_fault.RowFault.{RowFault};
ghost use Rattle.zic_convert.specs.Column.{AreRowsOfColumn};

use crate::laws::plain_columns_convert_alike;
use crate::memory::rows_by_layout;
use std::alloc::{AllocError, Global};
use zic_base::{RowFault, RowKind};
use zic_columns::laws::{column_records_are_read, records_are_one};
use zic_files::Files;
use zic_layouts::{Header, Layout, MAX_BYTES, MAX_OF_PIECE, Plan};

/// The rows of a column up to the first that has a fault: their text, their number, and that fault.
#[derive(Drop)]
pub struct ColumnRows {
    pub text: Vec<u8>,
    pub count: u64,
    pub fault: Option<RowKind>,
}

/// Returns the kind of a fault.
fn kind_of(fault: Option<RowFault>) -> Option<RowKind>
    ensures { result ≡ option_map (λ (fault : RowFault). fault.kind) fault }
{
    match fault {
        Some(fault) => Some(fault.kind),
        None => None,
    }
}

/// Converts a column in memory on the calling thread, to the rows of [`crate::convert`]. Returns
/// those up to the first that has a fault, and that fault. There may be at most `max_rows` rows.
///
/// # Errors
///
/// Fails where memory is refused, or where the column has more bytes, or may have more rows, than those
/// of any plan.
pub fn rows_of_column(
    alloc: Global,
    files: &Files,
    max_rows: u64,
    column: &[u8],
) -> Result<ColumnRows, AllocError>
    ensures rows { IfOk result (λ rows.
        AreRowsOfColumn files.now max_rows column.now rows.text.items rows.count rows.fault) }
    ensures few { IfOk result (λ rows. rows.count ≤ length column.now + 1) }
{
    column_records_are_read();
    records_are_one();
    plain_columns_convert_alike();
    let layout = Layout::plain(Header::Absent);
    let Some(plan) = Plan::new(1, 1, MAX_OF_PIECE, max_rows, MAX_BYTES) else {
        return Err(AllocError);
    };
    let rows = rows_by_layout(alloc, files, &plan, &layout, column)?;
    Ok(ColumnRows {
        text: rows.text,
        count: rows.count,
        fault: kind_of(rows.fault),
    })
}
