//! Records that have more bytes of their own than they may have.

ghost use Rattle.std.specs.Prelude.{◌≡◌, ◌∷◌, [], false, ℕ, List, Option, Some, length};
ghost use Rattle.zic_columns.specs.Own.{CsvRecord};
ghost use Rattle.zic_columns.specs.Round.{may_have};
ghost use Rattle.zic_files.specs.File.{File};
ghost use Rattle.zic_layouts.specs.Noted.{RowNote};
ghost use Rattle.zic_zones.specs.declared.zones.Releases.{Releases};
ghost use Rattle.zic_piece_rows.specs.LayoutRows.{ends_by};
ghost use Rattle.zic_layouts.specs.declared.plan.TheConstants.{MAX_BYTES};
ghost use Rattle.zic_convert.specs.By.{by_of};
ghost use Rattle.zic_convert.specs.Column.{read_of_lines};
ghost use Rattle.zic_convert.specs.code.Halt.{IsOwnCause};
ghost use Rattle.zic_convert.specs.code.Progress.{longest_of};
ghost use Rattle.zic_convert.specs.code.Written.{EndsInRecords, numbered, writing};

use crate::output::stop_at;
use std::io::Write;
use zic_base::{RowKind, RunStop};
use zic_counted::Counted;
use zic_layouts::{AtFault, Layout, MAX_BYTES, Records};

/// How many bytes more than a record may have are read of a line: one, and the three of a byte order mark
/// before it.
const READ_BEYOND: u64 = 4;

/// Returns the most bytes that a record may have, where one with more ends the run.
pub(crate) fn longest_of(layout: &Layout) -> Option<u64>
    ensures { result ≡ longest_of layout.now }
{
    match (layout.at_fault, layout.records) {
        (AtFault::GoOn | AtFault::Reject, Records::Lines) => None,
        (AtFault::GoOn | AtFault::Reject, Records::Csv) | (AtFault::End, _) => layout.max_record,
    }
}

/// Returns how many bytes of each line of a column are read, where lines that have too many are rows
/// with a fault.
pub(crate) fn read_of_lines(layout: &Layout) -> Option<u64>
    ensures { result ≡ read_of_lines layout.now.at_fault layout.now.records layout.now.max_record }
{
    match (layout.at_fault, layout.records) {
        (AtFault::GoOn | AtFault::Reject, Records::Lines) => {
            let most = layout.max_record?;
            Some(most.min(MAX_BYTES) + READ_BEYOND)
        }
        (AtFault::GoOn | AtFault::Reject, Records::Csv) | (AtFault::End, _) => None,
    }
}

/// Returns the fault that ends the run at such a record as the row of a number, where there is a
/// greatest number of rows.
fn long_kind(most: u64, number: u64) -> RowKind
    ensures { (layout : Layout) (files : List File) (given : CsvRecord)
        → may_have (longest_of layout) (length given.own) ≡ false
        → ends_by layout files most number given ≡ Some result }
{
    if most < number {
        return RowKind::TooManyRows;
    }
    RowKind::RowTooLong
}

/// Flushes the writer, and returns the stop at such a record as the row of a number, or `WriteFailed`.
pub(crate) fn end_at_long<W: Write>(writer: &mut Counted<W>, most: u64, number: u64) -> RunStop
    ensures stop { (layout : Layout) (releases : Releases) (limit : Option ℕ) (given : CsvRecord)
        (log : Option (List RowNote)) → may_have (longest_of layout) (length given.own) ≡ false
        → EndsInRecords (by_of layout releases most limit) (writing W.contents writer.old writer.new
        log log) (numbered number (given ∷ [])) result }
    ensures cause { IsOwnCause writer.old writer.new result }
{
    stop_at(writer, number, long_kind(most, number))
}
