//! The rows of open lines.

ghost use Rattle.std.specs.Prelude.{◌≡◌, ◌+◌, ◌≤◌, ◌∷◌, ◌++◌, [], List, IfOk, IfErr, IsErrOf, Some};
ghost use Rattle.zic_columns.specs.Lines.{open_record};
ghost use Rattle.zic_files.specs.File.{File};
ghost use Rattle.zic_layouts.specs.Layout.{line_end_bytes};
ghost use Rattle.zic_layouts.specs.declared.plan.TheConstants.{MAX_ROWS};
ghost use Rattle.zic_convert.specs.By.{by_of};
ghost use Rattle.zic_convert.specs.code.Row.{unless_compared};
ghost use Rattle.zic_piece_rows.specs.LayoutRows.{fault_by, if_rejected, unless_rejected};
ghost use Rattle.zic_piece_rows.specs.PieceRows.{AreRowsOf};
ghost use Rattle.zic_convert.specs.code.Written.{EndsInRecords, WritesRecords, numbered, writing};

use crate::header::ReadBy;
use crate::output::{stop_at, write_rows};
use crate::tally::{Tally, left_after};
use std::alloc::{AllocError, Global};
use std::io::Write;
use zic_base::{RowFault, RowKind, RunStop};
use zic_columns::{TakenLine, may_have};
use zic_counted::Counted;
use zic_layouts::{AtFault, FaultDetail, FaultyRow, Layout, RowLog};
use zic_piece_rows::{Rows, ends_run, push_own, rejected_bytes};
use zic_row_text::RowText;
use zic_zones::{Releases, RowZones};

/// Returns the fault of an open line, the row of this number: `TooManyRows` if that is above `most`, else
/// `RowTooLong` if the line is too long, else `RowQuote`.
pub(crate) fn open_kind(layout: &Layout, most: u64, number: u64, line: &[u8]) -> RowKind
    ensures { (files : List File)
        → fault_by layout.now files most number (open_record line.now) ≡ Some result }
{
    if most < number {
        return RowKind::TooManyRows;
    }
    if !may_have(layout.max_record, line.len()) {
        return RowKind::RowTooLong;
    }
    RowKind::RowQuote
}

/// Returns what an open line adds to the text of rows: its own bytes, unless it is rejected, or there is
/// another release, which doesn't answer it differently.
fn open_text(
    alloc: Global,
    layout: &Layout,
    old: &Option<RowZones<'_>>,
    line: &[u8],
) -> Result<Vec<u8>, AllocError>
    ensures { IfOk result (λ text. text.items ≡ unless_compared old.now
        (unless_rejected layout.now.at_fault (line.now ++ line_end_bytes layout.now.line_end))) }
{
    let mut text = Vec::new(alloc);
    match (layout.at_fault, old) {
        (AtFault::Reject, _) | (_, Some(_)) => {}
        (AtFault::End | AtFault::GoOn, None) => push_own(&mut text, line, b"", layout.line_end)?,
    }
    Ok(text)
}

/// Returns what is noted of an open line: its own bytes where it is rejected, how it ends, and its number
/// among lines where details are noted. The fault isn't of one field.
fn open_note(
    alloc: Global,
    layout: &Layout,
    line: &TakenLine,
    fault: RowFault,
) -> Result<FaultyRow, AllocError>
    ensures { IfOk result (λ row. row ≡ record {
      fault = fault;
      own = if_rejected layout.now.at_fault line.now.own.items;
    }) }
{
    let own = rejected_bytes(alloc, layout, &line.own)?;
    let detail = match line.lines_before {
        Some(before) => Some(FaultDetail {
            line: before.saturating_add(1),
            value: Vec::new(alloc),
        }),
        None => None,
    };
    Ok(FaultyRow {
        fault,
        own,
        line_end: line.line_end,
        detail,
    })
}

/// Returns the row of an open line, which has a fault, or the fault that ends the run there. The line is
/// the row of this number.
fn open_row(
    alloc: Global,
    layout: &Layout,
    releases: &Releases<'_>,
    most: u64,
    number: u64,
    line: &TakenLine,
) -> Result<Rows, AllocError>
    ensures { IfOk result (AreRowsOf layout.now releases.now most number
        (open_record line.now.own.items ∷ [])) }
{
    let mut rows = Rows::new(alloc, RowText::new(alloc));
    let own: &[u8] = &line.own;
    let kind = open_kind(layout, most, number, own);
    if ends_run(layout.at_fault, layout.records, kind) {
        rows.fault = Some(kind);
        return Ok(rows);
    }
    let text = open_text(alloc, layout, &releases.old, own)?;
    rows.text.push(&text)?;
    rows.count = 1;
    let fault = RowFault { row: number, kind };
    let note = open_note(alloc, layout, line, fault)?;
    rows.faults.push(note)?;
    Ok(rows)
}

/// Writes the row of an open line, which is the row of this number, and notes its fault, where any is
/// left. Returns the number of rows, and how many faults are left then.
///
/// # Errors
///
/// `Row` where the fault ends the run or is one too many, `Memory`, `WriteFailed`, or `LogFailed` once
/// the row is written.
pub(crate) fn write_open_line<W: Write, L: RowLog>(
    by: &ReadBy<'_>,
    releases: &Releases<'_>,
    line: &TakenLine,
    number: u64,
    left: Option<u64>,
    writer: &mut Counted<W>,
    log: &mut L,
) -> Result<Tally, RunStop>
    requires { number ≤ MAX_ROWS + 1 }
    ensures ok { IfOk result (WritesRecords (by_of by.now.layout.now releases.now
        by.now.plan.now.max_rows left) (writing W.contents writer.old writer.new (L.noted log.old)
        (L.noted log.new)) (numbered number (open_record line.now.own.items ∷ []))) }
    ensures stop { IfErr result (EndsInRecords (by_of by.now.layout.now releases.now
        by.now.plan.now.max_rows left) (writing W.contents writer.old writer.new (L.noted log.old)
        (L.noted log.new)) (numbered number (open_record line.now.own.items ∷ []))) }
    ensures began { L.began log.new ≡ L.began log.old }
    ensures log { IsErrOf result RunStop.LogFailed → L.failed log.new }
{
    let most = by.plan.max_rows();
    let Ok(row) = open_row(by.alloc, by.layout, releases, most, number, line) else {
        return Err(RunStop::Memory);
    };
    let rows = [row];
    match left_after(&rows, left) {
        Ok(left) => match write_rows(writer, number, &rows, log) {
            Ok(rows) => Ok(Tally { rows, left }),
            Err(stop) => Err(stop),
        },
        Err(fault) => Err(stop_at(writer, fault.row, fault.kind)),
    }
}
