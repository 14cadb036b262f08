//! The fault of a column's header.

ghost use Rattle.std.specs.Prelude.{◌≡◌, ◌∷◌, [], None, IfErr, IfOk, OnOk};
ghost use Rattle.zic_columns.specs.Own.{CsvRecord, csv_records};
ghost use Rattle.zic_piece_rows.specs.LayoutRows.{fault_by};
ghost use Rattle.zic_zones.specs.declared.zones.Releases.{Releases};
ghost use Rattle.zic_convert.specs.Header.{header_kind};
ghost use Rattle.zic_convert.specs.code.Progress.{EndsNoLine, HaltsAtCheck, IsOwnFault, is_open_by, kept_of};

use crate::halt::Halt;
use crate::opened::open_kind;
use std::alloc::{AllocError, Global};
use zic_base::{RowKind, RunStop};
use zic_columns::laws::first_record_is_alone;
use zic_columns::{OnePiece, is_open_line};
use zic_layouts::{Header, Layout, Plan, Records};
use zic_piece_rows::{Piece, rows_of_piece};
use zic_row_text::RowText;
use zic_zones::{Releases, Zones};

/// What a column is read by.
#[derive(Clone, Copy, Drop)]
pub(crate) struct ReadBy<'a> {
    pub(crate) alloc: Global,
    pub(crate) plan: &'a Plan,
    pub(crate) layout: &'a Layout,
}

/// Returns why a record is no header, if it is none, by the fault that it would have as a row.
fn header_kind(fault: Option<RowKind>) -> Option<RowKind>
    ensures { result ≡ header_kind fault }
{
    match fault {
        None | Some(RowKind::RowRange | RowKind::RowSkipped | RowKind::RowRepeated) => {
            Some(RowKind::HeaderIsRow)
        }
        Some(RowKind::RowTooLong) => Some(RowKind::RowTooLong),
        Some(RowKind::RowQuote) => Some(RowKind::RowQuote),
        Some(_) => None,
    }
}

/// Returns the fault that one record of CSV has as row 0, or none.
fn record_fault(
    alloc: Global,
    layout: &Layout,
    releases: &Releases<'_>,
    own: &[u8],
) -> Result<Option<RowKind>, AllocError>
    ensures { IfOk result (λ fault. (given : CsvRecord)
        → csv_records layout.now.delimiter own.now ≡ given ∷ []
        → fault ≡ fault_by layout.now releases.now.zones 0 0 given) }
{
    let piece = Piece {
        bytes: own,
        zones: &releases.zones,
        layout,
        first: 0,
        most: 0,
        lines_before: None,
    };
    let rows = rows_of_piece(alloc, &piece, &releases.old, RowText::new(alloc))?;
    let noted = match rows.faults.first() {
        Some(row) => Some(row.fault.kind),
        None => None,
    };
    let fault = rows.fault;
    drop(rows);
    Ok(fault.or(noted))
}

/// Returns whether own bytes are those of an open line.
fn is_open(layout: &Layout, own: &[u8]) -> bool
    ensures { EndsNoLine layout.now.records own.now
        → result ≡ is_open_by layout.now.records layout.now.delimiter own.now }
{
    match layout.records {
        Records::Csv => false,
        Records::Lines => is_open_line(own, &layout.delimiter),
    }
}

/// Returns the fault of a header with these own bytes, or none.
pub(crate) fn header_fault(
    alloc: Global,
    layout: &Layout,
    releases: &Releases<'_>,
    own: &[u8],
) -> Result<Option<RowKind>, AllocError>
    ensures { IfOk result (IsOwnFault layout.now releases.now.zones own.now) }
{
    if own.is_empty() {
        return Ok(None);
    }
    // The delimiter is no double quote and ends no line.
    prove!(layout.delimiter.byte() <= u8::MAX);
    first_record_is_alone();
    let unkept = layout.without_kept_times(alloc)?;
    let fault = if is_open(layout, own) {
        Some(open_kind(&unkept, 0, 0, own))
    } else {
        record_fault(alloc, &unkept, releases, own)?
    };
    Ok(header_kind(fault))
}

/// Makes the zone ready that a header names, and checks that the header has no fault. The own bytes of the
/// header are none where there is none.
///
/// # Errors
///
/// `Memory`, or row 0 with the fault: rows count from 1.
pub(crate) fn check_header<Z: Zones>(by: &ReadBy<'_>, zones: &mut Z, own: &[u8]) -> Result<(), Halt>
    ensures grown { OnOk result (Z.grown zones.old zones.new) }
    ensures none { OnOk result ((releases : Releases) → Z.may_be zones.new releases
        → IsOwnFault by.now.layout.now releases.zones own.now None) }
    ensures halt { IfErr result (HaltsAtCheck Z.grown Z.broken Z.may_be zones.old zones.new
        by.now.layout.now own.now) }
{
    // The delimiter is no double quote and ends no line.
    prove!(by.layout.delimiter.byte() <= u8::MAX);
    first_record_is_alone();
    let one = OnePiece::new(own);
    zones.prepare(
        by.alloc,
        &by.layout.zone,
        &by.layout.delimiter,
        &one.round(),
    )?;
    let releases = zones.ready();
    match header_fault(by.alloc, by.layout, &releases, own)? {
        None => Ok(()),
        Some(kind) => Err(Halt::Stop(RunStop::Row { row: 0, kind })),
    }
}

/// Returns the own bytes that are kept of a header: none where it is skipped.
pub(crate) fn kept_of(header: Header, own: Vec<u8>) -> Vec<u8>
    ensures { result.items ≡ kept_of header own.items }
{
    let mut kept = own;
    match header {
        Header::Absent | Header::First => {}
        Header::Skipped => kept.clear(),
    }
    kept
}
