//! What is noted of a row with a fault.

ghost use Rattle.std.specs.Prelude.{◌≡◌, ◌≤◌, ℕ, List, length, IfOk};
ghost use Rattle.zic_columns.specs.Record.{bytes_at};
ghost use Rattle.zic_piece_rows.specs.Detail.{line_feeds_before, value_at_fault};
ghost use Rattle.zic_piece_rows.specs.LayoutRows.{if_rejected};
ghost use Rattle.zic_piece_rows.specs.code.Batch.{IsGiven, record_of};
ghost use Rattle.zic_piece_rows.specs.code.Note.{ArePassed, IsNotedOf};

use crate::faulty::{copy_time, copy_zone, rejected_bytes};
use crate::piece::Piece;
use std::alloc::{AllocError, Global};
use zic_base::{RowFault, RowKind};
use zic_columns::{Record, line_end_at, line_feeds};
use zic_layouts::{FaultDetail, FaultyRow};

/// An index of a piece, and the number of line feeds before it.
#[derive(Clone, Copy, Drop)]
pub(crate) struct LinesPassed {
    at: usize,
    line_feeds: u64,
}

impl LinesPassed {
    /// Returns the start of a piece.
    pub(crate) fn new() -> LinesPassed
        ensures passed { (piece : List ℕ) → ArePassed piece result }
        ensures at { result.at ≡ 0 }
    {
        LinesPassed {
            at: 0,
            line_feeds: 0,
        }
    }

    /// Goes on to an index of the piece, and returns the number of line feeds before it.
    fn go_to(&mut self, piece: &[u8], at: usize) -> u64
        requires { at ≤ length piece.now }
        ensures counted { ArePassed piece.now self.old → self.old.at ≤ at
            → result ≡ line_feeds_before piece.now at }
        ensures passed { ArePassed piece.now self.old → ArePassed piece.now self.new }
        ensures at { self.old.at ≤ at → self.new.at ≡ at }
    {
        if self.at < at {
            let more = line_feeds(&piece[self.at..at]);
            self.at = at;
            self.line_feeds = self.line_feeds.saturating_add(more);
        }
        self.line_feeds
    }
}

/// Returns the field of a record that a fault is of, without double quotes. Returns no bytes where the
/// fault isn't of one field.
fn value_at_fault(
    alloc: Global,
    piece: &Piece<'_, '_>,
    given: &Record,
    kind: RowKind,
) -> Result<Vec<u8>, AllocError>
    requires { IsGiven piece.now given.now }
    ensures { IfOk result (λ value. value.items ≡ value_at_fault piece.now.layout.now kind
        (record_of piece.now given.now)) }
{
    match kind {
        RowKind::RowZone => copy_zone(alloc, piece, given),
        RowKind::RowInstant
        | RowKind::RowLocal
        | RowKind::RowRange
        | RowKind::RowSkipped
        | RowKind::RowRepeated => copy_time(alloc, piece, given),
        RowKind::TooManyRows
        | RowKind::RowTooLong
        | RowKind::RowQuote
        | RowKind::RowFields
        | RowKind::HeaderIsRow => Ok(Vec::new(alloc)),
    }
}

/// Returns the line where a record with a fault begins, and the field at fault, where details are noted.
fn detail_of(
    alloc: Global,
    piece: &Piece<'_, '_>,
    given: &Record,
    kind: RowKind,
    passed: &mut LinesPassed,
) -> Result<Option<FaultDetail>, AllocError>
    requires { IsGiven piece.now given.now }
    ensures { IfOk result
        (IsNotedOf piece.now given.now kind passed.old piece.now.lines_before) }
{
    let Some(before) = piece.lines_before else {
        return Ok(None);
    };
    let within = passed.go_to(piece.bytes, given.own.start);
    let value = value_at_fault(alloc, piece, given, kind)?;
    Ok(Some(FaultDetail {
        line: before.saturating_add(within).saturating_add(1),
        value,
    }))
}

/// Returns what is noted of a record with a fault: its own bytes where it is rejected, how its line
/// ends, and its line and the field at fault where details are noted. Lines are counted on from the ones
/// that were passed before.
pub(crate) fn note_of(
    alloc: Global,
    piece: &Piece<'_, '_>,
    given: &Record,
    fault: RowFault,
    passed: &mut LinesPassed,
) -> Result<FaultyRow, AllocError>
    requires { IsGiven piece.now given.now }
    ensures { IfOk result (λ row. row ≡ record {
      fault = fault;
      own = if_rejected piece.now.layout.now.at_fault (bytes_at piece.now.bytes.now given.now.own);
    }) }
{
    let own = rejected_bytes(alloc, piece.layout, given.own.of(piece.bytes))?;
    let detail = detail_of(alloc, piece, given, fault.kind, passed)?;
    Ok(FaultyRow {
        fault,
        own,
        line_end: line_end_at(piece.bytes, given.own.end),
        detail,
    })
}
