//! Writes rows.

ghost use Rattle.std.specs.Prelude.{◌≡◌, ◌+◌, ◌^◌, ◌<◌, [], IfOk, OnOk, IfErr, IsErrOf};
ghost use Rattle.zic_counted.specs.Written.{FailsWithin};
ghost use Rattle.zic_layouts.specs.declared.layout.RowStart.TheVariants as start;
ghost use Rattle.zic_piece_rows.specs.LayoutRows.{ended};
ghost use Rattle.zic_convert.specs.By.{by_of};
ghost use Rattle.zic_convert.specs.Column.{header_of, names_added, names_line, names_of};
ghost use Rattle.zic_convert.specs.code.Pieces.{joined};
ghost use Rattle.zic_convert.specs.code.Written.{EndsAtHead, EndsInPieces, IsStopAt, Wrote, WroteRows, writing};

use crate::log::{note_all, tally_all};
use crate::names::{Names, push_added, row_names};
use std::alloc::AllocError;
use std::io::Write;
use zic_base::{RowKind, RunStop};
use zic_counted::{Counted, WriteFailed};
use zic_layouts::{Header, Layout, RowLog, RowStart};
use zic_piece_rows::Rows;
use zic_zones::{RowZones, Zones};

/// Adds the names of the fields that a row adds to its record, and the line end of rows, to the own bytes
/// of a header. Does nothing where there is no header.
fn add_names(
    line: &mut Vec<u8>,
    layout: &Layout,
    old: &Option<RowZones<'_>>,
) -> Result<(), AllocError>
    ensures { OnOk result (line.new.items
        ≡ ended layout.now.line_end
        (header_of start.Record (names_added layout.now old.now) line.old.items)) }
{
    if line.is_empty() {
        return Ok(());
    }
    let mut names = Names::new();
    push_added(&mut names, layout, old);
    line.extend_from_slice(names.as_slice())?;
    line.extend_from_slice(layout.line_end.bytes())
}

/// Returns the header before rows, by the own bytes of the column's header. Returns no bytes where rows
/// don't begin with their records, or the column has no header.
///
/// # Errors
///
/// Fails where memory is refused.
fn header_line(
    layout: &Layout,
    old: &Option<RowZones<'_>>,
    own: Vec<u8>,
) -> Result<Vec<u8>, AllocError>
    ensures { IfOk result (λ line. line.items
        ≡ ended layout.now.line_end
        (header_of layout.now.start (names_added layout.now old.now) own.items)) }
{
    let mut line = own;
    match layout.start {
        RowStart::Fields => {
            line.clear();
            Ok(line)
        }
        RowStart::Record | RowStart::Replaced => {
            add_names(&mut line, layout, old)?;
            Ok(line)
        }
    }
}

/// Writes all of the bytes, as `zic_counted` does.
fn write_all<W: Write>(writer: &mut Counted<W>, bytes: &[u8]) -> Result<(), RunStop>
    ensures ok { OnOk result (Wrote W.contents writer.old writer.new bytes.now) }
    ensures err { IfErr result (λ stop. (stop ≡ RunStop.WriteFailed)
        × FailsWithin W.contents writer.old writer.new bytes.now) }
{
    match zic_counted::write_all(writer, bytes) {
        Ok(()) => Ok(()),
        Err(WriteFailed) => Err(RunStop::WriteFailed),
    }
}

/// Flushes the writer.
pub(crate) fn flush<W: Write>(writer: &mut Counted<W>) -> Result<(), RunStop>
    ensures ok { OnOk result (Wrote W.contents writer.old writer.new []) }
    ensures err { IfErr result (λ stop. (stop ≡ RunStop.WriteFailed)
        × FailsWithin W.contents writer.old writer.new []) }
{
    match zic_counted::flush(writer) {
        Ok(()) => Ok(()),
        Err(WriteFailed) => Err(RunStop::WriteFailed),
    }
}

/// Returns the line if a header is written and rows begin with names, else no bytes.
fn names_of(start: RowStart, header: Header, line: &[u8]) -> &[u8]
    ensures { result.now ≡ names_of start header line.now }
{
    match (start, header) {
        (RowStart::Fields, Header::First) => line,
        _ => &[],
    }
}

/// Writes the line of names before rows that begin with a name and an instant, or a local time, where
/// the layout has a header: of the rows that these zones give. Doesn't flush.
///
/// # Errors
///
/// `WriteFailed`.
pub(crate) fn write_names<W: Write, Z: Zones>(
    writer: &mut Counted<W>,
    layout: &Layout,
    zones: &Z,
) -> Result<(), RunStop>
    ensures ok { OnOk result (Wrote W.contents writer.old writer.new (names_line layout.now
        (Z.known zones.now).old)) }
    ensures err { IfErr result (λ stop. (stop ≡ RunStop.WriteFailed)
        × FailsWithin W.contents writer.old writer.new (names_line layout.now
        (Z.known zones.now).old)) }
{
    let releases = zones.ready();
    let line = row_names(layout, &releases.old);
    write_all(
        writer,
        names_of(layout.start, layout.header, line.as_slice()),
    )
}

/// Writes the column's own header before rows that begin with their records, by the header's own bytes
/// as [`header_line`] has them, and flushes the writer. Writes nothing where there is none.
///
/// # Errors
///
/// `Memory`, before anything is written, or `WriteFailed`.
pub(crate) fn write_header<W: Write>(
    writer: &mut Counted<W>,
    layout: &Layout,
    old: &Option<RowZones<'_>>,
    own: Vec<u8>,
) -> Result<(), RunStop>
    ensures ok { OnOk result (Wrote W.contents writer.old writer.new (ended layout.now.line_end
        (header_of layout.now.start (names_added layout.now old.now) own.items))) }
    ensures err { IfErr result (EndsAtHead W.contents writer.old writer.new (ended
        layout.now.line_end (header_of layout.now.start (names_added layout.now old.now) own.items))) }
{
    let Ok(line) = header_line(layout, old, own) else {
        return Err(RunStop::Memory);
    };
    if line.is_empty() {
        return Ok(());
    }
    write_all(writer, &line)?;
    flush(writer)
}

/// Flushes the writer, and returns the stop at a row that ends the run, or `WriteFailed`.
pub(crate) fn stop_at<W: Write>(writer: &mut Counted<W>, row: u64, kind: RowKind) -> RunStop
    ensures { IsStopAt W.contents writer.old writer.new (record { row = row; kind = kind }) result }
{
    match flush(writer) {
        Ok(()) => RunStop::Row { row, kind },
        Err(stop) => stop,
    }
}

/// Writes the rows of pieces, one piece after another, up to the first that ends the run, notes
/// their faults, flushes the writer and the log, and returns the number of rows. The first is the row
/// of this number.
///
/// # Errors
///
/// `Row` with the number and the kind of the fault that ends the run, once the rows before it are
/// written and flushed, `WriteFailed`, or `LogFailed` once all rows are written and flushed.
pub(crate) fn write_rows<W: Write, L: RowLog>(
    writer: &mut Counted<W>,
    first: u64,
    pieces: &[Rows],
    log: &mut L,
) -> Result<u64, RunStop>
    requires { first + (joined pieces.now).count < 2 ^ 64 }
    ensures ok { IfOk result (λ count. WroteRows (writing W.contents writer.old writer.new (L.noted
        log.old) (L.noted log.new)) (joined pieces.now) count) }
    ensures err { IfErr result (EndsInPieces (writing W.contents writer.old writer.new (L.noted
        log.old) (L.noted log.new)) first pieces.now) }
    ensures began { L.began log.new ≡ L.began log.old }
    ensures log { IsErrOf result RunStop.LogFailed → L.failed log.new }
{
    let mut count = 0;
    for rows in pieces {
        write_all(writer, rows.text.bytes())?;
        note_all(log, &rows.faults);
        tally_all(log, &rows.tallies);
        count += rows.count;
        if let Some(kind) = rows.fault {
            return Err(stop_at(writer, first + count, kind));
        }
    }
    flush(writer)?;
    if !log.flush() {
        return Err(RunStop::LogFailed);
    }
    Ok(count)
}
