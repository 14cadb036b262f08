//! The rows of a column, from standard input to standard output.

use crate::column::convert_column;
use crate::conversion::ConvertContext;
use crate::ending::rows_made;
use crate::first::FirstBytes;
use crate::header::Head;
use std::fs::Files;
use std::io::{Input, Printer, Read, Write};
use std::mem;
use std::random::RandomSource;
use std::sync::Wait;
use std::thread::Threads;
use std::time::Clock;
use zic_command_line::ConvertOptions;
use zic_counted::Counted;
use zic_host::{Noting, WriteReason, output};
use zic_io::{Failure, Progress, ProgressLine};
use zic_layouts::{Header, Layout, Records, RowLog};
use zic_pieces::Open;

/// Converts standard input to standard output, reports the rows, and takes note of faults. Returns the
/// number of rows.
pub(crate) fn convert_rows<
    R: Files + Input + Print + Clock + RandomSource + AllocGlobal + Threads + Wait + Sync,
    E: Write + Drop,
    L: RowLog,
>(
    rt: &R,
    order: &ConvertOptions,
    noted: &mut ConvertContext,
    line: ProgressLine<E>,
    log: &mut L,
) -> Result<u64, Failure> {
    let head = mem::replace(&mut noted.head, Head::new(rt.alloc()));
    // What ended isn't read again: a terminal would go on.
    let most = if head.is_whole { 0 } else { u64::MAX };
    let rest = head.failing().chain(rt.reader().take(most));
    let column = head.reader(rt.alloc()).chain(rest);
    let mut input = Counted::new(FirstBytes::of(column, &mut noted.is_gzip));
    let mut output = Counted::new(progress(rt, &order.layout, &noted.reason, line));
    let conversion = zic_bulk::Conversion {
        rt,
        alloc: rt.alloc(),
        plan: &order.plan,
        layout: &order.layout,
        gate: &Open,
        max_faults: order.max_faults,
    };
    let texts = &noted.texts;
    let converted = convert_column(order, &conversion, texts, &mut input, &mut output, log);
    let mut rows = output.into_inner();
    if let Err(failure) = &converted {
        count_before(&mut rows, failure);
    }
    rows.finish(rows_made(&order.against, &converted));
    converted
}

/// Reports the rows of a run that ended at its header, which are none, and returns why it ended.
pub(crate) fn end_at_header<R: Print + Clock, E: Write + Drop>(
    rt: &R,
    order: &ConvertOptions,
    reason: &WriteReason,
    line: ProgressLine<E>,
    failure: Failure,
) -> Result<(), Failure> {
    let mut rows = progress(rt, &order.layout, reason, line);
    count_before(&mut rows, &failure);
    rows.finish(None);
    Err(failure)
}

/// Has rows reported before a failure of the column or its rows, also where none were written.
fn count_before<W: Write, C: Clock, E: Write>(rows: &mut Progress<'_, W, C, E>, failure: &Failure) {
    if is_of_column(failure) {
        // Rows are reported once a flush was requested. What was written is flushed already.
        let _ = rows.flush();
    }
}

/// Returns whether a failure is of the column or its rows: what isn't read or written, or has a fault.
fn is_of_column(failure: &Failure) -> bool {
    matches!(
        failure,
        Failure::Row { .. }
            | Failure::ColumnTooLong
            | Failure::CannotReadColumn
            | Failure::CannotWriteRows
            | Failure::CannotWriteList
    )
}

/// Returns the writer to standard output that reports the rows. It is noted there why the system refuses it.
fn progress<'a, R: Print + Clock, E: Write>(
    rt: &'a R,
    layout: &Layout,
    reason: &'a WriteReason,
    line: ProgressLine<E>,
) -> Progress<'a, Noting<'a, Printer<'a, R>>, R, E> {
    let has_header = layout.header == Header::First;
    let delimiter = match layout.records {
        Records::Csv => Some(layout.delimiter.byte()),
        Records::Lines => None,
    };
    Progress::new(output(rt, reason), rt, line, has_header, delimiter)
}
