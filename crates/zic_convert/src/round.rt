//! Converts a round, and writes its rows.

ghost use Rattle.std.specs.Prelude.{◌≡◌, ◌≤◌, IfOk, IfErr, IsErrOf, Option, ℕ, false, length};
ghost use Rattle.zic_pieces.specs.Task.{AreValues};
ghost use Rattle.zic_convert.specs.code.Pieces.{ArePieces, IsCrew, IsOutcomeOf};
ghost use Rattle.zic_columns.specs.declared.pieces.TheConstants.{MAX_ROUND_PIECES};
ghost use Rattle.zic_convert.specs.code.Written.{EndsInRound, HasOneTooMany, WritesRound, writing};

use crate::crew::{Converting, PieceRows};
use crate::output::write_rows;
use crate::pieces::RowPieces;
use crate::tally::{Tally, left_after};
use crate::texts::TextPool;
use std::io::Write;
use zic_base::{RowFault, RunStop};
use zic_counted::Counted;
use zic_layouts::RowLog;
use zic_piece_rows::Rows;
use zic_pieces::TaskStop;

/// Returns the rows of the pieces, as a task that doesn't stop at a row that ends the run.
///
/// # Errors
///
/// `Memory`.
fn rows_of<F: Fn(&RowPieces<'_, '_, P>) -> PieceRows, P: TextPool>(
    conversion: &Converting<'_, F, P>,
    pieces: &RowPieces<'_, '_, P>,
) -> Result<Vec<Rows>, RunStop>
    requires crew { IsCrew (F.pre conversion.now.crew.now) (F.post conversion.now.crew.now) }
    requires goes_on { pieces.now.stops ≡ false }
    requires few { length pieces.now.pieces ≤ MAX_ROUND_PIECES }
    ensures ok { IfOk result (λ rows.
        AreValues (IsOutcomeOf pieces.now) (length pieces.now.pieces) rows.items) }
    ensures err { IfErr result (λ stop. stop ≡ RunStop.Memory) }
{
    match (conversion.crew)(pieces) {
        Ok(rows) => Ok(rows),
        Err(TaskStop::Memory(_)) => Err(RunStop::Memory),
        Err(TaskStop::NoThread | TaskStop::Fault(_, ())) => unreachable!(),
    }
}

/// Converts the pieces once more up to this row, which has one fault too many, and writes the rows
/// before it. Returns the stop at that row.
///
/// # Errors
///
/// Returns `Memory` or `WriteFailed` in its place where these end the run.
fn end_at_fault<F: Fn(&RowPieces<'_, '_, P>) -> PieceRows, P: TextPool, W: Write, L: RowLog>(
    conversion: &Converting<'_, F, P>,
    pieces: &RowPieces<'_, '_, P>,
    fault: RowFault,
    writer: &mut Counted<W>,
    log: &mut L,
) -> RunStop
    requires crew { IsCrew (F.pre conversion.now.crew.now) (F.post conversion.now.crew.now) }
    requires few { length pieces.now.pieces ≤ MAX_ROUND_PIECES }
    requires fault { (limit : Option ℕ) × HasOneTooMany pieces.now limit fault }
    ensures stop { (limit : Option ℕ) → HasOneTooMany pieces.now limit fault → EndsInRound
        pieces.now limit (writing W.contents writer.old writer.new (L.noted log.old) (L.noted
        log.new)) result }
    ensures began { L.began log.new ≡ L.began log.old }
    ensures log { result ≡ RunStop.LogFailed → L.failed log.new }
{
    let first = pieces.first();
    let before = pieces.before(fault.row);
    let rows = match rows_of(conversion, &before) {
        Ok(rows) => rows,
        Err(stop) => return stop,
    };
    let stop = match write_rows(writer, first, &rows, log) {
        Ok(_) => unreachable!(),
        Err(stop) => stop,
    };
    if let RunStop::Row { .. } = stop {
        return RunStop::Row {
            row: fault.row,
            kind: fault.kind,
        };
    }
    stop
}

/// Writes the rows of a round, by those of its pieces, and notes their faults, of which this many are
/// left. Returns the number of rows, and how many faults are left then.
///
/// # Errors
///
/// `Row` for the fault that ends the run, or that is one too many, once the rows before it are written,
/// `LogFailed` once all rows are written, or `Memory` or `WriteFailed`.
fn write_round<F: Fn(&RowPieces<'_, '_, P>) -> PieceRows, P: TextPool, W: Write, L: RowLog>(
    conversion: &Converting<'_, F, P>,
    pieces: &RowPieces<'_, '_, P>,
    rows: &[Rows],
    left: Option<u64>,
    writer: &mut Counted<W>,
    log: &mut L,
) -> Result<Tally, RunStop>
    requires crew { IsCrew (F.pre conversion.now.crew.now) (F.post conversion.now.crew.now) }
    requires values { AreValues (IsOutcomeOf pieces.now) (length pieces.now.pieces) rows.now }
    ensures ok { IfOk result (WritesRound pieces.now left (writing W.contents writer.old writer.new
        (L.noted log.old) (L.noted log.new))) }
    ensures stop { IfErr result (EndsInRound pieces.now left (writing W.contents writer.old
        writer.new (L.noted log.old) (L.noted log.new))) }
    ensures began { L.began log.new ≡ L.began log.old }
    ensures log { IsErrOf result RunStop.LogFailed → L.failed log.new }
{
    let first = pieces.first();
    match left_after(rows, left) {
        Ok(left) => match write_rows(writer, first, rows, log) {
            Ok(rows) => Ok(Tally { rows, left }),
            Err(stop) => Err(stop),
        },
        Err(fault) => Err(end_at_fault(conversion, pieces, fault, writer, log)),
    }
}

/// Converts the pieces up to the row of the last of them that ends the run, as a task of their own,
/// and writes the rows before it.
///
/// # Errors
///
/// As [`write_round`].
fn convert_again<F: Fn(&RowPieces<'_, '_, P>) -> PieceRows, P: TextPool, W: Write, L: RowLog>(
    conversion: &Converting<'_, F, P>,
    pieces: &RowPieces<'_, '_, P>,
    left: Option<u64>,
    writer: &mut Counted<W>,
    log: &mut L,
) -> Result<Tally, RunStop>
    requires crew { IsCrew (F.pre conversion.now.crew.now) (F.post conversion.now.crew.now) }
    requires goes_on { pieces.now.stops ≡ false }
    requires few { length pieces.now.pieces ≤ MAX_ROUND_PIECES }
    ensures ok { IfOk result (WritesRound pieces.now left (writing W.contents writer.old writer.new
        (L.noted log.old) (L.noted log.new))) }
    ensures stop { IfErr result (EndsInRound pieces.now left (writing W.contents writer.old
        writer.new (L.noted log.old) (L.noted log.new))) }
    ensures began { L.began log.new ≡ L.began log.old }
    ensures log { IsErrOf result RunStop.LogFailed → L.failed log.new }
{
    match rows_of(conversion, pieces) {
        Ok(rows) => write_round(conversion, pieces, &rows, left, writer, log),
        Err(stop) => Err(stop),
    }
}

/// Has the crew convert the pieces of a round, writes their rows, and notes their faults, of which this
/// many are left. Returns the number of rows, and how many faults are left then.
///
/// The first piece with a fault that ends the run ends the task, and later ones need not be
/// converted. The rows before that fault are then converted once more, and so are the rows before one
/// with one fault too many.
///
/// # Errors
///
/// As [`write_round`].
pub(crate) fn convert_round<
    F: Fn(&RowPieces<'_, '_, P>) -> PieceRows,
    P: TextPool,
    W: Write,
    L: RowLog,
>(
    conversion: &Converting<'_, F, P>,
    pieces: &RowPieces<'_, '_, P>,
    left: Option<u64>,
    writer: &mut Counted<W>,
    log: &mut L,
) -> Result<Tally, RunStop>
    requires crew { IsCrew (F.pre conversion.now.crew.now) (F.post conversion.now.crew.now) }
    requires pieces { ArePieces pieces.now }
    ensures ok { IfOk result (WritesRound pieces.now left (writing W.contents writer.old writer.new
        (L.noted log.old) (L.noted log.new))) }
    ensures stop { IfErr result (EndsInRound pieces.now left (writing W.contents writer.old
        writer.new (L.noted log.old) (L.noted log.new))) }
    ensures began { L.began log.new ≡ L.began log.old }
    ensures log { IsErrOf result RunStop.LogFailed → L.failed log.new }
{
    match (conversion.crew)(pieces) {
        Ok(rows) => {
            let written = write_round(conversion, pieces, &rows, left, writer, log);
            conversion.texts.keep(rows);
            written
        }
        Err(TaskStop::Fault(i, ())) => {
            convert_again(conversion, &pieces.up_to(i), left, writer, log)
        }
        Err(TaskStop::Memory(_)) => Err(RunStop::Memory),
        Err(TaskStop::NoThread) => unreachable!(),
    }
}
