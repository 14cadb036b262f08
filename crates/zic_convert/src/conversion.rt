//! Converts columns.

ghost use Rattle.std.specs.Prelude.{◌≡◌, ◌≤◌, ◌<◌, ◌+◌, ◌⊎◌, List, None, All, IfOk, IfErr, IfSome, IsErr, IsErrOf, length, map};
ghost use Rattle.std.specs.Io.KnownBytes.{Appends};
ghost use Rattle.csv.specs.Reading.{strip_bom};
ghost use Rattle.zic_columns.specs.Lines.{texts_by};
ghost use Rattle.zic_columns.specs.Own.{first_text};
ghost use Rattle.zic_columns.specs.Round.{ArePiecesOf, PassesRecord, records_of, taken_records, unread};
ghost use Rattle.zic_columns.specs.declared.pieces.TheConstants.{MAX_ROUND_PIECES};
ghost use Rattle.zic_counted.specs.Counts.{HasFailedSince};
ghost use Rattle.zic_layouts.specs.declared.plan.TheConstants.{MAX_ROWS};
ghost use Rattle.zic_zones.specs.Zones.{zone_in};
ghost use Rattle.zic_zones.specs.declared.zones.Releases.{Releases};
ghost use Rattle.zic_piece_rows.specs.LayoutRows.{ended, if_rejected};
ghost use Rattle.zic_convert.specs.By.{by_of};
ghost use Rattle.zic_convert.specs.Column.{header_of, header_read, names_added, names_line, rejects_header};
ghost use Rattle.zic_convert.specs.Header.{fault_read};
ghost use Rattle.zic_convert.specs.Convert.{IsCauseOf, IsCauseWithLog, WritesAll, WritesAt};
ghost use Rattle.zic_convert.specs.Run.{ConvertsAllBy, EndsAtNames, EndsBy, EndsByZones, LogBegan};
ghost use Rattle.zic_convert.specs.Run.{output_of, run_of};
ghost use Rattle.zic_convert.specs.code.Halt.{IsCauseOfHalt, IsCauseWith, IsEnd, IsReadingStop, stop_of};
ghost use Rattle.zic_convert.specs.code.Progress.{BeginsRows, ConvertsColumn, ConvertsRest, taken_rows};
ghost use Rattle.zic_convert.specs.code.Progress.{EndsInColumn, EndsInRest, HaltsAtBegin, HaltsAtHead, HaltsAtHeader};
ghost use Rattle.zic_convert.specs.code.Progress.{EndsAtTaking, EndsInTaken, TakesNext, WritesTaken, header_passed, longest_of};
ghost use Rattle.zic_convert.specs.code.Pieces.{AreConverted, IsCrew};
ghost use Rattle.zic_convert.specs.code.Written.{EndsInRecords, WritesRecords, numbered, writing};

use crate::crew::{Converting, PieceRows};
use crate::halt::Halt;
use crate::header::{ReadBy, check_header, kept_of};
use crate::laws::plain_columns_convert_alike;
use crate::long::{end_at_long, longest_of, read_of_lines};
use crate::opened::write_open_line;
use crate::output::{flush, write_header, write_names};
use crate::pieces::RowPieces;
use crate::round::convert_round;
use crate::tally::Tally;
use crate::texts::{SpareTexts, TextPool};
use std::alloc::Global;
use std::io::{Read, Write};
use std::sync::Wait;
use std::thread::Threads;
use zic_base::{RowKind, RunStop};
use zic_columns::laws::{column_records_are_read, first_record_is_alone};
use zic_columns::{Column, PassStop, Round, Taken, Truncated};
use zic_counted::Counted;
use zic_files::Files;
use zic_layouts::{Header, Layout, Plan, RowLog, Unnoted};
use zic_piece_rows::rejected_bytes;
use zic_pieces::{Gate, run_task};
use zic_tzif::laws::files_answer_once;
use zic_zones::{SourceZones, Zones};

/// The least number of bytes of a round, if the column has them at once.
const SHORTEST_ROUND: u64 = 65_536;

/// The greatest number of bytes that a round is read to have.
const LONGEST_ROUND: u64 = 4_194_304;

/// The number of pieces that a round has for each of several workers: enough that none waits long for
/// the others, or for threads to start.
const PIECES_FOR_EACH: u64 = 10;

/// The number of pieces that a round has for one worker: its bytes and rows then stay in the cache.
const PIECES_FOR_ONE: u64 = 3;

/// The number of bytes that a record usually has.
const USUAL_RECORD: u64 = 48;

/// What a conversion runs with besides zones: the runtime, the allocator, the plan, the layout, the
/// gate, and after how many rows with a fault it goes on.
#[derive(Drop)]
pub struct Conversion<'a, T, G> {
    pub rt: &'a T,
    pub alloc: Global,
    pub plan: &'a Plan,
    pub layout: &'a Layout,
    pub gate: &'a G,
    /// The most rows with a fault after which a run goes on; `None` sets no limit.
    pub max_faults: Option<u64>,
}

/// Returns the number of bytes that a round is to have: some pieces for each worker, of usual
/// records.
fn round_len(plan: &Plan) -> usize {
    let pieces = match plan.workers() {
        1 => PIECES_FOR_ONE,
        workers => PIECES_FOR_EACH * workers,
    };
    let usual = pieces * plan.row_piece() * USUAL_RECORD;
    usual.clamp(SHORTEST_ROUND, LONGEST_ROUND) as usize
}

/// Takes the next round of a column, and makes the zones of its records ready, or the next open line,
/// or nothing where more bytes are buffered of a record that goes on than the layout allows and the run
/// ends there. Returns what it took.
///
/// # Errors
///
/// `Unread` where the column can't be read on, before any zone is requested, or `Memory`.
fn next_round<Z: Zones, R: Read>(
    by: &ReadBy<'_>,
    zones: &mut Z,
    column: &mut Column<R>,
) -> Result<Taken, Halt>
    ensures takes { IfOk result
        (TakesNext R.remaining by.now.plan.now.row_piece
        (longest_of by.now.layout.now) column.old column.new) }
    ensures grown { IfOk result (λ _. Z.grown zones.old zones.new) }
    ensures settled { IfOk result (λ _. All (Z.settled zones.new)
        (map (zone_in by.now.layout.now.zone)
        (records_of by.now.layout.now.delimiter column.new.round))) }
    ensures halt { IfErr result (λ halt. EndsAtTaking Z.broken zones.old zones.new halt) }
{
    let size = by.plan.row_piece() as usize;
    let longest = longest_of(by.layout);
    let taken = column.next_round(by.alloc, round_len(by.plan), size, longest)?;
    zones.prepare(
        by.alloc,
        &by.layout.zone,
        &by.layout.delimiter,
        &column.round(),
    )?;
    Ok(taken)
}

/// What the next rows are of: what was taken, the number of the first row, and how many more rows with a
/// fault may come, where that is limited.
#[derive(Clone, Copy, Drop)]
struct NextRows<'a> {
    taken: &'a Taken,
    first: u64,
    left: Option<u64>,
}

/// Converts what was taken, a round by the zones that are ready or an open line, writes its rows, and
/// notes their faults. Returns the number of rows, and how many more rows with a fault may come then.
///
/// # Errors
///
/// `Memory`, or what ends a round.
fn convert_ready<
    F: Fn(&RowPieces<'_, '_, P>) -> PieceRows,
    P: TextPool,
    Z: Zones,
    W: Write,
    L: RowLog,
>(
    conversion: &Converting<'_, F, P>,
    zones: &Z,
    round: Round<'_>,
    next: &NextRows<'_>,
    writer: &mut Counted<W>,
    log: &mut L,
) -> Result<Tally, RunStop>
    requires crew { IsCrew (F.pre conversion.now.crew.now) (F.post conversion.now.crew.now) }
    requires least { 1 ≤ next.now.first }
    requires first { next.now.first ≤ MAX_ROWS + 1 }
    requires some { next.now.taken.now ≡ Taken.End → ⊥ }
    requires short { next.now.taken.now ≡ Taken.TooLong → ⊥ }
    requires few { length round ≤ MAX_ROUND_PIECES }
    requires cut { ArePiecesOf conversion.now.by.layout.now.delimiter
        conversion.now.by.plan.now.row_piece round }
    ensures ok { IfOk result (WritesRecords (by_of conversion.now.by.layout.now (Z.known zones.now)
        conversion.now.by.plan.now.max_rows next.now.left) (writing W.contents writer.old writer.new
        (L.noted log.old) (L.noted log.new)) (numbered next.now.first (taken_records
        conversion.now.by.layout.now.delimiter next.now.taken.now round.entry))) }
    ensures stop { IfErr result (EndsInRecords (by_of conversion.now.by.layout.now (Z.known
        zones.now) conversion.now.by.plan.now.max_rows next.now.left) (writing W.contents writer.old
        writer.new (L.noted log.old) (L.noted log.new)) (numbered next.now.first (taken_records
        conversion.now.by.layout.now.delimiter next.now.taken.now round.entry))) }
    ensures began { L.began log.new ≡ L.began log.old }
    ensures log { IsErrOf result RunStop.LogFailed → L.failed log.new }
{
    let ready = zones.ready();
    if let Taken::OpenLine(line) = next.taken {
        return write_open_line(
            &conversion.by,
            &ready,
            line,
            next.first,
            next.left,
            writer,
            log,
        );
    }
    let pieces = RowPieces::new(
        conversion.by.layout,
        &ready,
        round,
        next.first,
        conversion.by.plan,
        conversion.texts,
    );
    convert_round(conversion, &pieces, next.left, writer, log)
}

/// Converts what was taken, as [`convert_ready`] does. Returns nothing at the end of the column.
///
/// # Errors
///
/// As [`convert_ready`], or `Row` at a record that has more bytes than the layout allows.
fn convert_taken<
    F: Fn(&RowPieces<'_, '_, P>) -> PieceRows,
    P: TextPool,
    Z: Zones,
    W: Write,
    L: RowLog,
>(
    conversion: &Converting<'_, F, P>,
    zones: &Z,
    round: Round<'_>,
    next: &NextRows<'_>,
    writer: &mut Counted<W>,
    log: &mut L,
) -> Result<Option<Tally>, RunStop>
    requires crew { IsCrew (F.pre conversion.now.crew.now) (F.post conversion.now.crew.now) }
    requires least { 1 ≤ next.now.first }
    requires first { next.now.first ≤ MAX_ROWS + 1 }
    requires few { length round ≤ MAX_ROUND_PIECES }
    requires cut { ArePiecesOf conversion.now.by.layout.now.delimiter
        conversion.now.by.plan.now.row_piece round }
    ensures ok { IfOk result (WritesTaken (by_of conversion.now.by.layout.now (Z.known zones.now)
        conversion.now.by.plan.now.max_rows next.now.left) (writing W.contents writer.old writer.new
        (L.noted log.old) (L.noted log.new)) (taken_rows next.now.first next.now.taken.now
        round.entry)) }
    ensures stop { IfErr result (EndsInTaken (by_of conversion.now.by.layout.now (Z.known zones.now)
        conversion.now.by.plan.now.max_rows next.now.left) (writing W.contents writer.old writer.new
        (L.noted log.old) (L.noted log.new)) (taken_rows next.now.first next.now.taken.now
        round.entry)) }
    ensures began { L.began log.new ≡ L.began log.old }
    ensures cause { IfErr result (λ stop.
        IsCauseWith (L.failed log.new) writer.old writer.new (Halt.Stop stop)) }
{
    match next.taken {
        Taken::End => Ok(None),
        Taken::TooLong => {
            let most = conversion.by.plan.max_rows();
            Err(end_at_long(writer, most, next.first))
        }
        Taken::Round | Taken::OpenLine(_) => {
            match convert_ready(conversion, zones, round, next, writer, log) {
                Ok(tally) => Ok(Some(tally)),
                Err(stop) => Err(stop),
            }
        }
    }
}

/// Converts the rest of a column. The rows of each round are written before it reads on, and an open
/// line is taken by itself, between rounds. Returns the number of rows.
///
/// # Errors
///
/// `Unread` where the column can't be read on, `Memory`, or what ends a round. A record that is longer
/// than the layout allows and ends the run does so even where it isn't read to its end.
fn convert_rounds<
    F: Fn(&RowPieces<'_, '_, P>) -> PieceRows,
    P: TextPool,
    Z: Zones,
    R: Read,
    W: Write,
    L: RowLog,
>(
    conversion: &Converting<'_, F, P>,
    zones: &mut Z,
    column: &mut Column<R>,
    writer: &mut Counted<W>,
    log: &mut L,
) -> Result<u64, Halt>
    requires crew { IsCrew (F.pre conversion.now.crew.now) (F.post conversion.now.crew.now) }
    requires by { column.old.by ≡ conversion.now.by.layout.now.records }
    requires delimiter { column.old.delimiter ≡ conversion.now.by.layout.now.delimiter }
    ensures grown { IfOk result (λ _. Z.grown zones.old zones.new) }
    ensures all { (releases : Releases) → Z.may_be zones.new releases → IfOk result (λ n.
        ConvertsRest (by_of conversion.now.by.layout.now releases
        conversion.now.by.plan.now.max_rows conversion.now.max_faults) (unread R.remaining
        column.old) n (output_of W.contents L.noted writer.old writer.new
        log.old log.new)) }
    ensures flushed { IfOk result (λ _. writer.new.failures ≡ writer.old.failures) }
    ensures halt { IfErr result (λ halt. EndsByZones Z.grown Z.broken Z.may_be zones.old zones.new
        (stop_of halt) (λ releases. EndsInRest (by_of conversion.now.by.layout.now releases
        conversion.now.by.plan.now.max_rows conversion.now.max_faults) (unread R.remaining
        column.old) (stop_of halt) (output_of W.contents L.noted writer.old writer.new log.old
        log.new))) }
    ensures began { L.began log.new ≡ L.began log.old }
    ensures cause { IfErr result (IsCauseWith (L.failed log.new) writer.old writer.new) }
{
    // The rest of a column that can't be read on has rows too: each file answers every instant.
    files_answer_once();
    // The plan limits the number of rows.
    prove!(conversion.by.plan.max_rows() <= u64::MAX);
    let mut count = 0;
    let mut left = conversion.max_faults;
    'rounds: loop {
        let taken = next_round(&conversion.by, zones, column)?;
        let next = NextRows {
            taken: &taken,
            first: count + 1,
            left,
        };
        let converted = convert_taken(conversion, zones, column.round(), &next, writer, log);
        drop(taken);
        let Some(tally) = converted? else {
            break 'rounds;
        };
        count += tally.rows;
        left = tally.left;
    }
    flush(writer)?;
    Ok(count)
}

/// A column after its header, and the own bytes of the header, which are none where it has none.
#[derive(Drop)]
struct BegunColumn<R: Read> {
    column: Column<R>,
    header: Vec<u8>,
}

/// Passes over the header of a column, and returns its own bytes.
///
/// # Errors
///
/// `Unread` where the column can't be read on, or the row 0 where the header has more bytes than the
/// layout allows: rows count from 1.
fn pass_header<R: Read>(by: &ReadBy<'_>, column: &mut Column<R>) -> Result<Vec<u8>, Halt>
    ensures by { column.new.by ≡ column.old.by }
    ensures delimiter { column.new.delimiter ≡ column.old.delimiter }
    ensures passes { IfOk result (λ _. PassesRecord R.remaining column.old column.new) }
    ensures own { IfOk result (λ own. IfSome (unread R.remaining column.old)
        (λ bytes. own.items ≡ first_text (texts_by column.old.by column.old.delimiter bytes))) }
    ensures halt { IfErr result (HaltsAtHeader by.now.layout.now.max_record column.old.by
        column.old.delimiter (unread R.remaining column.old)) }
{
    match column.pass_record(by.alloc, round_len(by.plan), by.layout.max_record) {
        Ok(own) => Ok(own),
        Err(PassStop::Unread) => Err(Halt::Unread),
        Err(PassStop::TooLong) => Err(Halt::Stop(RunStop::Row {
            row: 0,
            kind: RowKind::RowTooLong,
        })),
    }
}

/// Begins a column after its header, if it has one.
///
/// # Errors
///
/// As [`pass_header`].
fn begin_column<R: Read + Drop>(by: &ReadBy<'_>, reader: R) -> Result<BegunColumn<R>, Halt>
    ensures by { IfOk result (λ begun. begun.column.by ≡ by.now.layout.now.records) }
    ensures delimiter { IfOk result
        (λ begun. begun.column.delimiter ≡ by.now.layout.now.delimiter) }
    ensures begins { IfOk result (λ begun. IfSome (R.remaining reader)
        (λ bytes. BeginsRows by.now.layout.now bytes (unread R.remaining begun.column))) }
    ensures header { IfOk result (λ begun. IfSome (R.remaining reader)
        (λ bytes. begun.header.items ≡ header_passed by.now.layout.now bytes)) }
    ensures halt { IfErr result (HaltsAtBegin by.now.layout.now (R.remaining reader)) }
{
    let layout = by.layout;
    let most = by.plan.max_bytes();
    let mut column = Column::new(
        by.alloc,
        reader,
        most,
        layout.records,
        &layout.delimiter,
        layout.notes,
    )?;
    match layout.header {
        Header::Absent => {
            let header = Vec::new(by.alloc);
            Ok(BegunColumn { column, header })
        }
        Header::First | Header::Skipped => {
            let header = pass_header(by, &mut column)?;
            Ok(BegunColumn { column, header })
        }
    }
}

/// Skips the header of a column, if it has one, and makes the zone ready that it names. Writes it with
/// names added if rows begin with their records, and logs it if records are rejected.
///
/// # Errors
///
/// As [`pass_header`] and [`check_header`], or `WriteFailed`.
fn begin_rows<Z: Zones, R: Read + Drop, W: Write, L: RowLog>(
    by: &ReadBy<'_>,
    zones: &mut Z,
    reader: R,
    writer: &mut Counted<W>,
    log: &mut L,
) -> Result<Column<R>, Halt>
    ensures noted { L.noted log.new ≡ L.noted log.old }
    ensures began { LogBegan
        (λ bytes. if_rejected by.now.layout.now.at_fault (header_read by.now.layout.now bytes))
        (R.remaining reader) (L.began log.new)
        ⊎ (IsErr result × (L.began log.new ≡ L.began log.old)) }
    ensures by { IfOk result (λ column. column.by ≡ by.now.layout.now.records) }
    ensures delimiter { IfOk result (λ column. column.delimiter ≡ by.now.layout.now.delimiter) }
    ensures begins { IfOk result (λ column. IfSome (R.remaining reader)
        (λ bytes. BeginsRows by.now.layout.now bytes (unread R.remaining column))) }
    ensures head { IfOk result (λ _. (releases : Releases) → Z.may_be zones.new releases
        → IfSome (R.remaining reader) (λ bytes.
        Appends (W.contents writer.old.inner) (W.contents writer.new.inner)
        (ended by.now.layout.now.line_end (header_of by.now.layout.now.start
        (names_added by.now.layout.now releases.old) (header_read by.now.layout.now bytes))))) }
    ensures grown { IfOk result (λ _. Z.grown zones.old zones.new) }
    ensures none { IfOk result (λ _. (releases : Releases) → Z.may_be zones.new releases
        → IfSome (R.remaining reader)
        (λ bytes. fault_read by.now.layout.now releases.zones bytes ≡ None)) }
    ensures flushed { IfOk result (λ _. writer.new.failures ≡ writer.old.failures) }
    ensures halt { IfErr result (λ halt. EndsByZones Z.grown Z.broken Z.may_be zones.old zones.new
        (stop_of halt) (λ releases. HaltsAtHead W.contents writer.old writer.new (by_of
        by.now.layout.now releases by.now.plan.now.max_rows None) (R.remaining reader) halt)) }
    ensures cause { IfErr result (IsCauseOfHalt writer.old writer.new) }
{
    // The delimiter is no double quote and ends no line.
    prove!(by.layout.delimiter.byte() <= u8::MAX);
    first_record_is_alone();
    let BegunColumn { column, header } = begin_column(by, reader)?;
    check_header(by, zones, &header)?;
    let header = kept_of(by.layout.header, header);
    let own = rejected_bytes(by.alloc, by.layout, &header)?;
    log.begin(&own);
    let releases = zones.ready();
    write_header(writer, by.layout, &releases.old, header)?;
    Ok(column)
}

/// Converts a column below its own header. Returns the number of rows.
///
/// # Errors
///
/// As [`convert_rounds`].
pub(crate) fn convert_rows<
    F: Fn(&RowPieces<'_, '_, P>) -> PieceRows,
    P: TextPool,
    Z: Zones,
    R: Read + Drop,
    W: Write,
    L: RowLog,
>(
    conversion: &Converting<'_, F, P>,
    zones: &mut Z,
    reader: R,
    writer: &mut Counted<W>,
    log: &mut L,
) -> Result<u64, Halt>
    requires crew { IsCrew (F.pre conversion.now.crew.now) (F.post conversion.now.crew.now) }
    ensures grown { IfOk result (λ _. Z.grown zones.old zones.new) }
    ensures all { (releases : Releases) → Z.may_be zones.new releases → IfOk result (λ n.
        ConvertsColumn (by_of conversion.now.by.layout.now releases
        conversion.now.by.plan.now.max_rows conversion.now.max_faults) (R.remaining reader) n
        (output_of W.contents L.noted writer.old writer.new log.old log.new)) }
    ensures flushed { IfOk result (λ _. writer.new.failures ≡ writer.old.failures) }
    ensures halt { IfErr result (λ halt. EndsByZones Z.grown Z.broken Z.may_be zones.old zones.new
        (stop_of halt) (λ releases. EndsInColumn (by_of conversion.now.by.layout.now releases
        conversion.now.by.plan.now.max_rows conversion.now.max_faults) (R.remaining reader) (stop_of
        halt) (output_of W.contents L.noted writer.old writer.new log.old log.new))) }
    ensures began { LogBegan (rejects_header conversion.now.by.layout.now) (R.remaining reader)
        (L.began log.new)
        ⊎ (IsErr result × (L.began log.new ≡ L.began log.old) × (L.noted log.new ≡ L.noted log.old)) }
    ensures cause { IfErr result (IsCauseWith (L.failed log.new) writer.old writer.new) }
{
    // Also a column that can't be read has rows: each file answers every instant.
    files_answer_once();
    let layout = conversion.by.layout;
    let most = conversion.by.plan.max_bytes();
    let short = Truncated::new(reader, read_of_lines(layout), most);
    let mut column = begin_rows(&conversion.by, zones, short, writer, log)?;
    convert_rounds(conversion, zones, &mut column, writer, log)
}

/// Returns why reading the column ended. The reader had counted `failures` failures and `taken`
/// bytes before, and may have taken `most` bytes since.
fn reading_stop<R>(reader: &Counted<R>, failures: u64, taken: u64, most: u64) -> RunStop
    ensures { IsReadingStop reader.now failures taken most result }
{
    if reader.has_failed_since(failures) {
        return RunStop::ReadFailed;
    }
    if reader.taken() == u64::MAX || reader.taken().saturating_sub(taken) > most {
        return RunStop::ColumnTooLong;
    }
    RunStop::Memory
}

/// Turns the outcome of a column into the result of its conversion. The reader had counted `failures`
/// failures and `taken` bytes before, and may have taken `most` bytes since.
///
/// The reader's own counts decide whether a read failed, or too many bytes were taken.
fn ended<R>(
    outcome: Result<u64, Halt>,
    reader: &Counted<R>,
    failures: u64,
    taken: u64,
    most: u64,
) -> Result<u64, RunStop>
    ensures { IsEnd reader.now failures taken most outcome result }
{
    match outcome {
        Ok(_) if reader.has_failed_since(failures) => Err(RunStop::ReadFailed),
        Ok(_) if reader.taken().saturating_sub(taken) > most => Err(RunStop::ColumnTooLong),
        Ok(count) => Ok(count),
        Err(Halt::Stop(stop)) => Err(stop),
        Err(Halt::Unread) => Err(reading_stop(reader, failures, taken, most)),
    }
}

/// Converts a column by a layout and by zones, and writes its header and its rows. Returns the number
/// of rows, with those that aren't written, and without the header.
///
/// The layout says which bytes stand between fields, of records and of rows; whether a record is one of
/// CSV or each line is one; whether the first record is a header, which makes no row and isn't counted,
/// and whether one is written; where a row's zone and its instant come from, and how many fields a
/// record has, and how many bytes; how an instant is written, and what it counts; and whether a row has
/// local time and offset in two fields or in one. An instant is an optional `-` and 1 to 18 digits, and
/// as many more as a fraction of a second has; or, by the layout's `from`, a date and a time of day with
/// a UT offset. A row shows local time of its whole second, rounded down, and with that fraction. Or a
/// record has, by `from`, a local time, a date and a time of day without an offset: its row has that
/// local time and the count of the instant that is meant by it.
///
/// A row begins with the name and the instant, or the local time, or with the record's own bytes as
/// they stand in the column, as the layout's `start` says. Where it begins with the name and a header
/// is written, the line `zone,instant,local,offset,daylight,abbreviation`, with the layout's
/// delimiter, is written before the column is read, or `zone,local,instant` and the same three. Where
/// it begins with the record and a header is written, the column's own header comes first, with the
/// names `local` or `instant`, `offset`, `daylight` and `abbreviation` added. In one field with its
/// offset, a local time is `local`, or `time` after the instant of a local time, and no name `offset`
/// stands there.
///
/// As the layout's `at_fault` says, the first row with a fault ends the conversion, or rows with
/// faults are written, or their records are rejected and nothing of them is written. A row with a
/// fault that is written has the instant or the local time as its record has it, and empty fields in
/// place of the others; where the record has another number of fields than the layout's, too many bytes,
/// or is a line whose double quotes are open at its end, the row is only the record's own bytes. The log
/// takes note of the fault, and of the record's own bytes where it is rejected, with how its line ends
/// in the column; where the layout's `notes` are details, also of the line where the record begins, from
/// 1, with the header and lines without a byte, and of the field at fault. Where each line is a record and
/// the run goes on at faults, no more than four bytes of a line are read beyond the most that the layout
/// allows, and the others are dropped: they are in no row and no note. Where the run goes on at faults and
/// `max_faults` is a number, it goes on after this many rows with a fault. The next ends the conversion,
/// and is neither written nor noted.
///
/// Where the zones are compared with those of another release, only the rows are written that it answers
/// differently. What it answers stands at the end of the row, in fields whose names begin with `old_`,
/// which are empty where the row has a fault by that release. Faults are those by the first release.
///
/// The column is read in rounds. Before a round is converted, its zones are made ready. The plan's
/// workers convert the pieces of a round, which have the number of records that the plan says, and
/// pass the gate before each. The calling thread is one of them. The rows of a round are written and
/// flushed, and then the log, before the column is read on. None of this changes an answer. Where all is converted, the
/// reader's count of bytes rose by no more than the plan allows, and no failure of the writer was
/// counted.
///
/// # Errors
///
/// - `Row` at the first row that ends the conversion, with its number, from 1, and the first of its
///   kinds: a row more than the plan allows, a record of more bytes than the layout allows, a line whose
///   double quotes are open at its end, where each line is a record, a record of another number of fields
///   than the layout's, a name that no file has, no instant or local time, a local time that no instant or
///   more than one has, or a whole second out of range. All rows before it were written and flushed, and
///   no failure of the writer was counted.
///   Where rows with faults are written or their records are rejected, `Row` is only `TooManyRows`,
///   `RowTooLong` of a record of CSV, and the fault after `max_faults` others. Row 0 is the header, also
///   where it is skipped and where rows with faults are written: `RowTooLong` where it has more bytes than
///   the layout allows, `RowQuote` where it has double quotes that a record of the layout may not have,
///   and `HeaderIsRow` where it names a zone that has a file, and has an instant or a local time. Only the
///   line of names was written then, and no fault was noted.
/// - `ReadFailed` or `WriteFailed` where the reader or writer counted a failure. Each error of the
///   reader or writer ends the call, also one at which others try again, and so does a write that
///   takes no byte. A reader that ended is not read again. Where the line of names can't be written,
///   nothing is read of the column.
/// - `ColumnTooLong` where the reader gave more bytes than the plan allows, or its count of bytes
///   stands at the greatest `u64`.
/// - `Memory` where memory is refused. Where it is refused as zones are made ready, these are of no use.
/// - `LogFailed` where the log could not be written as it was flushed, once the rows of a round were
///   written and flushed. The column is not read on then.
///
/// `Source` and `NoThread` are never returned. After every error other than `Row`, the lines up to
/// some line were written, of the header and of the rows; the faults of the rows up to there were
/// noted, also of those whose records are rejected, and no others. Nothing was written after these
/// lines, except after `WriteFailed`: then perhaps a beginning of those to come. How much of the column
/// was read is open.
pub fn convert_column<
    T: Threads + Wait + Sync,
    G: Gate + Sync,
    Z: Zones,
    R: Read,
    W: Write,
    L: RowLog,
>(
    conversion: &Conversion<'_, T, G>,
    zones: &mut Z,
    reader: &mut Counted<R>,
    writer: &mut Counted<W>,
    log: &mut L,
) -> Result<u64, RunStop>
    ensures grown { IfOk result (λ _. Z.grown zones.old zones.new) }
    ensures ok { (releases : Releases) → Z.may_be zones.new releases → IfOk result (λ n.
        ConvertsAllBy (by_of conversion.now.layout.now releases conversion.now.plan.now.max_rows
        conversion.now.max_faults) n (run_of R.remaining W.contents L.noted reader.old reader.new
        writer.old writer.new log.old
        log.new)) }
    ensures within { IfOk result
        (λ _. reader.new.taken ≤ reader.old.taken + conversion.now.plan.now.max_bytes) }
    ensures unfailed { IfOk result (λ _. HasFailedSince reader.new reader.old.failures → ⊥) }
    ensures flushed { IfOk result (λ _. writer.new.failures ≡ writer.old.failures) }
    ensures err { IfErr result (λ stop.
        (EndsAtNames (names_line conversion.now.layout.now (Z.known zones.old).old) stop
        (run_of R.remaining W.contents L.noted reader.old reader.new writer.old writer.new log.old
        log.new) × (zones.new ≡ zones.old))
        ⊎ EndsByZones Z.grown Z.broken Z.may_be zones.old zones.new stop
        (λ releases. EndsBy (by_of conversion.now.layout.now releases
        conversion.now.plan.now.max_rows conversion.now.max_faults) stop (run_of R.remaining
        W.contents L.noted reader.old reader.new writer.old writer.new log.old
        log.new))) }
    ensures began { LogBegan (rejects_header conversion.now.layout.now)
        (R.remaining reader.old.inner) (L.began log.new)
        ⊎ (IsErr result × (L.began log.new ≡ L.began log.old) × (L.noted log.new ≡ L.noted log.old)) }
    ensures cause { IfErr result (IsCauseWithLog (L.failed log.new)
        conversion.now.plan.now.max_bytes reader.old reader.new writer.old writer.new) }
{
    let failures = reader.failures();
    let taken = reader.taken();
    write_names(writer, conversion.layout, &*zones)?;
    let crew = |pieces: &RowPieces<'_, '_, SpareTexts>| -> PieceRows
        requires { length pieces.now.pieces ≤ MAX_ROUND_PIECES }
        ensures { AreConverted pieces.entry.now result }
    {
        let workers = conversion.plan.workers();
        run_task(
            conversion.rt,
            conversion.alloc,
            pieces,
            workers,
            conversion.gate,
        )
    };
    let texts = SpareTexts::new(conversion.alloc);
    let converting = Converting {
        crew: &crew,
        texts: &texts,
        by: ReadBy {
            alloc: conversion.alloc,
            plan: conversion.plan,
            layout: conversion.layout,
        },
        max_faults: conversion.max_faults,
    };
    let outcome = convert_rows(&converting, zones, &mut *reader, writer, log);
    ended(
        outcome,
        reader,
        failures,
        taken,
        conversion.plan.max_bytes(),
    )
}

/// Converts a column of records, each with a zone's name and an instant, to rows of six fields: the
/// name, the instant, local time, UT offset, daylight flag (0 or 1) and abbreviation. Returns the
/// number of rows.
///
/// The column is read as CSV with commas and double quotes, without a header row; a byte order mark
/// at its start is dropped, and a line without a byte makes no record. An instant is an optional
/// `-` and 1 to 18 digits: seconds from 1970-01-01T00:00:00 UT without leap seconds, from
/// -62,135,510,400 to 253,402,214,399.
///
/// The column is read in rounds. A round is all whole records of what one read gave and of what was
/// buffered before it; where these have none, the column is read on. The plan's workers convert the
/// pieces of a round, which have the number of records that the plan says, and pass the gate before
/// each. The calling thread is one of them. The rows of a round are written and flushed before the column
/// is read on. None of this changes an answer. Where all is converted, the reader's count of bytes
/// rose by no more than the plan allows, and no failure of the writer was counted.
///
/// # Errors
///
/// - `Row` at the first row that has a fault, with its number, from 1, and the first of its kinds:
///   a row more than the plan allows, a record of other than two fields, a name that no file has,
///   no instant, or an instant out of range. All rows before it were written and flushed, and no
///   failure of the writer was counted.
/// - `ReadFailed` or `WriteFailed` where the reader or writer counted a failure. Each error of the
///   reader or writer ends the call, also one at which others try again, and so does a write that
///   takes no byte. A reader that ended is not read again.
/// - `ColumnTooLong` where the reader gave more bytes than the plan allows, or its count of bytes
///   stands at the greatest `u64`.
/// - `Memory` where memory is refused.
///
/// `Source`, `NoThread` and `LogFailed` are never returned: there is no log. After every error other
/// than `Row`, what was written is a part of the text of the rows, from its start on, and how much of the column was read is
/// open.
pub fn convert<T: Threads + Wait + Sync, R: Read, W: Write, G: Gate + Sync>(
    rt: &T,
    alloc: Global,
    files: &Files,
    reader: &mut Counted<R>,
    writer: &mut Counted<W>,
    plan: &Plan,
    gate: &G,
) -> Result<u64, RunStop>
    ensures ok { IfOk result (λ n. IfSome (R.remaining reader.old.inner)
        (λ column. WritesAll files.now plan.now.max_rows column n (W.contents writer.old.inner)
        (W.contents writer.new.inner))) }
    ensures within { IfOk result (λ _. reader.new.taken ≤ reader.old.taken + plan.now.max_bytes) }
    ensures unfailed { IfOk result (λ _. HasFailedSince reader.new reader.old.failures → ⊥) }
    ensures flushed { IfOk result (λ _. writer.new.failures ≡ writer.old.failures) }
    ensures err { IfErr result (λ stop. IfSome (R.remaining reader.old.inner)
        (λ column. WritesAt files.now plan.now.max_rows column stop (W.contents writer.old.inner)
        (W.contents writer.new.inner))) }
    ensures cause { IfErr result
        (IsCauseOf plan.now.max_bytes reader.old reader.new writer.old writer.new) }
{
    // Also a column that isn't read has rows: each file answers every instant.
    prove!(files.len() <= usize::MAX);
    files_answer_once();
    column_records_are_read();
    // Without a header, plain rows are those of a layout.
    plain_columns_convert_alike();
    let layout = Layout::plain(Header::Absent);
    let mut zones = match SourceZones::new(alloc, files) {
        Ok(zones) => zones,
        Err(_) => return Err(RunStop::Memory),
    };
    let conversion = Conversion {
        rt,
        alloc,
        plan,
        layout: &layout,
        gate,
        max_faults: None,
    };
    convert_column(&conversion, &mut zones, reader, writer, &mut Unnoted)
}
