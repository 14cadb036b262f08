//! Searches what a release answers a record, check by check.

ghost use Rattle.std.specs.Prelude.{◌≡◌, ◌<◌, IfOk, MatchResult, length};
ghost use Rattle.zic_row_text.specs.Count.{second_of};
ghost use Rattle.zic_row_text.specs.Instant.{IsRowInstant};
ghost use Rattle.zic_piece_rows.specs.code.Answer.{IsAnswered, IsRowQuery, IsShownRow, IsSoundQuery};
ghost use Rattle.zic_piece_rows.specs.code.Batch.{AreTimesAt, IsGiven, IsKeptIf, fault_at, zone_at};

use crate::answer::{Answer, AnswerState};
use crate::answers::admits_stray;
use crate::faulty::copy_time;
use crate::lookup::{Counts, is_in_range, is_kept, read_input, times_of};
use crate::piece::Piece;
use crate::start::Input;
use std::alloc::{AllocError, Global};
use zic_base::RowKind;
use zic_columns::{Record, may_have};
use zic_row_text::RowTime;

/// The file of a row's zone, and counts, of which that of the instant is in range.
#[derive(Clone, Copy, Drop)]
pub(crate) struct RowQuery {
    pub(crate) file: usize,
    pub(crate) counts: Counts,
}

/// Returns what the row of a record is to show. The record is the row of this number.
///
/// # Errors
///
/// `None` where the time is empty and kept, or the first fault of the row: a number above the greatest, more bytes than a record may have, no
/// field or a stray double quote that it may not have, another number of fields, a name that no file
/// has, no instant, or an instant that no row may have.
fn query(
    piece: &Piece<'_, '_>,
    number: u64,
    given: &Record,
    file: Option<usize>,
    times: Result<Counts, Option<RowKind>>,
) -> Result<RowQuery, Option<RowKind>>
    requires split { IsGiven piece.now given.now }
    requires file { file ≡ zone_at piece.now given.now }
    requires times { AreTimesAt piece.now given.now times }
    ensures { MatchResult result (IsSoundQuery piece.now number given.now)
        (λ fault. (fault_at piece.now number given.now ≡ fault)
        × IsKeptIf piece.now given.now fault) }
{
    if piece.most < number {
        return Err(Some(RowKind::TooManyRows));
    }
    if !may_have(piece.layout.max_record, given.own.of(piece.bytes).len()) {
        return Err(Some(RowKind::RowTooLong));
    }
    if given.count == 0 || !admits_stray(piece.layout.quotes, given.stray) {
        return Err(Some(RowKind::RowQuote));
    }
    if !piece.layout.count.admits(given.count) {
        return Err(Some(RowKind::RowFields));
    }
    let Some(file) = file else {
        return Err(Some(RowKind::RowZone));
    };
    let counts = match times {
        Ok(counts) => counts,
        Err(fault) => return Err(fault),
    };
    if !is_in_range(counts.count, piece.layout.unit) {
        return Err(Some(RowKind::RowRange));
    }
    Ok(RowQuery { file, counts })
}

/// Returns the answer with these counts of a file: the state that it shows at the instant.
fn answer_to<'s>(piece: &Piece<'_, 's>, query: RowQuery) -> Answer<'s>
    requires within { query.file < length piece.now.zones.now }
    requires may { IsRowInstant (second_of piece.now.layout.now.unit query.counts.count) }
    ensures { (given : Record) → IsRowQuery piece.now given query
        → IsShownRow piece.now given result }
{
    let RowQuery { file, counts } = query;
    let time = RowTime::of_count(counts.count, piece.layout.unit);
    let number = piece.zones.span(file, time.second).number;
    let state = match piece.zones.text(file, number) {
        Some(text) => AnswerState::Kept(text),
        None => AnswerState::Made(piece.zones.make_text(file, number)),
    };
    Answer {
        file,
        input: Input::Count(counts.input),
        time,
        state,
    }
}

/// Returns the counts of a record, whose zone has this file.
///
/// # Errors
///
/// The fault of a record that has no instant, or `None` where its time is empty and kept.
fn read_times(
    alloc: Global,
    piece: &Piece<'_, '_>,
    given: &Record,
    file: Option<usize>,
) -> Result<Result<Counts, Option<RowKind>>, AllocError>
    requires split { IsGiven piece.now given.now }
    requires file { file ≡ zone_at piece.now given.now }
    ensures { IfOk result (AreTimesAt piece.now given.now) }
{
    let text = copy_time(alloc, piece, given)?;
    if is_kept(piece.layout.empty, &text) {
        return Ok(Err(None));
    }
    let input = read_input(piece.layout, &text);
    match times_of(piece, file, input) {
        Ok(counts) => Ok(Ok(counts)),
        Err(kind) => Ok(Err(Some(kind))),
    }
}

/// Searches what a piece's zones answer a record, whose zone has this file, as the row of this number.
///
/// # Errors
///
/// The fault of its row, or `None` where its time is empty and kept.
#[inline(never)]
pub(crate) fn search<'s>(
    alloc: Global,
    piece: &Piece<'_, 's>,
    number: u64,
    given: &Record,
    file: Option<usize>,
) -> Result<Result<Answer<'s>, Option<RowKind>>, AllocError>
    requires split { IsGiven piece.now given.now }
    requires file { file ≡ zone_at piece.now given.now }
    ensures { IfOk result (IsAnswered piece.now number given.now) }
{
    let times = read_times(alloc, piece, given, file)?;
    match query(piece, number, given, file, times) {
        Ok(query) => Ok(Ok(answer_to(piece, query))),
        Err(fault) => Ok(Err(fault)),
    }
}
