//! What a release answers the records of a batch.

ghost use Rattle.std.specs.Prelude.{◌≡◌, ◌<◌, ◌≤◌, All, IsTrue, take, IfOk, IfSome, OnOk, length};
ghost use Rattle.zic_columns.specs.Record.{IsWithinPiece, field_text};
ghost use Rattle.zic_columns.specs.declared.splits.TheConstants.{BATCH};
ghost use Rattle.zic_row_text.specs.Instant.{IsRowInstant};
ghost use Rattle.zic_zones.specs.Zones.{number_of};
ghost use Rattle.zic_zones.specs.declared.slot.TheConstants.{UNKNOWN};
ghost use Rattle.zic_piece_rows.specs.LayoutRows.{admits_stray};
ghost use Rattle.zic_piece_rows.specs.code.Answer.{AreAnswers, AreTimes, HaveFiles, IfTime, IsAdmitted};
ghost use Rattle.zic_piece_rows.specs.code.Answer.{IsAnswered, IsFound, IsInstantOf, IsOnlyInstant, IsReadTime};
ghost use Rattle.zic_piece_rows.specs.code.Batch.{IsGiven, IsNamed, zone_at};

use crate::answer::{Answer, TableAnswer};
use crate::faulty::copy_field;
use crate::piece::Piece;
use crate::search::search;
use crate::time::{NO_TIME, ZERO_TIME, no_time};
use std::alloc::{AllocError, Global};
use zic_base::RowKind;
use zic_columns::{BATCH, Field, Record, may_have};
use zic_layouts::{Quotes, TimeFrom, Unit, ZoneFrom};
use zic_row_text::{FIRST_INSTANT, LAST_INSTANT, RowTime};
use zic_zones::{RowStates, RowZones, UNKNOWN};

/// The time in the field of a record, and the number of its row.
#[derive(Clone, Copy, Drop)]
pub(crate) struct Asked {
    pub(crate) time: RowTime,
    pub(crate) number: u64,
}

/// A record, the time in its field, and what the tables have of it, with the states that they show, by
/// number.
#[derive(Clone, Copy, Drop)]
pub(crate) struct Found<'a, 's> {
    pub(crate) states: &'a RowStates<'s>,
    pub(crate) given: &'a Record,
    pub(crate) time: RowTime,
    pub(crate) known: TableAnswer,
}

/// What a release answers records: the states that it shows, by number, and what the tables have of each
/// record.
#[derive(Drop)]
pub(crate) struct Answers<'s> {
    pub(crate) states: RowStates<'s>,
    pub(crate) known: [TableAnswer; BATCH],
}

impl<'s> Answers<'s> {
    /// Returns a column before its first records. All bytes of its items are zero, as in
    /// [`Batch::new`](crate::batch::Batch::new).
    pub(crate) fn new(states: RowStates<'s>) -> Answers<'s> {
        let known = TableAnswer {
            file: None,
            time: ZERO_TIME,
            state: 0,
        };
        Answers {
            states,
            known: [known; BATCH],
        }
    }

    /// Finds the answers of a piece's zones to the first `count` records, whose fields have these times.
    pub(crate) fn find(
        &mut self,
        alloc: Global,
        piece: &Piece<'_, 's>,
        records: &[Record; BATCH],
        times: &[RowTime; BATCH],
        count: usize,
    ) -> Result<(), AllocError>
        requires few { count ≤ BATCH }
        requires split { All (IsGiven piece.now) (take count records.now) }
        requires times { AreTimes piece.now count records.now times.now }
        ensures { OnOk result (AreAnswers piece.now records.now times.now count self.new) }
    {
        find_files(alloc, piece, records, count, &mut self.known)?;
        self.states = piece.zones.states();
        for i in 0..count {
            let file = self.known[i].file;
            self.known[i] = known_at(piece, &self.states, &records[i], file, times[i]);
        }
        Ok(())
    }
}

/// Returns what a piece's zones answer a record as the row of a number: what the tables have of it, or by a
/// search.
///
/// # Errors
///
/// The fault of its row, or `None` where its time is empty and kept.
pub(crate) fn answer<'s>(
    alloc: Global,
    piece: &Piece<'_, 's>,
    states: &RowStates<'s>,
    given: &Record,
    known: TableAnswer,
    asked: Asked,
) -> Result<Result<Answer<'s>, Option<RowKind>>, AllocError>
    requires split { IsGiven piece.now given.now }
    requires found { IsFound piece.now given.now asked.time states.now.states known }
    ensures { IfOk result (IsAnswered piece.now asked.number given.now) }
{
    if known.state != UNKNOWN && asked.number <= piece.most {
        return Ok(Ok(known.answer(states, piece.layout, asked.time)));
    }
    search(alloc, piece, asked.number, given, known.file)
}

/// Returns what a piece's zones answer a record, as [`answer`] does, where no column has it.
#[inline(never)]
pub(crate) fn answer_alone<'s>(
    alloc: Global,
    piece: &Piece<'_, 's>,
    given: &Record,
    asked: Asked,
) -> Result<Result<Answer<'s>, Option<RowKind>>, AllocError>
    requires split { IsGiven piece.now given.now }
    requires read { IfTime asked.time (IsReadTime piece.now given.now) }
    ensures { IfOk result (IsAnswered piece.now asked.number given.now) }
{
    let named = named_file(piece);
    let file = file_of(alloc, piece, given, named, usize::MAX)?;
    let states = piece.zones.states();
    let known = known_at(piece, &states, given, file, asked.time);
    answer(alloc, piece, &states, given, known, asked)
}

/// Returns that the tables have no answer to a record whose zone has this file.
#[inline(always)]
pub(crate) fn unknown(file: Option<usize>) -> TableAnswer
    ensures file { result.file ≡ file }
    ensures state { result.state ≡ UNKNOWN }
{
    TableAnswer {
        file,
        time: no_time(Unit::Second),
        state: UNKNOWN,
    }
}

/// Returns the number of the file of the zone that all rows are in, if there is such a zone and file.
#[inline(always)]
fn named_file(piece: &Piece<'_, '_>) -> Option<usize>
    ensures { IsNamed piece.now.layout.now.zone piece.now.zones.now result }
{
    match &piece.layout.zone {
        ZoneFrom::Field(_) => None,
        ZoneFrom::Name(name) => piece.zones.find(name.as_bytes()),
    }
}

/// Finds the files of the zones of records.
fn find_files(
    alloc: Global,
    piece: &Piece<'_, '_>,
    records: &[Record; BATCH],
    count: usize,
    known: &mut [TableAnswer; BATCH],
) -> Result<(), AllocError>
    requires few { count ≤ BATCH }
    requires split { All (IsGiven piece.now) (take count records.now) }
    ensures long { length known.new ≡ BATCH }
    ensures files { OnOk result (HaveFiles piece.now count records.now known.new) }
{
    let named = named_file(piece);
    let mut likely = usize::MAX;
    for i in 0..count {
        let file = file_of(alloc, piece, &records[i], named, likely)?;
        known[i].file = file;
        likely = file.unwrap_or(likely);
    }
    Ok(())
}

/// Returns the number of the file of a record's zone, if there is one. Where all rows are in one zone,
/// `named` is the number of its file; else a likely number is tried first.
#[inline(always)]
fn file_of(
    alloc: Global,
    piece: &Piece<'_, '_>,
    given: &Record,
    named: Option<usize>,
    likely: usize,
) -> Result<Option<usize>, AllocError>
    requires split { IsGiven piece.now given.now }
    requires named { IsNamed piece.now.layout.now.zone piece.now.zones.now named }
    ensures { IfOk result (λ file. file ≡ zone_at piece.now given.now) }
{
    match &piece.layout.zone {
        ZoneFrom::Field(_) => find_field(alloc, piece, given.zone, likely),
        ZoneFrom::Name(_) => Ok(named),
    }
}

/// Returns the number of the file that a field of a piece names, if there is one.
#[inline(always)]
fn find_field(
    alloc: Global,
    piece: &Piece<'_, '_>,
    field: Field,
    likely: usize,
) -> Result<Option<usize>, AllocError>
    requires { IsWithinPiece piece.now.bytes.now field }
    ensures { IfOk result (λ file. file ≡ number_of piece.now.zones.now
        (field_text piece.now.layout.now.delimiter piece.now.bytes.now field)) }
{
    match field {
        Field::Plain(span) => Ok(
            piece
                .zones
                .find_at(piece.bytes, span.start, span.end, likely),
        ),
        Field::Quoted(_) => {
            let name = copy_field(alloc, piece, field)?;
            Ok(piece.zones.find(&name))
        }
    }
}

/// Returns whether a record may have a stray double quote, or has none.
#[inline(always)]
pub(crate) fn admits_stray(quotes: Quotes, stray: bool) -> bool
    ensures { result ≡ admits_stray quotes stray }
{
    match quotes {
        Quotes::Strict => !stray,
        Quotes::Lenient => true,
    }
}

/// Returns whether a record has as many bytes and fields as it may have, and the right double quotes.
#[inline(always)]
fn is_admitted(piece: &Piece<'_, '_>, given: &Record) -> bool
    requires { IsGiven piece.now given.now }
    ensures { IsTrue result → IsAdmitted piece.now given.now }
{
    given.count > 0
        && piece.layout.count.admits(given.count)
        && admits_stray(piece.layout.quotes, given.stray)
        && may_have(piece.layout.max_record, given.own.of(piece.bytes).len())
}

/// Returns what the tables answer a record whose zone has this file and whose field has this time, if
/// they have it and its row has no fault.
#[inline(always)]
fn known_at(
    piece: &Piece<'_, '_>,
    states: &RowStates<'_>,
    given: &Record,
    zone: Option<usize>,
    time: RowTime,
) -> TableAnswer
    requires files { states.now.files ≡ piece.now.zones.now }
    requires split { IsGiven piece.now given.now }
    requires zone { zone ≡ zone_at piece.now given.now }
    requires time { IfTime time (IsReadTime piece.now given.now) }
    ensures { IsFound piece.now given.now time states.now.states result }
{
    let Some(file) = zone else {
        return unknown(zone);
    };
    if time.second == NO_TIME || !is_admitted(piece, given) {
        return unknown(zone);
    }
    let Some(instant) = instant_of(piece, file, time) else {
        return unknown(zone);
    };
    TableAnswer {
        file: zone,
        time: instant,
        state: states.number(file, instant.second),
    }
}

/// Returns the time of the instant that the time in a record's field means by a file, where the tables
/// have it.
#[inline(always)]
fn instant_of(piece: &Piece<'_, '_>, file: usize, time: RowTime) -> Option<RowTime>
    requires within { file < length piece.now.zones.now }
    requires may { IsRowInstant time.second }
    ensures { IfSome result (IsInstantOf piece.now file time) }
{
    match piece.layout.from {
        TimeFrom::Count | TimeFrom::Text(_) => Some(time),
        TimeFrom::Local(_) => only_instant(piece.zones, file, time),
    }
}

/// Returns the time of the only instant of a local time, where the tables have it, and a row may have
/// it.
#[inline(always)]
fn only_instant(zones: &RowZones<'_>, file: usize, local: RowTime) -> Option<RowTime>
    requires within { file < length zones.now }
    requires may { IsRowInstant local.second }
    ensures { IfSome result (IsOnlyInstant zones.now file local) }
{
    let second = zones.only_instant(file, local.second)?.instant;
    if second < FIRST_INSTANT || LAST_INSTANT < second {
        return None;
    }
    Some(RowTime {
        second,
        fraction: local.fraction,
        unit: local.unit,
    })
}
