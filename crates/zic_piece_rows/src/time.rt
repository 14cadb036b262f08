//! Reads the times of the fields of records.

ghost use Rattle.std.specs.Prelude.{◌≡◌, ◌≢◌, ◌<◌, ◌≤◌, ◌+ℤ◌, All, IfSome, Some, take};
ghost use Rattle.zic_columns.specs.Record.{IsWithin, bytes_at};
ghost use Rattle.zic_columns.specs.declared.fields.Field.TheVariants.{Plain};
ghost use Rattle.zic_columns.specs.declared.splits.TheConstants.{BATCH};
ghost use Rattle.zic_layouts.specs.declared.layout.TimeFrom.TheVariants as from;
ghost use Rattle.zic_row_text.specs.Count.{fraction_of, second_of, units_of_second};
ghost use Rattle.zic_row_text.specs.Instant.{IsRowInstant, IsRowOffset};
ghost use Rattle.zic_row_text.specs.Local.{IsLocalSecond};
ghost use Rattle.zic_row_text.specs.PlainTime.{IsPlainTime};
ghost use Rattle.zic_piece_rows.specs.code.Answer.{AreTimes, IfTime, IsReadTime};
ghost use Rattle.zic_piece_rows.specs.code.Batch.{IsCountFor, IsGiven, count_at};

use crate::lookup::is_in_range;
use crate::piece::Piece;
use zic_columns::{BATCH, Field, Record, Span};
use zic_layouts::{TimeFrom, Unit};
use zic_row_text::{RowTime, moment_of, parse_instant_text, parse_local_time, quick_time};

/// The second of a time that isn't known. No row may have it.
pub(crate) const NO_TIME: i64 = i64::MIN;

/// The time before the first is read, of zeros alone.
pub(crate) const ZERO_TIME: RowTime = RowTime {
    second: 0,
    fraction: 0,
    unit: Unit::Second,
};

/// Returns a time that isn't known.
#[inline(always)]
pub(crate) fn no_time(unit: Unit) -> RowTime
    ensures { result.second ≡ NO_TIME }
{
    RowTime {
        second: NO_TIME,
        fraction: 0,
        unit,
    }
}

/// Returns a local time by its count.
pub(crate) fn local_time_of(count: i128, unit: Unit) -> RowTime
    requires { IsLocalSecond (second_of unit count) }
    ensures second { result.second ≡ second_of unit count }
    ensures fraction { result.fraction ≡ fraction_of unit count }
    ensures below { result.fraction < units_of_second unit }
    ensures unit { result.unit ≡ unit }
{
    let moment = moment_of(count, unit);
    RowTime {
        second: moment.second as i64,
        fraction: moment.fraction,
        unit,
    }
}

/// Returns the local time of an instant at a UT offset.
pub(crate) fn local_time_at(time: RowTime, offset: i32) -> RowTime
    requires second { IsRowInstant time.second }
    requires offset { IsRowOffset offset }
    ensures second { result.second ≡ time.second +ℤ offset }
    ensures local { IsLocalSecond result.second }
    ensures fraction { result.fraction ≡ time.fraction }
    ensures unit { result.unit ≡ time.unit }
{
    RowTime {
        second: time.second + i64::from(offset),
        fraction: time.fraction,
        unit: time.unit,
    }
}

/// Reads the times in the fields of the first `count` records.
pub(crate) fn read_times(
    piece: &Piece<'_, '_>,
    records: &[Record; BATCH],
    count: usize,
    times: &mut [RowTime; BATCH],
)
    requires few { count ≤ BATCH }
    requires split { All (IsGiven piece.now) (take count records.now) }
    ensures { AreTimes piece.now count records.now times.new }
{
    for i in 0..count {
        times[i] = read_time(piece, &records[i]);
    }
}

/// Reads the time in the field of a record, if it has no double quotes. Returns one of [`NO_TIME`] if it
/// isn't read that way: a search reads it.
#[inline(always)]
fn read_time(piece: &Piece<'_, '_>, given: &Record) -> RowTime
    requires { IsGiven piece.now given.now }
    ensures { IfTime result (IsReadTime piece.now given.now) }
{
    let Field::Plain(span) = given.time else {
        return no_time(piece.layout.unit);
    };
    match piece.layout.from {
        TimeFrom::Count => read_plain(piece, piece.layout.unit, span),
        TimeFrom::Text(_) | TimeFrom::Local(_) => read_date(piece, given, span),
    }
}

/// Reads a time in plain decimals, which counts these units.
#[inline(always)]
pub(crate) fn read_plain(piece: &Piece<'_, '_>, unit: Unit, span: Span) -> RowTime
    requires { IsWithin piece.now.bytes.now span }
    ensures { IfTime result (IsPlainTime unit (bytes_at piece.now.bytes.now span)) }
{
    match quick_time(piece.bytes, span.start, span.end, unit) {
        // The parts alone are copied, and not what lies between them.
        Some(time) => RowTime {
            second: time.second,
            fraction: time.fraction,
            unit,
        },
        None => no_time(unit),
    }
}

/// Reads the text of an instant, or a local time, which stands there in a record's field.
#[inline(never)]
fn read_date(piece: &Piece<'_, '_>, given: &Record, span: Span) -> RowTime
    requires split { IsGiven piece.now given.now }
    requires from { piece.now.layout.now.from ≢ from.Count }
    requires plain { given.now.time ≡ Plain span }
    ensures { IfTime result (IsReadTime piece.now given.now) }
{
    let unit = piece.layout.unit;
    match date_count(piece, given, span) {
        Some(count) if is_in_range(count, unit) => RowTime::of_count(count, unit),
        _ => no_time(unit),
    }
}

/// Returns the count of the text of an instant, or of a local time, which stands there in a record's field.
fn date_count(piece: &Piece<'_, '_>, given: &Record, span: Span) -> Option<i128>
    requires split { IsGiven piece.now given.now }
    requires from { piece.now.layout.now.from ≢ from.Count }
    requires plain { given.now.time ≡ Plain span }
    ensures says { IfSome result (λ count. count_at piece.now given.now ≡ Some count) }
    ensures sound { IfSome result (IsCountFor piece.now.layout.now.from piece.now.layout.now.unit) }
{
    let text = span.of(piece.bytes);
    match piece.layout.from {
        TimeFrom::Local(_) => parse_local_time(text, piece.layout.unit),
        TimeFrom::Text(form) => parse_instant_text(text, form, piece.layout.unit),
        TimeFrom::Count => None,
    }
}
