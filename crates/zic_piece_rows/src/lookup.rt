//! Reads the counts of a record.

ghost use Rattle.std.specs.Prelude.{◌≡◌, ◌<◌, IfSome, Some, length, slice_get};
ghost use Rattle.zic_row_text.specs.Count.{second_of};
ghost use Rattle.zic_row_text.specs.Local.{IsLocalSecond};
ghost use Rattle.zic_zones.specs.Resolved.{resolved};
ghost use Rattle.zic_piece_rows.specs.LayoutRows.{count_by, file_at, is_kept, missing, moved};
ghost use Rattle.zic_piece_rows.specs.Rows.{is_row_instant};
ghost use Rattle.zic_piece_rows.specs.code.Batch.{AreTimesOf, IsCountFor, IsFile};

use crate::piece::Piece;
use zic_base::RowKind;
use zic_layouts::{Disambiguation, EmptyTime, Layout, TimeFrom, Unit};
use zic_local::Unresolved;
use zic_row_text::{
    FIRST_INSTANT, LAST_INSTANT, count_from, moment_of, parse_count, parse_instant_text,
    parse_local_time,
};

/// The counts of a record: `input` is the one in its field, of an instant or of a local time, and `count`
/// that of the instant.
#[derive(Clone, Copy, Drop)]
pub(crate) struct Counts {
    pub(crate) input: i128,
    pub(crate) count: i128,
}

/// Returns whether a row may have the whole second of a count.
#[inline(always)]
pub(crate) fn is_in_range(count: i128, unit: Unit) -> bool
    ensures { result ≡ is_row_instant (Some (second_of unit count)) }
{
    let second = moment_of(count, unit).second;
    i128::from(FIRST_INSTANT) <= second && second <= i128::from(LAST_INSTANT)
}

/// Returns whether an empty field is kept, and this is one.
pub(crate) fn is_kept(empty: EmptyTime, field: &[u8]) -> bool
    ensures { result ≡ is_kept empty field.now }
{
    match empty {
        EmptyTime::Fault => false,
        EmptyTime::Keep => matches!(field, []),
    }
}

/// Returns the count that a field has by a layout, if it has one.
pub(crate) fn read_input(layout: &Layout, field: &[u8]) -> Option<i128>
    ensures count { result ≡ count_by layout.now.from layout.now.unit field.now }
    ensures sound { IfSome result (IsCountFor layout.now.from layout.now.unit) }
{
    let unit = layout.unit;
    match layout.from {
        TimeFrom::Count => parse_count(field, unit),
        TimeFrom::Text(form) => parse_instant_text(field, form, unit),
        TimeFrom::Local(_) => parse_local_time(field, unit),
    }
}

/// Returns the counts of a record, by the file of its zone and the count that its field has.
///
/// # Errors
///
/// The fault of the row, where it has no instant.
pub(crate) fn times_of(
    piece: &Piece<'_, '_>,
    file: Option<usize>,
    input: Option<i128>,
) -> Result<Counts, RowKind>
    requires file { IsFile piece.now file }
    requires sound { IfSome input
        (IsCountFor piece.now.layout.now.from piece.now.layout.now.unit) }
    ensures { AreTimesOf piece.now.layout.now (file_at piece.now.zones.now file) input result }
{
    let Some(input) = input else {
        return Err(missing(piece.layout.from));
    };
    let count = match (piece.layout.from, file) {
        (TimeFrom::Local(choice), Some(file)) => meant(piece, file, input, choice)?,
        _ => input,
    };
    Ok(Counts { input, count })
}

/// Returns the fault of a field that has no count.
fn missing(from: TimeFrom) -> RowKind
    ensures { result ≡ missing from }
{
    match from {
        TimeFrom::Count | TimeFrom::Text(_) => RowKind::RowInstant,
        TimeFrom::Local(_) => RowKind::RowLocal,
    }
}

/// Returns the count of the instant that is meant by a local time of a file's clocks.
///
/// # Errors
///
/// `RowSkipped` in a gap and `RowRepeated` in a fold, where the choice refuses these.
fn meant(
    piece: &Piece<'_, '_>,
    file: usize,
    local: i128,
    choice: Disambiguation,
) -> Result<i128, RowKind>
    requires within { file < length piece.now.zones.now }
    requires local { IsLocalSecond (second_of piece.now.layout.now.unit local) }
    ensures { IfSome (slice_get piece.now.zones.now file) (λ f. result ≡ moved
        piece.now.layout.now.unit local (resolved f.image.octets
        (second_of piece.now.layout.now.unit local) choice)) }
{
    let unit = piece.layout.unit;
    let moment = moment_of(local, unit);
    match piece.zones.instant(file, moment.second as i64, choice) {
        Ok(t) => Ok(count_from(t, moment.fraction, unit)),
        Err(Unresolved::Fold) => Err(RowKind::RowRepeated),
        Err(Unresolved::Gap | Unresolved::Unspecified) => Err(RowKind::RowSkipped),
    }
}
