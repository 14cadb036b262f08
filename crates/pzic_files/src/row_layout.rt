//! What else the rows of a column may have, as C passes it.

ghost use Rattle.std.specs.Prelude.{◌≡◌, ◌==◌, List, MatchOption, IfOk, IfErr, map, position};
ghost use Rattle.std.specs.List.{list_all};
ghost use Rattle.zic_layouts.specs.declared.layout.EmptyTime.{EmptyTime};
ghost use Rattle.zic_layouts.specs.declared.layout.LineEnd.{LineEnd};
ghost use Rattle.zic_layouts.specs.declared.row_field.RowField.{RowField};
ghost use Rattle.zic_layouts.specs.declared.row_field.RowFields.{RowFields};
ghost use Rattle.pzic_files.specs.Layout.{AreFields, AreListed, IsRefusal};
ghost use Rattle.pzic_files.specs.RowLayout.{before_zero, empty_number, field_number, line_end_number, usual_rows};

use crate::layout::{ColumnLayout, LayoutStop, style_of};
use std::alloc::Global;
use zic_layouts::{EmptyTime, FieldList, LineEnd, RowField, RowFields, Style};

/// The most fields that rows can be given.
pub const FIELDS_ROOM: usize = 8;

/// The most bytes of a prefix, and one more for a NUL.
pub const PREFIX_ROOM: usize = 65;

/// How many numbers have no meaning yet.
pub const RESERVED: usize = 6;

/// How a column is read, and what its rows are, with all that rows may have.
#[repr(C)]
#[derive(Clone, Copy, Drop)]
pub struct RowLayout {
    /// How the column is read, and the rest of what its rows are.
    pub column: ColumnLayout,
    /// The number of what an empty time does.
    pub empty: u32,
    /// The number of how rows end, and the header.
    pub line_end: u32,
    /// Numbers without a meaning: each is 0.
    pub reserved: [u32; RESERVED],
    /// The numbers of the fields of rows, up to the first 0; none of them for the usual fields.
    pub only: [u8; FIELDS_ROOM],
    /// What the names of added fields begin with, up to the first NUL.
    pub prefix: [u8; PREFIX_ROOM],
}

/// Returns the layout of a column whose rows have nothing else.
pub(crate) fn with_usual_rows(column: &ColumnLayout) -> RowLayout
    ensures { result ≡ usual_rows column.now }
{
    RowLayout {
        column: *column,
        empty: 0,
        line_end: 0,
        reserved: [0; RESERVED],
        only: [0; FIELDS_ROOM],
        prefix: [0; PREFIX_ROOM],
    }
}

/// Returns the place of the first 0, if there is one.
fn place_of_zero(bytes: &[u8]) -> Option<usize>
    ensures { result ≡ position (λ n. n == 0) bytes.now }
{
    bytes.iter().position(|byte| *byte == 0)
}

/// Returns the bytes before the first 0, or all where none is.
pub(crate) fn until_zero(bytes: &[u8]) -> &[u8]
    ensures { result.now ≡ before_zero bytes.now }
{
    let end = place_of_zero(bytes).unwrap_or(bytes.len());
    &bytes[..end]
}

/// Returns whether each number is 0.
pub(crate) fn are_zeros(numbers: &[u32]) -> bool
    ensures { result ≡ list_all (λ n. n == 0) numbers.now }
{
    numbers.iter().all(|number| *number == 0)
}

/// Returns what an empty time does by a number, if that is one.
pub(crate) fn empty_of(number: u32) -> Option<EmptyTime>
    ensures { MatchOption result ((empty : EmptyTime) → number ≡ empty_number empty → ⊥)
        (λ empty. number ≡ empty_number empty) }
{
    match number {
        0 => Some(EmptyTime::Fault),
        1 => Some(EmptyTime::Keep),
        _ => None,
    }
}

/// Returns the line end of a number, if one has it.
pub(crate) fn line_end_of(number: u32) -> Option<LineEnd>
    ensures { MatchOption result ((end : LineEnd) → number ≡ line_end_number end → ⊥)
        (λ end. number ≡ line_end_number end) }
{
    match number {
        0 => Some(LineEnd::Lf),
        1 => Some(LineEnd::CrLf),
        _ => None,
    }
}

/// Returns the field of a number, if one has it.
fn field_of(number: u8) -> Option<RowField>
    ensures { MatchOption result ((field : RowField) → number ≡ field_number field → ⊥)
        (λ field. number ≡ field_number field) }
{
    match number {
        1 => Some(RowField::Local),
        2 => Some(RowField::Time),
        3 => Some(RowField::Instant),
        4 => Some(RowField::Utc),
        5 => Some(RowField::Offset),
        6 => Some(RowField::Daylight),
        7 => Some(RowField::Abbreviation),
        8 => Some(RowField::Ambiguous),
        _ => None,
    }
}

/// Returns the fields of these numbers.
fn fields_of(alloc: Global, numbers: &[u8]) -> Result<Vec<RowField>, LayoutStop>
    ensures ok { IfOk result (λ fields. numbers.now ≡ map field_number fields.items) }
    ensures err { IfErr result (IsRefusal ((fields : List RowField) →
        numbers.now ≡ map field_number fields → ⊥)) }
{
    let mut fields = Vec::new(alloc);
    for number in numbers {
        let Some(field) = field_of(*number) else {
            return Err(LayoutStop::None);
        };
        if fields.push(field).is_err() {
            return Err(LayoutStop::Memory);
        }
    }
    Ok(fields)
}

/// Returns the fields of these numbers, which are those of a list.
fn only(alloc: Global, numbers: &[u8]) -> Result<RowFields, LayoutStop>
    ensures ok { IfOk result (AreListed numbers.now) }
    ensures err { IfErr result (IsRefusal ((fields : RowFields) → AreListed numbers.now fields → ⊥)) }
{
    let fields = fields_of(alloc, numbers)?;
    match FieldList::new(&fields) {
        Some(list) => Ok(RowFields::Only(list)),
        None => Err(LayoutStop::None),
    }
}

/// Returns which fields rows have: those of these numbers, or the usual ones in the style of a number.
pub(crate) fn row_fields(alloc: Global, style: u32, numbers: &[u8]) -> Result<RowFields, LayoutStop>
    ensures ok { IfOk result (AreFields style numbers.now) }
    ensures err { IfErr result (IsRefusal ((fields : RowFields) →
        AreFields style numbers.now fields → ⊥)) }
{
    match style_of(style) {
        Some(style) if numbers.is_empty() => Ok(RowFields::Usual(style)),
        Some(Style::Fields) => only(alloc, numbers),
        Some(Style::Iso) => Err(LayoutStop::None),
        None => Err(LayoutStop::None),
    }
}
