//! How a column is read and what its rows are, as C passes it.

ghost use Rattle.std.specs.Prelude.{◌≡◌, false, IsUtf8, MatchOption, IfOk, IfErr};
ghost use Rattle.zic_layouts.specs.Delimiter.{is_delimiter};
ghost use Rattle.zic_layouts.specs.declared.layout.Layout.{Layout};
ghost use Rattle.pzic_files.specs.Layout.{HasNoLayout, HaveNumbers, IsFieldCount, IsLayoutOf, IsLimit, IsRefusal, IsZoneFrom};
ghost use Rattle.pzic_files.specs.code.Layout.{AreForms};
ghost use Rattle.pzic_files.specs.Layout.{fault_number, from_number, header_number, quotes_number, records_number, start_number, style_number, unit_number};

use crate::row_layout::{RowLayout, are_zeros, empty_of, line_end_of, row_fields, until_zero};
use std::alloc::{AllocError, Global};
use std::str::from_utf8;
use zic_layouts::{
    AtFault, Compared, Delimiter, Disambiguation, EmptyTime, FieldCount, Header, InstantText,
    Layout, LineEnd, Notes, Prefix, Quotes, Records, RowStart, Style, TimeFrom, Unit, ZoneFrom,
};

/// How a column is read, and what its rows are, by numbers.
#[repr(C)]
#[derive(Clone, Copy, Drop)]
pub struct ColumnLayout {
    /// The index of the field of the zone's name, from 0.
    pub zone: usize,
    /// The index of the field of the instant or the local time, from 0.
    pub time: usize,
    /// How many fields a record has.
    pub fields: usize,
    /// Whether it may have more: 0 or 1.
    pub more_fields: u32,
    /// The number of how the field has its time.
    pub from: u32,
    /// The number of what instants count.
    pub unit: u32,
    /// The byte between fields.
    pub delimiter: u32,
    /// The number of where records end.
    pub records: u32,
    /// The number of whether there is a header.
    pub header: u32,
    /// The number of what rows begin with.
    pub start: u32,
    /// The number of what a row with a fault does.
    pub at_fault: u32,
    /// The number of how a row has its local time and its UT offset.
    pub style: u32,
    /// The number of which double quotes a record may have.
    pub quotes: u32,
    /// The most bytes of a record, without its line end; 0 sets no limit.
    pub max_record: u64,
}

/// Why there is no layout.
#[derive(Clone, Copy, Drop)]
pub(crate) enum LayoutStop {
    /// A number is that of nothing, or the zone's name is no text.
    None,
    /// A growth of memory was refused.
    Memory,
}

impl From<AllocError> for LayoutStop {
    ghost use Rattle.std.specs.Prelude.{◌≡◌};
    ghost use Rattle.pzic_files.specs.declared.layout.LayoutStop.TheVariants as stop;

    ghost from_gives = { λ _ e. e ≡ stop.Memory };

    fn from(_e: AllocError) -> LayoutStop {
        LayoutStop::Memory
    }
}

/// Returns how the time of a number is had, if one has it.
fn from_of(number: u32) -> Option<TimeFrom>
    ensures { MatchOption result ((from : TimeFrom) → number ≡ from_number from → ⊥)
        (λ from. number ≡ from_number from) }
{
    match number {
        0 => Some(TimeFrom::Count),
        1 => Some(TimeFrom::Text(InstantText::Rfc3339)),
        2 => Some(TimeFrom::Local(Disambiguation::Reject)),
        3 => Some(TimeFrom::Local(Disambiguation::Earlier)),
        4 => Some(TimeFrom::Local(Disambiguation::Later)),
        5 => Some(TimeFrom::Local(Disambiguation::Compatible)),
        6 => Some(TimeFrom::Text(InstantText::Utc)),
        7 => Some(TimeFrom::Text(InstantText::Seconds)),
        _ => None,
    }
}

/// Returns the unit of a number, if one has it.
fn unit_of(number: u32) -> Option<Unit>
    ensures { MatchOption result ((unit : Unit) → number ≡ unit_number unit → ⊥)
        (λ unit. number ≡ unit_number unit) }
{
    match number {
        0 => Some(Unit::Second),
        1 => Some(Unit::Millisecond),
        2 => Some(Unit::Microsecond),
        3 => Some(Unit::Nanosecond),
        _ => None,
    }
}

/// Returns where the records of a number end, if they have it.
fn records_of(number: u32) -> Option<Records>
    ensures { MatchOption result ((records : Records) → number ≡ records_number records → ⊥)
        (λ records. number ≡ records_number records) }
{
    match number {
        0 => Some(Records::Csv),
        1 => Some(Records::Lines),
        _ => None,
    }
}

/// Returns which double quotes records of a number may have, if any have it.
fn quotes_of(number: u32) -> Option<Quotes>
    ensures { MatchOption result ((quotes : Quotes) → number ≡ quotes_number quotes → ⊥)
        (λ quotes. number ≡ quotes_number quotes) }
{
    match number {
        0 => Some(Quotes::Strict),
        1 => Some(Quotes::Lenient),
        _ => None,
    }
}

/// Returns the header of a number, if one has it.
fn header_of(number: u32) -> Option<Header>
    ensures { MatchOption result ((header : Header) → number ≡ header_number header → ⊥)
        (λ header. number ≡ header_number header) }
{
    match number {
        0 => Some(Header::Absent),
        1 => Some(Header::First),
        2 => Some(Header::Skipped),
        _ => None,
    }
}

/// Returns the start of rows of a number, if one has it.
fn start_of(number: u32) -> Option<RowStart>
    ensures { MatchOption result ((start : RowStart) → number ≡ start_number start → ⊥)
        (λ start. number ≡ start_number start) }
{
    match number {
        0 => Some(RowStart::Fields),
        1 => Some(RowStart::Record),
        2 => Some(RowStart::Replaced),
        _ => None,
    }
}

/// Returns what a fault does by a number, if that is one.
fn at_fault_of(number: u32) -> Option<AtFault>
    ensures { MatchOption result ((at_fault : AtFault) → number ≡ fault_number at_fault → ⊥)
        (λ at_fault. number ≡ fault_number at_fault) }
{
    match number {
        0 => Some(AtFault::End),
        1 => Some(AtFault::GoOn),
        2 => Some(AtFault::Reject),
        _ => None,
    }
}

/// Returns the style of a number, if one has it.
pub(crate) fn style_of(number: u32) -> Option<Style>
    ensures { MatchOption result ((style : Style) → number ≡ style_number style → ⊥)
        (λ style. number ≡ style_number style) }
{
    match number {
        0 => Some(Style::Fields),
        1 => Some(Style::Iso),
        _ => None,
    }
}

/// Returns the number of fields, if `more` says whether there may be more.
fn count_of(fields: usize, more: u32) -> Option<FieldCount>
    ensures { MatchOption result ((count : FieldCount) → IsFieldCount fields more count → ⊥)
        (λ count. IsFieldCount fields more count) }
{
    match more {
        0 => Some(FieldCount::Exactly(fields)),
        1 => Some(FieldCount::AtLeast(fields)),
        _ => None,
    }
}

/// Returns the delimiter of a number, if it can be one.
fn delimiter_of(number: u32) -> Option<Delimiter>
    ensures { MatchOption result (is_delimiter number ≡ false) (λ delimiter. delimiter ≡ number) }
{
    if 127 < number {
        return None;
    }
    Delimiter::new(number as u8)
}

/// Returns the most bytes of a record, where a number sets a limit.
fn limit_of(number: u64) -> Option<u64>
    ensures { IsLimit number result }
{
    if number == 0 { None } else { Some(number) }
}

/// Returns where zones come from: a field, or a name where there is one.
fn zone_from(alloc: Global, field: usize, name: &[u8]) -> Result<ZoneFrom, LayoutStop>
    ensures ok { IfOk result (λ zone. IsZoneFrom field name.now zone) }
    ensures err { IfErr result (IsRefusal (IsUtf8 name.now → ⊥)) }
{
    if name.is_empty() {
        return Ok(ZoneFrom::Field(field));
    }
    let Ok(text) = from_utf8(name) else {
        return Err(LayoutStop::None);
    };
    Ok(ZoneFrom::Name(String::from_str(alloc, text)?))
}

/// The parts of a layout that own nothing.
#[derive(Clone, Copy)]
struct Forms {
    count: FieldCount,
    from: TimeFrom,
    unit: Unit,
    records: Records,
    quotes: Quotes,
    header: Header,
    start: RowStart,
    at_fault: AtFault,
    empty: EmptyTime,
    line_end: LineEnd,
}

/// Returns the parts of a layout that own nothing, if the numbers are theirs.
fn forms_of(given: &RowLayout) -> Option<Forms>
    ensures { MatchOption result ((layout : Layout) → HaveNumbers given.now layout → ⊥)
        (AreForms given.now) }
{
    if !are_zeros(&given.reserved) {
        return None;
    }
    let column = &given.column;
    Some(Forms {
        count: count_of(column.fields, column.more_fields)?,
        from: from_of(column.from)?,
        unit: unit_of(column.unit)?,
        records: records_of(column.records)?,
        quotes: quotes_of(column.quotes)?,
        header: header_of(column.header)?,
        start: start_of(column.start)?,
        at_fault: at_fault_of(column.at_fault)?,
        empty: empty_of(given.empty)?,
        line_end: line_end_of(given.line_end)?,
    })
}

/// Returns the layout of these numbers and of a zone's name.
///
/// # Errors
///
/// `None` where there is no such layout, or `Memory`.
pub(crate) fn layout_of(alloc: Global, given: &RowLayout, name: &[u8]) -> Result<Layout, LayoutStop>
    ensures ok { IfOk result (IsLayoutOf given.now name.now) }
    ensures err { IfErr result (IsRefusal (HasNoLayout given.now name.now)) }
{
    let forms = forms_of(given).ok_or(LayoutStop::None)?;
    let delimiter = delimiter_of(given.column.delimiter).ok_or(LayoutStop::None)?;
    let prefix = Prefix::new(until_zero(&given.prefix)).ok_or(LayoutStop::None)?;
    let fields = row_fields(alloc, given.column.style, until_zero(&given.only))?;
    let zone = zone_from(alloc, given.column.zone, name)?;
    // The byte is a delimiter, and names can begin with the prefix.
    let _ = delimiter.byte();
    let _ = prefix.bytes();
    Ok(Layout {
        zone,
        time: given.column.time,
        from: forms.from,
        count: forms.count,
        unit: forms.unit,
        delimiter,
        records: forms.records,
        quotes: forms.quotes,
        header: forms.header,
        max_record: limit_of(given.column.max_record),
        start: forms.start,
        line_end: forms.line_end,
        prefix,
        fields,
        compared: Compared {
            daylight: true,
            abbreviation: true,
        },
        empty: forms.empty,
        at_fault: forms.at_fault,
        notes: Notes::Faults,
        tallies: false,
    })
}
