//! How a column is read, and what its rows are.

ghost use Rattle.std.specs.Prelude.{◌≡◌, [], IfOk};
ghost use Rattle.zic_layouts.specs.Layout.{AreSameZones, HasPlainRows, IsUnkept, has_count, line_end_bytes};

use crate::compared::Compared;
use crate::delimiter::Delimiter;
use crate::disambiguation::Disambiguation;
use crate::prefix::Prefix;
use crate::row_field::RowFields;
use std::alloc::{AllocError, Global};

/// What an instant counts from 1970-01-01T00:00:00 UT, without leap seconds.
#[derive(Clone, Copy, Debug, PartialEq, Eq)]
pub enum Unit {
    Second,
    Millisecond,
    Microsecond,
    Nanosecond,
}

/// How an instant is written that is no count of units.
#[derive(Clone, Copy, Debug, PartialEq, Eq)]
pub enum InstantText {
    /// As seconds, perhaps with a fraction, `1173596399.25`.
    Seconds,
    /// As a date and a time of day with a UT offset, `2007-03-11T01:59:59-05:00`. RFC 3339, 5.6.
    Rfc3339,
    /// As a date and a time of day in UT, `2007-03-11T06:59:59`.
    Utc,
}

/// How the field of the instant, or of the local time, is written.
#[derive(Clone, Copy, Debug, PartialEq, Eq)]
pub enum TimeFrom {
    /// As a count of units.
    Count,
    /// As a text of this form.
    Text(InstantText),
    /// As a date and a time of day on the clocks of the row's zone, `2007-03-11T01:59:59`. The choice
    /// says which instant is meant in gaps and folds.
    Local(Disambiguation),
}

/// Where the zone of a row comes from.
#[derive(Debug, Drop)]
pub enum ZoneFrom {
    /// The field with this index, from 0.
    Field(usize),
    /// Every row is in the zone of this name.
    Name(String),
}

impl ZoneFrom {
    /// Returns the same.
    fn copy(&self, alloc: Global) -> Result<ZoneFrom, AllocError>
        ensures { IfOk result (AreSameZones self.now) }
    {
        match self {
            ZoneFrom::Field(index) => Ok(ZoneFrom::Field(*index)),
            ZoneFrom::Name(name) => Ok(ZoneFrom::Name(String::from_str(alloc, name)?)),
        }
    }
}

/// How many fields a record has.
#[derive(Clone, Copy, Debug, PartialEq, Eq)]
pub enum FieldCount {
    Exactly(usize),
    AtLeast(usize),
}

impl FieldCount {
    /// Returns whether a record may have this number of fields.
    pub fn admits(self, count: usize) -> bool
        ensures { result ≡ has_count self count }
    {
        match self {
            FieldCount::Exactly(n) => count == n,
            FieldCount::AtLeast(n) => n <= count,
        }
    }
}

/// Where a record of a column ends.
#[derive(Clone, Copy, Debug, PartialEq, Eq)]
pub enum Records {
    /// At a line end outside double quotes, as RFC 4180 has it: a field between double quotes may have
    /// line ends.
    Csv,
    /// At each line end, also between double quotes. A line whose double quotes are open at its end is
    /// a record without fields.
    Lines,
}

/// Which double quotes a record may have, besides those that RFC 4180 has.
#[derive(Clone, Copy, Debug, PartialEq, Eq)]
pub enum Quotes {
    /// None: a record has a fault whose double quotes are open at its end, or in which a byte follows the
    /// double quote that ends a field, and is neither a delimiter, a double quote nor a line end.
    Strict,
    /// All: a field goes on after its double quotes, and the end of the column ends a record between them.
    Lenient,
}

/// Whether the first record of a column is a header, which makes no row and isn't counted, and
/// whether a header is written before the rows.
#[derive(Clone, Copy, Debug, PartialEq, Eq)]
pub enum Header {
    /// The column has none, and none is written.
    Absent,
    /// The first record is one, and one is written.
    First,
    /// The first record is one, and none is written: the rows are those of a later part.
    Skipped,
}

/// What a row begins with.
#[derive(Clone, Copy, Debug, PartialEq, Eq)]
pub enum RowStart {
    /// The name of its zone and its instant, or its local time.
    Fields,
    /// The bytes of its record, as they stand in the column, without its line end.
    Record,
    /// The bytes of its record, with the first of the row's fields in the place of the time's.
    Replaced,
}

/// How a line ends.
#[derive(Clone, Copy, Debug, PartialEq, Eq)]
pub enum LineEnd {
    /// With a line feed.
    Lf,
    /// With a carriage return and a line feed.
    CrLf,
}

impl LineEnd {
    /// Returns the bytes of the line end.
    pub fn bytes(self) -> &'static [u8]
        ensures { result.now ≡ line_end_bytes self }
    {
        match self {
            LineEnd::Lf => b"\n",
            LineEnd::CrLf => b"\r\n",
        }
    }
}

/// How a row has its local time and its UT offset. The command line's `utc` is a list of fields.
#[derive(Clone, Copy, Debug, PartialEq, Eq)]
pub enum Style {
    /// In two fields, `2007-03-11T03:00:00` and `-04:00:00`.
    Fields,
    /// In one field, `2007-03-11T03:00:00-04:00`. RFC 3339, 5.6; seconds of the offset are written
    /// where it has some.
    Iso,
}

/// What a record does whose time is an empty field.
#[derive(Clone, Copy, Debug, PartialEq, Eq)]
pub enum EmptyTime {
    /// It has a fault, as with any other field that is no time.
    Fault,
    /// Its row is written, and the fields that rows add are empty.
    Keep,
}

/// What a row with a fault does.
#[derive(Clone, Copy, Debug, PartialEq, Eq)]
pub enum AtFault {
    /// It ends the conversion.
    End,
    /// It is written without local time, and the conversion goes on. A row more than there may be ends
    /// it, and so does a record of CSV of more bytes than it may have. A longer line is written in part.
    GoOn,
    /// It isn't written, its record is rejected, and the conversion goes on. A row more than there may be
    /// ends it, and so does a record of CSV of more bytes than it may have. Of a longer line a part is
    /// rejected.
    Reject,
}

/// What is noted of a row with a fault.
#[derive(Clone, Copy, Debug, PartialEq, Eq)]
pub enum Notes {
    /// Its number and its fault.
    Faults,
    /// Also the line where its record begins, and the value at fault.
    Details,
}

/// How a column is read, and what its rows are.
#[derive(Drop)]
pub struct Layout {
    /// Where a row's zone comes from.
    pub zone: ZoneFrom,
    /// The index of the field of the instant, or of the local time, from 0.
    pub time: usize,
    /// How that field is written.
    pub from: TimeFrom,
    /// How many fields each record has.
    pub count: FieldCount,
    /// What the instants count.
    pub unit: Unit,
    /// What stands between fields, of records and of rows.
    pub delimiter: Delimiter,
    /// Where a record ends.
    pub records: Records,
    /// Which double quotes a record may have.
    pub quotes: Quotes,
    /// Whether there is a header.
    pub header: Header,
    /// The most bytes that a record may have, without its line end; `None` sets no limit.
    pub max_record: Option<u64>,
    /// What a row begins with.
    pub start: RowStart,
    /// How a row ends, and the header.
    pub line_end: LineEnd,
    /// What the names of the fields begin with, in a header, that rows add.
    pub prefix: Prefix,
    /// Which fields a row has after its beginning.
    pub fields: RowFields,
    /// What is compared, where rows are compared with another release.
    pub compared: Compared,
    /// What a record does whose time is an empty field.
    pub empty: EmptyTime,
    /// What a row with a fault does.
    pub at_fault: AtFault,
    /// What is noted of a row with a fault.
    pub notes: Notes,
    /// Whether the rows of each zone are counted, where rows are compared with another release.
    pub tallies: bool,
}

impl Layout {
    /// Returns the same layout, but that an empty time is a fault.
    pub fn without_kept_times(&self, alloc: Global) -> Result<Layout, AllocError>
        ensures { IfOk result (IsUnkept self.now) }
    {
        let zone = self.zone.copy(alloc)?;
        Ok(Layout {
            zone,
            delimiter: self.delimiter.copy(),
            prefix: self.prefix.copy(),
            fields: self.fields.copy(),
            empty: EmptyTime::Fault,
            ..*self
        })
    }

    /// Returns the layout of plain columns: two fields, the name of a zone and seconds, with a
    /// comma between them, and records of CSV of any length, with any double quotes. Each row is
    /// written, begins with these fields, and has local time and offset in two more, and the first fault
    /// ends the conversion.
    pub fn plain(header: Header) -> Layout
        ensures rows { HasPlainRows result }
        ensures header { result.header ≡ header }
        ensures prefix { result.prefix ≡ [] }
    {
        Layout {
            zone: ZoneFrom::Field(0),
            time: 1,
            from: TimeFrom::Count,
            count: FieldCount::Exactly(2),
            unit: Unit::Second,
            delimiter: Delimiter::comma(),
            records: Records::Csv,
            quotes: Quotes::Lenient,
            header,
            max_record: None,
            start: RowStart::Fields,
            line_end: LineEnd::Lf,
            prefix: Prefix::none(),
            fields: RowFields::Usual(Style::Fields),
            compared: Compared {
                daylight: true,
                abbreviation: true,
            },
            empty: EmptyTime::Fault,
            at_fault: AtFault::End,
            notes: Notes::Faults,
            tallies: false,
        }
    }
}
