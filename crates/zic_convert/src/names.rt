//! The names of fields in headers.

ghost use Rattle.std.specs.Prelude.{◌≡◌, ◌+◌, ◌≤◌, ◌++◌, ◌∷◌, length, map};
ghost use Rattle.arrayvec.specs.ArrayVec.{array_vec_len};
ghost use Rattle.zic_convert.specs.Column.{added_names, delimited, field_name, name_among, names_added, row_names, time_name};
ghost use Rattle.zic_layouts.specs.declared.field_list.TheConstants.{MAX_FIELDS};
ghost use Rattle.zic_layouts.specs.declared.prefix.TheConstants.{MAX_PREFIX};
ghost use Rattle.zic_piece_rows.specs.LayoutRows.{ended, following};

use arrayvec::ArrayVec;
use zic_layouts::{Layout, MAX_PREFIX, RowField, RowFields, RowStart, Style, TimeFrom};
use zic_zones::RowZones;

/// The room for a line of names, in bytes: sixteen names of 81 with their delimiters, and 40 more.
const NAMES_ROOM: usize = 1336;

/// A line of names, or a part of one.
pub(crate) type Names = ArrayVec<u8, NAMES_ROOM>;

/// Returns the name of the field that a row begins with after the zone's name.
fn time_name(from: TimeFrom) -> &'static [u8]
    ensures value { result.now ≡ time_name from }
    ensures short { length result.now ≤ 12 }
{
    match from {
        TimeFrom::Count | TimeFrom::Text(_) => b"instant",
        TimeFrom::Local(_) => b"local",
    }
}

/// Returns the name of a field that a row adds to its record.
fn field_name(field: RowField) -> &'static [u8]
    ensures value { result.now ≡ field_name field }
    ensures short { length result.now ≤ 12 }
{
    match field {
        RowField::Local => b"local",
        RowField::Time => b"time",
        RowField::Instant => b"instant",
        RowField::Utc => b"utc",
        RowField::Offset => b"offset",
        RowField::Daylight => b"daylight",
        RowField::Abbreviation => b"abbreviation",
        RowField::Ambiguous => b"ambiguous",
    }
}

/// Returns the name of a field among those of a layout's rows.
fn name_among(layout: &Layout, field: RowField) -> &'static [u8]
    ensures value { result.now ≡ name_among layout.now.fields layout.now.from field }
    ensures short { length result.now ≤ 12 }
{
    match (&layout.fields, layout.from, field) {
        (RowFields::Usual(Style::Iso), TimeFrom::Count | TimeFrom::Text(_), RowField::Time) =>
            b"local",
        _ => field_name(field),
    }
}

/// What a name in a header stands after: a delimiter, the layout's prefix, and what tells a release.
#[derive(Clone, Copy, Drop)]
struct NameStart<'a> {
    delimiter: u8,
    prefix: &'a [u8],
    release: &'a [u8],
}

/// Appends a name, and what it stands after.
fn push_name(text: &mut Names, start: NameStart<'_>, name: &[u8])
    requires { array_vec_len text.old + 1 + length start.prefix.now + length start.release.now
        + length name.now ≤ NAMES_ROOM }
    ensures items { text.new.items ≡ text.old.items
        ++ start.entry.delimiter ∷ (start.entry.prefix.now ++ (start.entry.release.now ++ name.now)) }
    ensures len { array_vec_len text.new ≡ array_vec_len text.old + 1 + length start.entry.prefix.now
        + length start.entry.release.now + length name.now }
{
    text.push(start.delimiter);
    text.try_extend_from_slice(start.prefix).unwrap();
    text.try_extend_from_slice(start.release).unwrap();
    text.try_extend_from_slice(name).unwrap();
}

/// Appends the names of some fields of a layout's rows, each after the same.
fn push_names(text: &mut Names, start: NameStart<'_>, layout: &Layout, fields: &[RowField])
    requires room { array_vec_len text.old + 648 ≤ NAMES_ROOM }
    requires prefix { length start.prefix.now ≤ MAX_PREFIX }
    requires release { length start.release.now ≤ 4 }
    requires few { length fields.now ≤ MAX_FIELDS }
    ensures items { text.new.items ≡ text.old.items ++ delimited start.entry.delimiter
        (map (λ name. start.entry.prefix.now ++ (start.entry.release.now ++ name))
        (map (name_among layout.now.fields layout.now.from) fields.now)) }
    ensures len { array_vec_len text.new ≤ array_vec_len text.old + 648 }
{
    for field in fields {
        push_name(text, start, name_among(layout, *field));
    }
}

/// Returns those fields that follow what a layout's rows begin with.
fn following(start: RowStart, fields: &[RowField]) -> &[RowField]
    ensures { result.now ≡ following start fields.now }
{
    match start {
        RowStart::Fields | RowStart::Record => fields,
        RowStart::Replaced => match fields.get(1..) {
            Some(others) => others,
            None => &[],
        },
    }
}

/// Returns what the names of a release's fields stand after.
fn name_start<'a>(layout: &'a Layout, release: &'a [u8]) -> NameStart<'a>
    ensures delimiter { result.delimiter ≡ layout.now.delimiter }
    ensures prefix { result.prefix.now ≡ layout.now.prefix }
    ensures short { length layout.now.prefix ≤ MAX_PREFIX }
    ensures release { result.release.now ≡ release.now }
{
    NameStart {
        delimiter: layout.delimiter.byte(),
        prefix: layout.prefix.bytes(),
        release,
    }
}

/// Appends the names of the fields that a row adds to its record, each after the layout's delimiter:
/// also those of another release's fields, where there is one.
pub(crate) fn push_added(text: &mut Names, layout: &Layout, old: &Option<RowZones<'_>>)
    requires { array_vec_len text.old + 1296 ≤ NAMES_ROOM }
    ensures items { text.new.items ≡ text.old.items ++ names_added layout.now old.now }
    ensures len { array_vec_len text.new ≤ array_vec_len text.old + 1296 }
{
    let fields = layout.fields.fields(layout.from);
    push_names(
        text,
        name_start(layout, b""),
        layout,
        following(layout.start, fields),
    );
    match old {
        None => {}
        Some(_) => push_names(text, name_start(layout, b"old_"), layout, fields),
    }
}

/// Returns the line of the names of all fields of rows that begin with a zone's name, with the line end of
/// rows.
pub(crate) fn row_names(layout: &Layout, old: &Option<RowZones<'_>>) -> Names
    ensures { result.items ≡ ended layout.now.line_end (row_names layout.now old.now) }
{
    let mut text = Names::new();
    text.try_extend_from_slice(b"zone").unwrap();
    text.push(layout.delimiter.byte());
    text.try_extend_from_slice(time_name(layout.from)).unwrap();
    push_added(&mut text, layout, old);
    text.try_extend_from_slice(layout.line_end.bytes()).unwrap();
    text
}
