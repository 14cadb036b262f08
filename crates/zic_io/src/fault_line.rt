//! The lines of lists of faults.

ghost use Rattle.std.specs.Prelude.{◌≡◌, ◌∷◌, ◌++◌, [], List, decimal, is_some, ℕ, None, Option};
ghost use Rattle.csv.specs.Writing.{default_writer, escaped, field_text, fields_text, needs_byte, needs_quotes};
ghost use Rattle.zic_layouts.specs.Layout.{line_end_bytes};
ghost use Rattle.zic_io.specs.Faults.{fault_line, field_if, header_line, line_field, value_field, IsFaultLine};
ghost use Rattle.zic_io.specs.code.FaultList.{Gets, GetsHeader, kept};

use crate::list_output::ListOutput;
use itoa::Buffer;
use std::io::Write;
use zic_base::RowFault;
use zic_layouts::{FaultDetail, FaultyRow, LineEnd};

/// Which fields the line of a fault has after the number of its row and the name of the fault.
#[derive(Clone, Copy, Debug, PartialEq, Eq)]
pub struct FaultFields {
    /// The number of the line where the record begins.
    pub line: bool,
    /// The value at fault.
    pub value: bool,
}

/// Adds the line of the fault of a row.
pub(crate) fn push_fault<W: Write>(list: &mut ListOutput<W>, fields: FaultFields, row: &FaultyRow)
    ensures grows { (line : List ℕ) × IsFaultLine fields row.now line
        × Gets W.contents line list.old list.new }
    ensures file { is_some list.new.file ≡ is_some list.old.file }
{
    push_line(list, fields, row.fault, &row.detail);
}

/// Adds the line of a fault: the number of its row, its name, and the requested fields of the detail, which
/// are empty where there is none.
fn push_line<W: Write>(
    list: &mut ListOutput<W>,
    fields: FaultFields,
    fault: RowFault,
    detail: &Option<FaultDetail>,
)
    ensures grows { Gets W.contents (fault_line fields fault detail.now) list.old list.new }
    ensures file { is_some list.new.file ≡ is_some list.old.file }
{
    push_number(list, fault.row);
    list.push(b",");
    list.push(fault.kind.name().as_bytes());
    push_line_number(list, fields, detail);
    push_value(list, fields, detail);
    list.push(b"\n");
}

/// Adds a number, in decimal.
pub(crate) fn push_number<W: Write>(list: &mut ListOutput<W>, number: u64)
    ensures grows { Gets W.contents (field_text default_writer (decimal number)) list.old list.new }
    ensures file { is_some list.new.file ≡ is_some list.old.file }
{
    list.push(Buffer::new().format(number).as_bytes());
}

/// Adds the number of the line where a record begins, as far as it is known, if it is requested.
fn push_line_number<W: Write>(
    list: &mut ListOutput<W>,
    fields: FaultFields,
    detail: &Option<FaultDetail>,
)
    ensures grows { Gets W.contents
        (fields_text default_writer (field_if fields.line (line_field detail.now))) list.old list.new }
    ensures file { is_some list.new.file ≡ is_some list.old.file }
{
    if !fields.line {
        return;
    }
    list.push(b",");
    if let Some(detail) = detail {
        push_number(list, detail.line);
    }
}

/// Adds the value at fault, as far as it is known, if it is requested.
fn push_value<W: Write>(list: &mut ListOutput<W>, fields: FaultFields, detail: &Option<FaultDetail>)
    ensures grows { Gets W.contents
        (fields_text default_writer (field_if fields.value (value_field detail.now))) list.old list.new }
    ensures file { is_some list.new.file ≡ is_some list.old.file }
{
    if !fields.value {
        return;
    }
    list.push(b",");
    if let Some(detail) = detail {
        push_field(list, &detail.value);
    }
}

/// Adds a field of CSV: between double quotes where it has a comma, a double quote or a line end. RFC
/// 4180, 2.6.
pub(crate) fn push_field<W: Write>(list: &mut ListOutput<W>, field: &[u8])
    ensures grows { Gets W.contents (field_text default_writer field.now) list.old list.new }
    ensures file { is_some list.new.file ≡ is_some list.old.file }
{
    if needs_quotes(field) {
        list.push(b"\"");
        push_doubled(list, field);
        list.push(b"\"");
    } else {
        list.push(field);
    }
}

/// Returns whether a field stands between double quotes.
fn needs_quotes(field: &[u8]) -> bool
    ensures { result ≡ needs_quotes default_writer field.now }
{
    field.iter().any(|byte| needs_byte(*byte))
}

/// Returns whether a field with this byte stands between double quotes.
fn needs_byte(byte: u8) -> bool
    ensures { result ≡ needs_byte default_writer byte }
{
    byte == b',' || byte == b'"' || byte == b'\n' || byte == b'\r'
}

/// Adds a field with each of its double quotes twice. RFC 4180, 2.7.
fn push_doubled<W: Write>(list: &mut ListOutput<W>, field: &[u8])
    ensures grows { Gets W.contents (escaped default_writer field.now) list.old list.new }
    ensures file { is_some list.new.file ≡ is_some list.old.file }
{
    for byte in field {
        push_byte(list, *byte);
    }
}

/// Adds a byte, or two double quotes for one.
fn push_byte<W: Write>(list: &mut ListOutput<W>, byte: u8)
    ensures grows { Gets W.contents (escaped default_writer (byte ∷ [])) list.old list.new }
    ensures file { is_some list.new.file ≡ is_some list.old.file }
{
    if byte == b'"' {
        list.push(b"\"\"");
    } else {
        list.push(&[byte]);
    }
}

/// Adds the line of a record, by its own bytes and the end of its line.
pub(crate) fn push_record<W: Write>(list: &mut ListOutput<W>, own: &[u8], line_end: LineEnd)
    ensures grows { Gets W.contents (own.now ++ line_end_bytes line_end) list.old list.new }
    ensures file { is_some list.new.file ≡ is_some list.old.file }
{
    list.push(own);
    list.push(line_end.bytes());
}

/// Adds the line of a header, by its own bytes; nothing if it has none.
pub(crate) fn push_header<W: Write>(list: &mut ListOutput<W>, header: &[u8])
    ensures grows { Gets W.contents (header_line header.now) list.old list.new }
    ensures file { is_some list.new.file ≡ is_some list.old.file }
{
    if header.is_empty() {
        return;
    }
    list.push(header);
    list.push(b"\n");
}

/// Adds the line of a header that is kept, unless there is a first fault already.
pub(crate) fn push_header_at_first<W: Write>(
    list: &mut ListOutput<W>,
    first: Option<RowFault>,
    header: &Option<Vec<u8>>,
)
    ensures grows { GetsHeader W.contents first (kept header.now) list.old list.new }
    ensures file { is_some list.new.file ≡ is_some list.old.file }
{
    if first.is_some() {
        return;
    }
    if let Some(header) = header {
        push_header(list, header);
    }
}
