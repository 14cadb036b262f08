//! TZif files as bytes.

ghost use Rattle.std.specs.Prelude.{◌≡◌, ◌≤◌, ◌++◌, length, map, OnOk, IfOk};
ghost use Rattle.std.specs.Int.{w64, cast_unsigned};
ghost use Rattle.std.specs.List.{flat_map};
ghost use Rattle.byteorder.specs.Endian.{big_bytes};
ghost use Rattle.zic_tzif.specs.Content.{IsWritable};
ghost use Rattle.zic_tzif.specs.Reading.{IsFile};
ghost use Rattle.zic_tzif.specs.Writing.{header, time_octets, type_octets, written, WrittenIsFile};

use crate::content::{Change, LocalType, Table};
use crate::header::HEADER_LENGTH;
use crate::transition::TIME_LENGTH;
use crate::type_record::RECORD_LENGTH;
use byteorder::{BigEndian, ByteOrder};
use std::alloc::{AllocError, Global};

/// Returns the file of a table, which a reader accepts with the table's content.
///
/// Allocates once, for the whole file.
pub fn write(alloc: Global, t: &Table) -> Result<Vec<u8>, AllocError>
    ensures written { IfOk result (λ v. v.items ≡ written t.now) }
    ensures read { IfOk result (λ v. IsFile v.items t.now) }
{
    let version = t.version();
    let mut out = Vec::with_capacity(alloc, file_length(t))?;
    put_header(&mut out, version, 0, 1, 1)?;
    out.extend_from_slice(&FIRST_BLOCK)?;
    let (changes, types, names) = (t.changes(), t.types(), t.names());
    put_header(
        &mut out,
        version,
        changes.len() as u32,
        types.len() as u32,
        names.len() as u32,
    )?;
    put_times(&mut out, changes)?;
    put_numbers(&mut out, changes)?;
    put_types(&mut out, types)?;
    out.extend_from_slice(names)?;
    out.push(b'\n')?;
    out.extend_from_slice(t.footer_text())?;
    out.push(b'\n')?;
    Ok(out)
}

/// The written form of a content is a file (RFC 9636, 3), and says that content.
pub fn written_is_file()
    ensures { WrittenIsFile }
{}

/// The first data block: one type of zeros, and one empty designation.
const FIRST_BLOCK: [u8; 7] = [0; 7];

/// The reserved bytes of a header.
const RESERVED: [u8; 15] = [0; 15];

/// Returns the length in bytes of a table's file.
fn file_length(t: &Table) -> usize
    requires { IsWritable t.now }
    ensures { result ≡ length (written t.now) }
{
    let front = HEADER_LENGTH + FIRST_BLOCK.len() + HEADER_LENGTH;
    let block = t.changes().len() * 9 + t.types().len() * 6 + t.names().len();
    front + block + 1 + t.footer_text().len() + 1
}

/// Appends a header without indicators and leap seconds.
fn put_header(
    out: &mut Vec<u8>,
    version: u8,
    transitions: u32,
    types: u32,
    characters: u32,
) -> Result<(), AllocError>
    requires { version ≤ 3 }
    ensures { OnOk result
        (out.new.items ≡ out.old.items ++ header version transitions types characters) }
{
    let mut counts = [0; 24];
    // no UT indicators, standard indicators and leap seconds
    BigEndian::write_u32_into(&[0, 0, 0, transitions, types, characters], &mut counts);
    out.extend_from_slice(&[b'T', b'Z', b'i', b'f', b'0' + version])?;
    out.extend_from_slice(&RESERVED)?;
    out.extend_from_slice(&counts)
}

/// Appends the transition times.
fn put_times(out: &mut Vec<u8>, changes: &[Change]) -> Result<(), AllocError>
    ensures { OnOk result (out.new.items ≡ out.old.items ++ flat_map time_octets changes.now) }
{
    for change in changes {
        put_time(out, change.instant)?;
    }
    Ok(())
}

/// Appends a transition time.
fn put_time(out: &mut Vec<u8>, instant: i64) -> Result<(), AllocError>
    ensures { OnOk result
        (out.new.items ≡ out.old.items ++ big_bytes 8 (cast_unsigned w64 instant)) }
{
    let mut bytes = [0; TIME_LENGTH];
    BigEndian::write_i64(&mut bytes, instant);
    out.extend_from_slice(&bytes)
}

/// Appends the numbers of the transitions' types.
fn put_numbers(out: &mut Vec<u8>, changes: &[Change]) -> Result<(), AllocError>
    ensures { OnOk result (out.new.items ≡ out.old.items ++ map (λ c. c.number) changes.now) }
{
    for change in changes {
        out.push(change.number)?;
    }
    Ok(())
}

/// Appends the local time types: offset, flag, and place of the designation.
fn put_types(out: &mut Vec<u8>, types: &[LocalType]) -> Result<(), AllocError>
    ensures { OnOk result (out.new.items ≡ out.old.items ++ flat_map type_octets types.now) }
{
    for local_type in types {
        put_type(out, local_type)?;
    }
    Ok(())
}

/// Appends a local time type.
fn put_type(out: &mut Vec<u8>, local_type: &LocalType) -> Result<(), AllocError>
    ensures { OnOk result (out.new.items ≡ out.old.items ++ type_octets local_type.now) }
{
    let mut record = [0; RECORD_LENGTH];
    BigEndian::write_i32(&mut record, local_type.offset);
    record[4] = u8::from(local_type.daylight);
    record[5] = local_type.place;
    out.extend_from_slice(&record)
}
