//! Records of local time types.

ghost use Rattle.std.specs.Prelude.{◌≡◌, ◌*◌, ◌<◌, ◌≤◌, length, map, slice_get, Some, IfOk};
ghost use Rattle.std.specs.List.{list_all};
ghost use Rattle.zic_tzif.specs.Designation.{is_designated};
ghost use Rattle.zic_tzif.specs.Block.{pieces, type_in, is_type_record};

use crate::content::LocalType;
use crate::designation::designated_places;
use byteorder::{BigEndian, ByteOrder};
use std::alloc::{AllocError, Global};
use zic_base::FARTHEST_FILE_OFFSET;

/// The length of a record in bytes.
pub const RECORD_LENGTH: usize = 6;

/// Returns the local time type of a record.
fn local_type(octets: &[u8]) -> LocalType
    requires { 6 ≤ length octets.now }
    ensures { result ≡ type_in octets.now }
{
    LocalType {
        offset: BigEndian::read_i32(octets),
        daylight: octets[4] == 1,
        place: octets[5],
    }
}

/// Returns the local time type of this number, of `count` types.
pub fn type_at(count: u32, records: &[u8], number: u8) -> LocalType
    requires enough { count * 6 ≤ length records.now }
    requires inside { number < count }
    ensures { slice_get (map type_in (pieces 6 count records.now)) number ≡ Some result }
{
    let place = number as usize * RECORD_LENGTH;
    local_type(&records[place..place + RECORD_LENGTH])
}

/// Returns whether a record's flag is 0 or 1, and its offset within 25:59:59 either way.
fn is_type_record(octets: &[u8]) -> bool
    requires { 6 ≤ length octets.now }
    ensures { result ≡ is_type_record octets.now }
{
    octets[4] <= 1 && BigEndian::read_i32(octets).unsigned_abs() <= FARTHEST_FILE_OFFSET
}

/// Returns whether each of `count` records has a designation.
pub fn are_designated(count: u32, records: &[u8], names: &[u8]) -> bool
    requires { count * 6 ≤ length records.now }
    ensures { result
        ≡ list_all (λ r. is_designated names.now (type_in r).place) (pieces 6 count records.now) }
{
    let places = designated_places(names);
    let mut rest = records;
    for _ in 0..count {
        let (record, after) = rest.split_at(RECORD_LENGTH);
        if !places[record[5] as usize] {
            return false;
        }
        rest = after;
    }
    true
}

/// Returns whether the flags and offsets of `count` records are right.
pub fn are_type_records(count: u32, records: &[u8]) -> bool
    requires { count * 6 ≤ length records.now }
    ensures { result ≡ list_all is_type_record (pieces 6 count records.now) }
{
    let mut rest = records;
    for _ in 0..count {
        let (record, after) = rest.split_at(RECORD_LENGTH);
        if !is_type_record(record) {
            return false;
        }
        rest = after;
    }
    true
}

/// Returns the local time types of `count` records.
pub fn local_types(alloc: Global, count: u32, records: &[u8]) -> Result<Vec<LocalType>, AllocError>
    requires { count * 6 ≤ length records.now }
    ensures { IfOk result (λ v. v.items ≡ map type_in (pieces 6 count records.now)) }
{
    let mut types = Vec::with_capacity(alloc, count as usize)?;
    let mut rest = records;
    for _ in 0..count {
        let (record, after) = rest.split_at(RECORD_LENGTH);
        types.push(local_type(record))?;
        rest = after;
    }
    Ok(types)
}
