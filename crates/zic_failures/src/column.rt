//! A record of the column, which is read again where standard input is a file.

use crate::scan::{RecordScan, ShownRecord, Target};
use std::fs::{self, Files};
use std::io::{Read, Seek, SeekFrom};

/// A path that opens the file of standard input anew.
const INPUT: &str = "/dev/stdin";

/// What the system says of the open file of standard input.
const INPUT_INFO: &str = "/proc/self/fdinfo/0";

/// The number of bytes that are read at once.
const BLOCK: usize = 16_384;

/// Returns the offset of the next byte of standard input in its file, if it is a file.
pub(crate) fn column_start<R: Files + AllocGlobal>(rt: &R) -> Option<u64> {
    if !fs::metadata(rt, INPUT).ok()?.is_file() {
        return None;
    }
    let info = fs::read_to_string(rt, INPUT_INFO).ok()?;
    let first = info.as_str().lines().next()?;
    first.strip_prefix("pos:")?.trim().parse::<u64>().ok()
}

/// Returns what is shown of a record in the file of standard input from this offset on; `None` where
/// it can't be read. No more of the column is stored.
pub(crate) fn find_record<R: Files + AllocGlobal>(
    rt: &R,
    start: u64,
    sought: Target,
) -> Option<ShownRecord> {
    let mut file = file_from(rt, start)?;
    let mut scan = RecordScan::new(rt.alloc(), sought);
    let is_read = scan_file(&mut file, &mut scan).is_some();
    drop(file);
    if is_read { scan.found() } else { None }
}

/// Scans a file up to the end of the record that is sought, or to its own; `None` where it can't be read.
fn scan_file<F: Read>(file: &mut F, scan: &mut RecordScan) -> Option<()> {
    let mut block = [0; BLOCK];
    let mut is_first = true;
    for _ in 0..u64::MAX {
        let count = file.read(&mut block).ok()?;
        let bytes = block.get(..count)?;
        let bytes = match bytes {
            // A byte order mark at the start of a column is none of its record.
            [0xef, 0xbb, 0xbf, rest @ ..] if is_first => rest,
            _ => bytes,
        };
        is_first = false;
        if count == 0 || ends_in(scan, bytes)? {
            break;
        }
    }
    Some(())
}

/// Scans bytes. Returns whether the record that is sought ends in them; `None` where memory is refused.
fn ends_in(scan: &mut RecordScan, bytes: &[u8]) -> Option<bool> {
    for byte in bytes {
        if scan.take(*byte).ok()? {
            return Some(true);
        }
    }
    Some(false)
}

/// Opens the file of standard input at this offset.
fn file_from<R: Files + AllocGlobal>(rt: &R, offset: u64) -> Option<R::File> {
    let mut file = fs::open(rt, INPUT).ok()?;
    file.seek(SeekFrom::Start(offset)).ok()?;
    Some(file)
}
