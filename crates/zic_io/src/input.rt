//! The bytes that a reader gives, up to a limit.

ghost use Rattle.std.specs.Prelude.{◌≡◌, ◌≢◌, ◌<◌, ◌≤◌, ◌+◌, length, min, take, IfOk, IfErr, IfSome, OnOk};
ghost use Rattle.std.specs.Io.{StartsWith, appended_bytes};
ghost use Rattle.std.specs.Io.KnownBytes.{Consumes, IsAtEnd};
ghost use Rattle.zic_base.specs.declared.constants.TheConstants.{LONGEST_FILE};
ghost use Rattle.zic_counted.specs.Counts.{CountsTaken, HasFailedSince, HasTakenAbove, risen, greatest};
ghost use Rattle.zic_io.specs.Failing.{IsFailureOfText, IsFailureOfBytes};
ghost use Rattle.zic_io.specs.declared.input.TheConstants.{MAX_SOURCE};
ghost use Rattle.zic_io.specs.declared.input.InputStop.TheVariants.{TooLong, Unreadable};

use crate::failure::{Failure, cannot_read};
use std::alloc::{AllocError, Global};
use std::io::Read;
use zic_base::LONGEST_FILE;
use zic_counted::Counted;

/// The greatest number of bytes of a text of a source. A longer one counts as unreadable.
pub const MAX_SOURCE: u64 = 67_108_864;

/// The number of bytes that a read asks for.
const BLOCK: usize = 16_384;

/// Why the bytes of a reader aren't read.
#[derive(Clone, Copy, Debug, PartialEq, Eq)]
enum InputStop {
    /// A read failed.
    Unreadable,
    /// There are more bytes than there may be.
    TooLong,
    /// Memory ran out.
    Memory,
}

impl From<AllocError> for InputStop {
    ghost use Rattle.zic_io.specs.declared.input.TheConstants.{MAX_SOURCE};
    ghost use Rattle.zic_io.specs.declared.input.InputStop.TheVariants.{Memory};

    ghost from_gives = { λ _ e. e ≡ Memory };

    fn from(_e: AllocError) -> InputStop {
        InputStop::Memory
    }
}

/// Returns the whole text that a reader gives. `path` is what a failure calls the text.
///
/// # Errors
///
/// A read fails with any error, or there are more than 67,108,864 bytes, or memory ran out.
pub fn read_source_text<R: Read>(
    alloc: Global,
    path: &str,
    reader: &mut Counted<R>,
) -> Result<Vec<u8>, Failure>
    ensures whole { IfOk result
        (λ text. IfSome (R.remaining reader.old.inner) (λ all. text.items ≡ all)) }
    ensures size { IfOk result (λ text. length text.items ≤ MAX_SOURCE) }
    ensures err { IfErr result (IsFailureOfText path.now reader.old reader.new) }
{
    match read_whole(alloc, reader, MAX_SOURCE as usize) {
        Ok(text) => Ok(text),
        Err(InputStop::Unreadable | InputStop::TooLong) => Err(cannot_read(alloc, path)),
        Err(InputStop::Memory) => Err(Failure::Memory),
    }
}

/// Returns the bytes of a file that a reader gives, or as many as show that it is too large to be
/// a TZif file. `path` is what a failure calls the file.
///
/// # Errors
///
/// A read fails with any error, or memory ran out.
pub fn read_file_bytes<R: Read>(
    alloc: Global,
    path: &str,
    reader: &mut Counted<R>,
) -> Result<Vec<u8>, Failure>
    ensures ok { IfOk result (λ bytes. IfSome (R.remaining reader.old.inner)
        (λ all. bytes.items ≡ take (LONGEST_FILE + 1) all)) }
    ensures err { IfErr result (IsFailureOfBytes path.now reader.old reader.new) }
{
    match read_up_to(alloc, reader, LONGEST_FILE + 1) {
        Ok(bytes) => Ok(bytes),
        Err(InputStop::Unreadable | InputStop::TooLong) => Err(cannot_read(alloc, path)),
        Err(InputStop::Memory) => Err(Failure::Memory),
    }
}

/// Returns all bytes that a reader gives, where there are no more than `most`.
fn read_whole<R: Read>(
    alloc: Global,
    reader: &mut Counted<R>,
    most: usize,
) -> Result<Vec<u8>, InputStop>
    requires { most < usize.MAX }
    ensures whole { IfOk result
        (λ bytes. IfSome (R.remaining reader.old.inner) (λ all. bytes.items ≡ all)) }
    ensures size { IfOk result (λ bytes. length bytes.items ≤ most) }
    ensures failed { IfErr result (λ stop. stop ≡ Unreadable
        → HasFailedSince reader.new reader.old.failures) }
    ensures long { IfErr result (λ stop. stop ≡ TooLong
        → HasTakenAbove most reader.old reader.new) }
{
    let bytes = read_up_to(alloc, reader, most + 1)?;
    if bytes.len() > most {
        return Err(InputStop::TooLong);
    }
    Ok(bytes)
}

/// Returns the bytes that a reader gives, but no more than `limit`.
fn read_up_to<R: Read>(
    alloc: Global,
    reader: &mut Counted<R>,
    limit: usize,
) -> Result<Vec<u8>, InputStop>
    ensures bytes { IfOk result
        (λ bytes. IfSome (R.remaining reader.old.inner) (λ all. bytes.items ≡ take limit all)) }
    ensures taken { IfOk result
        (λ bytes. min reader.new.taken greatest ≡ risen reader.old.taken (length bytes.items)) }
    ensures counted { IfOk result
        (λ bytes. 0 < length bytes.items → reader.new.taken ≤ greatest) }
    ensures err { IfErr result (λ stop. stop ≡ Unreadable
        → HasFailedSince reader.new reader.old.failures) }
    ensures all { IfErr result (λ stop. stop ≢ TooLong) }
{
    let mut bytes = Vec::new(alloc);
    let mut block = [0; BLOCK];
    for _ in 0..limit {
        let room = (limit - bytes.len()).min(BLOCK);
        if read_block(reader, &mut block[..room], &mut bytes)? == 0 {
            return Ok(bytes);
        }
    }
    Ok(bytes)
}

/// Reads once, and appends what the read gives. Returns its number of bytes.
fn read_block<R: Read>(
    reader: &mut Counted<R>,
    block: &mut [u8],
    bytes: &mut Vec<u8>,
) -> Result<usize, InputStop>
    ensures appends { OnOk result (StartsWith bytes.new.items bytes.old.items) }
    ensures count { IfOk result (λ n. length bytes.new.items ≡ length bytes.old.items + n) }
    ensures room { IfOk result (λ n. n ≤ length block.old) }
    ensures taken { IfOk result (CountsTaken reader.old reader.new) }
    ensures consumes { OnOk result
        (Consumes (R.remaining reader.old.inner) (R.remaining reader.new.inner)
        (appended_bytes bytes.old.items bytes.new.items)) }
    ensures end { IfOk result (λ n. n ≡ 0 → 0 < length block.old
        → IsAtEnd (R.remaining reader.new.inner)) }
    ensures err { IfErr result (λ stop. stop ≡ Unreadable
        → HasFailedSince reader.new reader.old.failures) }
    ensures all { IfErr result (λ stop. stop ≢ TooLong) }
{
    match reader.read(block) {
        Ok(n) => {
            bytes.extend_from_slice(&block[..n])?;
            Ok(n)
        }
        Err(_) => Err(InputStop::Unreadable),
    }
}
