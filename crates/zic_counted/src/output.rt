//! Writes through a writer that counts.

ghost use Rattle.std.specs.Prelude.{[], OnOk, OnErr};
ghost use Rattle.zic_counted.specs.Written.{Writes, FailsWithin};

use crate::counted::Counted;
use std::io::Write;

/// The error of a write or a flush that failed. The writer counted the failure.
#[derive(Clone, Copy, Debug, PartialEq, Eq)]
pub struct WriteFailed;

/// Writes all of the bytes, and doesn't flush.
///
/// # Errors
///
/// Each error of the writer, also one at which others try again, as
/// [`std::io::ErrorKind::Interrupted`], and a write that takes no byte of some. By then the writer
/// has a part of the bytes, from their start on.
pub fn write_all<W: Write>(writer: &mut Counted<W>, bytes: &[u8]) -> Result<(), WriteFailed>
    ensures ok { OnOk result (Writes W.contents writer.old writer.new bytes.now) }
    ensures err { OnErr result (FailsWithin W.contents writer.old writer.new bytes.now) }
{
    let mut rest = bytes;
    while !rest.is_empty() {
        match writer.write(rest) {
            Ok(n) if n > 0 => rest = &rest[n..],
            _ => return Err(WriteFailed),
        }
    }
    Ok(())
}

/// Flushes the writer.
///
/// # Errors
///
/// Each error of the writer.
pub fn flush<W: Write>(writer: &mut Counted<W>) -> Result<(), WriteFailed>
    ensures ok { OnOk result (Writes W.contents writer.old writer.new []) }
    ensures err { OnErr result (FailsWithin W.contents writer.old writer.new []) }
{
    match writer.flush() {
        Ok(()) => Ok(()),
        Err(_) => Err(WriteFailed),
    }
}
