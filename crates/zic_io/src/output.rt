//! The output of a command.

ghost use Rattle.std.specs.Prelude.{◌≡◌, IfErr, OnOk, OnErr};
ghost use Rattle.zic_counted.specs.Written.{FailsWithin, Writes};
ghost use Rattle.zic_io.specs.declared.failure.Failure.TheVariants.{CannotWriteOutput};

use crate::failure::Failure;
use std::io::Write;
use zic_counted::{Counted, flush, write_all};

/// Writes the bytes and flushes. Each error of the writer ends it, and so does a write that takes
/// nothing.
pub fn write_output<W: Write>(writer: &mut Counted<W>, bytes: &[u8]) -> Result<(), Failure>
    ensures ok { OnOk result (Writes W.contents writer.old writer.new bytes.now) }
    ensures failure { IfErr result (λ failure. failure ≡ CannotWriteOutput) }
    ensures fails { OnErr result (FailsWithin W.contents writer.old writer.new bytes.now) }
{
    write_all(writer, bytes)?;
    flush(writer)?;
    Ok(())
}
