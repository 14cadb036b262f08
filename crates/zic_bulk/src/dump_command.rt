//! `dump`: the changes of local time that a file answers.

ghost use Rattle.std.specs.Prelude.{OnOk, IfErr};
ghost use Rattle.zic_dump.specs.Text.{IsDump};
ghost use Rattle.zic_bulk.specs.FailingToPrint.{IsFailureOfPrinting};
ghost use Rattle.zic_io.specs.Output.{WritesOutput};

use std::alloc::Global;
use std::io::Write;
use zic_counted::Counted;
use zic_dump::Years;
use zic_io::{Failure, write_output};

/// Writes the text of `zdump -i` for the bytes of a file at a path: what the file answers at the
/// start of the first year, and each change after it, up to and including the start of the second.
///
/// # Errors
///
/// The first check that the bytes fail, or that the text can't be written. Nothing is written where
/// the bytes are no file.
pub fn dump<W: Write>(
    alloc: Global,
    path: &str,
    bytes: &[u8],
    years: &Years,
    writer: &mut Counted<W>,
) -> Result<(), Failure>
    ensures ok { OnOk result
        (WritesOutput W.contents (IsDump path.now bytes.now years.now) writer.old writer.new) }
    ensures err { IfErr result
        (IsFailureOfPrinting W.contents bytes.now (IsDump path.now bytes.now years.now)
        writer.old writer.new) }
{
    let text = zic_dump::dump(alloc, path, bytes, years)?;
    write_output(writer, &text)
}
