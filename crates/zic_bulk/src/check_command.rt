//! `check`: compiles texts, and lists their files.

ghost use Rattle.std.specs.Prelude.{◌≡◌, ◌<◌, ◌++◌, length, slice_get, IfOk, IfErr, IfSome, OnOk};
ghost use Rattle.std.specs.List.{flat_map};
ghost use Rattle.zic_source.specs.Texts.{texts_of};
ghost use Rattle.zic_bulk.specs.Failing.{IsFailureOfCheck, IsFailureOfListing};
ghost use Rattle.zic_io.specs.Output.{WritesOutput};
ghost use Rattle.zic_bulk.specs.Text.{check_line, IsListing};

use crate::compiler::files_of;
use std::alloc::{AllocError, Global};
use std::io::Write;
use std::sync::Wait;
use std::thread::Threads;
use zic_counted::Counted;
use zic_files::Files;
use zic_io::{Failure, write_output};
use zic_layouts::Plan;

/// Compiles the texts, by the plan's workers, and writes for each file a line with its name, its
/// number of bytes and its footer, in the order of the texts and their lines.
///
/// # Errors
///
/// Why the texts have no files, or that the lines can't be written. Nothing is written before
/// there are files.
pub fn check<T: Threads + Wait + Sync, W: Write>(
    rt: &T,
    alloc: Global,
    plan: &Plan,
    texts: &[Vec<u8>],
    writer: &mut Counted<W>,
) -> Result<(), Failure>
    ensures ok { OnOk result
        (WritesOutput W.contents (IsListing (texts_of texts.now)) writer.old writer.new) }
    ensures err { IfErr result
        (IsFailureOfCheck W.contents (texts_of texts.now) writer.old writer.new) }
{
    let lines = lines_of(rt, alloc, plan, texts)?;
    write_output(writer, &lines)
}

/// Returns the lines for the files of the texts.
fn lines_of<T: Threads + Wait + Sync>(
    rt: &T,
    alloc: Global,
    plan: &Plan,
    texts: &[Vec<u8>],
) -> Result<Vec<u8>, Failure>
    ensures ok { IfOk result (λ lines. IsListing (texts_of texts.now) lines.items) }
    ensures err { IfErr result (IsFailureOfListing (texts_of texts.now)) }
{
    let files = files_of(rt, alloc, plan, texts)?;
    Ok(listing(alloc, &files)?)
}

/// Returns a line for each file, in order.
fn listing(alloc: Global, files: &Files) -> Result<Vec<u8>, AllocError>
    ensures { IfOk result (λ lines. lines.items ≡ flat_map check_line files.now) }
{
    let mut lines = Vec::new(alloc);
    for file in 0..files.len() {
        push_line(alloc, &mut lines, files, file)?;
    }
    Ok(lines)
}

/// Adds a line with the name of the file of this number, its number of bytes and its footer.
fn push_line(
    alloc: Global,
    lines: &mut Vec<u8>,
    files: &Files,
    file: usize,
) -> Result<(), AllocError>
    requires { file < length files.now }
    ensures { OnOk result (IfSome (slice_get files.now file)
        (λ file. lines.new.items ≡ lines.old.items ++ check_line file)) }
{
    let len = files.bytes(file).len();
    let len = len.to_string(alloc)?;
    lines.extend_from_slice(files.name(file))?;
    lines.push(b' ')?;
    lines.extend_from_slice(len.as_bytes())?;
    lines.push(b' ')?;
    lines.extend_from_slice(files.zone(file).footer_text())?;
    lines.push(b'\n')?;
    Ok(())
}
