//! `show`: what a file says of an instant.

ghost use Rattle.std.specs.Prelude.{◌≡◌, ◌≤◌, unsigned_abs, IfOk, IfErr, OnOk};
ghost use Rattle.zic_base.specs.State.{shown};
ghost use Rattle.zic_base.specs.declared.constants.TheConstants.{FARTHEST_FILE_OFFSET};
ghost use Rattle.zic_dump.specs.Changes.{shown_for};
ghost use Rattle.zic_tzif.specs.Answer.{answered};
ghost use Rattle.zic_bulk.specs.FailingToPrint.{IsFailureOfFile, IsFailureOfPrinting};
ghost use Rattle.zic_io.specs.Output.{WritesOutput};
ghost use Rattle.zic_bulk.specs.Showing.{answer_line, state_line, IsShowing};

use std::alloc::{AllocError, Global};
use std::io::Write;
use zic_base::{State, offset_text};
use zic_counted::Counted;
use zic_io::{Failure, write_output};
use zic_tzif::{Answer, read};

/// Writes the UT offset, daylight flag and abbreviation that the bytes of a file give at an
/// instant, as `-05:00:00 0 EST`, or `unspecified`.
///
/// # Errors
///
/// The first check that the bytes fail, or that the line can't be written. Nothing is written
/// where the bytes are no file.
pub fn show<W: Write>(
    alloc: Global,
    bytes: &[u8],
    instant: i64,
    writer: &mut Counted<W>,
) -> Result<(), Failure>
    ensures ok { OnOk result
        (WritesOutput W.contents (IsShowing bytes.now instant) writer.old writer.new) }
    ensures err { IfErr result
        (IsFailureOfPrinting W.contents bytes.now (IsShowing bytes.now instant)
        writer.old writer.new) }
{
    let line = line_of(alloc, bytes, instant)?;
    write_output(writer, &line)
}

/// Returns the line for the bytes of a file.
fn line_of(alloc: Global, bytes: &[u8], instant: i64) -> Result<Vec<u8>, Failure>
    ensures ok { IfOk result (λ line. IsShowing bytes.now instant line.items) }
    ensures err { IfErr result (IsFailureOfFile bytes.now) }
{
    let zone = read(alloc, bytes)?;
    let answer = zone.at(instant);
    let line = answer_line(alloc, &answer)?;
    Ok(line)
}

/// Returns the line for what a file answers.
pub(crate) fn answer_line(alloc: Global, answer: &Answer<'_>) -> Result<Vec<u8>, AllocError>
    requires { unsigned_abs (shown_for (answered answer.now)).offset ≤ FARTHEST_FILE_OFFSET }
    ensures { IfOk result (λ line. line.items ≡ answer_line (answered answer.now)) }
{
    match answer {
        Answer::Known(state) => state_line(alloc, state),
        Answer::Unspecified => Vec::from_slice(alloc, b"unspecified\n"),
    }
}

/// Returns the line for local time.
fn state_line(alloc: Global, state: &State<'_>) -> Result<Vec<u8>, AllocError>
    requires { unsigned_abs state.now.offset ≤ FARTHEST_FILE_OFFSET }
    ensures { IfOk result (λ line. line.items ≡ state_line (shown state.now)) }
{
    let mut line = Vec::from_slice(alloc, &offset_text(state.offset))?;
    let flag = if state.daylight { b'1' } else { b'0' };
    line.extend_from_slice(&[b' ', flag, b' '])?;
    line.extend_from_slice(state.name)?;
    line.push(b'\n')?;
    Ok(line)
}
