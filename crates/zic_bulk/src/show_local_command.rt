//! `show --local`: what a file says of a local time.

ghost use Rattle.std.specs.Prelude.{◌≡◌, ◌≤◌, ℤ, unsigned_abs, IfOk, IfErr, OnOk};
ghost use Rattle.zic_base.specs.declared.constants.TheConstants.{FARTHEST_FILE_OFFSET};
ghost use Rattle.zic_bulk.specs.FailingToPrint.{IsFailureOfFile, IsFailureOfPrinting};
ghost use Rattle.zic_bulk.specs.Showing.{AreLines, IsInstantLine, IsShowingLocal, gap_line};
ghost use Rattle.zic_io.specs.Output.{WritesOutput};
ghost use Rattle.zic_local.specs.LocalTime.{HaveOffsets, AnswersLocal};

use crate::show_command::answer_line;
use itoa::Buffer;
use std::alloc::{AllocError, Global};
use std::io::Write;
use zic_base::offset_text;
use zic_counted::Counted;
use zic_io::{Failure, write_output};
use zic_local::laws::instants_are_near;
use zic_local::{Gap, LocalInstants, LocalTime, instants};
use zic_tzif::{Zone, read};

/// Writes each instant at which clocks show a local time by the bytes of a file, as seconds since
/// 1970-01-01 00:00 UT, and the UT offset, daylight flag and abbreviation there, as
/// `1194154200 -04:00:00 1 EDT`: of several the first and the last. For a local time that clocks
/// pass over it writes the instant of the change and the UT offsets before and after it, as
/// `gap 1173596400 -05:00:00 -04:00:00`; and `unspecified` where the file leaves local time open.
///
/// # Errors
///
/// The first check that the bytes fail, or that the lines can't be written. Nothing is written
/// where the bytes are no file.
pub fn show_local<W: Write>(
    alloc: Global,
    bytes: &[u8],
    local: &LocalTime,
    writer: &mut Counted<W>,
) -> Result<(), Failure>
    ensures ok { OnOk result
        (WritesOutput W.contents (IsShowingLocal bytes.now local.now) writer.old writer.new) }
    ensures err { IfErr result
        (IsFailureOfPrinting W.contents bytes.now (IsShowingLocal bytes.now local.now)
        writer.old writer.new) }
{
    let lines = lines_of(alloc, bytes, local)?;
    write_output(writer, &lines)
}

/// Returns the lines for the bytes of a file.
fn lines_of(alloc: Global, bytes: &[u8], local: &LocalTime) -> Result<Vec<u8>, Failure>
    ensures ok { IfOk result (λ lines. IsShowingLocal bytes.now local.now lines.items) }
    ensures err { IfErr result (IsFailureOfFile bytes.now) }
{
    let zone = read(alloc, bytes)?;
    // The UT offsets of a file are within 25:59:59.
    instants_are_near();
    let found = instants(&zone, local.seconds());
    let lines = lines_for(alloc, &zone, found)?;
    Ok(lines)
}

/// Returns the lines for the instants of a local time.
fn lines_for(alloc: Global, zone: &Zone, found: LocalInstants) -> Result<Vec<u8>, AllocError>
    requires offsets { HaveOffsets zone.now }
    requires is_found { (local : ℤ) × AnswersLocal zone.now local found }
    ensures { IfOk result (λ lines. AreLines zone.now found lines.items) }
{
    match found {
        LocalInstants::One(t) => instant_line(alloc, zone, t),
        LocalInstants::Gap(gap) => gap_line(alloc, &gap),
        LocalInstants::Fold(fold) => {
            let mut lines = instant_line(alloc, zone, fold.first)?;
            let last = instant_line(alloc, zone, fold.last)?;
            lines.extend_from_slice(&last)?;
            Ok(lines)
        }
        LocalInstants::Unspecified => Vec::from_slice(alloc, b"unspecified\n"),
    }
}

/// Returns the line for an instant.
pub(crate) fn instant_line(alloc: Global, zone: &Zone, instant: i64) -> Result<Vec<u8>, AllocError>
    requires { HaveOffsets zone.now }
    ensures { IfOk result (λ line. IsInstantLine zone.now instant line.items) }
{
    let answer = zone.at(instant);
    let mut line = Vec::from_slice(alloc, Buffer::new().format(instant).as_bytes())?;
    line.push(b' ')?;
    line.extend_from_slice(&answer_line(alloc, &answer)?)?;
    Ok(line)
}

/// Returns the line for a gap.
fn gap_line(alloc: Global, gap: &Gap) -> Result<Vec<u8>, AllocError>
    requires before { unsigned_abs gap.now.before ≤ FARTHEST_FILE_OFFSET }
    requires after { unsigned_abs gap.now.after ≤ FARTHEST_FILE_OFFSET }
    ensures { IfOk result (λ line. line.items ≡ gap_line gap.now) }
{
    let mut line = Vec::from_slice(alloc, b"gap ")?;
    line.extend_from_slice(Buffer::new().format(gap.change).as_bytes())?;
    line.push(b' ')?;
    line.extend_from_slice(&offset_text(gap.before))?;
    line.push(b' ')?;
    line.extend_from_slice(&offset_text(gap.after))?;
    line.push(b'\n')?;
    Ok(line)
}
