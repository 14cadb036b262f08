//! `show --next`: when clocks next show a time of day, by what a file says.

ghost use Rattle.std.specs.Prelude.{ℤ, pos, ◌+ℤ◌, Some, MatchOption, IfOk, IfErr, OnOk};
ghost use Rattle.zic_bulk.specs.FailingToPrint.{IsFailureOfFile, IsFailureOfPrinting};
ghost use Rattle.zic_bulk.specs.Showing.{IsNextLine, IsShowingNext};
ghost use Rattle.zic_io.specs.Output.{WritesOutput};
ghost use Rattle.zic_local.specs.LocalTime.{HaveOffsets};

use crate::show_local_command::instant_line;
use std::alloc::{AllocError, Global};
use std::io::Write;
use zic_counted::Counted;
use zic_io::{Failure, write_output};
use zic_local::laws::instants_are_near;
use zic_local::{Schedule, next_local};
use zic_tzif::{Zone, read};

/// How far after an instant the next one may be, in seconds: 366 days.
pub const NEXT_WITHIN: i64 = 31_622_400;

/// Writes the next instant after `after` at which a schedule is due by the bytes of a file, as seconds
/// since 1970-01-01 00:00 UT, and the UT offset, daylight flag and abbreviation there, as
/// `1173598200 -04:00:00 1 EDT`; or `unspecified` where none is due within 366 days.
///
/// # Errors
///
/// The first check that the bytes fail, or that the line can't be written. Nothing is written where
/// the bytes are no file.
pub fn show_next<W: Write>(
    alloc: Global,
    bytes: &[u8],
    schedule: &Schedule,
    after: i64,
    writer: &mut Counted<W>,
) -> Result<(), Failure>
    ensures ok { OnOk result
        (WritesOutput W.contents (IsShowingNext bytes.now schedule.now after) writer.old writer.new) }
    ensures err { IfErr result
        (IsFailureOfPrinting W.contents bytes.now (IsShowingNext bytes.now schedule.now after)
        writer.old writer.new) }
{
    let line = line_of(alloc, bytes, schedule, after)?;
    write_output(writer, &line)
}

/// Returns the line for the bytes of a file.
fn line_of(alloc: Global, bytes: &[u8], schedule: &Schedule, after: i64) -> Result<Vec<u8>, Failure>
    ensures ok { IfOk result (λ line. IsShowingNext bytes.now schedule.now after line.items) }
    ensures err { IfErr result (IsFailureOfFile bytes.now) }
{
    let zone = read(alloc, bytes)?;
    // The UT offsets of a file are within 25:59:59.
    instants_are_near();
    let found = next_local(&zone, schedule, after, after.saturating_add(NEXT_WITHIN));
    let line = line_for(alloc, &zone, found)?;
    Ok(line)
}

/// Returns the line for the instant that was found, if one was.
fn line_for(alloc: Global, zone: &Zone, found: Option<i64>) -> Result<Vec<u8>, AllocError>
    requires { HaveOffsets zone.now }
    ensures { IfOk result (λ line. IsNextLine zone.now found line.items) }
{
    match found {
        Some(instant) => instant_line(alloc, zone, instant),
        None => Vec::from_slice(alloc, b"unspecified\n"),
    }
}
