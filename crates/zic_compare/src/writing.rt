//! Writes the text for two lists of files, as its lines are made by several workers.

ghost use Rattle.std.specs.Prelude.{◌≡◌, ◌≤◌, [], flat_map, length, IfOk, IfErr, OnOk, OnErr};
ghost use Rattle.zic_compare.specs.Files.{HasInstants};
ghost use Rattle.zic_compare.specs.Refused.{names_refused, refused_lines};
ghost use Rattle.zic_compare.specs.Text.{with_names};
ghost use Rattle.zic_compare.specs.Written.{EndsAfter, EndsDiff, WritesDiff};
ghost use Rattle.zic_compare.specs.code.Rounds.{AreTextsOf, EndsList, EndsRefused, EndsRound, names_after, WritesLines, files_of, round_files};
ghost use Rattle.zic_counted.specs.Written.{FailsWithin, Writes};

use crate::files::names_of;
use crate::lists::{Lists, Side};
use crate::pieces::{Lines, Round};
use crate::refused::refused_lines;
use crate::sides::{DiffStop, Listed, Refused, Sides};
use std::alloc::{AllocError, Global};
use std::io::Write;
use std::sync::Wait;
use std::thread::Threads;
use zic_counted::{Counted, WriteFailed, write_all};
use zic_layouts::Plan;
use zic_pieces::{Open, TaskStop, run_task};

/// What lines are made with: the runtime, the allocator, and the plan.
#[derive(Drop)]
struct Crew<'a, T> {
    rt: &'a T,
    alloc: Global,
    plan: &'a Plan,
}

/// Writes the text of [`diff`](crate::diff), and then a line for each file that is refused, and
/// flushes. Returns whether there is a line.
///
/// The lines are made and written in rounds: first those of the names of the old files, and then those
/// of the new ones. A round has one name, or several whose lines are expected to fit in memory
/// together. In each round the plan's workers take pieces of at most as many names as the plan says of
/// zones. Neither changes the text.
///
/// # Errors
///
/// Fails if memory is refused, and then the lines of some of the first names are written, or none; or at
/// the first write or flush that fails, by then a beginning of the text is written.
pub fn write_diff<T: Threads + Wait + Sync, W: Write>(
    rt: &T,
    alloc: Global,
    plan: &Plan,
    sides: &Sides<'_>,
    how: &Listed,
    writer: &mut Counted<W>,
) -> Result<bool, DiffStop>
    requires { HasInstants how.now }
    ensures ok { IfOk result (WritesDiff W.contents how.now sides.now.old.now sides.now.new.now
        (names_refused sides.now.refused) writer.old writer.new) }
    ensures err { IfErr result (EndsDiff W.contents how.now sides.now.old.now sides.now.new.now
        (names_refused sides.now.refused) writer.old writer.new) }
{
    let (old, new) = (sides.old, sides.new);
    let crew = Crew { rt, alloc, plan };
    let side = Side::Old;
    let of_old = Lists {
        how,
        old,
        new,
        side,
    };
    let left = write_list(&crew, &of_old, names_of(how), writer)?;
    let side = Side::New;
    let of_new = Lists {
        how,
        old,
        new,
        side,
    };
    let end = write_list(&crew, &of_new, left, writer)?;
    let last = write_refused(alloc, how, &sides.refused, end, writer)?;
    flush(writer)?;
    Ok(last.is_empty())
}

/// Writes the lines of all files of a list, in rounds, with these names before the first line. Returns
/// the names that are still to be written before a line.
fn write_list<T: Threads + Wait + Sync, W: Write>(
    crew: &Crew<'_, T>,
    lists: &Lists<'_>,
    names: &'static [u8],
    writer: &mut Counted<W>,
) -> Result<&'static [u8], DiffStop>
    requires { HasInstants lists.now.how }
    ensures ok { IfOk result (λ left. WritesLines W.contents lists.now names.now
        (files_of lists.now) writer.old writer.new left.now) }
    ensures err { IfErr result
        (EndsList W.contents lists.now names.now writer.old writer.new) }
{
    let len = lists.files().len();
    let mut left = names;
    let mut first = 0;
    while first < len {
        let end = lists.round_end(first);
        let workers = crew.plan.workers() as usize;
        let size = (end - first).div_ceil(workers);
        let size = size.min(crew.plan.zone_piece() as usize);
        let round = Round::new(lists, first, end, size);
        left = write_round(crew, &round, left, writer)?;
        first = end;
    }
    Ok(left)
}

/// Writes the lines of files that are refused, with these names before the first line. Returns the names
/// that are still to be written before a line.
fn write_refused<W: Write>(
    alloc: Global,
    how: &Listed,
    refused: &Refused<'_>,
    names: &'static [u8],
    writer: &mut Counted<W>,
) -> Result<&'static [u8], DiffStop>
    ensures left { IfOk result (λ left. left.now
        ≡ names_after names.now (refused_lines how.now (names_refused refused.now))) }
    ensures ok { OnOk result (Writes W.contents writer.old writer.new
        (with_names names.now (refused_lines how.now (names_refused refused.now)))) }
    ensures err { IfErr result (EndsRefused W.contents names.now
        (refused_lines how.now (names_refused refused.now)) writer.old writer.new) }
{
    let lines = match refused_lines(alloc, how, refused) {
        Ok(lines) => lines,
        Err(_) => return Err(DiffStop::Memory),
    };
    match write_lines(writer, names, &lines) {
        Ok(left) => Ok(left),
        Err(WriteFailed) => Err(DiffStop::WriteFailed),
    }
}

/// Writes the lines of a round, with these names before the first line. Returns the names that are still
/// to be written before a line.
fn write_round<T: Threads + Wait + Sync, W: Write>(
    crew: &Crew<'_, T>,
    round: &Round<'_, '_>,
    names: &'static [u8],
    writer: &mut Counted<W>,
) -> Result<&'static [u8], DiffStop>
    ensures ok { IfOk result (λ left. WritesLines W.contents round.now.lists names.now
        (round_files round.now) writer.old writer.new left.now) }
    ensures err { IfErr result
        (EndsRound W.contents round.now names.now writer.old writer.new) }
{
    let texts = match texts_of(crew, round) {
        Ok(texts) => texts,
        Err(_) => return Err(DiffStop::Memory),
    };
    match write_texts(writer, names, &texts) {
        Ok(left) => Ok(left),
        Err(WriteFailed) => Err(DiffStop::WriteFailed),
    }
}

/// Returns the lines of the pieces of a round, made by the plan's workers.
fn texts_of<T: Threads + Wait + Sync>(
    crew: &Crew<'_, T>,
    round: &Round<'_, '_>,
) -> Result<Vec<Lines>, AllocError>
    ensures { IfOk result (λ texts. AreTextsOf round.now texts.items) }
{
    round.is_round();
    match run_task(crew.rt, crew.alloc, round, crew.plan.workers(), &Open) {
        Ok(texts) => Ok(texts),
        Err(TaskStop::Memory(_)) => Err(AllocError),
        Err(TaskStop::NoThread | TaskStop::Fault(_, ())) => unreachable!(),
    }
}

/// Writes the lines of pieces, one after another, with these names before the first line. Returns the
/// names that are still to be written before a line.
fn write_texts<W: Write>(
    writer: &mut Counted<W>,
    names: &'static [u8],
    texts: &[Lines],
) -> Result<&'static [u8], WriteFailed>
    ensures left { IfOk result
        (λ left. left.now ≡ names_after names.now (flat_map (λ text. text) texts.now)) }
    ensures ok { OnOk result (Writes W.contents writer.old writer.new
        (with_names names.now (flat_map (λ text. text) texts.now))) }
    ensures err { OnErr result (FailsWithin W.contents writer.old writer.new
        (with_names names.now (flat_map (λ text. text) texts.now))) }
{
    let mut left = names;
    for text in texts {
        left = write_lines(writer, left, &text.lines)?;
    }
    Ok(left)
}

/// Writes lines, with these names before them. Returns the names that are still to be written before a
/// line: none, once there was one.
fn write_lines<W: Write>(
    writer: &mut Counted<W>,
    names: &'static [u8],
    lines: &[u8],
) -> Result<&'static [u8], WriteFailed>
    ensures left { IfOk result (λ left. left.now ≡ names_after names.now lines.now) }
    ensures ok { OnOk result
        (Writes W.contents writer.old writer.new (with_names names.now lines.now)) }
    ensures err { OnErr result
        (FailsWithin W.contents writer.old writer.new (with_names names.now lines.now)) }
{
    if lines.is_empty() {
        return Ok(names);
    }
    write_all(writer, names)?;
    write_all(writer, lines)?;
    Ok(b"")
}

/// Flushes the writer.
fn flush<W: Write>(writer: &mut Counted<W>) -> Result<(), DiffStop>
    ensures ok { OnOk result (Writes W.contents writer.old writer.new []) }
    ensures err { IfErr result (EndsAfter W.contents writer.old writer.new []) }
{
    match zic_counted::flush(writer) {
        Ok(()) => Ok(()),
        Err(WriteFailed) => Err(DiffStop::WriteFailed),
    }
}
