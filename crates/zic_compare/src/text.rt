//! The lines of names.

ghost use Rattle.std.specs.Prelude.{◌≡◌, ◌≤ℤ◌, ◌<◌, ◌*◌, ◌++◌, ℕ, [], List, unsigned_abs, None, Some, OnOk};
ghost use Rattle.std.specs.List.{flat_map};
ghost use Rattle.zic_base.specs.State.{shown};
ghost use Rattle.zic_compare.specs.Answers.{IsSeenAt, pair};
ghost use Rattle.zic_compare.specs.Differences.{AreDifferences};
ghost use Rattle.zic_compare.specs.Files.{AreSpanLines};
ghost use Rattle.zic_compare.specs.Text.{answer_fields, flag_field, from_field, line, span_line, until_field};
ghost use Rattle.zic_compare.specs.code.Short.{AreShort, IsShort};
ghost use Rattle.zic_tzif.specs.Answer.{answered};

use crate::difference::{Difference, differences};
use crate::instant::push_instant;
use crate::sides::Comparison;
use std::alloc::{AllocError, Global};
use zic_base::{State, offset_text};
use zic_layouts::Compared;
use zic_tzif::{Answer, Zone};

/// Adds a line for each span at which each of the two files of a name gives one answer, and the two
/// differ.
pub(crate) fn push_differences(
    alloc: Global,
    lines: &mut Vec<u8>,
    how: &Comparison,
    name: &[u8],
    old: &Zone,
    new: &Zone,
) -> Result<(), AllocError>
    requires order { how.now.bounds.first ≤ℤ how.now.bounds.last }
    requires old { AreShort old.now }
    requires new { AreShort new.now }
    ensures { OnOk result ((more : List ℕ) × AreSpanLines how.now name.now old.now new.now more
        × (lines.new.items ≡ lines.old.items ++ more)) }
{
    let found = differences(alloc, old, new, how.compared, how.bounds)?;
    for span in &found {
        push_span(alloc, lines, how, name, span)?;
    }
    Ok(())
}

/// Adds the line of a span of a name.
fn push_span(
    alloc: Global,
    lines: &mut Vec<u8>,
    how: &Comparison,
    name: &[u8],
    span: &Difference<'_>,
) -> Result<(), AllocError>
    requires to { span.now.instants.last ≤ℤ how.now.bounds.last }
    requires old { IsShort (answered span.now.old) }
    requires new { IsShort (answered span.now.new) }
    ensures { OnOk result
        (lines.new.items ≡ lines.old.items ++ span_line how.now name.now span.now) }
{
    lines.extend_from_slice(name)?;
    lines.push(b',')?;
    push_from(alloc, lines, how, span)?;
    lines.push(b',')?;
    push_until(alloc, lines, how, span)?;
    push_answer(lines, how.compared, &span.old)?;
    push_answer(lines, how.compared, &span.new)?;
    lines.push(b'\n')?;
    Ok(())
}

/// Adds the first instant of a span, unless it is that of the bounds.
fn push_from(
    alloc: Global,
    lines: &mut Vec<u8>,
    how: &Comparison,
    span: &Difference<'_>,
) -> Result<(), AllocError>
    ensures { OnOk result (lines.new.items ≡ lines.old.items ++ from_field how.now span.now) }
{
    if span.instants.first == how.bounds.first {
        return Ok(());
    }
    push_instant(alloc, lines, how.style, span.instants.first)
}

/// Adds the instant after the last one of a span, unless that is the last one of the bounds.
fn push_until(
    alloc: Global,
    lines: &mut Vec<u8>,
    how: &Comparison,
    span: &Difference<'_>,
) -> Result<(), AllocError>
    requires { span.now.instants.last ≤ℤ how.now.bounds.last }
    ensures { OnOk result (lines.new.items ≡ lines.old.items ++ until_field how.now span.now) }
{
    if span.instants.last == how.bounds.last {
        return Ok(());
    }
    push_instant(alloc, lines, how.style, span.instants.last + 1)
}

/// Adds the fields of an answer, each after a comma.
fn push_answer(
    lines: &mut Vec<u8>,
    compared: Compared,
    answer: &Answer<'_>,
) -> Result<(), AllocError>
    requires { IsShort (answered answer.now) }
    ensures { OnOk result
        (lines.new.items ≡ lines.old.items ++ answer_fields compared (answered answer.now)) }
{
    match answer {
        Answer::Known(state) => push_state(lines, compared, state),
        Answer::Unspecified => lines.extend_from_slice(b",,,"),
    }
}

/// Adds the offset, the flag and the abbreviation of a state, each after a comma.
fn push_state(lines: &mut Vec<u8>, compared: Compared, state: &State<'_>) -> Result<(), AllocError>
    requires { unsigned_abs state.now.offset < 100 * 3600 }
    ensures { OnOk result (lines.new.items
        ≡ lines.old.items ++ answer_fields compared (Some (shown state.now))) }
{
    lines.push(b',')?;
    lines.extend_from_slice(&offset_text(state.offset))?;
    lines.push(b',')?;
    push_flag(lines, compared, state)?;
    lines.push(b',')?;
    lines.extend_from_slice(state.name)
}

/// Adds the flag of a state, if it is compared.
fn push_flag(lines: &mut Vec<u8>, compared: Compared, state: &State<'_>) -> Result<(), AllocError>
    ensures { OnOk result
        (lines.new.items ≡ lines.old.items ++ flag_field compared (shown state.now)) }
{
    if !compared.daylight {
        return Ok(());
    }
    let flag = if state.daylight { b'1' } else { b'0' };
    lines.push(flag)?;
    Ok(())
}

/// Adds the line of a name that only the old files have, with what its file answers.
pub(crate) fn push_removed(
    lines: &mut Vec<u8>,
    compared: Compared,
    name: &[u8],
    answer: &Answer<'_>,
) -> Result<(), AllocError>
    requires { IsShort (answered answer.now) }
    ensures { OnOk result (lines.new.items
        ≡ lines.old.items ++ line compared name.now [] [] (answered answer.now) None) }
{
    lines.extend_from_slice(name)?;
    lines.extend_from_slice(b",,")?;
    push_answer(lines, compared, answer)?;
    lines.extend_from_slice(b",,,\n")
}

/// Adds the line of a name that only the new files have, with what its file answers.
pub(crate) fn push_added(
    lines: &mut Vec<u8>,
    compared: Compared,
    name: &[u8],
    answer: &Answer<'_>,
) -> Result<(), AllocError>
    requires { IsShort (answered answer.now) }
    ensures { OnOk result (lines.new.items
        ≡ lines.old.items ++ line compared name.now [] [] None (answered answer.now)) }
{
    lines.extend_from_slice(name)?;
    lines.extend_from_slice(b",,,,,")?;
    push_answer(lines, compared, answer)?;
    lines.push(b'\n')?;
    Ok(())
}
