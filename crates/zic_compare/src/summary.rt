//! From when on two files differ, and from when on they agree for ever, with the lines that tell
//! it.

ghost use Rattle.std.specs.Prelude.{◌≡◌, pos, ◌+ℤ◌, ◌<ℤ◌, ◌≤ℤ◌, IfOk, MatchOption, ◌++◌, ℕ, List, OnOk};
ghost use Rattle.zic_compare.specs.Answers.{pair};
ghost use Rattle.zic_compare.specs.Summary.{AgreeFrom, IsSummary};
ghost use Rattle.zic_tzif.specs.Answer.{IsBeforeLast, answered};
ghost use Rattle.zic_compare.specs.Files.{IsSummaryLine};
ghost use Rattle.zic_compare.specs.code.Short.{AreShort, IsShort};
ghost use Rattle.zic_compare.specs.SummaryText.{lone_line, offset_field, summary_from, summary_kind, summary_line, summary_until};

use crate::difference::{Difference, differences};
use crate::instant::push_instant;
use crate::sides::{Style, Survey};
use std::alloc::{AllocError, Global};
use zic_base::offset_text;
use zic_layouts::Compared;
use zic_tzif::{Answer, Instants, Zone};

/// The seconds of 400 years, after which footers repeat what they say.
const PERIOD: i64 = 12_622_780_800;

/// When two files answer differently.
#[derive(Clone, Copy, Debug)]
pub struct Summary<'a> {
    /// The first instant at which they do.
    pub from: i64,
    /// The instant from which on they never do again. `None` says that they do again and again, in
    /// every cycle of 400 years.
    pub until: Option<i64>,
    /// What the old file answers at the first of these instants.
    pub old: Answer<'a>,
    /// What the new file answers there.
    pub new: Answer<'a>,
}

/// Returns when two files answer differently, as far as they are compared, from an instant on.
/// `None` says that they never do in 64 bits.
///
/// Takes the time of [`differences`] up to 400 years after the last transition of both.
pub fn summarize<'a>(
    alloc: Global,
    old: &'a Zone,
    new: &'a Zone,
    compared: Compared,
    since: i64,
) -> Result<Option<Summary<'a>>, AllocError>
    ensures { IfOk result (λ summary. MatchOption summary
        (AgreeFrom (pair old.now new.now compared) since)
        (IsSummary (pair old.now new.now compared) since)) }
{
    let start = last_transition_or(new, last_transition_or(old, since));
    let bounds = Instants {
        first: since,
        last: start.saturating_add(PERIOD),
    };
    let found = differences(alloc, old, new, compared, bounds)?;
    let count = found.len();
    if count == 0 {
        return Ok(None);
    }
    let first = &found[0];
    let last = &found[count - 1];
    Ok(Some(Summary {
        from: first.instants.first,
        until: end_before(last.instants, start),
        old: first.old,
        new: first.new,
    }))
}

/// Returns the later of an instant and the last transition of a file.
fn last_transition_or(zone: &Zone, t: i64) -> i64
    ensures later { t ≤ℤ result }
    ensures past { IsBeforeLast zone.now result → ⊥ }
{
    match zone.last_transition() {
        Some(last) => last.max(t),
        None => t,
    }
}

/// Returns the instant after the last of these, if that is before another.
fn end_before(instants: Instants, t: i64) -> Option<i64>
    ensures { MatchOption result (t ≤ℤ instants.last)
        (λ end. (instants.last <ℤ t) × (end ≡ instants.last +ℤ pos 1)) }
{
    if instants.last < t {
        Some(instants.last + 1)
    } else {
        None
    }
}

/// Adds the line of a name that has two files, if these ever differ.
pub(crate) fn push_summary(
    alloc: Global,
    lines: &mut Vec<u8>,
    survey: &Survey,
    name: &[u8],
    old: &Zone,
    new: &Zone,
) -> Result<(), AllocError>
    requires old { AreShort old.now }
    requires new { AreShort new.now }
    ensures { OnOk result ((more : List ℕ) × IsSummaryLine survey.now name.now old.now new.now more
        × (lines.new.items ≡ lines.old.items ++ more)) }
{
    match summarize(alloc, old, new, survey.compared, survey.since)? {
        Some(summary) => push_summary_line(alloc, lines, survey, name, &summary),
        None => Ok(()),
    }
}

/// Adds the line of a summary.
fn push_summary_line(
    alloc: Global,
    lines: &mut Vec<u8>,
    survey: &Survey,
    name: &[u8],
    summary: &Summary<'_>,
) -> Result<(), AllocError>
    requires old { IsShort (answered summary.now.old) }
    requires new { IsShort (answered summary.now.new) }
    ensures { OnOk result
        (lines.new.items ≡ lines.old.items ++ summary_line survey.now name.now summary.now) }
{
    lines.extend_from_slice(name)?;
    lines.push(b',')?;
    push_from(alloc, lines, survey, summary)?;
    lines.push(b',')?;
    push_until(alloc, lines, survey.style, summary.until)?;
    lines.push(b',')?;
    push_offset(lines, &summary.old)?;
    lines.push(b',')?;
    push_offset(lines, &summary.new)?;
    lines.push(b',')?;
    lines.extend_from_slice(kind(survey.present, summary.until))?;
    lines.push(b'\n')?;
    Ok(())
}

/// Adds the first instant of differences, unless it is the first that is looked at.
fn push_from(
    alloc: Global,
    lines: &mut Vec<u8>,
    survey: &Survey,
    summary: &Summary<'_>,
) -> Result<(), AllocError>
    ensures { OnOk result
        (lines.new.items ≡ lines.old.items ++ summary_from survey.now summary.now) }
{
    if summary.from == survey.since {
        return Ok(());
    }
    push_instant(alloc, lines, survey.style, summary.from)
}

/// Adds the instant at which differences end, if they do.
fn push_until(
    alloc: Global,
    lines: &mut Vec<u8>,
    style: Style,
    until: Option<i64>,
) -> Result<(), AllocError>
    ensures { OnOk result (lines.new.items ≡ lines.old.items ++ summary_until style until) }
{
    match until {
        Some(until) => push_instant(alloc, lines, style, until),
        None => Ok(()),
    }
}

/// Adds the UT offset of an answer, if it has one.
fn push_offset(lines: &mut Vec<u8>, answer: &Answer<'_>) -> Result<(), AllocError>
    requires { IsShort (answered answer.now) }
    ensures { OnOk result
        (lines.new.items ≡ lines.old.items ++ offset_field (answered answer.now)) }
{
    match answer {
        Answer::Known(state) => lines.extend_from_slice(&offset_text(state.offset)),
        Answer::Unspecified => Ok(()),
    }
}

/// Returns the word for the end of differences.
fn kind(now: i64, until: Option<i64>) -> &'static [u8]
    ensures { result.now ≡ summary_kind now until }
{
    match until {
        Some(until) if until <= now => b"past",
        Some(_) => b"future",
        None => b"forever",
    }
}

/// Adds the line of a name that has one file.
pub(crate) fn push_lone(lines: &mut Vec<u8>, name: &[u8], kind: &[u8]) -> Result<(), AllocError>
    ensures { OnOk result (lines.new.items ≡ lines.old.items ++ lone_line name.now kind.now) }
{
    lines.extend_from_slice(name)?;
    lines.extend_from_slice(b",,,,,")?;
    lines.extend_from_slice(kind)?;
    lines.push(b'\n')?;
    Ok(())
}
