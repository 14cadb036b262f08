//! The instants of a local time, found span by span.

ghost use Rattle.std.specs.Prelude.{◌≡◌, ◌≤◌, ◌≤ℤ◌, ℤ, IfSome, MatchOption, MatchResult};
ghost use Rattle.zic_tzif.specs.Answer.{answered};
ghost use Rattle.zic_local.specs.Index.{IsIndexOf};
ghost use Rattle.zic_local.specs.LocalTime.{HaveOffsets, IsInRange, AnswersLocal};
ghost use Rattle.zic_local.specs.Choice.{Means, IsUnresolved};
ghost use Rattle.zic_local.specs.code.Walk.{HasNearOffset, IsInSpan, IsPassedAt};

use crate::indexed::instants_in;
use crate::local_index::LocalIndex;
use crate::local_time::{Gap, LocalInstants, Unresolved, read_by};
use zic_base::FARTHEST_FILE_OFFSET;
use zic_layouts::Disambiguation;
use zic_tzif::{Answer, AnswerSpan, Zone};

/// The farthest that an instant lies from its local time, in seconds.
pub(crate) const FARTHEST: i64 = FARTHEST_FILE_OFFSET as i64;

/// Returns the instant that is meant by a local time, both in seconds: since 1970-01-01 00:00 UT,
/// and since 1970-01-01 00:00 on the zone's clocks.
///
/// # Errors
///
/// `Gap` and `Fold` where the choice is `Reject` and the local time has no instant, or several;
/// `Unspecified` where the file leaves local time open.
pub fn instant(zone: &Zone, local: i64, disambiguation: Disambiguation) -> Result<i64, Unresolved>
    requires offsets { HaveOffsets zone.now }
    requires range { IsInRange local }
    ensures { MatchResult result (Means zone.now local disambiguation)
        (IsUnresolved zone.now local disambiguation) }
{
    instant_by(zone, None, local, disambiguation)
}

/// Returns the instant that is meant by a local time as [`instant`] does, by the zone's index, if it
/// has one: then in a time that changes close together don't make longer.
///
/// # Errors
///
/// As [`instant`] has them.
pub fn instant_by(
    zone: &Zone,
    index: Option<&LocalIndex>,
    local: i64,
    disambiguation: Disambiguation,
) -> Result<i64, Unresolved>
    requires offsets { HaveOffsets zone.now }
    requires range { IsInRange local }
    requires index { IfSome index (λ index. IsIndexOf zone.now index.now) }
    ensures { MatchResult result (Means zone.now local disambiguation)
        (IsUnresolved zone.now local disambiguation) }
{
    match instants_by(zone, index, local) {
        LocalInstants::One(t) => Ok(t),
        LocalInstants::Fold(fold) => match disambiguation {
            Disambiguation::Reject => Err(Unresolved::Fold),
            Disambiguation::Earlier | Disambiguation::Compatible => Ok(fold.first),
            Disambiguation::Later => Ok(fold.last),
        },
        LocalInstants::Gap(gap) => match disambiguation {
            Disambiguation::Reject => Err(Unresolved::Gap),
            Disambiguation::Earlier => Ok(read_by(local, gap.after)),
            Disambiguation::Later | Disambiguation::Compatible => Ok(read_by(local, gap.before)),
        },
        LocalInstants::Unspecified => Err(Unresolved::Unspecified),
    }
}

/// Returns the instants of a local time as [`instants`] does, by the zone's index, if it has one.
fn instants_by(zone: &Zone, index: Option<&LocalIndex>, local: i64) -> LocalInstants
    requires offsets { HaveOffsets zone.now }
    requires range { IsInRange local }
    requires index { IfSome index (λ index. IsIndexOf zone.now index.now) }
    ensures { AnswersLocal zone.now local result }
{
    match index {
        Some(index) => instants_in(zone, index, local),
        None => instants(zone, local),
    }
}

/// Returns the instants at which a zone's clocks show a local time, in seconds since 1970-01-01
/// 00:00 on these clocks; or, where there is none, the gap that the local time is in.
///
/// An instant at which the file leaves local time open is one of no local time. Takes a binary
/// search for each span of the 52 hours round the local time.
pub fn instants(zone: &Zone, local: i64) -> LocalInstants
    requires offsets { HaveOffsets zone.now }
    requires range { IsInRange local }
    ensures { AnswersLocal zone.now local result }
{
    let end = local + FARTHEST;
    let mut span = zone.span(local - FARTHEST);
    let mut given = LocalInstants::Unspecified.with_instant(instant_in(&span, local));
    while span.instants.last < end {
        let change = span.instants.last + 1;
        let next = zone.span(change);
        let gap = gap_at(change, &span.answer, &next.answer, local);
        given = given.with_gap(gap).with_instant(instant_in(&next, local));
        span = next;
    }
    given
}

/// Returns the instant of a span at which clocks show a local time.
fn instant_in(span: &AnswerSpan<'_>, local: i64) -> Option<i64>
    requires near { HasNearOffset (answered span.now.answer) }
    requires range { IsInRange local }
    ensures { MatchOption result
        ((t : ℤ) → IsInSpan span.now.instants (answered span.now.answer) local t → ⊥)
        (IsInSpan span.now.instants (answered span.now.answer) local) }
{
    let Answer::Known(state) = span.answer else {
        return None;
    };
    let t = read_by(local, state.offset);
    span.instants.contains(t).then_some(t)
}

/// Returns the gap at a change from one answer to another, if clocks pass over a local time there.
pub(crate) fn gap_at(
    change: i64,
    before: &Answer<'_>,
    after: &Answer<'_>,
    local: i64,
) -> Option<Gap>
    requires near_before { HasNearOffset (answered before.now) }
    requires near_after { HasNearOffset (answered after.now) }
    requires range { IsInRange local }
    ensures { MatchOption result
        ((gap : Gap) → gap.change ≡ change → IsPassedAt (answered before.now) (answered after.now) local gap → ⊥)
        (λ gap. (gap.change ≡ change) × IsPassedAt (answered before.now) (answered after.now) local gap) }
{
    let (Answer::Known(before), Answer::Known(after)) = (before, after) else {
        return None;
    };
    let (before, after) = (before.offset, after.offset);
    if read_by(local, before) < change {
        return None;
    }
    if change <= read_by(local, after) {
        return None;
    }
    Some(Gap {
        change,
        before,
        after,
    })
}
