//! The instants of a local time, found offset by offset.

ghost use Rattle.std.specs.Prelude.{◌≡◌, ◌≤◌, ℤ, pos, ◌+ℤ◌, ◌-ℤ◌, ◌≤ℤ◌, MatchOption, unsigned_abs};
ghost use Rattle.zic_base.specs.declared.constants.TheConstants.{FARTHEST_FILE_OFFSET};
ghost use Rattle.zic_local.specs.Index.{IsIndexOf};
ghost use Rattle.zic_local.specs.LocalTime.{HaveOffsets, IsGapOf, IsInRange, IsOffsetAt, PassesOver, AnswersLocal};
ghost use Rattle.zic_local.specs.code.Walk.{AnswersLocalUpTo};

use crate::local_index::LocalIndex;
use crate::local_time::{Gap, LocalInstants, read_by};
use crate::lookup::{FARTHEST, gap_at};
use zic_tzif::{Answer, Zone};

/// Returns the instants of a local time as [`crate::instants`] does, by the zone's index. Takes a
/// binary search for each UT offset of the zone, and in a gap a few more.
pub(crate) fn instants_in(zone: &Zone, index: &LocalIndex, local: i64) -> LocalInstants
    requires offsets { HaveOffsets zone.now }
    requires range { IsInRange local }
    requires index { IsIndexOf zone.now index.now }
    ensures { AnswersLocal zone.now local result }
{
    let given = instants_by_offset(zone, index, local);
    match given {
        LocalInstants::Unspecified => {
            given.with_gap(gap_after(zone, local, index.quiet_until(local)))
        }
        _ => given,
    }
}

/// Returns the instants of a local time, with no gap where there is none.
fn instants_by_offset(zone: &Zone, index: &LocalIndex, local: i64) -> LocalInstants
    requires offsets { HaveOffsets zone.now }
    requires range { IsInRange local }
    requires index { IsIndexOf zone.now index.now }
    ensures { AnswersLocalUpTo zone.now local (local +ℤ pos FARTHEST_FILE_OFFSET)
        (local -ℤ pos FARTHEST_FILE_OFFSET) result }
{
    let mut given = LocalInstants::Unspecified;
    for offset in index.offsets.as_slice() {
        given = given.with_instant(instant_with(zone, local, *offset));
    }
    given
}

/// Returns the instant at which clocks with a UT offset show a local time, if it is the zone's then.
fn instant_with(zone: &Zone, local: i64, offset: i32) -> Option<i64>
    requires range { IsInRange local }
    requires near { unsigned_abs offset ≤ FARTHEST_FILE_OFFSET }
    ensures { MatchOption result (IsOffsetAt zone.now (local -ℤ offset) offset → ⊥)
        (λ t. (t +ℤ offset ≡ local) × IsOffsetAt zone.now t offset) }
{
    let t = read_by(local, offset);
    match zone.at(t) {
        Answer::Known(state) if state.offset == offset => Some(t),
        _ => None,
    }
}

/// Returns the first gap that a local time is in, where none is up to an instant.
fn gap_after(zone: &Zone, local: i64, start: i64) -> Option<Gap>
    requires offsets { HaveOffsets zone.now }
    requires range { IsInRange local }
    requires none { (gap : Gap) → PassesOver zone.now local gap → gap.change ≤ℤ start → ⊥ }
    ensures { MatchOption result ((gap : Gap) → PassesOver zone.now local gap → ⊥)
        (IsGapOf zone.now local) }
{
    let end = local + FARTHEST;
    let mut span = zone.span(start);
    while span.instants.last < end {
        let change = span.instants.last + 1;
        let next = zone.span(change);
        let gap = gap_at(change, &span.answer, &next.answer, local);
        if gap.is_some() {
            return gap;
        }
        span = next;
    }
    None
}
