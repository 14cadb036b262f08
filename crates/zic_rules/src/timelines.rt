//! Timelines: what a zone shows before its explicit end, and what goes on after it.

ghost use Rattle.std.specs.Prelude.{◌≡◌, ◌<◌, ◌<ℤ◌, ℤ, pos, ◌-ℤ◌, List, length, map};
ghost use Rattle.zic_states.specs.Change.{AreChanges, IsFirstState};
ghost use Rattle.zic_states.specs.Change as changes;
ghost use Rattle.zic_states.specs.End.{IsEnd};
ghost use Rattle.zic_states.specs.Zone.{Shows};
ghost use Rattle.zic_states.specs.Fault.{IsSound};
ghost use Rattle.zic_rules.specs.code.Period.{the_zone};
ghost use Rattle.zic_rules.specs.code.Shown.{IsTimeline, shown_by, dated};
ghost use Rattle.zic_rules.specs.code.Tail.{HasTailRules};
ghost use Rattle.zic_base.specs.State.{shown};
ghost use Rattle.zic_rules.specs.Tail.{IsTail};
ghost use Rattle.zic_rules.specs.Timeline.{change_of, IsChangeAt, IsWholeZone};

use crate::changes::DatedState;
use crate::end::year_of;
use crate::tail::{Tail, TailRule, last_line};
use crate::zone::Zone;
use crate::zone_state::{ZoneState, state_of};
use std::marker::Model;
use zic_base::State;

/// The least number of rules that go on for ever with which a zone doesn't show one state for ever.
const FEWEST_RULES: usize = 2;

/// A zone of a source, to which none of the faults of states applies, with all it shows before its
/// explicit end; clauses see the zone.
#[derive(Drop)]
pub struct Timeline<'a> {
    pub(crate) zone: Zone<'a>,
    /// Before every change.
    pub(crate) first: ZoneState,
    /// In the order of time.
    pub(crate) changes: Vec<DatedState>,
    pub(crate) end: i64,
    /// The rules of the last line's set that go on for ever, in line order.
    pub(crate) rules: Vec<TailRule>,
}

impl<'a> Model for Timeline<'a> {
    ghost use Rattle.zic_states.specs.Zone as states;
    ghost use Rattle.std.specs.Prelude.{map};
    ghost use Rattle.zic_rules.specs.code.Shown.{shown_by, dated};
    ghost use Rattle.zic_rules.specs.code.Tail.{IsTimelineAndTail};
    ghost use Rattle.zic_rules.specs.code.Period.{the_zone};

    ghost Value = { states.Zone };

    ghost view = { λ t. the_zone t.zone };

    ghost invariant = { λ t. IsTimelineAndTail (the_zone t.zone) t.end (shown_by t.first)
        (map dated t.changes.items) t.rules.items };
}

impl<'a> Timeline<'a> {
    /// Returns the timeline of a zone with this first state, these changes, this end and these
    /// rules that go on for ever.
    pub(crate) fn new(
        zone: Zone<'a>,
        first: ZoneState,
        changes: Vec<DatedState>,
        end: i64,
        rules: Vec<TailRule>,
    ) -> Timeline<'a>
        requires timeline { IsTimeline (the_zone zone) end (shown_by first)
            (map dated changes.items) }
        requires rules { HasTailRules (the_zone zone) rules.items }
        ensures zone { result ≡ the_zone zone.entry }
        ensures sound { IsSound result }
    {
        Timeline {
            zone,
            first,
            changes,
            end,
            rules,
        }
    }

    /// Returns the explicit end, in seconds from 1970-01-01T00:00:00 UT: all changes that are
    /// listed come before it.
    pub fn end(&self) -> i64
        ensures end { IsEnd self.now result }
        ensures whole { IsWholeZone self.now }
    {
        self.end
    }

    /// Returns the state before every change.
    pub fn first(&self) -> State<'_>
        ensures { IsFirstState self.now (shown result) }
    {
        state_of(&self.first)
    }

    /// Returns the number of changes before the explicit end.
    pub fn len(&self) -> usize
        ensures { (changes : List changes.Change)
            × AreChanges self.now changes × (result ≡ length changes) }
    {
        self.changes.len()
    }

    /// Returns a change before the explicit end, by its number from 0 in the order of time: its
    /// instant, in seconds from 1970-01-01T00:00:00 UT, and the state that the zone shows from then
    /// on.
    pub fn change(&self, i: usize) -> (i64, State<'_>)
        requires { (changes : List changes.Change)
            × AreChanges self.now changes × (i < length changes) }
        ensures { IsChangeAt self.now i (change_of result) }
    {
        let change = &self.changes[i];
        (change.instant, state_of(&change.state))
    }

    /// Returns what the zone shows at an instant before its explicit end, by a binary search.
    pub fn state(&self, t: i64) -> State<'_>
        requires { (end : ℤ) → IsEnd self.now end → t <ℤ end }
        ensures { Shows self.now t (shown result) }
    {
        let count = self.changes.partition_point(|change| change.instant <= t);
        if count == 0 {
            return state_of(&self.first);
        }
        state_of(&self.changes[count - 1].state)
    }

    /// Returns what the zone shows from its explicit end on, for ever. Takes no memory.
    pub fn tail(&self) -> Tail<'_>
        ensures tail { IsTail self.now result }
        ensures whole { IsWholeZone self.now }
    {
        if self.rules.len() < FEWEST_RULES {
            return Tail::Constant(state_of(self.last_state()));
        }
        // The end is 1 January of the third year after the last one that the last line names.
        Tail::Rules {
            standard: last_line(self.zone).offset,
            year: i64::from(year_of(self.end)) - 2,
            rules: &self.rules,
        }
    }

    /// Returns the state one second before the explicit end.
    fn last_state(&self) -> &ZoneState
        ensures { (end : ℤ) → IsEnd self.now end
            → Shows self.now (end -ℤ pos 1) (shown_by result.now) }
    {
        match self.changes.last() {
            Some(change) => &change.state,
            None => &self.first,
        }
    }
}
