//! The periods of a line, from the occurrences of its set.

ghost use Rattle.std.specs.Prelude.{◌≡◌, ◌<◌, ◌<ℤ◌, ◌++◌, map, IfOk, IfErr, IfSome, None, length, [], ◌≤◌};
ghost use Rattle.zic_source.specs.Sound.{IsSoundSource, IsSoundLine};
ghost use Rattle.zic_states.specs.ByList.{AreRising, before, not_after};
ghost use Rattle.zic_rules.specs.code.Period.{the_zone, HasLine};
ghost use Rattle.zic_rules.specs.code.End.{IsInYears};
ghost use Rattle.zic_rules.specs.code.Held.{AreSoFar, HeldTo};
ghost use Rattle.zic_rules.specs.code.Line.{IsLineTo, period_at, IsOrderedOn, IsDisorderedOn, AreOccurrencesOn};
ghost use Rattle.zic_base.specs.Fault.{kind_of};
ghost use Rattle.zic_base.specs.Memory.{IfRefusal, OnOutOfMemory};
ghost use Rattle.zic_states.specs.LineItems.{items_of};
ghost use Rattle.zic_states.specs.Tail.{HasNoSet};

use crate::window::window_end;
use crate::zone::Zone;
use std::alloc::{AllocError, Global};
use zic_base::{Kind, ZoneStop};
use zic_source::{Rules, ZoneLine};
use zic_states::{LineOccurrences, TimedOccurrence, before, occurrences, rule_at};

/// Adds the periods of a line from its start to its end, by those of its occurrences that come
/// before the end. The Zone line has no start.
pub(crate) fn add_periods(
    zone: Zone<'_>,
    number: usize,
    start: Option<i64>,
    end: i64,
    occurrences: &[TimedOccurrence],
    periods: &mut Vec<Period>,
) -> Result<(), AllocError>
    requires sound { IsSoundSource zone.source.now }
    requires number { HasLine (the_zone zone) number }
    requires start { IfSome start (λ s. IsInYears 9002 s × (s <ℤ end)) }
    requires so_far { AreSoFar (the_zone zone) number start periods.old.items }
    requires rising { AreRising occurrences.now }
    requires line { IsLineTo (the_zone zone) number start end (before occurrences.now end) }
    ensures held { IfOk result (λ _. HeldTo (the_zone zone.entry) number end periods.new.items) }
    ensures none { IfOk result
        (λ _. start ≡ None → occurrences.now ≡ [] → periods.new.items ≡ periods.old.items) }
    ensures memory { IfErr result (λ _. start ≡ None → occurrences.now ≡ [] → ⊥) }
{
    let line_number = number as u16;
    let mine = before(occurrences, end);
    let Some(start) = start else {
        return add_occurrences(line_number, mine, periods);
    };
    let window = window_end(zone, number, start, mine, periods);
    periods.push(Period {
        from: start,
        line: line_number,
        rule: rule_at(mine, window),
    })?;
    add_occurrences(line_number, after(mine, window), periods)
}

/// Adds a period of this line from each of these occurrences.
fn add_occurrences(
    line: u16,
    occurrences: &[TimedOccurrence],
    periods: &mut Vec<Period>,
) -> Result<(), AllocError>
    ensures items { IfOk result
        (λ _. periods.new.items ≡ periods.old.items ++ map (period_at line) occurrences.now) }
    ensures memory { IfErr result (λ _. occurrences.now ≡ [] → ⊥) }
{
    periods.reserve(occurrences.len())?;
    for occurrence in occurrences {
        periods.push(Period {
            from: occurrence.instant,
            line,
            rule: Some(occurrence.rule),
        })?;
    }
    Ok(())
}

/// Returns the occurrences whose instants are after `t`.
fn after(occurrences: &[TimedOccurrence], t: i64) -> &[TimedOccurrence]
    requires { AreRising occurrences.now }
    ensures { not_after occurrences.now t ++ result.now ≡ occurrences.now }
{
    let begin = occurrences.partition_point(|occurrence| occurrence.instant <= t);
    &occurrences[begin..]
}

/// Returns the occurrences of the line's set of nominal seconds before this year, and perhaps some
/// more; none where RULES name no set.
pub(crate) fn line_occurrences<'a>(
    alloc: Global,
    zone: Zone<'a>,
    line: &ZoneLine,
    before: u16,
) -> Result<LineOccurrences<'a>, ZoneStop>
    requires line { IsSoundLine zone.source.now.rules line.now }
    requires before { before ≤ 9999 }
    ensures order { IfOk result
        (λ _. IsOrderedOn zone.entry.source.now.rules line.now.offset line.now.rules) }
    ensures all { IfOk result
        (λ xs. AreOccurrencesOn zone.entry.source.now.rules line.now.offset before line.now.rules (items_of xs)) }
    ensures err { IfRefusal kind_of result
        (λ kind. (kind ≡ Kind.RulesOutOfOrder)
        × IsDisorderedOn zone.entry.source.now.rules line.now.offset line.now.rules) }
    ensures memory { OnOutOfMemory kind_of result (HasNoSet line.now.rules → ⊥) }
{
    match &line.rules {
        Rules::Set(name) => occurrences(alloc, zone.listed, name, line.offset, before),
        Rules::Standard | Rules::Amount(_) => Ok(LineOccurrences::Shared(&[])),
    }
}

/// From an instant on, up to the next period, a line of the zone governs, with what is in force
/// by one rule.
#[derive(Clone, Copy)]
pub(crate) struct Period {
    /// Seconds from 1970-01-01T00:00:00 UT, without leap seconds.
    pub(crate) from: i64,
    /// The line's number in the zone, from 0.
    pub(crate) line: u16,
    /// The number of the rule in the source; `None` before all occurrences of the line's set, and
    /// where it has no set.
    pub(crate) rule: Option<u16>,
}

/// All periods of a zone before its explicit end.
#[derive(Drop)]
pub(crate) struct Periods {
    /// In the order of time. Before the first the Zone line governs, before all occurrences of its
    /// set.
    pub(crate) list: Vec<Period>,
    /// The explicit end, in seconds from 1970-01-01T00:00:00 UT.
    pub(crate) end: i64,
}
