//! Tails: what a zone shows from its explicit end on, and the rules that go on for ever.

ghost use Rattle.std.specs.Prelude.{◌≡◌, ◌<◌, ◌≤◌, ◌+ℤ◌, IfOk, IfErr, length, unsigned_abs};
ghost use Rattle.zic_base.specs.Fault.{kind_of};
ghost use Rattle.zic_base.specs.Memory.{IfRefusal, OnOutOfMemory};
ghost use Rattle.zic_source.specs.Sound.{IsSoundSource, IsSoundLine};
ghost use Rattle.zic_rules.specs.Timeline.{IsFixed};
ghost use Rattle.zic_rules.specs.code.Period.{the_zone};
ghost use Rattle.zic_lines.specs.declared.time.TheConstants.{GREATEST_OFFSET};
ghost use Rattle.zic_rules.specs.Tail.{IsTailRule};
ghost use Rattle.zic_rules.specs.code.Faults.{IsFirstFault};
ghost use Rattle.zic_rules.specs.code.Shown.{HasPeriods};
ghost use Rattle.zic_rules.specs.code.Tail.{IsLastOf, HasTailRules, IsRefusedOnce, numbers_of};

use crate::changes::refusal;
use crate::line::Periods;
use crate::zone::Zone;
use std::alloc::Global;
use zic_base::{Kind, State, ZoneStop};
use zic_source::{Moment, Rule, Rules, Saving, Source, ZoneLine};
use zic_states::Abbreviation;
use zic_states::format::abbreviation;

/// A rule that goes on for ever, on the last line of a zone.
#[derive(Clone, Copy, Debug, PartialEq, Eq)]
pub struct TailRule {
    /// When it occurs in each year.
    pub moment: Moment,
    /// The seconds that are added to standard time from then on, and whether this is daylight saving
    /// time.
    pub saving: Saving,
    /// The abbreviation from then on.
    pub name: Abbreviation,
}

/// The states that a zone shows from its explicit end on, for ever.
#[derive(Clone, Copy, Debug, PartialEq, Eq)]
pub enum Tail<'a> {
    /// One state: fewer than two rules of the last line's set go on for ever.
    Constant(State<'a>),
    /// The saving and flag that the last occurrence of these rules begins.
    Rules {
        /// The last line's standard offset, in seconds, positive east.
        standard: i32,
        /// The first year after the last one that the last line names, from which on only these
        /// rules occur.
        year: i64,
        /// The rules that go on for ever, two or more, in line order.
        rules: &'a [TailRule],
    },
}

/// Returns the rules that go on for ever, of the set of a zone's last line, in line order; none
/// where the line has no set.
pub(crate) fn tail_rules(
    alloc: Global,
    zone: Zone<'_>,
    all: &Periods,
) -> Result<Vec<TailRule>, ZoneStop>
    requires periods { HasPeriods (the_zone zone) all.now }
    ensures ok { IfOk result (λ rules. HasTailRules (the_zone zone.entry) rules.items) }
    ensures err { IfRefusal kind_of result (IsFirstFault (the_zone zone.entry)) }
    ensures memory { OnOutOfMemory kind_of result (IsFixed (the_zone zone.entry) → ⊥) }
{
    let line = last_line(zone);
    let mut rules = Vec::new(alloc);
    for number in rule_numbers(zone.source, line) {
        let rule = zone.source.rule(*number);
        if rule.last.is_none() {
            match tail_rule(line, rule) {
                Ok(tail) => rules.push(tail)?,
                Err(kind) => return Err(ZoneStop::Fault(refusal(zone, all, kind))),
            }
        }
    }
    Ok(rules)
}

/// Returns the last line of a zone.
pub(crate) fn last_line(zone: Zone<'_>) -> &ZoneLine
    requires { IsSoundSource zone.source.now }
    ensures last { IsLastOf (the_zone zone.entry) result.now }
    ensures sound { IsSoundLine zone.entry.source.now.rules result.now }
{
    zone.line(zone.lines() - 1)
}

/// Returns the numbers of the rules of a line's set, in line order; none where the line has no set.
fn rule_numbers<'a>(source: &'a Source, line: &ZoneLine) -> &'a [usize]
    ensures { result.now ≡ numbers_of source.now.rules line.now.rules }
{
    match &line.rules {
        Rules::Standard | Rules::Amount(_) => &[],
        Rules::Set(set) => source.set_rules(set),
    }
}

/// Returns a rule of a line's set with the abbreviation once it has occurred, or why FORMAT gives
/// none.
fn tail_rule(line: &ZoneLine, rule: &Rule) -> Result<TailRule, Kind>
    requires { unsigned_abs (line.now.offset +ℤ rule.now.saving.seconds) ≤ GREATEST_OFFSET }
    ensures ok { IfOk result (IsTailRule line.now rule.now) }
    ensures err { IfErr result (IsRefusedOnce line.now rule.now) }
{
    let saving = rule.saving;
    let offset = line.offset + saving.seconds;
    let name = abbreviation(&line.format, offset, saving.daylight, Some(&rule.letter))?;
    Ok(TailRule {
        moment: rule.moment,
        saving,
        name,
    })
}
