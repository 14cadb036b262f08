//! The walk through the lines of a zone.

ghost use Rattle.std.specs.Prelude.{◌≡◌, ◌+◌, suc, Some, IfOk, IfSome, length, []};
ghost use Rattle.std.specs.Option.{ForSome};
ghost use Rattle.zic_base.specs.Fault.{kind_of};
ghost use Rattle.zic_base.specs.Memory.{IfRefusal, OnOutOfMemory};
ghost use Rattle.zic_source.specs.Source.{lines_of_zone};
ghost use Rattle.zic_source.specs.Sound.{IsSoundSource};
ghost use Rattle.zic_states.specs.End.{IsEnd};
ghost use Rattle.zic_states.specs.Fault.{HasRulesOutOfOrder, HasUntilNotRising};
ghost use Rattle.zic_states.specs.Zone.{lines_of};
ghost use Rattle.zic_rules.specs.Timeline.{IsFixed};
ghost use Rattle.zic_rules.specs.code.Period.{the_zone, HasLine, ArePeriods, IsFaultOfPeriods};
ghost use Rattle.zic_rules.specs.code.End.{IsInYears};
ghost use Rattle.zic_rules.specs.code.Held.{AreSoFar, HeldTo};
ghost use Rattle.zic_rules.specs.code.Walk.{AreOrderedTo, IsWalkedTo};

use crate::end::{end_of, year_of};
use crate::line::{Period, Periods, add_periods, line_occurrences};
use crate::zone::Zone;
use std::alloc::Global;
use zic_base::{Kind, ZoneStop};
use zic_states::until_instant;

/// Returns all periods of a zone before its explicit end, and that end.
///
/// `RulesOutOfOrder` where the set of one of its lines is out of order in any year, and else
/// `UntilNotRising` where an UNTIL isn't after that of the line before it. A zone of one line
/// without a set has no period, and takes no memory.
pub(crate) fn periods(alloc: Global, zone: Zone<'_>) -> Result<Periods, ZoneStop>
    ensures order { IfOk result (λ _. HasRulesOutOfOrder (the_zone zone.entry) → ⊥) }
    ensures untils { IfOk result (λ _. HasUntilNotRising (the_zone zone.entry) → ⊥) }
    ensures end { IfOk result (λ s. IsEnd (the_zone zone.entry) s.end) }
    ensures all { IfOk result (λ s. ArePeriods (the_zone zone.entry) s.end s.list.items) }
    ensures err { IfRefusal kind_of result (IsFaultOfPeriods (the_zone zone.entry)) }
    ensures fixed { IfOk result (λ s. IsFixed (the_zone zone.entry) → s.list.items ≡ []) }
    ensures memory { OnOutOfMemory kind_of result (IsFixed (the_zone zone.entry) → ⊥) }
{
    prove!(zone.number < zone.source.zones());
    let last = zone.lines() - 1;
    let mut list = Vec::new(alloc);
    let mut start = None;
    for number in 0..last {
        start = Some(add_line(alloc, zone, number, start, &mut list)?);
    }
    let end = add_last(alloc, zone, last, start, &mut list)?;
    Ok(Periods { list, end })
}

/// Adds the periods of a line that another follows, and returns the instant of its UNTIL.
fn add_line(
    alloc: Global,
    zone: Zone<'_>,
    number: usize,
    start: Option<i64>,
    periods: &mut Vec<Period>,
) -> Result<i64, ZoneStop>
    requires sound { IsSoundSource zone.source.now }
    requires number { HasLine (the_zone zone) (number + 1) }
    requires walked { IsWalkedTo (the_zone zone) number start periods.old.items }
    ensures walked { IfOk result
        (λ end. IsWalkedTo (the_zone zone.entry) (suc number) (Some end) periods.new.items) }
    ensures err { IfRefusal kind_of result (IsFaultOfPeriods (the_zone zone.entry)) }
{
    let line = zone.line(number);
    let Some(until) = line.until else {
        unreachable!()
    };
    let occurrences = line_occurrences(alloc, zone, line, until.year + 2)?;
    let found = occurrences.items();
    let Some(end) = until_instant(zone.source, line, found) else {
        unreachable!()
    };
    if let Some(start) = start {
        if end <= start {
            return Err(not_rising(alloc, zone, number + 1));
        }
    }
    add_periods(zone, number, start, end, found, periods)?;
    Ok(end)
}

/// Adds the periods of the last line, and returns the explicit end of the zone.
fn add_last(
    alloc: Global,
    zone: Zone<'_>,
    number: usize,
    start: Option<i64>,
    periods: &mut Vec<Period>,
) -> Result<i64, ZoneStop>
    requires sound { IsSoundSource zone.source.now }
    requires number { ForSome (lines_of (the_zone zone))
        (λ lines. number + 1 ≡ length (lines_of_zone lines)) }
    requires walked { IsWalkedTo (the_zone zone) number start periods.old.items }
    ensures order { IfOk result (λ _. AreOrderedTo (the_zone zone.entry) (suc number)) }
    ensures end { IfOk result (λ end. IsEnd (the_zone zone.entry) end) }
    ensures years { IfOk result (IsInYears 9900) }
    ensures held { IfOk result (λ end. HeldTo (the_zone zone.entry) number end periods.new.items) }
    ensures err { IfRefusal kind_of result (IsFaultOfPeriods (the_zone zone.entry)) }
    ensures fixed { IfOk result
        (λ _. IsFixed (the_zone zone.entry) → periods.new.items ≡ periods.old.items) }
    ensures memory { OnOutOfMemory kind_of result (IsFixed (the_zone zone.entry) → ⊥) }
{
    let line = zone.line(number);
    let end = end_of(zone, number, line, start);
    let occurrences = line_occurrences(alloc, zone, line, year_of(end) + 2)?;
    let found = occurrences.items();
    add_periods(zone, number, start, end, found, periods)?;
    Ok(end)
}

/// Returns why a zone has no periods where the UNTIL of a line doesn't rise: a set of the lines
/// from this number on is out of order, or else that.
fn not_rising(alloc: Global, zone: Zone<'_>, next: usize) -> ZoneStop
    requires sound { IsSoundSource zone.source.now }
    requires order { AreOrderedTo (the_zone zone) next }
    requires falls { HasUntilNotRising (the_zone zone) }
    ensures { IfSome (kind_of result) (IsFaultOfPeriods (the_zone zone.entry)) }
{
    match order_of_rest(alloc, zone, next) {
        Ok(()) => ZoneStop::Fault(Kind::UntilNotRising),
        Err(stop) => stop,
    }
}

/// Checks that the set of each line from this number on is in order.
fn order_of_rest(alloc: Global, zone: Zone<'_>, next: usize) -> Result<(), ZoneStop>
    requires sound { IsSoundSource zone.source.now }
    requires order { AreOrderedTo (the_zone zone) next }
    ensures order { IfOk result (λ _. HasRulesOutOfOrder (the_zone zone.entry) → ⊥) }
    ensures err { IfRefusal kind_of result (IsFaultOfPeriods (the_zone zone.entry)) }
{
    for number in next..zone.lines() {
        line_occurrences(alloc, zone, zone.line(number), 0)?;
    }
    Ok(())
}
