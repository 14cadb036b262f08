//! The timeline of a zone, by its periods.

ghost use Rattle.std.specs.Prelude.{◌≡◌, ◌<◌, None, true, IfOk, IfErr, length, []};
ghost use Rattle.zic_base.specs.Fault.{fault_of, kind_of};
ghost use Rattle.zic_base.specs.Memory.{IfRefusal, OnOutOfMemory};
ghost use Rattle.zic_states.specs.Fault.{HasOffsetOutOfRange, IsSound, IsFaultOfStates};
ghost use Rattle.zic_lines.specs.Limits.{is_abbreviation};
ghost use Rattle.zic_rules.specs.Timeline.{zone_of, IsFixed};
ghost use Rattle.zic_rules.specs.code.Period.{the_zone};
ghost use Rattle.zic_rules.specs.code.Faults.{IsFirstFault};
ghost use Rattle.zic_rules.specs.code.Shown.{HasPeriods, ShowsWhereHeld, shown_by};

use crate::changes::{changes_of, refusal, state_at};
use crate::line::Periods;
use crate::offsets::are_offsets_in_range;
use crate::tail::tail_rules;
use crate::timelines::Timeline;
use crate::walk::periods;
use crate::zone::Zone;
use crate::zone_state::ZoneState;
use std::alloc::Global;
use zic_base::{Kind, Stop, ZoneStop};
use zic_source::MAX_RULES;
use zic_states::ListedSource;

/// Returns all that a zone shows before its explicit end, and the rules that go on for ever after
/// it; the zone by its number from 0.
///
/// Refuses, at the Zone line, the first of these that applies: `OffsetRange` where a line's
/// standard offset together with a saving of its RULES passes 24 hours; `RulesOutOfOrder` where a
/// line's set is out of order in any year; `UntilNotRising` where an UNTIL isn't after that of the
/// line before it; `NoLetter` where at some instant FORMAT wants a letter and there is none;
/// `BadAbbreviation` where at some instant the zone shows what is no abbreviation. `OffsetRange`,
/// and a zone of one line without a set, take no memory.
pub fn timeline<'a>(
    alloc: Global,
    source: &'a ListedSource<'a>,
    zone: usize,
) -> Result<Timeline<'a>, Stop>
    requires { zone < length source.now.zones }
    ensures ok { IfOk result (λ t. t ≡ zone_of source.now zone) }
    ensures sound { IfOk result IsSound }
    ensures err { IfRefusal fault_of result (IsFaultOfStates (zone_of source.now zone)) }
    ensures memory { OnOutOfMemory fault_of result
        (HasOffsetOutOfRange (zone_of source.now zone) → ⊥) }
    ensures fixed { OnOutOfMemory fault_of result (IsFixed (zone_of source.now zone) → ⊥) }
{
    let zone = Zone {
        source: source.source(),
        listed: source,
        number: zone,
    };
    match compiled(alloc, zone) {
        Ok(compiled) => Ok(compiled),
        Err(stop) => Err(stop.at(zone.place())),
    }
}

/// Returns the timeline of a zone.
fn compiled<'a>(alloc: Global, zone: Zone<'a>) -> Result<Timeline<'a>, ZoneStop>
    ensures ok { IfOk result (λ t. t ≡ the_zone zone.entry) }
    ensures sound { IfOk result IsSound }
    ensures err { IfRefusal kind_of result (IsFirstFault (the_zone zone.entry)) }
    ensures memory { OnOutOfMemory kind_of result
        (HasOffsetOutOfRange (the_zone zone.entry) → ⊥) }
    ensures fixed { OnOutOfMemory kind_of result (IsFixed (the_zone zone.entry) → ⊥) }
{
    if !are_offsets_in_range(zone) {
        return Err(ZoneStop::Fault(Kind::OffsetRange));
    }
    prove!(zone.source.rules() <= MAX_RULES);
    let all = periods(alloc, zone)?;
    timeline_of(alloc, zone, &all)
}

/// Returns the timeline of a zone with these periods.
fn timeline_of<'a>(alloc: Global, zone: Zone<'a>, all: &Periods) -> Result<Timeline<'a>, ZoneStop>
    requires periods { HasPeriods (the_zone zone) all.now }
    ensures ok { IfOk result (λ t. t ≡ the_zone zone.entry) }
    ensures sound { IfOk result IsSound }
    ensures err { IfRefusal kind_of result (IsFirstFault (the_zone zone.entry)) }
    ensures memory { OnOutOfMemory kind_of result
        (IsFixed (the_zone zone.entry) → all.now.list.items ≡ [] → ⊥) }
{
    let first = first_of(zone, all)?;
    let changes = changes_of(alloc, zone, all, &first)?;
    let rules = tail_rules(alloc, zone, all)?;
    Ok(Timeline::new(zone, first, changes, all.end, rules))
}

/// Returns the state before all periods.
fn first_of(zone: Zone<'_>, all: &Periods) -> Result<ZoneState, Kind>
    requires periods { HasPeriods (the_zone zone) all.now }
    ensures shows { IfOk result (λ s. ShowsWhereHeld (the_zone zone.entry) 0 None (shown_by s)) }
    ensures within { IfOk result (λ s. is_abbreviation s.name ≡ true) }
    ensures err { IfErr result (IsFirstFault (the_zone zone.entry)) }
{
    match state_at(zone, 0, None) {
        Ok(first) => Ok(first),
        Err(kind) => Err(refusal(zone, all, kind)),
    }
}
