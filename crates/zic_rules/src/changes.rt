//! The changes of a zone, by its periods.

ghost use Rattle.std.specs.Prelude.{◌≡◌, ◌<◌, None, true, false, map, IfOk, IfErr, []};
ghost use Rattle.zic_base.specs.Fault.{kind_of};
ghost use Rattle.zic_base.specs.Memory.{IfRefusal, OnOutOfMemory};
ghost use Rattle.zic_lines.specs.Limits.{is_abbreviation};
ghost use Rattle.zic_states.specs.Fault.{HasOffsetOutOfRange, HasNoLetter};
ghost use Rattle.zic_base.specs.State.{Shown};
ghost use Rattle.zic_rules.specs.code.Period.{the_zone};
ghost use Rattle.zic_rules.specs.code.Faults.{IsFirstFault};
ghost use Rattle.zic_rules.specs.code.Shown.{HasPeriods, IsHeld, ShowsWhereHeld, IsUnnamed, IsUnnamedAt, ShowsNamed, AreSoFrom, shown_by, dated};

use crate::line::Periods;
use crate::zone::Zone;
use crate::zone_state::{ZoneState, state_by};
use std::alloc::Global;
use zic_base::{Kind, ZoneStop};

/// A state and the instant from which on a zone shows it.
#[derive(Clone, Copy)]
pub(crate) struct DatedState {
    pub(crate) instant: i64,
    pub(crate) state: ZoneState,
}

/// Returns what a zone shows where its line of this number holds by this rule, or before all
/// occurrences of its set.
pub(crate) fn state_at(zone: Zone<'_>, line: u16, rule: Option<u16>) -> Result<ZoneState, Kind>
    requires in_range { HasOffsetOutOfRange (the_zone zone) → ⊥ }
    requires held { IsHeld (the_zone zone) line rule }
    ensures ok { IfOk result (λ s. ShowsWhereHeld (the_zone zone.entry) line rule (shown_by s)) }
    ensures within { IfOk result (λ s. is_abbreviation s.name ≡ true) }
    ensures err { IfErr result (IsUnnamedAt (the_zone zone.entry) line rule) }
{
    let line = zone.line(usize::from(line));
    state_by(zone.source, line, rule)
}

/// Returns the changes before the explicit end, where the zone shows this state before all periods.
pub(crate) fn changes_of(
    alloc: Global,
    zone: Zone<'_>,
    all: &Periods,
    first: &ZoneState,
) -> Result<Vec<DatedState>, ZoneStop>
    requires periods { HasPeriods (the_zone zone) all.now }
    requires first { ShowsWhereHeld (the_zone zone) 0 None (shown_by first.now) }
    requires within { is_abbreviation first.now.name ≡ true }
    ensures ok { IfOk result
        (λ cs. AreSoFrom (ShowsNamed (the_zone zone.entry)) all.now.end None
        (shown_by first.now) (map dated cs.items)) }
    ensures err { IfRefusal kind_of result (IsFirstFault (the_zone zone.entry)) }
    ensures memory { OnOutOfMemory kind_of result (all.now.list.items ≡ [] → ⊥) }
{
    // A list that grows as needed can come to hold room for twice its items.
    let mut changes = Vec::with_capacity(alloc, all.list.len())?;
    let mut last = *first;
    for period in &all.list {
        match state_at(zone, period.line, period.rule) {
            Ok(state) => {
                if state != last {
                    changes.push(DatedState {
                        instant: period.from,
                        state,
                    })?;
                }
                last = state;
            }
            Err(kind) => return Err(ZoneStop::Fault(refusal(zone, all, kind))),
        }
    }
    Ok(changes)
}

/// Returns why a zone whose FORMAT gives no abbreviation somewhere, for this reason, has no
/// timeline: the lack of a letter anywhere goes first.
pub(crate) fn refusal(zone: Zone<'_>, all: &Periods, kind: Kind) -> Kind
    requires periods { HasPeriods (the_zone zone) all.now }
    requires unnamed { IsUnnamed (the_zone zone) kind }
    ensures { IsFirstFault (the_zone zone.entry) result }
{
    if lacks_letter(zone, all) {
        Kind::NoLetter
    } else {
        kind
    }
}

/// Returns whether at some instant FORMAT wants a letter and there is none.
fn lacks_letter(zone: Zone<'_>, all: &Periods) -> bool
    requires periods { HasPeriods (the_zone zone) all.now }
    ensures lacks { result ≡ true → HasNoLetter (the_zone zone.entry) }
    ensures has { result ≡ false → HasNoLetter (the_zone zone.entry) → ⊥ }
{
    if lacks_letter_at(zone, 0, None) {
        return true;
    }
    for period in &all.list {
        if lacks_letter_at(zone, period.line, period.rule) {
            return true;
        }
    }
    false
}

/// Returns whether FORMAT wants a letter and there is none, where the line of this number holds by
/// this rule.
fn lacks_letter_at(zone: Zone<'_>, line: u16, rule: Option<u16>) -> bool
    requires in_range { HasOffsetOutOfRange (the_zone zone) → ⊥ }
    requires held { IsHeld (the_zone zone) line rule }
    ensures lacks { result ≡ true → HasNoLetter (the_zone zone.entry) }
    ensures has { result ≡ false
        → (state : Shown) × ShowsWhereHeld (the_zone zone.entry) line rule state }
{
    match state_at(zone, line, rule) {
        Ok(_) => false,
        Err(Kind::NoLetter) => true,
        Err(_) => false,
    }
}
