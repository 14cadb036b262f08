//! The footer that goes on for a zone.

ghost use Rattle.std.specs.Prelude.{◌≡◌, ◌↔◌, false, true, IsOk, IfOk, IsTrue};
ghost use Rattle.zic_base.specs.Fault.{fault_of, kind_of};
ghost use Rattle.zic_base.specs.Memory.{IfRefusal, OnOutOfMemory};
ghost use Rattle.zic_base.specs.State.{shown};
ghost use Rattle.zic_posix.specs.Footer as footer;
ghost use Rattle.zic_posix.specs.Grammar.{IsName};
ghost use Rattle.zic_lines.specs.Limits.{IsWithinLimits};
ghost use Rattle.zic_footer.specs.Making.{IsMade, GoesOn, IsFaultOfFooter, IsWide};
ghost use Rattle.zic_footer.specs.code.Edges as edges;
ghost use Rattle.zic_footer.specs.code.Faults.{IsFirstFault};
ghost use Rattle.zic_footer.specs.code.Turns.{AreSoundTails, IsSoundPair, IsPairOf, HasWideEdges, IsMadeOf, NoneTakeTurns};

use crate::edges::edge_of;
use crate::turns::follow_in_turn;
use std::alloc::{AllocError, Global};
use zic_base::{Kind, Place, State, Stop, ZoneStop};
use zic_posix::{Abbr, Dst, Edge, Footer, MAX_WIDE_HOURS};
use zic_rules::{Tail, TailRule, Timeline};

/// Returns the footer of a zone: the POSIX TZ string of what the zone shows from its last change
/// on, for ever, or at every instant where it has no change (RFC 9636, 3.3). Its times are within
/// 167:59:59 either way, as far as version 3 of TZif goes.
///
/// A refusal is a fault at `zone_place`, the place of the zone's Zone line (the faults are own
/// choice): `PermanentDaylight` where fewer than two rules of the last line's set go on for ever
/// and the zone stays on daylight saving time; `NoFooter` where two or more rules go on for ever,
/// but not just two, one of each flag, that follow each other in turn in all years to come, or
/// where the time of an edge would pass 167:59:59 either way. `Stop::Memory` never comes, since
/// abbreviations are stored inline.
pub fn make(alloc: Global, zone_place: Place, t: &Timeline<'_>) -> Result<Footer, Stop>
    ensures made { IfOk result (IsMade t.now) }
    ensures goes_on { IfOk result (GoesOn t.now) }
    ensures err { IfRefusal fault_of result (IsFaultOfFooter t.now zone_place) }
    ensures memory { OnOutOfMemory fault_of result ⊥ }
{
    match footer_of(alloc, t) {
        Ok(footer) => Ok(footer),
        Err(stop) => Err(stop.at(zone_place)),
    }
}

/// Returns the footer of a zone.
fn footer_of(alloc: Global, t: &Timeline<'_>) -> Result<Footer, ZoneStop>
    ensures made { IfOk result (IsMade t.now) }
    ensures goes_on { IfOk result (GoesOn t.now) }
    ensures err { IfRefusal kind_of result (IsFirstFault t.now) }
    ensures memory { OnOutOfMemory kind_of result ⊥ }
{
    match t.tail() {
        Tail::Constant(state) => by_state(alloc, state),
        Tail::Rules {
            standard,
            rules,
            ..
        } => by_rules(alloc, standard, rules),
    }
}

/// Returns the footer of one state.
fn by_state(alloc: Global, state: State<'_>) -> Result<Footer, ZoneStop>
    requires { IsWithinLimits (shown state) }
    ensures made { IfOk result (λ f. (state.entry.daylight ≡ false)
        × (f ≡ footer.constant state.entry.name.now state.entry.offset)) }
    ensures err { IfRefusal kind_of result
        (λ kind. (kind ≡ Kind.PermanentDaylight) × (state.entry.daylight ≡ true)) }
    ensures memory { OnOutOfMemory kind_of result ⊥ }
{
    if state.daylight {
        return Err(ZoneStop::Fault(Kind::PermanentDaylight));
    }
    let std = Abbr::new(alloc, state.name)?;
    Ok(Footer {
        std,
        offset: state.offset,
        dst: None,
    })
}

/// Returns the footer of rules that go on for ever.
fn by_rules(alloc: Global, standard: i32, rules: &[TailRule]) -> Result<Footer, ZoneStop>
    requires { AreSoundTails standard rules.now }
    ensures made { IfOk result (IsMadeOf standard rules.now) }
    ensures err { IfRefusal kind_of result
        (λ kind. (kind ≡ Kind.NoFooter) × NoneTakeTurns standard rules.now) }
    ensures memory { OnOutOfMemory kind_of result ⊥ }
{
    match pair_of(rules) {
        Some(pair) if follow_in_turn(&pair.starting.moment, &pair.ending.moment) => {
            by_pair(alloc, standard, &pair)
        }
        _ => Err(ZoneStop::Fault(Kind::NoFooter)),
    }
}

/// The rule that starts daylight saving time and the one that ends it.
#[derive(Clone, Copy)]
struct Pair<'a> {
    starting: &'a TailRule,
    ending: &'a TailRule,
}

/// Returns the rules of a tail, if there are just two, one of each flag.
fn pair_of(rules: &[TailRule]) -> Option<Pair<'_>>
    ensures { IsPairOf rules.now result }
{
    match rules {
        [a, b] if a.saving.daylight && !b.saving.daylight => Some(Pair {
            starting: a,
            ending: b,
        }),
        [a, b] if b.saving.daylight && !a.saving.daylight => Some(Pair {
            starting: b,
            ending: a,
        }),
        _ => None,
    }
}

/// Returns the footer of two rules that follow each other in turn.
fn by_pair(alloc: Global, standard: i32, pair: &Pair<'_>) -> Result<Footer, ZoneStop>
    requires { IsSoundPair standard pair.now }
    ensures made { IfOk result
        (λ f. f ≡ edges.by_rules standard pair.now.starting.now pair.now.ending.now) }
    ensures wide { IfOk result (λ _. HasWideEdges standard pair.now) }
    ensures err { IfRefusal kind_of result
        (λ kind. (kind ≡ Kind.NoFooter) × (HasWideEdges standard pair.now → ⊥)) }
    ensures memory { OnOutOfMemory kind_of result ⊥ }
{
    let dst = daylight_part(alloc, standard, pair)?;
    if !is_wide(&dst.start) || !is_wide(&dst.stop) {
        return Err(ZoneStop::Fault(Kind::NoFooter));
    }
    let std = Abbr::new(alloc, pair.ending.name.octets())?;
    Ok(Footer {
        std,
        offset: standard + pair.ending.saving.seconds,
        dst: Some(dst),
    })
}

/// Returns the daylight part by two rules.
fn daylight_part(alloc: Global, standard: i32, pair: &Pair<'_>) -> Result<Dst, AllocError>
    requires { IsSoundPair standard pair.now }
    ensures ok { IfOk result
        (λ dst. dst ≡ edges.daylight_part standard pair.now.starting.now pair.now.ending.now) }
    ensures name { IfOk result (λ dst. IsName dst.name) }
    ensures inline { IsOk result }
{
    let name = Abbr::new(alloc, pair.starting.name.octets())?;
    Ok(Dst {
        name,
        offset: standard + pair.starting.saving.seconds,
        start: edge_of(standard, pair.starting, pair.ending.saving.seconds),
        stop: edge_of(standard, pair.ending, pair.starting.saving.seconds),
    })
}

/// Returns whether the time of an edge is within 167:59:59 either way.
fn is_wide(edge: &Edge) -> bool
    ensures { IsTrue result ↔ IsWide edge.now }
{
    edge.time.unsigned_abs() < (u32::from(MAX_WIDE_HOURS) + 1) * 3600
}
