//! Faults of a source as a whole.

ghost use Rattle.std.specs.Prelude.{◌≡◌, None, IfOk, MatchResult, List};
ghost use Rattle.zic_base.specs.Fault.{fault_of};
ghost use Rattle.zic_base.specs.Memory.{IfRefusal};
ghost use Rattle.zic_source.specs.Source.{SourceLines};
ghost use Rattle.zic_source.specs.Links.{EndsAt};
ghost use Rattle.zic_source.specs.Whole.{IsWholeSource, HasFirst};
ghost use Rattle.zic_source.specs.code.Lines.{source_lines};
ghost use Rattle.zic_source.specs.code.Owners.{IndexesNames};
ghost use Rattle.zic_source.specs.code.Sets.{IndexesSets};
ghost use Rattle.zic_source.specs.code.Chains.{EndsAs, AreLinkZones};
ghost use Rattle.zic_source.specs.code.Faults.{IsEarlier, IsFirst, LineIsRight, LineHas, LinkHas, IsFirstOfZone, IsFirstOfZones, IsFirstOfLinks};
ghost use Rattle.zic_lines.specs.declared.rule_line.Rule.{Rule};

use crate::chains::{End, chain_ends};
use crate::entries::{Entries, ZoneEntry};
use crate::owners::Owners;
use crate::sets::Sets;
use std::alloc::{AllocError, Global};
use zic_lines::{Fault, Kind, Link, Rules, Stop, ZoneLine};

/// Returns the earlier of two faults, and the first of two at one place.
fn earlier(fault: Option<Fault>, other: Option<Fault>) -> Option<Fault>
    ensures { IsEarlier fault other result }
{
    match (fault, other) {
        (None, second) => second,
        (Some(first), Some(second)) if second.place.is_before(first.place) => Some(second),
        (first, _) => first,
    }
}

/// Returns the line's fault, if it names a set without a rule.
fn line_fault(line: &ZoneLine, sets: &Sets) -> Option<Fault>
    ensures { (rules : List Rule) → IndexesSets sets.now rules
        → IsFirst (LineIsRight rules line.now) (LineHas rules line.now) result }
{
    match &line.rules {
        Rules::Set(name) if sets.numbers_of(name).is_empty() => Some(Fault {
            place: line.place,
            kind: Kind::UnknownRules,
        }),
        _ => None,
    }
}

/// Returns the first fault of a zone's lines.
fn zone_fault(zone: &ZoneEntry, sets: &Sets) -> Option<Fault>
    ensures { (rules : List Rule) → IndexesSets sets.now rules
        → IsFirstOfZone rules zone.now result }
{
    let mut first = None;
    for line in 0..zone.lines() {
        first = earlier(first, line_fault(zone.line(line), sets));
    }
    first
}

/// Returns the first fault of all zones' lines.
fn zones_fault(lines: &Entries, sets: &Sets) -> Option<Fault>
    requires { IndexesSets sets.now lines.now.rules.items }
    ensures { IsFirstOfZones (source_lines lines.now) result }
{
    let mut first = None;
    for zone in &lines.zones {
        first = earlier(first, zone_fault(zone, sets));
    }
    first
}

/// Returns the number of the zone at the end of the link's chain, or the link's fault if it doesn't
/// end at one.
fn link_zone(link: &Link, end: End) -> Result<usize, Fault>
    ensures { (source : SourceLines) → EndsAs source link.now end
        → MatchResult result (EndsAt source link.now) (LinkHas source link.now) }
{
    let kind = match end {
        End::Zone(zone) => return Ok(zone),
        End::Nowhere => Kind::UnknownTarget,
        End::Never => Kind::LinkCycle,
    };
    Err(Fault {
        place: link.place,
        kind,
    })
}

/// The number of the zone at the end of each link's chain, if none has a fault; else their first
/// fault.
#[derive(Drop)]
struct LinkZones {
    zones: Vec<usize>,
    fault: Option<Fault>,
}

/// Finds the zone at the end of each link's chain, and the first fault of the links.
fn link_zones(alloc: Global, lines: &Entries, names: &Owners) -> Result<LinkZones, AllocError>
    requires { IndexesNames names.now (source_lines lines.now) }
    ensures fault { IfOk result (λ found. IsFirstOfLinks (source_lines lines.now) found.fault) }
    ensures zones { IfOk result
        (λ found. found.fault ≡ None → AreLinkZones (source_lines lines.now) found.zones.items) }
{
    let ends = chain_ends(alloc, lines, names)?;
    let mut zones = Vec::new(alloc);
    let mut fault = None;
    for link in 0..lines.links.len() {
        match link_zone(&lines.links[link], ends[link].unwrap()) {
            Ok(zone) => zones.push(zone)?,
            Err(other) => fault = earlier(fault, Some(other)),
        }
    }
    Ok(LinkZones { zones, fault })
}

/// Returns the number of the zone at the end of each link's chain, or the first fault of a line
/// that names a set without a rule, or of a link whose chain doesn't end at a zone.
pub(crate) fn check_whole(
    alloc: Global,
    lines: &Entries,
    sets: &Sets,
    names: &Owners,
) -> Result<Vec<usize>, Stop>
    requires sets { IndexesSets sets.now lines.now.rules.items }
    requires names { IndexesNames names.now (source_lines lines.now) }
    ensures whole { IfOk result (λ _. IsWholeSource (source_lines lines.now)) }
    ensures zones { IfOk result (λ zones. AreLinkZones (source_lines lines.now) zones.items) }
    ensures first { IfRefusal fault_of result (HasFirst (source_lines lines.now)) }
{
    let of_zones = zones_fault(lines, sets);
    let of_links = link_zones(alloc, lines, names)?;
    match earlier(of_zones, of_links.fault) {
        Some(fault) => Err(Stop::Fault(fault)),
        None => Ok(of_links.zones),
    }
}
