//! The table of a zone.

ghost use Rattle.std.specs.Prelude.{IfOk};
ghost use Rattle.zic_base.specs.Fault.{fault_of, kind_of};
ghost use Rattle.zic_base.specs.Memory.{IfRefusal, OnOutOfMemory};
ghost use Rattle.zic_footer.specs.Making.{IsMade};
ghost use Rattle.zic_tzif.specs.Content.{IsFooter, IsWritable};
ghost use Rattle.zic_table.specs.ContentOf.{IsContentOf, IsFaultOfTable, HasFewChanges};
ghost use Rattle.zic_table.specs.code.Faults.{IsFirstFault};

use crate::local_types::local_types;
use crate::transitions::transitions;
use std::alloc::Global;
use zic_base::{Kind, Place, Stop, ZoneStop};
use zic_footer::{Footer, print};
use zic_rules::Timeline;
use zic_tzif::{MAX_TRANSITIONS, Table};

/// Returns the table of a zone, whose Zone line stands at `zone_place`, with the footer that was
/// made for it: the state before every change, all changes before the explicit end, and the
/// footer.
///
/// Local time types and designations stand once each, in the order of their first use. Refuses, at
/// `zone_place`, the first of these limits that the zone passes: `TooManyChanges` at 100,000
/// transitions, `TooManyTypes` at 256 local time types, `TooManyChars` at 256 bytes of
/// designations. Allocates nothing where the first is passed.
pub fn table(alloc: Global, zone_place: Place, t: &Timeline<'_>, f: &Footer) -> Result<Table, Stop>
    requires { IsMade t.now f.now }
    ensures ok { IfOk result (IsContentOf t.now f.now) }
    ensures footer { IfOk result (λ content. IsFooter content f.now) }
    ensures writable { IfOk result IsWritable }
    ensures err { IfRefusal fault_of result (IsFaultOfTable t.now zone_place) }
    ensures memory { OnOutOfMemory fault_of result (HasFewChanges t.now) }
{
    match table_of(alloc, t, f) {
        Ok(table) => Ok(table),
        Err(stop) => Err(stop.at(zone_place)),
    }
}

/// Returns the table of a zone with the footer that was made for it.
fn table_of(alloc: Global, t: &Timeline<'_>, f: &Footer) -> Result<Table, ZoneStop>
    requires { IsMade t.now f.now }
    ensures ok { IfOk result (IsContentOf t.now f.now) }
    ensures footer { IfOk result (λ content. IsFooter content f.now) }
    ensures writable { IfOk result IsWritable }
    ensures err { IfRefusal kind_of result (IsFirstFault t.now) }
    ensures memory { OnOutOfMemory kind_of result (HasFewChanges t.now) }
{
    // `end` also states that the zone is whole.
    prove!(t.end() <= i64::MAX);
    let first = t.first();
    let is_long = t.len() > MAX_TRANSITIONS;
    if is_long {
        return Err(ZoneStop::Fault(Kind::TooManyChanges));
    }
    let numbered = transitions(alloc, t, first)?;
    let designated = local_types(alloc, numbered.numbering.states())?;
    let footer_text = print(alloc, f)?;
    Ok(Table::new(
        f.version(),
        numbered.changes,
        designated.types,
        designated.names,
        footer_text,
    ))
}
