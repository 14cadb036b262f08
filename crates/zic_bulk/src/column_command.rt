//! `convert`: converts a column by zones.

ghost use Rattle.std.specs.Prelude.{◌≤◌, ◌+◌, ◌≡◌, ◌⊎◌, List, IfOk, IfErr, IsErr, IsErrOf, OnOk};
ghost use Rattle.zic_convert.specs.By.{by_of};
ghost use Rattle.zic_convert.specs.Column.{rejects_header};
ghost use Rattle.zic_convert.specs.Run.{LogBegan, run_of};
ghost use Rattle.zic_counted.specs.Counts.{HasFailedSince};
ghost use Rattle.zic_bulk.specs.ConvertingColumns.{Converts, HasZone, IsFailureOfConvert, IsFailureOfZones, IsZoneRequested, zones_of};
ghost use Rattle.zic_zones.specs.declared.zones.Releases.{Releases};

use std::alloc::Global;
use std::io::{Read, Write};
use std::sync::Wait;
use std::thread::Threads;
use zic_convert::{Conversion, convert_column};
use zic_counted::Counted;
use zic_io::{Failure, run_failure, unknown_zone};
use zic_layouts::{RowLog, ZoneFrom};
use zic_pieces::Gate;
use zic_zones::Zones;

/// Converts a column by a layout and zones. Before anything else, the zones are requested for the one that
/// all rows are to be in, if there is one, and for no other until the line of names is written. Returns
/// the number of rows, without the header.
///
/// # Errors
///
/// - `UnknownZone` where all rows are to be in a zone that there is none of. Nothing is read of the
///   column then, and nothing is written.
/// - `CannotWriteRows` before the column is read where the line of names can't be written.
/// - The first fault of a row that ends the run; a column that can't be read or is too long; rows that
///   can't be written; or memory ran out. All rows before one that has a fault are written.
/// - `CannotWriteList` where the log failed, once the rows of a round are written.
pub fn convert<T: Threads + Wait + Sync, G: Gate + Sync, Z: Zones, R: Read, W: Write, L: RowLog>(
    conversion: &Conversion<'_, T, G>,
    zones: &mut Z,
    reader: &mut Counted<R>,
    writer: &mut Counted<W>,
    log: &mut L,
) -> Result<u64, Failure>
    ensures grown { IfOk result (λ _. Z.grown zones.old zones.new) }
    ensures ok { (releases : Releases) → Z.may_be zones.new releases → IfOk result (λ rows.
        Converts (by_of conversion.now.layout.now releases conversion.now.plan.now.max_rows
        conversion.now.max_faults) rows
        (run_of R.remaining W.contents L.noted reader.old reader.new writer.old writer.new
        log.old log.new)) }
    ensures within { IfOk result
        (λ _. reader.new.taken ≤ reader.old.taken + conversion.now.plan.now.max_bytes) }
    ensures unfailed { IfOk result (λ _. HasFailedSince reader.new reader.old.failures → ⊥) }
    ensures flushed { IfOk result (λ _. writer.new.failures ≡ writer.old.failures) }
    ensures err { IfErr result (IsFailureOfConvert conversion.now.plan.now conversion.now.max_faults
        conversion.now.layout.now
        (run_of R.remaining W.contents L.noted reader.old reader.new writer.old writer.new
        log.old log.new)
        (zones_of Z.grown Z.broken Z.requests Z.may_be zones.old zones.new)) }
    ensures began { LogBegan (rejects_header conversion.now.layout.now)
        (R.remaining reader.old.inner) (L.began log.new)
        ⊎ (IsErr result × (L.began log.new ≡ L.began log.old) × (L.noted log.new ≡ L.noted log.old)) }
    ensures log { IsErrOf result Failure.CannotWriteList → L.failed log.new }
{
    find_zone(conversion.alloc, zones, &conversion.layout.zone)?;
    match convert_column(conversion, zones, reader, writer, log) {
        Ok(rows) => Ok(rows),
        // Only a fault of a source would need the number of its texts.
        Err(stop) => Err(run_failure(stop, 1)),
    }
}

/// Returns whether there is the zone that all rows are to be in, if they are to be in one. The zones are
/// requested for no other.
///
/// # Errors
///
/// `UnknownZone` where there is none, or memory ran out.
fn find_zone<Z: Zones>(alloc: Global, zones: &mut Z, zone: &ZoneFrom) -> Result<(), Failure>
    ensures grown { OnOk result (Z.grown zones.old zones.new) }
    ensures ok { (releases : Releases) → Z.may_be zones.new releases
        → OnOk result (HasZone releases.zones zone.now) }
    ensures err { IfErr result (IsFailureOfZones zone.now
        (zones_of Z.grown Z.broken Z.requests Z.may_be zones.old zones.new)) }
    ensures requested { IsZoneRequested zone.now
        (zones_of Z.grown Z.broken Z.requests Z.may_be zones.old zones.new) }
    ensures unlogged { IsErrOf result Failure.CannotWriteList → ⊥ }
{
    let ZoneFrom::Name(name) = zone else {
        return Ok(());
    };
    let bytes = name.as_bytes();
    zones.learn(alloc, bytes)?;
    match zones.ready().zones.find(bytes) {
        Some(_) => Ok(()),
        None => Err(unknown_zone(alloc, name.as_str())),
    }
}
