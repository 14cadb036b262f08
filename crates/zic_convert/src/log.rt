//! Notes of rows with a fault.

ghost use Rattle.std.specs.Prelude.{◌≡◌};
ghost use Rattle.zic_convert.specs.Run.{Notes};

use zic_layouts::{FaultyRow, RowLog, ZoneTally};

/// Takes note of rows with a fault.
pub(crate) fn note_all<L: RowLog>(log: &mut L, faults: &[FaultyRow])
    ensures notes { Notes (L.noted log.old) (L.noted log.new) faults.now }
    ensures began { L.began log.new ≡ L.began log.old }
{
    for fault in faults {
        log.note(fault);
    }
}

/// Adds to the numbers of rows of zones.
pub(crate) fn tally_all<L: RowLog>(log: &mut L, tallies: &[ZoneTally])
    ensures noted { L.noted log.new ≡ L.noted log.old }
    ensures began { L.began log.new ≡ L.began log.old }
{
    for tally in tallies {
        log.tally(tally);
    }
}
