//! What saves time where rows are converted is used: instants in plain decimals, and the states of
//! zones. That the rows are right is in tests/program/columns.txt and records.txt.

ghost use Rattle.std.specs.Prelude.{◌≡◌};

use crate::samples::{expect, must};
use crate::workers::built;
use zic_files::Files;
use zic_layouts::Unit;
use zic_pieces::Open;
use zic_row_text::quick_time;
use zic_zones::{RowZones, SourceZones, UNKNOWN, Zones};

/// What stands before each instant.
const NAME: &[u8] = b"America/New_York,";

/// Units, and records with instants in plain decimals.
const PLAIN: [(Unit, &[u8]); 7] = [
    (Unit::Second, b"America/New_York,0"),
    (Unit::Second, b"America/New_York,1173596399"),
    (Unit::Second, b"America/New_York,-62135510400"),
    (Unit::Second, b"America/New_York,253402214399"),
    (Unit::Millisecond, b"America/New_York,1700000000007"),
    (Unit::Microsecond, b"America/New_York,-1"),
    (Unit::Nanosecond, b"America/New_York,1700000000000000001"),
];

#[test]
fn plain_decimals_are_read(rt: HostRuntime) {
    for (unit, record) in &PLAIN {
        let start = NAME.len().min(record.len());
        let time = quick_time(record, start, record.len(), *unit);
        expect(&rt, time.is_some(), "a quick time");
    }
}

/// A zone with no rule, one with two changes a year, 4 and 8 months apart, and one whose two changes
/// of a year are 20 days apart.
const ZONES: &str = "Zone Asia/Kolkata 5:30 - IST\n\
Rule US 2007 max - Mar Sun>=8 2:00 1:00 D\n\
Rule US 2007 max - Nov Sun>=1 2:00 0 S\n\
Zone America/New_York -5:00 US E%sT\n\
Rule March 2010 max - Mar 1 0:00 1:00 BBB\n\
Rule March 2010 max - Mar 21 0:00 0 AAA\n\
Zone March 0:00 March %s\n";

/// Zones, from 0, and instants: before and from changes, and before 1901 and after 2446.
const INSTANTS: [(usize, i64); 9] = [
    (0, 1_700_000_000),
    (1, 1_173_596_399),
    (1, 1_173_596_400),
    (1, 1_194_155_999),
    (1, 1_194_156_000),
    (1, -5_000_000_000),
    (1, 20_000_000_000),
    (2, 1_332_284_399),
    (2, 1_332_284_400),
];

/// Returns whether a table has the number of the state that a file shows at an instant.
fn is_at_hand(files: &Files, zones: &RowZones<'_>, file: usize, instant: i64) -> bool
    requires { zones.now ≡ files.now }
{
    file < files.len() && zones.states().number(file, instant) != UNKNOWN
}

#[test]
fn states_are_at_hand(rt: HostRuntime) {
    let files = must(&rt, built(&rt, rt.alloc(), ZONES, 1, &Open));
    let Ok(zones) = SourceZones::new(rt.alloc(), &files) else {
        panic!(rt; "the zones are ready");
    };
    let ready = zones.ready().zones;
    for (file, instant) in &INSTANTS {
        let is_there = is_at_hand(&files, &ready, *file, *instant);
        expect(&rt, is_there, "a state");
    }
}
