//! The call on one local time.

ghost use Rattle.std.specs.Prelude.{◌≡◌, ◌↔◌, IsTrue, MatchOption};
ghost use Rattle.zic_local.specs.LocalTime.{IsInRange};
ghost use Rattle.pzic_zones.specs.code.Near.{IsNear};
ghost use Rattle.pzic_zones.specs.Handle.{IsHandle, zone_in};
ghost use Rattle.pzic_zones.specs.Local.{IsLocalTimeGiven, local_time_of, status_of_instants};
ghost use Rattle.pzic_zones.specs.declared.status.TheConstants.{NO_HANDLE};

use crate::handle::Handle;
use crate::held::Held;
use crate::status::{NO_HANDLE, OK, OUT_OF_RANGE, UNSPECIFIED};
use std::alloc::Global;
use zic_base::FARTHEST_FILE_OFFSET;
use zic_local::{LocalInstants, instants};
use zic_tzif::Zone;

/// The first local time whose instants are in 64 bits, whatever the UT offset is.
const FIRST: i64 = i64::MIN + FARTHEST_FILE_OFFSET as i64;
/// The last of them.
const LAST: i64 = i64::MAX - FARTHEST_FILE_OFFSET as i64;

/// The instants of a local time in a zone. What there isn't is 0.
#[repr(C)]
#[derive(Drop)]
pub struct LocalTime {
    /// The first and the last instant at which clocks show it.
    pub first: i64,
    pub last: i64,
    /// The instant of the change that passes over it.
    pub change: i64,
    /// The UT offsets before that change and from it on.
    pub before: i32,
    pub after: i32,
    /// The number of instants at which clocks show it.
    pub count: u32,
}

impl LocalTime {
    /// Returns what C sees of a local time.
    fn new(reported: LocalInstants) -> LocalTime
        ensures { result ≡ local_time_of reported }
    {
        let none = LocalTime {
            first: 0,
            last: 0,
            change: 0,
            before: 0,
            after: 0,
            count: 0,
        };
        match reported {
            LocalInstants::Gap(gap) => LocalTime {
                change: gap.change,
                before: gap.before,
                after: gap.after,
                ..none
            },
            LocalInstants::One(instant) => LocalTime {
                first: instant,
                last: instant,
                count: 1,
                ..none
            },
            LocalInstants::Fold(fold) => LocalTime {
                first: fold.first,
                last: fold.last,
                count: fold.count,
                ..none
            },
            LocalInstants::Unspecified => none,
        }
    }
}

/// Returns whether each instant that may be one of the local time is in 64 bits.
pub(crate) fn is_in_range(local: i64) -> bool
    ensures { IsTrue result ↔ IsInRange local }
{
    FIRST <= local && local <= LAST
}

/// Returns the status of the instants of a local time.
fn status_of(reported: LocalInstants) -> i32
    ensures { result ≡ status_of_instants reported }
{
    match reported {
        LocalInstants::Unspecified => UNSPECIFIED,
        _ => OK,
    }
}

/// Gives the instants of a local time.
fn tell_local(zone: &Zone, local: i64, found: &mut LocalTime) -> i32
    requires { IsNear zone.now }
    ensures { IsLocalTimeGiven zone.now local result found.old found.new }
{
    if !is_in_range(local) {
        return OUT_OF_RANGE;
    }
    let reported = instants(zone, local);
    *found = LocalTime::new(reported);
    status_of(reported)
}

/// Gives the instants of a local time.
pub fn zone_instants(alloc: Global, zone: &mut Handle, local: i64, found: &mut LocalTime) -> i32
    requires { IsHandle zone.old }
    ensures unchanged { zone.new ≡ zone.old }
    ensures found { MatchOption (zone_in zone.old)
        ((result ≡ NO_HANDLE) × (found.new ≡ found.old))
        (λ content. IsLocalTimeGiven content local result found.old found.new) }
{
    zone.lend(
        alloc,
        &mut |held: &Held| match held.zone() {
            Some(zone) => tell_local(zone, local, found),
            None => NO_HANDLE,
        },
    )
}
