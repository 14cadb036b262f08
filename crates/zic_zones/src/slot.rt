//! Slots: their sizes, where the slot of an instant is, and what it says about the seconds near one
//! of its own.

ghost use Rattle.std.specs.Prelude.{◌≡◌, IfSome};
ghost use Rattle.zic_zones.specs.Slots.{number_at};
ghost use Rattle.zic_zones.specs.code.Near.{IsNumberNear};
ghost use Rattle.zic_zones.specs.Places.{IsPlaceOf};

use zic_base::FARTHEST_FILE_OFFSET;
use zic_posix::MAX_INSTANT;

/// The numbers before and from a change on, in seconds after the start of the slot.
#[derive(Clone, Copy, Debug, PartialEq, Eq, Drop)]
pub struct Slot {
    pub change: u32,
    pub before: u16,
    pub after: u16,
}

impl Slot {
    /// Returns the number at this many seconds after the start of the slot.
    #[inline(always)]
    pub fn number_at(self, second: u32) -> u16
        ensures { result ≡ number_at self second }
    {
        if self.change <= second {
            self.after
        } else {
            self.before
        }
    }
}

/// Returns the number that a slot has at each second as near this one as instants are to their local
/// time, where all these are in the slot and it has one number at them.
#[inline(always)]
pub(crate) fn number_near(slot: Slot, second: u32) -> Option<u16>
    ensures { IfSome result (IsNumberNear slot second) }
{
    let first = second.checked_sub(FARTHEST_FILE_OFFSET)?;
    let last = second.checked_add(FARTHEST_FILE_OFFSET)?;
    if SLOT_SECONDS <= last {
        return None;
    }
    let number = slot.number_at(first);
    if slot.number_at(last) != number {
        return None;
    }
    Some(number)
}

/// Where an instant lies: its era, the slot there, and its second in the slot, each from 0.
#[derive(Clone, Copy, Debug, Drop)]
pub struct Place {
    pub era: usize,
    pub slot: usize,
    pub second: u32,
}

/// Returns where an instant lies, or `None` where it lies in no era.
#[inline(always)]
pub fn place_of(instant: i64) -> Option<Place>
    ensures { IfSome result (IsPlaceOf instant) }
{
    if instant < FIRST_BASE {
        return None;
    }
    let at = instant.abs_diff(FIRST_BASE);
    let era = (at / ERA_SECONDS) as usize;
    if era >= ERAS {
        return None;
    }
    let second = (at % ERA_SECONDS) as u32;
    Some(Place {
        era,
        slot: (second / SLOT_SECONDS) as usize,
        second: second % SLOT_SECONDS,
    })
}

/// The number of a state that isn't known.
pub const UNKNOWN: u16 = u16::MAX;

/// The seconds of a slot, some 97 days.
pub const SLOT_SECONDS: u32 = 1 << 23;

/// The seconds of an era: those that 32 bits count.
const ERA_SECONDS: u64 = 1 << 32;

/// The slots of a table, which are those of an era.
pub const SLOTS: u32 = 512;

/// The last instant from which a table of slots can be made, so that all its instants fit 64 bits.
pub const LAST_BASE: i64 = MAX_INSTANT - (1 << 32);

/// The first instant of the first era, 1901-12-13 20:45:52 UT.
pub const FIRST_BASE: i64 = -(1 << 31);

/// The number of eras, one after another, each with the seconds of a table: the last one ends in 2446.
pub const ERAS: usize = 4;
