//! Times of day, weekdays, and what to do with a time of day in a gap or in a fold.

ghost use Rattle.std.specs.Prelude.{◌≡◌, ◌↔◌, ◌<◌, IsSome, IfSome, IsTrue};
ghost use Rattle.zic_local.specs.Weekdays.{HasWeekdayOf};

use std::marker::Model;
use zic_calendar::{SECONDS_OF_DAY, weekday};

/// A time of day on clocks, in seconds since midnight, 0 to 86,399. Clauses see the seconds.
#[derive(Clone, Copy, Debug)]
pub struct TimeOfDay {
    seconds: u32,
}

impl Model for TimeOfDay {
    ghost use Rattle.std.specs.Prelude.{ℕ, ◌<◌};

    ghost Value = { ℕ };

    ghost view = { λ time. time.seconds };

    ghost invariant = { λ time. time.seconds < 86_400 };

    ghost inverse = { λ seconds. record { seconds = seconds } };
}

impl TimeOfDay {
    /// Returns the time of day this number of seconds after midnight, or `None` from 86,400 on.
    pub fn new(seconds: u32) -> Option<TimeOfDay>
        ensures just { IsSome result ↔ (seconds < 86_400) }
        ensures some { IfSome result (λ time. time ≡ seconds) }
    {
        if i64::from(seconds) >= SECONDS_OF_DAY {
            return None;
        }
        Some(TimeOfDay { seconds })
    }

    /// Returns the seconds since midnight.
    pub(crate) fn seconds(&self) -> u32
        ensures value { result ≡ self.now }
        ensures range { result < 86_400 }
    {
        self.seconds
    }
}

/// Days of the week, as bits: bit 0 is Monday and bit 6 Sunday (the numbers of ISO 8601 less 1).
/// There may be none. Clauses see the bits.
#[derive(Clone, Copy, Debug)]
pub struct Weekdays {
    bits: u8,
}

impl Model for Weekdays {
    ghost use Rattle.std.specs.Prelude.{ℕ, ◌<◌};

    ghost Value = { ℕ };

    ghost view = { λ weekdays. weekdays.bits };

    ghost invariant = { λ weekdays. weekdays.bits < 128 };

    ghost inverse = { λ bits. record { bits = bits } };
}

impl Weekdays {
    ghost use Rattle.std.specs.Prelude.{ℤ};

    /// Returns the weekdays of these bits, or `None` above 127.
    pub fn new(bits: u8) -> Option<Weekdays>
        ensures just { IsSome result ↔ (bits < 128) }
        ensures some { IfSome result (λ weekdays. weekdays ≡ bits) }
    {
        if bits >= 128 {
            return None;
        }
        Some(Weekdays { bits })
    }

    /// Returns whether there are none.
    pub(crate) fn are_none(&self) -> bool
        ensures { IsTrue result → (day : ℤ) → HasWeekdayOf self.now day → ⊥ }
    {
        self.bits == 0
    }

    /// Returns whether the weekday of a day since 1970-01-01 is one of them.
    pub(crate) fn have(&self, day: i64) -> bool
        ensures { IsTrue result ↔ HasWeekdayOf self.now day }
    {
        // The calendar counts from Sunday.
        let bit = (weekday(day) + 6) % 7;
        self.bits & (1 << bit) != 0
    }
}

/// Which instant is due where a time of day is in a gap or in a fold. The first three names are those
/// of `disambiguation` in ECMAScript's Temporal.
#[derive(Clone, Copy, Debug)]
pub enum Policy {
    /// The first instant of a fold; in a gap, the instant of the local time by the offset before it.
    /// RFC 5545, 3.3.5.
    Compatible,
    /// The first instant of a fold; in a gap, the instant of the local time by the offset after it.
    Earlier,
    /// The last instant of a fold; in a gap, the instant of the local time by the offset before it.
    Later,
    /// The first instant of a fold; in a gap none, as RFC 5545, 3.3.10, ignores a recurrence at a local
    /// time that isn't there.
    Skip,
}

/// A time of day on some weekdays.
#[derive(Clone, Copy, Debug)]
pub struct Schedule {
    pub time: TimeOfDay,
    pub weekdays: Weekdays,
    pub policy: Policy,
}
