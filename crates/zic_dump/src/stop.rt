//! Why a component isn't written.

ghost use Rattle.std.specs.Prelude.{◌≡◌};

use std::alloc::{AllocError, AllocFailed};

/// Why a zone isn't written as a component.
#[derive(Clone, Copy, Debug, PartialEq, Eq)]
pub enum CalendarStop {
    /// The end isn't after the start.
    Order,
    /// An instant isn't from the start of the year 2 to that of 9999, or there is no end, and dates don't
    /// stop before the year 9500.
    Years,
    /// The file leaves local time open from some instant on.
    Open,
    /// No RRULE says what the footer does.
    NoRule,
    /// The name is empty or has a control character.
    Name,
    /// A growth of memory was refused.
    Memory,
}

impl From<AllocError> for CalendarStop {
    ghost use Rattle.zic_dump.specs.declared.stop.CalendarStop.TheVariants.{Memory};

    ghost from_gives = { λ _ e. e ≡ Memory };

    fn from(_e: AllocError) -> CalendarStop {
        CalendarStop::Memory
    }
}

impl<T: Drop> From<AllocFailed<T>> for CalendarStop {
    ghost use Rattle.zic_dump.specs.declared.stop.CalendarStop.TheVariants.{Memory};

    ghost from_gives = { λ _ e. e ≡ Memory };

    fn from(_e: AllocFailed<T>) -> CalendarStop {
        CalendarStop::Memory
    }
}
