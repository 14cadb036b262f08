//! Why a run, and the making of a zone, ends early.

ghost use Rattle.std.specs.Prelude.{◌≡◌};

use crate::fault::{Fault, Kind, Place, Stop};
use crate::row_fault::RowKind;
use std::alloc::{AllocError, AllocFailed};

/// Why a run ends early.
#[derive(Clone, Copy, Debug, PartialEq, Eq)]
pub enum RunStop {
    /// The first fault of a source or of its zones.
    Source(Fault),
    /// The row that ends the run, by its number from 1, or 0 for the header, and its fault.
    Row { row: u64, kind: RowKind },
    /// The reader failed.
    ReadFailed,
    /// The writer failed.
    WriteFailed,
    /// A column has more bytes than it may.
    ColumnTooLong,
    /// A growth of memory was refused.
    Memory,
    /// A worker could not be started. Never answered, since the other workers go on.
    NoThread,
    /// The log of rows with a fault could not be written on.
    LogFailed,
}

impl From<Stop> for RunStop {
    ghost use Rattle.zic_base.specs.RunStop.{run_stop};

    ghost from_gives = { λ stop e. e ≡ run_stop stop };

    fn from(stop: Stop) -> RunStop {
        match stop {
            Stop::Fault(fault) => RunStop::Source(fault),
            Stop::Memory => RunStop::Memory,
        }
    }
}

impl From<AllocError> for RunStop {
    ghost use Rattle.zic_base.specs.declared.stops.RunStop.TheVariants.{Memory};

    ghost from_gives = { λ _ e. e ≡ Memory };

    fn from(_e: AllocError) -> RunStop {
        RunStop::Memory
    }
}

/// The reason why a zone isn't compiled, without the place of its Zone line.
#[derive(Clone, Copy, Debug, PartialEq, Eq)]
pub enum ZoneStop {
    /// The kind of its first fault.
    Fault(Kind),
    /// Out of memory.
    Memory,
}

impl ZoneStop {
    ghost use Rattle.zic_base.specs.Fault.{stop_at};

    /// Returns the stop for a zone whose Zone line stands at this place.
    pub fn at(self, zone_place: Place) -> Stop
        ensures { result ≡ stop_at zone_place self }
    {
        match self {
            ZoneStop::Fault(kind) => Stop::at(zone_place, kind),
            ZoneStop::Memory => Stop::Memory,
        }
    }
}

impl From<Kind> for ZoneStop {
    ghost use Rattle.zic_base.specs.declared.stops.ZoneStop.TheVariants.{Fault};

    ghost from_gives = { λ kind e. e ≡ Fault kind };

    fn from(kind: Kind) -> ZoneStop {
        ZoneStop::Fault(kind)
    }
}

impl From<AllocError> for ZoneStop {
    ghost use Rattle.zic_base.specs.declared.stops.ZoneStop.TheVariants.{Memory};

    ghost from_gives = { λ _ e. e ≡ Memory };

    fn from(_e: AllocError) -> ZoneStop {
        ZoneStop::Memory
    }
}

impl<T: Drop> From<AllocFailed<T>> for ZoneStop {
    ghost use Rattle.zic_base.specs.declared.stops.ZoneStop.TheVariants.{Memory};

    ghost from_gives = { λ _ e. e ≡ Memory };

    fn from(_e: AllocFailed<T>) -> ZoneStop {
        ZoneStop::Memory
    }
}
