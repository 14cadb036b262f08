//! Why a conversion ends early.

use std::alloc::AllocError;
use zic_base::RunStop;

/// The reason why a conversion ends early.
#[derive(Drop)]
pub(crate) enum Halt {
    /// The column could not be read on; its reader says why.
    Unread,
    /// Another reason.
    Stop(RunStop),
}

impl From<zic_columns::Unread> for Halt {
    ghost use Rattle.std.specs.Prelude.{◌≡◌};
    ghost use Rattle.zic_convert.specs.declared.halt.Halt.TheVariants as halt;

    ghost from_gives = { λ _ e. e ≡ halt.Unread };

    fn from(_e: zic_columns::Unread) -> Halt {
        Halt::Unread
    }
}

impl From<RunStop> for Halt {
    ghost use Rattle.std.specs.Prelude.{◌≡◌};
    ghost use Rattle.zic_convert.specs.declared.halt.Halt.TheVariants as halt;

    ghost from_gives = { λ stop e. e ≡ halt.Stop stop };

    fn from(stop: RunStop) -> Halt {
        Halt::Stop(stop)
    }
}

impl From<AllocError> for Halt {
    ghost use Rattle.std.specs.Prelude.{◌≡◌};
    ghost use Rattle.zic_convert.specs.declared.halt.Halt.TheVariants as halt;
    ghost use Rattle.zic_base.specs.declared.stops.RunStop.TheVariants as stop;

    ghost from_gives = { λ _ e. e ≡ halt.Stop stop.Memory };

    fn from(_e: AllocError) -> Halt {
        Halt::Stop(RunStop::Memory)
    }
}
