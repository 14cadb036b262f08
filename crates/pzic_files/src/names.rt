//! The names of faults and reasons, as the program prints them.

ghost use Rattle.std.specs.Prelude.{◌≡◌, MatchOption};
ghost use Rattle.zic_base.specs.FaultName.{IsFaultName};
ghost use Rattle.zic_tzif.specs.Reason.{IsReasonName};
ghost use Rattle.pzic_zones.specs.declared.status.TheConstants.{NO_SUCH};
ghost use Rattle.pzic_files.specs.Names.{IsNameCopied};
ghost use Rattle.pzic_files.specs.Text.{IsTextCopied};

use crate::copying::copy;
use pzic_zones::status::{NO_SUCH, OK};

/// Copies a name, if there is one, as much as there is room for.
fn tell(name: Option<&str>, room: &mut [u8], count: &mut usize) -> i32
    ensures { MatchOption name.entry
        ((result ≡ NO_SUCH) × (room.new ≡ room.old) × (count.new ≡ count.old))
        (λ text. IsTextCopied text.now result room.old room.new count.new) }
{
    match name {
        Some(name) => {
            copy(name.as_bytes(), room, count);
            OK
        }
        None => NO_SUCH,
    }
}

/// Copies the name of a fault's kind, as much as there is room for.
pub fn name_of_fault(kind: u32, room: &mut [u8], count: &mut usize) -> i32
    ensures { IsNameCopied (IsFaultName kind) result
        room.old room.new count.old count.new }
{
    tell(zic_base::name_of_fault(kind), room, count)
}

/// Copies the name of a reason, as much as there is room for.
pub fn name_of_reason(reason: u32, room: &mut [u8], count: &mut usize) -> i32
    ensures { IsNameCopied (IsReasonName reason) result
        room.old room.new count.old count.new }
{
    tell(zic_tzif::name_of_reason(reason), room, count)
}
