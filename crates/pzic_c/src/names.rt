//! The calls that give names, and the version.

ghost use Rattle.std.specs.Prelude.{◌≡◌};
ghost use Rattle.zic_base.specs.FaultName.{IsFaultName};
ghost use Rattle.zic_tzif.specs.Reason.{IsReasonName};
ghost use Rattle.pzic_files.specs.Names.{IsNameCopied};

use pzic_files::VERSION;

/// Copies the name of a fault's kind, as much as there is room for.
#[unsafe(no_mangle)]
pub extern "C" fn pzic_raw_name_of_fault(kind: u32, room: &mut [u8], count: &mut usize) -> i32
    ensures { IsNameCopied (IsFaultName kind) result
        room.old room.new count.old count.new }
{
    pzic_files::name_of_fault(kind, room, count)
}

/// Copies the name of a reason, as much as there is room for.
#[unsafe(no_mangle)]
pub extern "C" fn pzic_raw_name_of_reason(reason: u32, room: &mut [u8], count: &mut usize) -> i32
    ensures { IsNameCopied (IsReasonName reason) result
        room.old room.new count.old count.new }
{
    pzic_files::name_of_reason(reason, room, count)
}

/// Returns the version.
#[unsafe(no_mangle)]
pub extern "C" fn pzic_version() -> u32
    ensures { result ≡ VERSION }
{
    pzic_files::version()
}
