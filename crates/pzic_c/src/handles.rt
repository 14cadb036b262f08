//! The calls that share and let go what handles hold.

ghost use Rattle.std.specs.Prelude.{◌≡◌, None};
ghost use Rattle.pzic_zones.specs.Handle.{IsHandle, IsShared, held_in};

use pzic_zones::Handle;
use std::alloc::Global;

/// Has another handle hold the same too. It is let go with the last of its handles.
#[unsafe(no_mangle)]
pub extern "C" fn pzic_raw_share(alloc: Global, handle: &mut Handle, other: &mut Handle) -> i32
    requires handle { IsHandle handle.old }
    requires other { IsHandle other.old }
    ensures unchanged { handle.new ≡ handle.old }
    ensures other { IsHandle other.new }
    ensures shared { IsShared (held_in handle.old) result (held_in other.new) }
{
    pzic_zones::share(alloc, handle, other)
}

/// Lets go what a handle holds, which then holds nothing.
#[unsafe(no_mangle)]
pub extern "C" fn pzic_raw_free(alloc: Global, handle: &mut Handle)
    requires { IsHandle handle.old }
    ensures handle { IsHandle handle.new }
    ensures empty { held_in handle.new ≡ None }
{
    pzic_zones::free(alloc, handle)
}
