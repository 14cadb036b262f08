//! Letting go and sharing what handles hold.

ghost use Rattle.std.specs.Prelude.{◌≡◌, None};
ghost use Rattle.pzic_zones.specs.Handle.{IsHandle, IsShared, held_in};

use crate::handle::Handle;
use crate::held::Held;
use crate::status::{NO_MEMORY, OK};
use std::alloc::Global;

/// Has another handle hold the same too. It is let go with the last of its handles.
pub fn share(alloc: Global, handle: &mut Handle, other: &mut Handle) -> i32
    requires handle { IsHandle handle.old }
    requires other { IsHandle other.old }
    ensures unchanged { handle.new ≡ handle.old }
    ensures other { IsHandle other.new }
    ensures shared { IsShared (held_in handle.old) result (held_in other.new) }
{
    drop(other.take(alloc));
    handle.lend(
        alloc,
        &mut |held: &Held| match held.again(alloc) {
            Ok(twin) => {
                other.put(twin);
                OK
            }
            Err(_) => NO_MEMORY,
        },
    )
}

/// Lets go what a handle holds, which then holds nothing.
pub fn free(alloc: Global, handle: &mut Handle)
    requires { IsHandle handle.old }
    ensures handle { IsHandle handle.new }
    ensures empty { held_in handle.new ≡ None }
{
    let held = handle.take(alloc);
    drop(held);
}
