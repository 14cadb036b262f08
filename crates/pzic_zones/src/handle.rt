//! Handles: what C holds of the library's values.

ghost use Rattle.std.specs.Prelude.{◌≡◌, Some, None, MatchOption, option_map};
ghost use Rattle.std.specs.Box.{box_value};
ghost use Rattle.std.specs.Fn.{CalledAt};
ghost use Rattle.pzic_zones.specs.Handle.{IsHandle, held_in};
ghost use Rattle.pzic_zones.specs.declared.status.TheConstants.{NO_HANDLE};

use crate::held::Held;
use crate::owned::Owned;
use crate::parts::Parts;
use crate::status::NO_HANDLE;
use std::alloc::Global;
use std::mem::replace;

/// The kind of a handle that holds nothing.
const NOTHING: u32 = 0;
/// The kind of a handle that holds a zone.
const ZONE: u32 = 1;
/// The kind of a handle that holds files.
const FILES: u32 = 2;
/// The kind of a handle that holds rows.
const ROWS: u32 = 3;

/// A handle, which C keeps and passes to each call. All zeros is one that holds nothing.
#[repr(C)]
#[derive(Drop)]
pub struct Handle {
    pub owned: Owned,
    pub kind: u32,
}

impl Handle {
    /// Takes what the handle holds out of it.
    pub fn take(&mut self, alloc: Global) -> Option<Box<Held>>
        requires { IsHandle self.old }
        ensures handle { IsHandle self.new }
        ensures empty { held_in self.new ≡ None }
        ensures taken { option_map box_value result ≡ held_in self.old }
    {
        let owned = replace(&mut self.owned, Owned::none(alloc));
        if self.kind == NOTHING {
            return None;
        }
        self.kind = NOTHING;
        Some(owned.into_parts().into_box())
    }

    /// Calls `answer` with what the handle holds, and returns its status, or `NO_HANDLE` if the handle
    /// holds nothing. The handle stays as it is, its pointer too.
    pub fn lend<F: FnMut(&Held) -> i32>(&mut self, alloc: Global, answer: &mut F) -> i32
        requires handle { IsHandle self.old }
        requires callable { (held : _) → F.pre answer.old held }
        ensures unchanged { self.new ≡ self.old }
        ensures answered { MatchOption (held_in self.old)
            ((result ≡ NO_HANDLE) × (answer.new ≡ answer.old))
            (λ held. CalledAt F.FnMut answer.old held result answer.new) }
    {
        if self.kind == NOTHING {
            return NO_HANDLE;
        }
        let parts = replace(&mut self.owned, Owned::none(alloc)).into_parts();
        let status = answer(parts.held());
        self.owned = Owned::of_parts(parts);
        status
    }

    /// Has the handle, which holds nothing, hold this.
    pub fn put(&mut self, held: Box<Held>)
        ensures handle { IsHandle self.new }
        ensures put { held_in self.new ≡ Some held.value }
    {
        let kind = match held.as_ref() {
            Held::Zone(_) | Held::Member(_) => ZONE,
            Held::Files(_) => FILES,
            Held::Rows(_) => ROWS,
        };
        self.owned = Owned::of_parts(Parts::of(held));
        self.kind = kind;
    }
}
