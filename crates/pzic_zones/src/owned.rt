//! Pointers to what handles hold. Raw pointers stand here and in `parts` alone.

ghost use Rattle.std.specs.Prelude.{◌≡◌, Option, Some, None};
ghost use Rattle.pzic_zones.specs.Owned.{owned};
ghost use Rattle.pzic_zones.specs.code.Holding.{IsHolding};
ghost use Rattle.pzic_zones.specs.declared.held.Held.{Held};

use crate::held::Held;
use crate::parts::Parts;
use std::alloc::Global;
use std::marker::Model;
use std::ptr::null_mut;

/// A pointer to what a handle holds, which it owns, or to nothing. Dropping it frees nothing:
/// `into_parts` hands on what it owns.
#[repr(C)]
#[derive(Drop)]
pub struct Owned {
    at: *mut u8,
    alloc: Global,
    pub ghost value: { Option Held },
}

impl Model for Owned {
    ghost also_owns = { λ h. owned h.at h.value };
}

impl Owned {
    /// Returns a pointer to nothing.
    pub(crate) fn none(alloc: Global) -> Owned
        ensures { result.value ≡ None }
    {
        Owned {
            at: null_mut(),
            alloc,
        }
    }

    /// Returns a pointer to what was in a box.
    pub(crate) fn of_parts(parts: Parts<Held, Global>) -> Owned
        ensures { result ≡ record { at = parts.ptr; alloc = parts.alloc; value = Some parts.value } }
    {
        let Parts { ptr, alloc } = parts;
        Owned {
            at: ptr as *mut u8,
            alloc,
        }
    }

    /// Returns the parts of a box of what is owned.
    pub(crate) fn into_parts(self) -> Parts<Held, Global>
        requires { IsHolding self.value }
        ensures { self ≡ record { at = result.ptr; alloc = result.alloc; value = Some result.value } }
    {
        let Owned { at, alloc } = self;
        Parts {
            ptr: at as *mut Held,
            alloc,
        }
    }
}
