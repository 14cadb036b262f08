//! Boxes with their fields in sight.

ghost use Rattle.std.specs.Prelude.{◌≡◌};
ghost use Rattle.std.specs.Borrow.{lent_at};
ghost use Rattle.std.specs.Box.Ownership.{box_owns};

use std::alloc::Allocator;
use std::marker::Model;

/// The pointer of a box and its allocator. They own what the box did.
pub(crate) struct Parts<T, A: Allocator> {
    pub(crate) ptr: *mut T,
    pub(crate) alloc: A,
    pub ghost value: { T },
}

impl<T, A: Allocator> Model for Parts<T, A> {
    ghost also_owns = { λ p. box_owns (A.dealloc_token p.alloc) T.row p.ptr p.value };

    ghost also_shares = { λ p _ κ. lent_at T.row p.ptr p.value κ };
}

impl<T, A: Allocator> Parts<T, A> {
    /// Returns the parts of a box.
    pub(crate) fn of(b: Box<T, A>) -> Parts<T, A>
    where
        T: Drop,
        ensures { result.value ≡ b.value }
    {
        let (ptr, alloc) = Box::into_raw_with_allocator(b);
        Parts { ptr, alloc }
    }

    /// Returns what the box held.
    pub(crate) fn held(&self) -> &T
        ensures { result.now ≡ self.now.value }
    {
        unsafe { &*self.ptr }
    }

    /// Returns the box of these parts.
    pub(crate) fn into_box(self) -> Box<T, A>
        ensures { result.value ≡ self.value }
    {
        let Parts { ptr, alloc } = self;
        unsafe { Box::from_raw(alloc, ptr) }
    }
}
