//! A box with its pointer and its allocator in sight.

ghost use Rattle.std.specs.Prelude.{◌≡◌};

use std::alloc::Allocator;
use std::marker::Model;

/// A value on the heap: where it stands, and what frees it.
pub struct Parts<T, A: Allocator> {
    pub(crate) ptr: *mut T,
    pub(crate) alloc: A,
    pub ghost value: { T },
}

impl<T, A: Allocator> Model for Parts<T, A> {
    ghost use Rattle.std.specs.Box.Ownership.{box_owns};

    ghost also_owns = { λ p. box_owns (A.dealloc_token p.alloc) T.row p.ptr p.value };
}

impl<T, A: Allocator> Parts<T, A> {
    /// Takes a box apart.
    pub fn of(value: Box<T, A>) -> Parts<T, A>
    where
        T: Drop,
        ensures { result.value ≡ value.value }
    {
        let (ptr, alloc) = Box::into_raw_with_allocator(value);
        Parts { ptr, alloc }
    }

    /// Makes the box again.
    pub fn into_box(self) -> Box<T, A>
        ensures { result.value ≡ self.value }
    {
        let Parts { ptr, alloc } = self;
        unsafe { Box::from_raw(alloc, ptr) }
    }
}
