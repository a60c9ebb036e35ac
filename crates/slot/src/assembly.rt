//! A place for an assembly.

ghost use Rattle.std.specs.Prelude.{Option};
ghost use Rattle.assembler.specs.Assembly.{AssemblyView};

use std::alloc::Global;
use std::marker::Model;

pub mod inside;
pub mod made;

/// A pointer to an assembly on the heap, or no assembly.
#[repr(C)]
#[derive(Drop)]
pub struct AssemblySlot {
    pub(crate) at: *mut u8,
    pub(crate) alloc: Global,
    pub ghost assembly: { Option AssemblyView },
}

impl Model for AssemblySlot {
    ghost use Rattle.slot.specs.AssemblyOwned.{slot_owns};

    ghost also_owns = { λ s. slot_owns s.alloc s.at s.assembly };
}
