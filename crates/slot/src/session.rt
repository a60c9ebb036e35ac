//! A place for a session.

ghost use Rattle.std.specs.Prelude.{Option};
ghost use Rattle.model.specs.Session.{Session as SessionView};

use std::alloc::Global;
use std::marker::Model;

pub mod inside;
pub mod made;

/// A pointer to a session on the heap, or no session.
#[repr(C)]
#[derive(Drop)]
pub struct SessionSlot {
    pub(crate) at: *mut u8,
    pub(crate) alloc: Global,
    pub ghost session: { Option SessionView },
}

impl Model for SessionSlot {
    ghost use Rattle.slot.specs.SessionOwned.{slot_owns};

    ghost also_owns = { λ s. slot_owns s.alloc s.at s.session };
}
