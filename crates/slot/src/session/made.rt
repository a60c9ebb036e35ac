//! A slot made of a boxed session, and back.

ghost use Rattle.std.specs.Prelude.{◌≡◌, Some, None, IsSome};

use super::SessionSlot;
use crate::parts::Parts;
use debugger::Session;
use std::alloc::Global;
use std::ptr::null_mut;

impl SessionSlot {
    /// Makes a slot with this session.
    pub fn of(session: Box<Session>) -> SessionSlot
        ensures { result.session ≡ Some session.value }
    {
        SessionSlot::of_parts(Parts::of(session))
    }

    /// Makes a slot with no session.
    pub fn empty(alloc: Global) -> SessionSlot
        ensures { result.session ≡ None }
    {
        SessionSlot {
            at: null_mut(),
            alloc,
        }
    }

    /// Takes the session out.
    pub fn into_box(self) -> Box<Session>
        requires { IsSome self.session }
        ensures { self.session ≡ Some result.value }
    {
        self.into_parts().into_box()
    }

    fn of_parts(parts: Parts<Session, Global>) -> SessionSlot
        ensures { result.session ≡ Some parts.value }
    {
        let Parts { ptr, alloc } = parts;
        SessionSlot {
            at: ptr as *mut u8,
            alloc,
        }
    }

    fn into_parts(self) -> Parts<Session, Global>
        requires { IsSome self.session }
        ensures { self.session ≡ Some result.value }
    {
        let SessionSlot { at, alloc } = self;
        Parts {
            ptr: at as *mut Session,
            alloc,
        }
    }
}
