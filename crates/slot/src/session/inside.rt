//! The session in a slot.

ghost use Rattle.std.specs.Prelude.{◌≡◌, Some, IsSome};
ghost use types.Logic.{sem};
ghost use Rattle.slot.specs.SessionFollows.{slot_follows};

use super::SessionSlot;
use debugger::Session;

impl SessionSlot {
    /// Lends the session, to read and to change.
    pub fn inside(&mut self) -> &mut Session
        requires { IsSome self.old.session }
        ensures* writes_back { sem 𝓛 (slot_follows self.entry result) }
        ensures value { self.old.session ≡ Some result.now }
    {
        unsafe { &mut *(self.at as *mut Session) }
    }
}
