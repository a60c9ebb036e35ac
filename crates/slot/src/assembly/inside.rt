//! The assembly in a slot.

ghost use Rattle.std.specs.Prelude.{◌≡◌, Some, IsSome};
ghost use types.Logic.{sem};
ghost use Rattle.slot.specs.AssemblyFollows.{slot_follows};

use super::AssemblySlot;
use assembler::Assembly;

impl AssemblySlot {
    /// Lends the assembly, to read and to change.
    pub fn inside(&mut self) -> &mut Assembly
        requires { IsSome self.old.assembly }
        ensures* writes_back { sem 𝓛 (slot_follows self.entry result) }
        ensures value { self.old.assembly ≡ Some result.now }
    {
        unsafe { &mut *(self.at as *mut Assembly) }
    }
}
