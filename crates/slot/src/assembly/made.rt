//! A slot made of a boxed assembly, and back.

ghost use Rattle.std.specs.Prelude.{◌≡◌, Some, None, IsSome};

use super::AssemblySlot;
use crate::parts::Parts;
use assembler::Assembly;
use std::alloc::Global;
use std::ptr::null_mut;

impl AssemblySlot {
    /// Makes a slot with this assembly.
    pub fn of(assembly: Box<Assembly>) -> AssemblySlot
        ensures { result.assembly ≡ Some assembly.value }
    {
        AssemblySlot::of_parts(Parts::of(assembly))
    }

    /// Makes a slot with no assembly.
    pub fn empty(alloc: Global) -> AssemblySlot
        ensures { result.assembly ≡ None }
    {
        AssemblySlot {
            at: null_mut(),
            alloc,
        }
    }

    /// Takes the assembly out.
    pub fn into_box(self) -> Box<Assembly>
        requires { IsSome self.assembly }
        ensures { self.assembly ≡ Some result.value }
    {
        self.into_parts().into_box()
    }

    fn of_parts(parts: Parts<Assembly, Global>) -> AssemblySlot
        ensures { result.assembly ≡ Some parts.value }
    {
        let Parts { ptr, alloc } = parts;
        AssemblySlot {
            at: ptr as *mut u8,
            alloc,
        }
    }

    fn into_parts(self) -> Parts<Assembly, Global>
        requires { IsSome self.assembly }
        ensures { self.assembly ≡ Some result.value }
    {
        let AssemblySlot { at, alloc } = self;
        Parts {
            ptr: at as *mut Assembly,
            alloc,
        }
    }
}
