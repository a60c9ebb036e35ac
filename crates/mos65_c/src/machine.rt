//! The variables that C owns.

ghost use Rattle.std.specs.Prelude.{◌≡◌, is_some};

use slot::{AssemblySlot, SessionSlot};

/// Done.
pub const DONE: u32 = 0;
/// No machine or no assembly is open here.
pub const CLOSED: u32 = 1;
/// One is open here already, or an argument is out of its range.
pub const MISUSE: u32 = 2;
/// A request for memory was refused.
pub const OUT_OF_MEMORY: u32 = 3;
/// The source defines no such name.
pub const NO_SUCH_NAME: u32 = 4;
/// No line of the source has this index.
pub const NO_SUCH_LINE: u32 = 5;

/// A machine with its history, or none: all zero at first.
#[repr(C)]
#[derive(Drop)]
pub struct Mos65 {
    pub slot: SessionSlot,
    pub live: bool,
    ghost same: { live ≡ is_some slot.session },
}

/// An assembly, or none: all zero at first.
#[repr(C)]
#[derive(Drop)]
pub struct Mos65Assembly {
    pub slot: AssemblySlot,
    pub live: bool,
    ghost same: { live ≡ is_some slot.assembly },
}
