//! What a test rig asks of a session beyond one event: a subroutine called, a run to an address,
//! and whole ranges of memory and of output.
//!
//! A caller may rely on `specs/Subroutine.antt`, which says in terms of events and runs what a call
//! does. The library for C and its like stand on this crate; a rig in Rattle may call it too.
#![tactic(auto)]

pub use given::{Called, Given};
pub use ranges::{read, read_output};
pub use subroutine::{call, call_with, happen, patch_byte, run_to};

mod given;
mod ranges;
mod subroutine;
