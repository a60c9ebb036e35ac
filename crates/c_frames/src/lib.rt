//! Frames of C from one state of a machine, as cc65 makes its code: no history is needed.
//!
//! cc65 keeps no frame pointer. How far its software stack pointer `sp` and the stack pointer S are
//! from where they were at a function's first byte is the same each time an instruction is
//! reached, so it is found by following the code. `rests` says what is added from an instruction
//! to the end of its routine, `depths` what was added since the first byte of its function: both
//! are the least tables closed under the rules of `specs/Closures.antt`, over the ways of
//! `specs/Ways.antt`. What the routines of cc65's runtime and some functions of its library do is a
//! table of names, `ROUTINES` in `names`, which is believed; `tools/check/c_runtime` calls each of
//! them. `frames` goes from one state to its callers (`specs/Frames.antt`), `local_at` says where a
//! parameter or a local is (`specs/Locals.antt`). Where something is not known, nothing is said.
//!
//! The caller says which functions there are, where the routines are, and at which offsets the
//! locals; nothing is read from a debug file here. Not followed are calls through a pointer, code
//! that changes `sp` by itself, and `leave`. Register variables and static locals have no place.
#![tactic(auto)]

mod bytes;
mod closing;
mod locals;
mod names;
mod programs;
mod rises;
mod routines;
#[cfg(test)]
mod tests;
mod walk;
mod ways;

pub use bytes::word_at;
pub use closing::{depth_at, depths, rests};
pub use locals::{Auto, Local, local_at};
pub use names::effect_named;
pub use programs::{Function, Program};
pub use rises::{Depth, Rise};
pub use routines::{Effect, Routine};
pub use walk::{Frame, Standing, frames, known, pushed_first};
