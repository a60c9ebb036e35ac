//! A session and an assembly behind a pointer that C holds and does not look into.
//!
//! It is the only crate with a raw pointer. `SessionSlot` and `AssemblySlot` own what stands behind
//! theirs, and say which it is by a ghost field, since no struct with a `Vec` may stand in the
//! signature of an export, not even behind a pointer. The calls of `mos65_c` are proved over them
//! with no step on pointers of their own.
#![tactic(auto)]

pub use assembly::AssemblySlot;
pub use parts::Parts;
pub use session::SessionSlot;

pub mod assembly;
mod parts;
pub mod session;
