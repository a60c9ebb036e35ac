//! The registers and flags as a machine keeps them, and what instructions do to them.
//!
//! The crate owns how the flags are kept: N and Z as the bytes that they follow from, computed only
//! when they are asked for. A caller sees the registers of `model`, a `Regs`, and may change them
//! by `effects` or field by field; each effect is one equation with `Effect.antt` of `model`. What
//! the kept flags stand for is `flags_of` in `specs/Lazy.antt`.
#![tactic(auto)]

pub use lazy_flags::LazyFlags;
pub use register_file::Registers;

pub mod effects;
mod lazy_flags;
mod register_file;
