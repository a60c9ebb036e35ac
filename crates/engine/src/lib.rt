//! The engine: a source or a tape and command lines in, replies out.
//!
//! The crate owns the loop: bytes to lines, one arm for each command, the reply written and flushed
//! before the reader is asked again. Its three public calls carry the transcript theorem;
//! `specs/Outcome.antt` says what was read and written by the result. The proof's idea is in
//! `proofs/Serving.antt`: what was served of a beginning of the input is the transcript of its
//! lines.
#![tactic(auto)]

pub use fault::EngineFault;
pub use source::debug_source;
pub use tape::debug_tape;
pub use tape_from::debug_tape_from;

mod asm;
mod command;
mod fault;
mod image;
mod lines;
mod source;
mod tape;
mod tape_from;
