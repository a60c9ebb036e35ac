//! The replies to commands: each call changes the session as the command asks, and writes the
//! reply.
//!
//! The crate owns the form of each reply and which call of the session a command makes. Texts are
//! put together without allocating. The engine calls one function for each command; each one's
//! clause is the definition's answer, in `Transcript.antt` of `model`. `proofs/Writing.antt` says
//! what was written if a write fails.
#![tactic(auto)]

pub use calls::{clear_break, clear_watch, go_back, run, set_break, set_watch};
pub use events::{happen, step, take_input};
pub use fault::ReplyFault;
pub use output::put;
pub use texts::source_fault_text;
pub use views::{put_breaks, put_instructions, put_output, put_registers, put_rows};

mod calls;
mod events;
mod fault;
mod output;
mod texts;
mod views;
