//! Steps by lines of a source, forwards and back, over the list of states that a session is.
//!
//! `lines` says which line begins at a state, by a list of addresses (`specs/Lines.antt`).
//! Subroutines are passed over: `calls` follows a run's calls by the stack pointer
//! (`specs/Calls.antt`). `forwards` makes steps to the first later state at which another
//! line begins, and that is within no call of the run (`specs/Forwards.antt`). `back` undoes events
//! to the last earlier state held at which a line begins, and that is within no call that has
//! returned since (`specs/Back.antt`). Nothing is run backwards.
#![tactic(auto)]

mod back;
mod calls;
mod forwards;
mod lines;

pub use back::back_by_line;
pub use calls::{call_begun, call_open};
pub use debugger::{RunEnd, Session, Why};
pub use forwards::run_by_line;
pub use lines::{FileLine, LineStart, begun, is_other};
