//! The word `trace`: a program that runs with the process's streams for its console, and what each
//! of its steps did.
//!
//! The program is run turn by turn, as the word `run` runs it (`turns.rt`). A step that is counted
//! and no more is made without a look at what it touches. `trace_rows` writes the rows, `accesses`
//! says what a step is about to touch and keeps what was counted.
#![tactic(auto)]

mod lines;
mod notes;
mod sheet;
mod trace;
mod tracer;
mod turns;
mod wording;

pub use trace::trace_program;
