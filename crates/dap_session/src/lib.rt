//! A session of the debug adapter, from its launch on: what each request does to it, and what is
//! answered.
//!
//! `launching` reads what a launch asks for, `client` begins a session by it, `files` has the files
//! of its source, `fault` has why a request is not done. `stands` tells why the machine stands,
//! `console` serves lines of `mon` and sets variables, `changing` makes another instruction the
//! next and writes to memory, `passing` makes moves, past log points, `completion` offers words for
//! one that is typed, `telling` says what a client is told besides an answer, `answering` has each
//! request of a session. `dap_desk` moves the machine.
//!
//! What a launch asks for stands in `specs/Options.antt`, how a session begins in
//! `specs/Begun.antt`, with which files in `specs/Paths.antt`, what each request does in
//! `specs/Answered.antt`: what a line does in `specs/Console.antt`, a variable, a target and bytes
//! in `specs/Changes.antt`. Which log points there are stands in `specs/Logs.antt`, how a move goes
//! on past them in `specs/Passes.antt`. What can be chosen stands in `specs/Completions.antt`, what
//! is told in `specs/Told.antt`.
#![tactic(auto)]

mod answering;
mod changing;
mod client;
mod completion;
mod console;
mod fault;
mod files;
mod launching;
mod passing;
mod stands;
mod telling;
mod wording;

pub use answering::{answer, goes_on, lets_run};
pub use client::{Client, begin_session, put_client};
pub use console::with_terminated;
pub use fault::{Fault, or_memory, refused};
pub use stands::all_done;
pub use telling::{answered, with_event};
