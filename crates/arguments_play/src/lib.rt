//! The words of `run`, `trace` and `mon`, the words that a program is played by.
//!
//! Each word has a command line and the words that it asks for, as a person wrote them. Places are
//! not looked up here. What a word asks for is said by `clap`'s own definition of a parse
//! (`specs/Run.antt`, `specs/Trace.antt`, `specs/Mon.antt`). `debug_asked` says which debug
//! information they may name (`specs/Debug.antt`).
#![tactic(auto)]

mod debug;
mod mon;
mod mon_words;
mod run;
mod size;
mod trace;

pub use debug::{DEBUG_HELP, DEBUG_TAKES, ROOT_HELP, debug_asked};
pub use mon::{mon_command, read_mon_words};
pub use mon_words::MonWords;
pub use run::{RunWords, read_run_words, run_command};
pub use trace::{TraceWords, read_trace_words, trace_command};
