//! Lines of `mon` that move the session: forwards by steps and runs, backwards, and forwards again
//! by the events that were undone.
//!
//! `stepping` shows each step, `runs` goes on to a stop, `endings` and `reasons` say how a run has
//! ended, `source_lines` at which line of C or of another assembler, `strays` where a program has,
//! before a BRK that has no handler.
//! `back` undoes events, `again` makes them again. What each line does to the session stands in
//! `specs/RunLines.antt` and `specs/BackLines.antt`, what it says in `specs/RunTexts.antt` and
//! `specs/BackTexts.antt`.
#![tactic(auto)]

mod again;
mod back;
mod endings;
mod reasons;
mod runs;
mod source_lines;
mod stepping;
mod strays;
pub mod wording;

pub use again::{redo, show_history};
pub use back::{tell_also_undone, undo, undo_to_stop};
pub use endings::{Begun, show_end, show_since, tell_ended};
pub use reasons::push_after;
pub use runs::{run, run_until, step_out};
pub use stepping::{step_over, steps};
