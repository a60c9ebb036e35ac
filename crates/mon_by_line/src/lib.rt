//! Steps of `mon` by lines of the source: forwards by a run to where another line begins, or back.
//!
//! `line_runs` makes such a run, which looks at each step as `go` does and ends at the first later
//! state at which another line begins, and that is within no call of the run
//! (`specs/LineRuns.antt`). `by_line` serves the lines of `mon`: what they do and what they say
//! stands in `specs/ByLine.antt`.
#![tactic(auto)]

mod by_line;
mod line_runs;

pub use by_line::{line_at, line_starts, run_to_line, undo_to_line};
pub use line_runs::line;
