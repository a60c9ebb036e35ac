//! The rows of a trace: a row for a step, for a label or a line that was visited, and for a read of
//! memory that nobody ever wrote; and how often the lines of a source were run, as lcov reads it.
//!
//! Each call appends to a text, and changes no session. `Sites` says which label and which line of
//! the source an address belongs to, found by the address, so that a row takes no search. `lcov`
//! appends the record of a source, or those of the files that debug information names
//! (`specs/Records.antt`).
#![tactic(auto)]

pub use counts::push_counts;
pub use lcov::{push_record, push_records};
pub use lines::SourceLine;
pub use sites::{Label, Sites};
pub use steps::{Step, push_step};
pub use unwritten::{Finding, Part, push_finding};

mod counts;
mod lcov;
mod lines;
mod sites;
mod steps;
mod unwritten;
mod words;
