//! The word `check`: all faults of each source, with what a person needs, or its warnings where it
//! has no fault.
//!
//! `check` is the word, with its words (`words`) and what it does with files (`running`).
//! `checked_text` is the text of a source: the blocks of its faults, which `fault_notes` writes, or
//! those of its warnings, which `warning_notes` writes.
#![tactic(auto)]

mod running;
mod text;
mod words;

pub use running::check;
pub use words::check_command;
