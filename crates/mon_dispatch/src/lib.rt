//! What each line of `mon` does to a session, and what it writes.
//!
//! `lines` passes what a line asks for, which `mon_lines` has read, to `mon_steps`, `mon_settings`,
//! or `looks`, which has the lines that change nothing. `finding` looks for bytes in memory;
//! `forms` has help on instructions, with the flags of `opcode_facts`. What each line does stands
//! in `specs/Lines.antt`, what it writes in `specs/LineTexts.antt`.
#![tactic(auto)]

mod finding;
mod forms;
mod lines;
mod looks;
pub mod wording;

pub use lines::{Outcome, follow, serve};
