//! What an editor's views show of a session, and the breakpoints and watches that it lists.
//!
//! `stack` finds the frames of the stack, by what `mon_texts` takes to have pushed something;
//! `frames` shows them. `variables` shows the variables of a scope, `memory` bytes, `rows`
//! instructions, `locals` the locals of a frame of C, `looks` what a text names. `named` finds the
//! variable that a client names. `paged` is a page of a list. `texts` makes texts of bytes,
//! `source` has the files that a client sees. These change nothing. `laws` has what holds of all
//! frames.
//!
//! Each list of breakpoints replaces the one before: `wanted` reads the breakpoints of a list,
//! `listed` sets them and answers, `watches` watches bytes. `lines` says where lines begin,
//! `locations` at which lines breakpoints can stand, `targets` the addresses at which a line can be
//! gone to.
//!
//! What is shown and answered are values of `dap_messages`, which alone writes them as JSON.
//!
//! What is shown stands in `specs/Frames.antt`, `specs/Scopes.antt`, `specs/Pages.antt`,
//! `specs/Memory.antt`, `specs/Rows.antt`, `specs/Looks.antt` and `specs/Named.antt`, with the
//! variables of `specs/Variables.antt`. What a list does stands in `specs/Breaks.antt` and
//! `specs/Watches.antt`, what is answered in `specs/Answered.antt`, what can be chosen in
//! `specs/Locations.antt` and `specs/Targets.antt`.
#![tactic(auto)]

mod frames;
mod laws;
mod lines;
mod listed;
mod locals;
mod locations;
mod looks;
mod memory;
mod named;
mod paged;
mod rows;
mod source;
mod stack;
mod targets;
mod texts;
mod variables;
mod wanted;
mod watches;

pub use frames::frames_shown;
pub use laws::frames_are_those_of_where;
pub use listed::{set_addresses, set_functions, set_lines, set_source};
pub use locals::{local_scope, look_in_frame};
pub use locations::breakpoint_locations;
pub use looks::{look_at, looked_text};
pub use memory::memory_shown;
pub use named::{Variable, meant, value_shown, variable_named};
pub use rows::disassembled;
pub use source::{FilePath, Source, sources_shown};
pub use stack::is_frame;
pub use targets::goto_targets;
pub use texts::as_text;
pub use variables::variables_shown;
pub use watches::{data_shown, set_data};
