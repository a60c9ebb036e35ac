//! What `mon` shows of a session: registers, memory, the stack, the screen, breaks and watches;
//! help, and what is missing or wrong in a line.
//!
//! Each call appends to a text, and changes no session. Names are put where addresses stand. The
//! words stand in `wording`.
#![tactic(auto)]

mod help;
mod memory;
mod pushed;
mod screen;
mod slips;
mod stack;
mod state;
mod stops;
pub mod wording;

pub use help::{push_example, push_help};
pub use memory::push_memory;
pub use pushed::{Pushed, pushed_at, pushed_len};
pub use screen::{push_output_since, push_screen};
pub use slips::push_slip;
pub use stack::push_stack;
pub use state::{push_flags, push_state};
pub use stops::{push_break, push_number, push_register, push_register_watch, push_watch};
