//! The calls on the stack of a session by the functions of C that debug information has, as values.
//!
//! `c_frames` follows code from functions that it is told of, and knows neither debug files nor
//! sessions. Here its program is made: the memory of a state, the functions of `source_map`, and
//! the routines of cc65's runtime by their names. `Tables` has what is found by following the code
//! of one state; frames, locals and parameters are asked of it. No history is needed, and no state
//! is changed. Where the software stack pointer or every function is unknown there are no tables.
//!
//! `push_value` writes what a local holds.
#![tactic(auto)]

mod found;
mod memory;
mod tables;
mod values;

pub use c_frames::{Auto, Frame, Local};
pub use found::{auto_of, autos_of, function_at};
pub use memory::memory_of;
pub use tables::{Parameters, Tables, tables_at, tables_of};
pub use values::{is_number, push_bytes, push_value};
