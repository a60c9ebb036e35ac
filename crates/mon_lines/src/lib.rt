//! What a line of `mon` asks for, or what is missing or wrong in it.
//!
//! `read_line` is the one reader: a line to a `Command` or a `Slip`, with the names of the program
//! and PC for its places. `ReadLine` has with it the decimal digits that a reader may mean as hex.
//! `specs/Lines.antt` defines all three.
//!
//! `wholes` reads a part of a line from a text of its own, as the condition of a breakpoint:
//! `specs/Wholes.antt`.
#![tactic(auto)]

pub use command::{Command, Compare, Drawing, Left, Register, Stretch, Test, Undoing, WatchKind};
pub use line::ReadLine;
pub use read::read_line;
pub use slip::Slip;
pub use tests::{flag_of, register_of};
pub use wholes::{read_bit, read_bytes, read_place, read_setting, read_tests, read_times};

mod command;
mod line;
mod read;
mod slip;
mod stretches;
mod tests;
mod wholes;
