//! What a debug adapter does to a state of `mon`: it moves the machine forwards and back, and sets
//! and clears breakpoints.
//!
//! `moves` makes a move, those by lines with `lines`, and from a watch in a library to a line with
//! `onward`; `halts` says why the machine stands then, `breaks` replaces breakpoints. What a move
//! does stands in `specs/Moves.antt`, `specs/Lines.antt` and `specs/Onward.antt`, why the machine
//! stands in `specs/Halts.antt`, what becomes of breakpoints in `specs/Breaks.antt`.
#![tactic(auto)]

mod breaks;
mod halts;
mod lines;
mod moves;
mod onward;

pub use breaks::replace;
pub use halts::is_break;
pub use lines::goes_by_lines;
pub use moves::make_move;
