//! A session with a reader and a writer for its console: a program that runs as its user meets it.
//!
//! `play` makes a whole run, and `take_turn` one turn of it. A line is read only where the program
//! looks for input and none waits; each byte of output is written as it comes. `specs/Playing.antt`
//! says where a run leads, and `specs/Turns.antt` where a turn does, in words of `model`. Turns
//! that need no look are made many at a time (`stretch.rt`). `proofs/Steps.antt` and
//! `proofs/Gliding.antt` have the proof's ideas: what a step takes of the input shows in the
//! session's views, and a plain step is a turn that ends no run.
#![tactic(auto)]

pub use ending::{Ending, PlayFault, Played};
pub use memo::Memo;
pub use running::play;
pub use stretch::{is_at, take_plain_turn};
pub use turn::{Player, begin, ending_after, take_turn};

mod ending;
mod input;
mod memo;
mod output;
mod running;
mod stretch;
mod turn;
