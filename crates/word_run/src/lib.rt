//! The word `run`: a program that runs with the process's streams for its console.
//!
//! `run_program` serves the word. `specs/Runs.antt` says what it does by the status: the run is
//! that of `console`, from the start of an image that the file can have. `specs/Told.antt` says
//! what the error stream gets of a run's end; other words tell it by the same calls. `Known` is
//! what is known of a program's names and lines: by its source, or by debug information
//! (`specs/Known.antt`). Places are found by both (`specs/Places.antt`). A run can be interrupted
//! by its writer, `Interruptible`.
#![tactic(auto)]

mod ended;
mod interruptible;
mod known;
mod places;
mod run;
mod site;
mod started;
mod wording;

pub use ended::{status_of_ending, tell_ending};
pub use interruptible::{Interruptible, open_requests};
pub use known::{Debugged, Known, load_debug};
pub use run::run_program;
pub use started::{place_named, refusal_of};
