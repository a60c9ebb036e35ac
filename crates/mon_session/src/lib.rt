//! What a session of `mon` has, which all lines work at.
//!
//! `mon_state` holds the machine's session, its events, the breaks and watches, the names and lines
//! of the program, what is shown at each stop, and the text that is to be written. It says what the
//! state is, and why an event was rejected. `events` holds the last events and those that were
//! undone, so that these can be made again. What each line does stands in the crates above this
//! one.
#![tactic(auto)]

mod events;
mod faults;
mod mon_state;
pub mod wording;

pub use events::Events;
pub use faults::push_fault;
pub use mon_runs::Session;
pub use mon_state::MonState;
