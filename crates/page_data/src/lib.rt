//! What a page holds of a run: for each step a record of what it changed, read and stored.
//!
//! `specs/Format.antt` says how a record is written and read, `specs/Changes.antt` what it makes of
//! a state, forwards and back, `specs/Start.antt` how the state at the start is held. `push_start`
//! appends that state, `push_step` the record of a step that was made. Its contract is the theorem:
//! what was written, decoded and applied, gives the states of the session, one after another, in
//! both directions. `record_event` makes any event, also one that is no step
//! (`specs/Events.antt`), and appends its record. `push_escaped` and `push_base64` write text in
//! which nothing begins markup.
#![tactic(auto)]

pub use ahead::{Ahead, look_ahead};
pub use event::record_event;
pub use start::push_start;
pub use step::push_step;
pub use stream::{SendFault, send_groups, send_rest};
pub use text::{push_base64, push_escaped};

mod ahead;
mod event;
mod marks;
mod start;
mod step;
mod stream;
mod text;
