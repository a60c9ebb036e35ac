//! What debug information says, for its user: its files and how they are found, its segments, and
//! at which addresses it has lines of which none is shown.
//!
//! `form_of` tells by the first bytes of a text whether it is debug information. `states_of` finds
//! the files that it names, `hidden_cells` marks the addresses of which no line is shown
//! (`specs/Hidden.antt`), and `known_text` and `push_hidden` write what is known as rows
//! (`specs/Rows.antt`); `fault_text` writes the first fault of a text.
#![tactic(auto)]

mod faults;
mod files;
mod form;
mod hidden;
mod rows;
mod segments;
mod wording;

pub use faults::fault_text;
pub use files::states_of;
pub use form::{DebugForm, form_of};
pub use hidden::hidden_cells;
pub use rows::known_text;
pub use segments::push_hidden;
