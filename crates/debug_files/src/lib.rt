//! Debug information of another tool, read from its file, with the sources that it names.
//!
//! `load_places` reads a debug file of ld65 or a listing of 64tass (`specs/Forms.antt`) and tells
//! its first fault, or makes of it what stands where in a program with these bytes
//! (`specs/Loads.antt`); `load_places_of` does so for a program that was loaded into a session
//! (`specs/Loaded.antt`). Which texts the files have, no clause can say: a source that cannot be
//! read, or whose size is not that of which the debug file tells, has lines without text;
//! `tell_changed` tells of the latter.
#![tactic(auto)]

mod changed;
mod faults;
mod forms;
mod loaded;
mod paths;
mod places;
mod sources;
mod written;

pub use changed::{Sought, SourceState, state_of, tell_changed};
pub use faults::load_fault;
pub use forms::read_info;
pub use loaded::load_places_of;
pub use paths::{begins_at_root, folder_of};
pub use places::{DebugPlaces, load_places};
pub use sources::source_state;
pub use written::{check_sources, is_source, replaced_source};
