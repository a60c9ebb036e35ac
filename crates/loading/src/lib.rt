//! A file loaded into a session, and places in it by name or by number.
//!
//! `load` returns a session at the start of an image that some such file denotes on the map of the
//! words, with the assembly of a source and the addresses at which the image has a byte, or says
//! why not (`specs/Loads.antt`): of a source with faults it tells all of them, as `faults_of` does
//! for every word. Which file it is, no clause can say. `load_named` gives an image that has no
//! source the names of a file (`specs/Named.antt`), and `load_machine` several images as one
//! machine (`specs/Machine.antt`). Where the words say so, fill at the port is left out of an image
//! (`image_files/specs/Fill.antt`). `tell_warnings` tells how many warnings a source has, and what
//! was left out (`specs/Warned.antt`). `place_of` finds the address of a name, of hex digits or of
//! a sum, and `place_by` one whose name another table has (`specs/Place.antt`).
#![tactic(auto)]

mod digits;
mod loaded;
mod machine;
mod named;
mod place;
mod warned;

pub use loaded::{
    ImageNames, Loaded, assembled_source, faults_of, load, load_counted_names, load_image_names,
    load_names, load_with_history,
};
pub use machine::{FileFault, MachineFault, load_files, load_machine};
pub use named::{NamedFault, load_named};
pub use place::{address_in, front_of, moved, place_by, place_of};
pub use warned::{tell_left_out, tell_warnings};
