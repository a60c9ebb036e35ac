//! Files of names, as this assembler and other tools write them.
//!
//! `names_of_file` makes a source that gives the names of such a file: of its own `NAME = VALUE`,
//! of the labels of VICE, of a debug file of ld65 and of DASM's table (`specs/Labels.antt`). Lines
//! that give no name that can stand in a source are left out and counted (`specs/Meanings.antt`).
//! Names that an image may have are kept beside the source (`specs/ImageNames.antt`). The
//! definition is `specs/NamesFile.antt`.
#![tactic(auto)]

mod form;
mod image_name;
mod kept;
mod label;
mod meaning;
mod names;
mod unlabelled;

pub use names::{NamesFile, names_of_file};
