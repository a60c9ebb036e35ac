//! What stands where in a program: its names, and the lines of its source.
//!
//! They are taken from an assembly, which has the place of each line, or from the debug information
//! of another tool (`specs/Debugged.antt`). Either way there is one table of rows by address, and
//! one of sites by line (`specs/Lines.antt`). Debug information has functions of C as well
//! (`specs/Functions.antt`).
#![tactic(auto)]

mod debug_names;
mod debugged;
mod functions;
mod line_sites;
mod names;
mod places;
mod rows;
mod source_files;
mod texts;

pub use functions::{CFunction, CLocal};
pub use names::{Name, Names, is_same_word};
pub use places::Places;
pub use rows::{Row, Site, rows_of};
pub use source_files::SourceFile;
