//! Files of marks: what a person says of an image, for `dis --source`.
//!
//! `marks_of_file` reads one, line by line, after what the command line said. `fields` cuts a line,
//! `word` says what its first word marks, `values` reads ranges and routines, which are written as
//! on the command line, `labels` tells which names can stand in a source, `marks` keeps what was
//! said, and `taking` adds what a line says, or refuses it. The definition is
//! `specs/MarksFile.antt`.
#![tactic(auto)]

mod fault;
mod fields;
mod file;
mod labels;
mod marks;
mod taking;
mod values;
mod word;

pub use fault::{MarksError, MarksFault, MarksFaultKind};
pub use file::marks_of_file;
pub use marks::{Marks, RangeKind, Remark, Split};
pub use values::{addresses, range, routine};
