//! The source of an image: the definition of what is written of it, line by line.
//!
//! `specs/Rows.antt` has what a byte is written as, and lines of data. `specs/Undocumented.antt`
//! has the opcodes that the manual does not have, and their notes, `specs/Runs.antt` the notes of
//! long runs. `specs/Pieces.antt` says what a line stands for, and `specs/Labels.antt` which
//! addresses get a label and what is written. That these texts denote the image are the laws of
//! `law_source_forms`; `source_writer` writes them.
#![tactic(auto)]

mod mark;
mod undocumented;

pub use mark::Mark;
pub use undocumented::{Undocumented, undocumented_in};
