//! Suites: files of rows, each with the file that its rows are run on, a source or an image.
//!
//! `suites_of` says which these are by the words of a command line, `read_head` reads the line of a
//! file that names its source and the machine, and `prepare` reads the file and assembles the
//! source or loads the image (`specs/Programs.antt`), or says why it cannot be tested. The
//! functions of C that rows call come from its debug information (`specs/CFunctions.antt`).
//! `title_of` and `remarks_of` say why a suite cannot be tested in words.
//! `replaced_by` finds a file that is read and that a report would replace. Which bytes a file has,
//! no clause can say.
#![tactic(auto)]

mod c_functions;
mod fault;
mod fault_words;
mod head;
mod names;
mod prepared;
mod program;
mod replaced;
mod suites;
mod wording;

pub use fault::{FileFault, TestFault, Unprepared, is_memory, line_of};
pub use fault_words::{remarks_of, title_of};
pub use head::{Head, Opened};
pub use names::text_of;
pub use prepared::{Prepared, prepare};
pub use replaced::replaced_by;
pub use suites::{Reading, Suite, suites_of};
