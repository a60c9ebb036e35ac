//! The word `page`: a run of a program as one file that can be looked at, forwards and back.
//!
//! `page` serves the word: it loads the file, reads the names, the input and the notes that are
//! asked for, and has `page_writer` write the page around the run. What stands in a page besides
//! the run is made by `page_writer`. What the word does is in `specs/Done.antt`, and what a file of
//! notes says in `specs/Notes.antt`.
#![tactic(auto)]

mod command;
mod fault;
mod notes;
mod run;
mod wording;
mod words;

pub use command::page_command;
pub use run::page;
