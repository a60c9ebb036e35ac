//! A program by its debug file: the files that ld65 wrote, and where each stands.
//!
//! A debug file of ld65 names the files that it wrote, and which bytes of them each segment has.
//! `parts_of` finds the address of each such file (`specs/Parts.antt`). `image_words` gives words
//! in which these files stand in the place of the debug file, and the debug file as debug
//! information, so that a command takes it as an image (`specs/Words.antt`). `ImageFault` says why
//! there are none, and `tell` writes it (`specs/Faults.antt`).
#![tactic(auto)]

mod bases;
mod expanding;
mod fault;
mod parts;
mod words;

pub use expanding::image_words;
pub use fault::ImageFault;
pub use words::names_program;
