//! The word `cmp TAPE OTHER`: in which bytes two images differ.
//!
//! `differences` has the addresses at which two images differ, and none exactly if they are equal.
//! `rows` has their text with the instructions there, as `specs/DifferenceRows.antt` defines it.
//! `push_dump_text` has how many they are, and which fault of lines explains them
//! (`specs/DumpRows.antt`).
//! `parts_of` has the instructions of an image, `alignment_of` puts those of two images beside each
//! other, and `aligned_rows` has the text of that. `tape_cmp` is the word `cmp`: it reads both
//! images, and writes the rows of their differences, or with `--align` those of an alignment.
#![tactic(auto)]

mod aligned_rows;
mod alignment;
mod compare;
mod comparing;
mod dump_text;
mod parts;
mod row_text;
mod search;
mod sides;
mod wording;

pub use alignment::{Row, alignment_of};
pub use compare::tape_cmp;
pub use comparing::differences;
pub use parts::{Content, Part};
