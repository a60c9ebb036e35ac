//! The laws that the source of an image denotes the image, over the definitions alone.
//!
//! `flagged_source_denotes` holds wherever labels are asked for, also where none is,
//! `labelled_source_denotes` where the image refers to itself.
//!
//! `proofs` goes the way of the text: the lines that are cut from it (`Cut`), what each says and
//! the bytes that it stands for (`Data`, `Instructions`, `Listed`), the bytes that a line is made
//! of (`Cells`, `Stands`, `Filling`), a label and an operand by label (`Places`, `Referring`), what
//! each line stands for (`Standing`), which number each label has (`Numbered`), and how the lines
//! fill the image (`Filled`).
#![tactic(auto)]

mod labels;

pub use labels::{flagged_source_denotes, labelled_source_denotes};
