//! The bytes of lines that a layout found, under the numbers of all names; and those of one line
//! alone.
//!
//! `emit` gathers the bytes of one line, or its value fault; `second_pass` puts line after line
//! into an image.
#![tactic(auto)]

mod emit;
mod second_pass;

pub use emit::{LineBytes, bytes_alone, put_line, value_fault};
pub use second_pass::make_image;
