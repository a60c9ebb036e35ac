//! The word `dis` with an image: raw bytes, a PRG file, Intel HEX, S-records or a tape.
//!
//! `dis_image` reads the image by `image_files`, and writes the rows that `dis` writes of a tape.

mod command;
mod run;
mod words;

pub use command::dis_image_command;
pub use run::dis_image;
