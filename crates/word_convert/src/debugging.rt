//! The word `debug` with an image: raw bytes, a PRG file, Intel HEX, S-records or a tape.
//!
//! `debug_image` reads the image by `image_files`, and serves a session on it by the engine's call
//! on a tape: the tape that it writes of the image denotes that image.

mod asked;
mod command;
mod run;
mod session;
mod words;

pub use command::debug_image_command;
pub use run::debug_image;
