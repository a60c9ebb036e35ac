//! The words of an image: `convert`, and `dis` and `debug` with an image in any form.
//!
//! `converted` has the theorem of `convert IN OUT`: what is written, read again, is the part of the
//! image that the bytes of IN denote, with the byte that makes its sum 0 if that is asked for.
//! `convert` is the word: it reads its words and IN, and writes OUT. `dis_image` lists an image as
//! instructions (`dis_rows`), and `debug_image` serves a session on one (`debugging`). How a file
//! is read is of `image_files`.
#![tactic(auto)]

mod command;
mod converting;
mod debugging;
mod dis_rows;
mod fault;
mod names;
mod run;
mod sums;
mod wording;
mod words;

pub use command::convert_command;
pub use converting::converted;
pub use debugging::debug_image;
pub use dis_rows::dis_image;
pub use run::convert;
