//! `asm SOURCE TAPE` with further files: the tape and the listing of `asm`, and files for other
//! programs: the names of the source, where each of its lines stands, and its image as bytes alone,
//! Intel HEX and S-records.
//!
//! `symbols_text` and `map_text` make the two texts, `image_texts` the image, and `file_texts` all
//! that the words ask for, each as the definitions in `specs/Texts.antt` and `specs/Images.antt`
//! have it. `asm_files` serves the words; whether it has to is what `asks_for_files` says.
//! `asm_plainly` serves `asm` without further files.
#![tactic(auto)]

mod asked;
mod command;
mod format;
mod images;
mod names;
mod places;
mod plain;
mod run;
mod texts;
mod words;

pub use command::asm_files_command;
pub use format::SymbolsFormat;
pub use images::{ImageTexts, ImagesAsked, image_texts};
pub use names::symbols_text;
pub use places::map_text;
pub use plain::asm_plainly;
pub use run::asm_files;
pub use texts::{FileTexts, TextsAsked, file_texts};
pub use words::asks_for_files;
