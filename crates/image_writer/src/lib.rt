//! Images written as other tools read them: Intel HEX, Motorola S-records, raw bytes, PRG files.
//!
//! `specs/ImageTexts.antt` has the bytes of each form. The theorem of `write_text` is that what it
//! writes is read again as the image, by the definition of `image_reader`; that of `write_raw` and
//! `write_prg` that it is the image from one address to another, with the gaps filled.
#![tactic(auto)]

mod part;
mod raw;
mod record;
mod text;

pub use part::{first_address, last_address, part_of};
pub use raw::{write_prg, write_raw};
pub use text::write_text;
