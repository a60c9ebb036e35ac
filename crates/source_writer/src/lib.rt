//! The source of an image, written with labels at given places or where the image refers to itself.
//!
//! `write_flagged_source` writes it with labels at given places, `write_labelled_source` where the
//! image refers to itself, as `Pieces.antt` and `Labels.antt` of `source_forms` define. `stretch`
//! finds the bytes of a line, `piece` what stands at an address, `note` what stands behind it,
//! `flags` what is referred to, `table` which addresses get a label; `rows`, `operand` and `line`
//! write a line, `labelled` goes along the image.
#![tactic(auto)]

mod flags;
mod labelled;
mod line;
mod note;
mod operand;
mod piece;
mod rows;
pub mod stretch;
mod table;

pub use flags::{flags_of, no_flags};
pub use labelled::{write_flagged_source, write_labelled_source};
pub use piece::{byte_or_0, is_flagged};
pub use source_forms::Mark;
