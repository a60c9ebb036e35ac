//! The source of an image with labels, and with names for addresses, each call with its theorem:
//! what is written of an image or of bytes assembles back, whatever the names are.
//!
//! `listed_again` assembles what the disassembler lists; its contract holds for any bytes at any
//! address. `flagged_text` writes the source of an image with labels at given places, or with none,
//! `labelled_text` with labels where the image refers to itself. Their contracts say that the
//! source denotes the image, and that of `labelled_again` that it assembles back to it: whatever
//! image, whatever is marked, on whatever map. The laws under them are in `law_texts` and
//! `law_source_forms`.
//!
//! `named_text` writes the source with names. `names` finds the name of each address, `renaming`
//! writes the source with them, and `checked` assembles it again: where it does not denote the
//! image, the source without the names is returned. `proofs` carries what it denotes to every other
//! map. `specs` says which name an address has (`Names.antt`), what a source is with names
//! (`Renaming.antt`), and which of the two sources is returned (`NamedText.antt`).
#![tactic(auto)]

mod checked;
mod labelled;
mod listed;
mod names;
mod renaming;
mod text;

pub use assembler::{AsmFault, AsmFaultKind, Line, Profile};
pub use checked::{is_right, map_for};
pub use labelled::{flagged_text, labelled_again, labelled_text};
pub use listed::listed_again;
pub use source_forms::Mark;
pub use text::named_text;
