//! What a person needs of each warning of a source: where it stands, and words.
//!
//! `warnings_text` writes a block for each warning: the warning's line and kind, words, and the
//! source's own line with a mark under what the words are about. `note_of` and `kind_name` have the
//! parts of a block for those who show warnings in another way. All of it is proved, the words too
//! (`Notes.antt`).
#![tactic(auto)]

mod block;
mod note;
mod wording;

pub use block::{kind_name, warnings_text};
pub use note::note_of;
