//! A source as people save it, made one by the grammar.
//!
//! Editors write comments in any language, a byte-order mark at the start of a file, and CR at the
//! ends of lines. `clean_source` returns the text that is read in the place of such a source
//! (`specs/Cleaned.antt`); a source by the grammar is returned as it is. What a comment is, the
//! grammar's tokens say: `lexer` cuts them.
#![tactic(auto)]

mod cleaning;
mod law;
mod line;
mod mark;

pub use cleaning::clean_source;
pub use law::{lines_keep_their_places, plain_source_stays};
pub use mark::unmarked;
