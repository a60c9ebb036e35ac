//! The names of a source where they stand: each definition and each use, by the source's tokens;
//! and a source with one of its names changed, where that leaves the image as it is.
//!
//! `name_uses` is the call, `picked` has those of one name, `name_at` the one at a place, and
//! `is_name` says whether a text may be a name. `Uses.antt`, `Picked.antt` and `Places.antt` define
//! them. `faulty_line` finds a line whose text has a fault and in which a word stands that may be a
//! name (`Faulty.antt`). A law (`law`) says that the names found in a line are exactly those that
//! the grammar reads in it, in their order.
//!
//! `rename` makes the same text with the new name at exactly the places of the old one.
//! `Renaming.antt` defines the new text and when it is refused. `text` writes the text with another
//! name there, and `checked` assembles both.
#![tactic(auto)]

mod change;
mod checked;
mod fault;
mod faulty;
mod law;
mod lines;
mod name_use;
mod picks;
mod place;
mod text;
mod words;

pub use change::{Renaming, rename};
pub use fault::RenameFault;
pub use faulty::faulty_line;
pub use law::names_are_the_grammars;
pub use lines::name_uses;
pub use name_use::NameUse;
pub use picks::{Part, picked};
pub use place::name_at;
pub use words::{is_name, is_name_token, is_reserved};
