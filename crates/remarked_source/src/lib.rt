//! A source with comments beside its lines: where each stands with its bytes, and what a person
//! says of its address.
//!
//! `remarked_text` assembles a source, so that it knows where each line stands, and writes the
//! comments (`beside`, `rows`). Where the source with them does not denote the image, the source
//! alone is returned. `joined_text` does the same with the numbers that end strings (`strings`),
//! and `split_text` with labels in tables whose low and high bytes stand apart (`splits`).
//! `specs/{Rows,Strings,Splits}.antt` say what is written, and
//! `specs/RemarkedText.antt` which of the two is returned.
#![tactic(auto)]

mod beside;
mod rows;
mod splits;
mod strings;
mod text;

pub use beside::Beside;
pub use splits::target_at;
pub use text::{joined_text, remarked_text, split_text};
