//! What control can reach in an image by branches, jumps and calls.
//!
//! `reached` is the search, whose contract says that it finds exactly what control can reach.
//! `followed_marks` marks what was found as code, strings behind calls as text, and the rest as
//! data. `specs/Reached.antt` has the
//! definition: `ways` says where control goes from an instruction, `inline` what stands behind
//! calls, `search` goes along, `letters` finds the strings behind calls, `marking` marks, `entries`
//! says where control comes in.
#![tactic(auto)]

mod entries;
mod inline;
mod letters;
mod marking;
mod search;
mod ways;

pub use entries::vectors;
pub use inline::{Inline, Tail, tail_at};
pub use marking::followed_marks;
pub use search::reached;
pub use source_forms::Mark;
