//! The listing of a source: the rows of its lines, each with its address and its bytes, and those
//! of its names.
//!
//! The definition is `Listing.antt` of `model`. `rows` writes one row, for whose further bytes
//! `proofs/Groups.antt` has the steps. `listed` goes along the lines and the names.
#![tactic(auto)]

mod listed;
mod rows;

pub use listed::listing_of;
pub use rows::{push_line, push_name};
