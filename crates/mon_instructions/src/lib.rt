//! Rows in which `mon` shows instructions: those at an address, those that were made with what they
//! stored, and lists of them with the data between them. Places stand in them by name.
//!
//! Each call appends to a text, and changes no session. The words stand in `wording`.
#![tactic(auto)]

mod instructions;
mod listed;
mod made;
mod places;
mod stores;
pub mod wording;

pub use instructions::{
    push_byte_column, push_front, push_instruction, push_next, push_open_row, push_row,
};
pub use listed::push_listed;
pub use made::{push_line_text, push_made_row};
pub use places::{push_character, push_place};
pub use stores::push_stores;
