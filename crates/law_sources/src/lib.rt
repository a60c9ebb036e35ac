//! Laws over the definitions of sources.
//!
//! No function here does anything: each one's contract is a law, and its proof is in `proofs`. They
//! stand on `model` alone, so that they are checked beside the assembler and not before it. Who
//! needs a law calls its function.
#![tactic(auto)]

mod law;

pub use law::{
    bytes_fill_their_size, each_source_has_one_meaning, judging_is_right, lengths_are_the_tables,
    names_have_their_numbers, one_assignment,
};
