//! The processor: what an instruction, an interrupt entry or a reset does to the state.
//!
//! It owns one step of any kind, `advance`, and the same step for an instruction of one kind,
//! `try_load` and its like, for a caller that has found the kind by the opcode. `specs/Access.antt`
//! says what an instruction reads and stores. A caller sees a `State` and may work its parts field
//! by field. The idea of the proofs is in
//! `proofs/Reading.antt`: a read changes nothing that a change puts back, and one of plain memory
//! changes nothing at all.
#![tactic(auto)]

pub use access::Access;
pub use state::{MOST_CYCLES, Processor};

mod access;
mod state;
