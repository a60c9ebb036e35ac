//! The opcode table of each profile: rows, opcodes, the names of mnemonics and their operations;
//! and the targets of branches.
//!
//! The crate owns the constant of rows. `decode` and `encode` are each other's inverse: `proofs`
//! computes both for every opcode, and for every mnemonic in every mode, and compares them with the
//! table of `model`.
#![tactic(auto)]

pub use branches::branch_target;
pub use codes::{encode, encode_in};
pub use model::{Mnemonic, Mode, Operation, Profile, Row};
pub use names::{letters_of, mnemonic_in, mnemonic_of};
pub use operations::operation;
pub use rows::{OpTable, decode, decode_in};

mod branches;
mod codes;
mod names;
mod operations;
mod rows;
