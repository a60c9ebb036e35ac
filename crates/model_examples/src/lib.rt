//! Worked examples computed from the definitions of `model`, beside the chain of crates that stand
//! on it. There is no code: `proofs/` has one file for each part, and the check computes each
//! example.
#![tactic(auto)]
