//! Laws of runs and of going back, over the definitions of a session alone.
//!
//! No function here does anything: each one's contract is a law, and who needs one calls it. They
//! stand on `model` alone. `proofs` has a file for each: `Runs` (a run by its first step), `Backs`
//! (going back), `Calls` (going back among any calls), `LineCalls` (command lines are calls),
//! `Looks` (looking changes no state), `RunLines` (lines for what is kept of others), `Told` (what
//! was read so far), `Unset` and `Polled` (steps, and then sessions, that store no odd byte at
//! base+3).
#![tactic(auto)]

pub mod law;
