//! All faults of a source at once, so that one run names every line to mend.
//!
//! `laying` finds where each line stands and mends those with a fault; `judging` finds the value
//! faults; `told` compares two such judgements. The definition is `AllFaults.antt` of `model`.
#![tactic(auto)]

mod faults;
mod first_word;
mod found;
mod judging;
mod laying;
mod mending;
mod told;

pub use faults::source_faults;
pub use found::Found;
pub use laying::lay_out;
pub use mending::Mending;
pub use model::{AsmFault, AsmFaultKind};
