//! What the next step is about to touch, and what steps have touched.
//!
//! `access_here` says which addresses the instruction at PC reads and stores. `moment_of`,
//! `reads_here` and `stores_here` say it of a step, with what an interrupt or the stack adds.
//! `looks` says whether it looks for input. These look at a session by its views alone, and change
//! nothing. `Tally` counts how often each address was executed, and `Written` keeps which addresses
//! have a byte that somebody put there. `specs/` says what each returns.
#![tactic(auto)]

mod instruction;
mod looking;
mod moment;
mod tally;
mod touches;
mod written;

pub use cpu_step::Access;
pub use instruction::{access_here, row_here};
pub use looking::{input_waits, looks, stays};
pub use moment::{Moment, entry_stores, is_break, moment_of};
pub use tally::{Count, Tally};
pub use touches::{Addresses, reads_here, stores_by, stores_here};
pub use written::Written;
