//! The calls that C makes of machines and assemblies. `library/mos65.h` declares them, and says
//! what C has to uphold.
//!
//! Each call is one of `debugger`, `rig`, `assembler` or `papertape` on what stands in a slot, and
//! states that call's clauses for the session or the assembly that the slot stands for.
//! `specs/Status.antt` has the statuses, `specs/Answers.antt` what a status says.
#![tactic(auto)]

mod assembly;
mod config;
mod ending;
mod events;
mod faults;
mod lines;
mod looking;
mod machine;
mod names;
mod opening;
mod opening_from;
mod records;
mod running;
mod stops;
mod texts;
mod touching;
