//! Facts about instructions that are told to a person: the flags that one may change, how its
//! operands are written, and the mnemonics.
//!
//! `changed_by` is the table: which flags an operation may change in a profile. Its contract says
//! that the operation changes no other, whatever the state is. `flags` writes them as letters.
//! `Flag` is one of them: whether it is 1, how it is set, and its letter.
//! `forms` has how an operand is written in each mode, and the order of the modes (`Forms.antt`);
//! `mnemonics` those of each profile.
#![tactic(auto)]

mod changed;
mod flag;
mod flags;
mod forms;
mod mnemonics;
mod wording;

pub use changed::changed_by;
pub use flag::Flag;
pub use flags::{is_any, push_flags};
pub use forms::{all_modes, operand_form, operand_name};
pub use mnemonics::mnemonics_in;
