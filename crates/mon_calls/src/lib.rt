//! The calls of `where`, and what `locals` shows of them.
//!
//! The frames of C are those of `call_frames`, from one state. Behind the last one the stack is
//! searched, as `mon_texts` finds what was pushed. A place is shown by its function of C, otherwise
//! by its name, and with the line of the source that begins there.
//!
//! Each call appends to a text, and changes no session. The words stand in `wording`.
#![tactic(auto)]

mod calls;
mod locals;
mod spots;
mod wording;

pub use calls::push_where;
pub use locals::push_locals;
