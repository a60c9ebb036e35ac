//! The word `dap`: the Debug Adapter Protocol on standard input and output.
//!
//! `dap` is the word, with its command line (`words`). `serving` takes messages from the input and
//! writes what is answered, by `sending`, before it takes the next. `adapter` has which request
//! comes when, and passes those of a session to `dap_session`. `slices` lets a run go on while no
//! message waits. What a request does stands in `specs/Adapter.antt`, what is done with a message
//! in `specs/Served.antt`, with a run in `specs/Slices.antt`; how messages are written stands in
//! `specs/Sent.antt`.
#![tactic(auto)]

mod adapter;
mod sending;
mod serving;
mod slices;
mod words;

pub use serving::dap;
pub use words::dap_command;
