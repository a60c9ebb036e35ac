//! The process's streams, as the words of the program take them.
//!
//! `closed` takes the numbers of those that are closed, before a file that is opened can get one.
//! `retrying` reads again where a signal interrupts a read.
#![tactic(auto)]

mod closed;
mod retrying;
#[cfg(test)]
mod tests;

pub use closed::{ClosedStreams, take_closed};
pub use retrying::Retrying;
