//! Worked examples of the machine, its session, the assembler and tapes, as calls. Each
//! is a test; there is no other code. The pages of `tests` have what command lines show.
#![tactic(auto)]

#[cfg(test)]
mod common;
#[cfg(test)]
mod history;
#[cfg(test)]
mod multiplication;
#[cfg(test)]
mod saved;
#[cfg(test)]
mod sources;
#[cfg(test)]
mod tapes;
#[cfg(test)]
mod tests;
