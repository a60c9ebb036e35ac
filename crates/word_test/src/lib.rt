//! The word `test`: routines tested by files of rows.
//!
//! `test` serves the word, and `test_command` is its command line. Suites are run one after
//! another, and each test is told of when it has ended. `specs/Told.antt` says what TAP tells of
//! suites, and `specs/Tested.antt` what it tells of rows; which bytes a file has, no clause can
//! say.
#![tactic(auto)]

mod coverage;
mod files;
mod report;
mod rows;
mod run;
mod stop;
mod tally;
mod words;

pub use run::test;
pub use words::test_command;
