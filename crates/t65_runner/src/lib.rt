//! Rows of test files run on a machine, and which of them pass.
//!
//! `first_failed` runs a row from a machine's start for values of its ranges, with the rows that go
//! before and after it, and goes back after each. `Around` has these rows of a file.
//!
//! `specs/Passes.antt` says when a row passes, `specs/RangeValues.antt` for which values it is run,
//! `specs/Parts.antt` which rows are run around a test, `specs/Interrupts.antt` how a handler is
//! entered, `specs/Requests.antt` how an interrupt comes into a call, `specs/Counting.antt` how
//! often steps begin where, and `specs/Start.antt` how a session stands to its start.
#![tactic(auto)]

mod around;
mod bench;
mod counting;
mod going_back;
mod interrupts;
mod passes;
mod range_values;
mod requests;

pub use around::{Around, has_test, tests_of};
pub use bench::{first_failed, run_called};
pub use counting::count_test;
pub use going_back::HISTORY;
pub use passes::{CallStart, all_hold, call_start, came, compares, given_one, number_of};
pub use range_values::{Values, random_byte};
pub use requests::{Awaited, CallEnd, arrive};
pub use t65_reader::Row;
