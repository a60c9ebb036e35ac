//! What is told of rows that were run: TAP or CSV, and a report for JUnit.
//!
//! A text is made for each test when it has ended. The texts are proved: the rows of TAP and of the
//! report, lines of CSV, which of them are written (`specs/Telling.antt`), the report of all suites
//! so far, and lines by their numbers. Their words stand in `wording`.
#![tactic(auto)]

mod csv;
mod junit;
mod reports;
mod row_lines;
mod telling;
mod wording;

pub use csv::csv_line;
pub use junit::Junit;
pub use reports::{Case, Score, junit_case, junit_fault, summary};
pub use row_lines::RowLines;
pub use telling::{Telling, begin_text, case_text, end_text, fault_text};
