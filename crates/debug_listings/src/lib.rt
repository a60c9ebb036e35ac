//! A listing of 64tass, or a report of ACME, as the debug information that a debug file of ld65
//! gives.
//!
//! `read_listing` reads a text that `64tass --list FILE --line-numbers` wrote, and `read_report`
//! one of `acme -r FILE`, or tells its first fault. `specs/Lines.antt` and `specs/ReportLines.antt`
//! say what a line says, `specs/Listing.antt` and `specs/Report.antt` what it adds to what was
//! read, and `specs/Texts.antt` what a text denotes.
#![tactic(auto)]

mod line;
mod listing;
mod reading;
mod report;
mod report_line;
mod text;

pub use text::{is_listing, is_report, read_listing, read_report};
