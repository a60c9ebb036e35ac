//! `mend TAPE OUT`: a tape with a right end record, from one whose data records are right, or from
//! a capture of a KIM-1's terminal; Intel HEX or S-records with right checksums and an end record.
//!
//! `mend_text` has the theorem of tapes: what it returns denotes the image of the data records as
//! they stand. `mend_capture` has the same of a capture, whose other text it leaves out. That of
//! `mend_records` is that what it returns denotes an image, and has all but the wrong checksums
//! from the text, digit by digit (`law`). `tape_mend` is the word: it reads its words and the file,
//! whose first record tells the form, says what was mended, and writes OUT.
#![tactic(auto)]

mod captures;
mod checksums;
mod law;
mod mending;
mod parts;
mod record_reports;
mod records;
mod reporting;
mod run;
mod wording;

pub use captures::{CapturedTape, mend_capture};
pub use checksums::{Checksums, WrongSum, wrong_sums};
pub use law::lines_keep_their_digits;
pub use mending::{Mended, mend_text};
pub use record_reports::{push_sums, record_line};
pub use records::{MendedRecords, mend_records};
pub use run::tape_mend;
