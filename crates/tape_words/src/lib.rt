//! What the words `info`, `cmp` and `mend` share.
//!
//! Their words are read by `clap`, a tape's file is read, a fault of a tape is said in words, and
//! what a word answers is written.
#![tactic(auto)]

mod answer;
mod command;
mod files;
mod instruction;
mod meanings;
mod records;
mod tape_faults;
mod wording;
mod words;

pub use answer::{Answer, answered};
pub use command::{cmp_command, info_command, mend_command};
pub use files::read_text;
pub use instruction::{instruction_len, push_count, push_instruction};
pub use meanings::push_there;
pub use records::{EndRecord, are_digits, end_record};
pub use tape_faults::{fault_text, line_of};
pub use wording::{BYTE, BYTES, COUNT_TWICE, RECORD, RECORDS};
pub use words::{CmpWords, InfoWords, MendWords, read_cmp_words, read_info_words, read_mend_words};
