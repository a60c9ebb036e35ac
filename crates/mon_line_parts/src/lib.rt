//! The parts of a line of `mon`: its first word, and the values behind it.
//!
//! `topic` has the words that a line may begin with, and the topic of each. `help` has what help
//! says of a topic. `scan` reads words, signs and texts at the front of a line, `numbers` and
//! `values` read numbers, names and sums of them, `source_lines` reads lines of the source in the
//! place of addresses. `slip` names what can be missing or wrong.
#![tactic(auto)]

mod help;
mod numbers;
mod scan;
mod slip;
mod source_lines;
mod topic;
mod values;

pub use help::Help;
pub use lexer::is_next;
pub use numbers::number_in;
pub use scan::{after, after_word, file_of, is_empty, is_word, past, skip, without_first, word_of};
pub use slip::{Flaw, Lack};
pub use source_lines::{after_line, line_number, own_line};
pub use source_map::{Places, is_same_word};
pub use topic::{TOPICS, Topic, all_words, begins_with, nearest_of, subject_of, topic_of};
pub use values::{address_of, bit_of, byte_of, bytes_of, count_of, line_alone, word_value};
