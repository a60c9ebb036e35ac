//! The program `mos65` as a library: the words of `asm`, `dis` and `debug`, what they ask for, what
//! is done with files and streams, and the exit status.
//!
//! Two definitions say what `read_words` returns: `clap`'s own definition of a parse over the
//! command that `command` makes, and `specs/Asked.antt`, which says what words ask for and which a
//! reader has to believe.
//!
//! `mos65` is its main, which collects the process's words by `process_words`. A caller may use
//! `program`, which does everything, `debug_named`, which names the file of a session in its fault
//! line, and `asm_texts` and `dis_text`, which make the texts that `asm` and `dis` write.
//! No clause can say what is in a file, so the contracts speak of the words, the streams and the
//! status.
#![tactic(auto)]

pub use asked::{AsmWords, DebugWords, DisWords, Words};
pub use assembling::{AsmTexts, asm_texts};
pub use command::debug_command;
pub use disassembling::dis_text;
pub use named::debug_named;
pub use process::{process_words, words_of};
pub use read::{asm_words, read_words};
pub use running::{program, unreadable_words};

mod asked;
mod assembling;
mod command;
mod debugging;
mod disassembling;
mod named;
mod process;
mod read;
mod running;
