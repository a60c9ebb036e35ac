//! What is written about lines of a source for a person: where in the line, in which words, and the
//! line with a mark under what is meant.
//!
//! A `Note` says which bytes of a line it means, its words, and the right word if these name one
//! (`RightWord.antt`). `push_block` writes a block, which is `FILE:LINE:COLUMN: `, a title, the
//! note's words and the marked line; `Blocks.antt` defines blocks for faults and warnings alike.
//! `lines` finds the lines of a source and the names that they begin with, `operands` the tokens of
//! an operand, `runs` how many bytes of a class stand in front, `characters` how many bytes a
//! character has. `words` puts words together, and `dialects` knows words of other assemblers and
//! processors.
#![tactic(auto)]

mod block;
mod characters;
mod dialects;
mod lines;
mod note;
mod operands;
mod runs;
mod shown;
mod wording;
mod words;

pub use block::{first_told, push_block, push_total};
pub use characters::further;
pub use dialects::{
    Hint, defines_by_equals, directive_hint, gives_value, marked_hint, operation_hint,
};
pub use lines::{Name, every_line, line_of, line_or_none, names_of};
pub use note::Note;
pub use operands::{about_operand, after_label, is_symbol, operand_of};
pub use runs::{Class, after, blank_run, run_of, word_run};
pub use words::{concat, describe, phrase, push_dollar_address, push_signed};
