//! The disassembler: the text of the instructions in some memory. Nothing here allocates.
//!
//! `line_in` returns one row in a profile, `row_text_in` the whole line of it. Both are the
//! definition's, in `InstructionText.antt` and `Disassembly.antt` of `model`. `line_at` is
//! `line_in` in profile N.
#![tactic(auto)]

pub use line::{TextLine, line_at, line_in};
pub use row::{RowText, row_text_in};
pub use rows::disassembly;

mod line;
mod operand;
mod row;
mod rows;
mod text;
