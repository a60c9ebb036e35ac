//! What may be meant otherwise in a source that has no fault: the warnings of `check`.
//!
//! `source_warnings` is the call; its definition is `Warnings.antt`. `placement` puts each line
//! together with what the layout found of it, a `PlacedLine`. `one_line` judges one line,
//! `all_lines` every line and the text after `.END`, `whole_source` a source. `used_names` finds
//! the names that expressions use, `written_numbers` what a source writes of the zero page, and
//! `zero_page_writes` the operands that are a plain number which nothing writes. `flow` finds where
//! control falls off instructions, pointers at the end of a page, and the reset vector; `vectors`
//! what vectors lead to; `brackets` operands in square brackets.
#![tactic(auto)]

mod all_lines;
mod brackets;
mod flow;
mod kinds;
mod one_line;
mod placed_line;
mod placement;
mod used_names;
mod vectors;
mod whole_source;
mod written_numbers;
mod zero_page_writes;

pub use kinds::{Vector, Warning, WarningKind};
pub use whole_source::source_warnings;
