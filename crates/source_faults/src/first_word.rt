//! The word with which a line begins.

ghost use Rattle.std.specs.Prelude.{◌≡◌};
ghost use Rattle.model.specs.AllFaults.{first_word};

use lexer::{blank_run, word_at};

/// Returns the letters, digits and `_` that a line begins with after blanks: its label, or the name
/// that it defines, if it has one.
#[tactic(auto, unfolding(model::specs::AllFaults::first_word))]
pub fn first_word(line: &[u8]) -> &[u8]
    ensures { result.now ≡ first_word line.now }
{
    word_at(&line[blank_run(line)..])
}
