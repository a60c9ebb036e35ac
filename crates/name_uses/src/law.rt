//! The law of the names of a line.

ghost use Rattle.name_uses.specs.Grammar.{NamesAreTheGrammars};

use asm_line::each_read_line_is_a_line;

/// States that the names that are found in a line are those of what the grammar reads of it, in
/// their order, and that its definition comes first.
///
/// A law for proofs: the call does nothing.
pub fn names_are_the_grammars()
    ensures { NamesAreTheGrammars }
{
    each_read_line_is_a_line();
}
