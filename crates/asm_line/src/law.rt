//! The law of a line's grammar.

ghost use Rattle.model.specs.Grammar.{EachLineIsRead, EachReadLineIsALine};

use parser::{expressions_are_longest, one_expression};

/// States that each line of the grammar is read, to what the grammar says of it.
///
/// So a line says one thing only. A law for proofs: the call does nothing.
pub fn each_line_is_read()
    ensures { EachLineIsRead }
{
    expressions_are_longest();
    one_expression();
}

/// States that what is read is a line of the grammar, and says what was read.
///
/// A law for proofs: the call does nothing.
pub fn each_read_line_is_a_line()
    ensures { EachReadLineIsALine }
{
    expressions_are_longest();
}
