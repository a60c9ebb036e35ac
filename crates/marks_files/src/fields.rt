//! The fields of a line.

ghost use Rattle.std.specs.Prelude.{◌≡◌, ◌≤◌, ◌+◌};
ghost use Rattle.lexer.specs.Front.{field_length, first_field, without_blanks};
ghost use Rattle.marks_files.specs.Fields.{behind_word, column_of, fields_of};
ghost use Rattle.marks_files.specs.Fields.{is_nothing};
ghost use Rattle.marks_files.specs.Views.{fields_view};

use lexer::{field_length, first_field, without_blanks};

/// The word that says what a line marks, its value, and what stands behind that, each with its
/// column, counted from 1.
#[derive(Clone, Copy)]
pub struct Fields<'a> {
    pub word: &'a [u8],
    pub word_column: usize,
    pub value: &'a [u8],
    pub value_column: usize,
    pub rest: &'a [u8],
    pub rest_column: usize,
}

/// Returns what stands behind the first word and the blanks after it.
pub fn behind_word(text: &[u8]) -> &[u8]
    ensures { result.now ≡ behind_word text.now }
{
    without_blanks(&text[field_length(text)..])
}

/// Returns the column in which the end of a line begins, counted from 1.
pub fn column_of(line: &[u8], end: &[u8]) -> usize
    ensures { result ≡ column_of line.now end.now }
{
    line.len().saturating_sub(end.len()) + 1
}

/// Returns whether nothing is said: a text is empty, or begins a comment.
pub fn is_nothing(text: &[u8]) -> bool
    ensures { result ≡ is_nothing text.now }
{
    match text {
        [] => true,
        [first, ..] => *first == b';' || *first == b'#',
    }
}

/// Returns the fields of a line.
#[tactic(auto, unfolding(crate::specs::Fields::fields_of))]
pub fn fields_of(line: &[u8]) -> Fields<'_>
    ensures { fields_view result ≡ fields_of line.now }
{
    let text = without_blanks(line);
    let value = behind_word(text);
    let rest = behind_word(value);
    Fields {
        word: first_field(text),
        word_column: column_of(line, text),
        value: first_field(value),
        value_column: column_of(line, value),
        rest,
        rest_column: column_of(line, rest),
    }
}
