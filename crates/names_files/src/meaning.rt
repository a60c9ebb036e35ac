//! What becomes of a line of a file of names.

ghost use Rattle.std.specs.Prelude.{◌≡◌, ◌≤◌, ◌==◌, Ok, length, option_map, pos, position};
ghost use Rattle.std.specs.List.{list_all};
ghost use Rattle.std.specs.Str.{byte, bytes_eq};
ghost use Rattle.model.specs.Token.{is_blank};
ghost use Rattle.line_parts.specs.LineViews.{line_view, statement_view};
ghost use Rattle.line_parts.specs.TermViews.{term_view};
ghost use Rattle.names_files.specs.Meanings.{defined, equation_word, faulty_meaning, is_nothing};
ghost use Rattle.names_files.specs.Meanings.{is_one_word, is_word_end};
ghost use Rattle.names_files.specs.Meanings.{labelled_meaning, line_meaning, name_length, numbered};
ghost use Rattle.names_files.specs.Meanings.{value_in, word_before, word_in};
ghost use Rattle.names_files.specs.Views.{meaning_view};

use asm_line::{Expr, Line, Statement};
use lexer::{is_blank_byte, without_blanks};
use model::ExprFault;
use symbols::{Symbols, eval};

/// What becomes of a line.
#[derive(Clone, Copy)]
pub enum Meaning<'a> {
    /// It says nothing of names.
    Other,
    /// It stands in a source alone.
    Stands,
    /// It gives this name this number.
    Named(&'a [u8], i32),
    /// It gives this name, which cannot stand in a source, this number.
    Kept(&'a [u8], i32),
    /// It has this name, which is left out.
    LeftOut(&'a [u8]),
    /// It is in no form that is known.
    Unknown,
}

/// Returns whether two texts are the same.
fn is_same(one: &[u8], other: &[u8]) -> bool
    ensures { result ≡ bytes_eq one.now other.now }
{
    one == other
}

/// Returns what becomes of a name whose value has this number, or a fault.
fn numbered<'a>(name: &'a [u8], value: Result<i32, ExprFault>) -> Meaning<'a>
    ensures { meaning_view result ≡ numbered name.now value }
{
    match value {
        Ok(number) => Meaning::Named(name, number),
        Err(_) => Meaning::LeftOut(name),
    }
}

/// Returns the number of a value, by the names that were given before.
pub fn value_in(names: &Symbols, value: &Expr<'_>) -> Result<i32, ExprFault>
    ensures { result ≡ value_in names.now (term_view value.now) }
{
    eval(value, names, 0)
}

/// Returns what becomes of a name whose line says this.
fn defined<'a>(names: &Symbols, name: &'a [u8], line: &Line<'_>) -> Meaning<'a>
    ensures { meaning_view result ≡ defined names.now name.now (Ok (line_view line.now)) }
{
    match line {
        Line::Definition(found, value) => {
            if is_same(found, name) {
                numbered(name, value_in(names, value))
            } else {
                Meaning::LeftOut(name)
            }
        }
        Line::Labelled(_, _) => Meaning::LeftOut(name),
    }
}

/// Returns what becomes of a name whose line was read.
pub fn defined_by<'a>(names: &Symbols, name: &'a [u8], line: Line<'_>) -> Meaning<'a>
    ensures { meaning_view result ≡ defined names.now name.now (Ok (line_view line.entry)) }
{
    let meaning = defined(names, name, &line);
    drop(line);
    meaning
}

/// Returns whether a statement says nothing.
fn is_nothing(statement: &Statement<'_>) -> bool
    ensures { result ≡ is_nothing (statement_view statement.now) }
{
    match statement {
        Statement::Nothing => true,
        _ => false,
    }
}

/// Returns what becomes of a line that says this.
fn line_meaning<'a>(names: &Symbols, line: &Line<'a>) -> Meaning<'a>
    ensures { meaning_view result ≡ line_meaning names.now (line_view line.now) }
{
    match line {
        Line::Labelled(None, statement) => {
            if is_nothing(statement) {
                Meaning::Other
            } else {
                Meaning::Stands
            }
        }
        Line::Labelled(Some(_), _) => Meaning::Stands,
        Line::Definition(name, value) => numbered(name, value_in(names, value)),
    }
}

/// Returns what becomes of a line that was read.
pub fn read_meaning<'a>(names: &Symbols, line: Line<'a>) -> Meaning<'a>
    ensures { meaning_view result ≡ line_meaning names.now (line_view line.entry) }
{
    let meaning = line_meaning(names, &line);
    drop(line);
    meaning
}

/// Returns whether a byte ends a word.
fn is_word_end(byte: u8) -> bool
    ensures { result ≡ is_word_end byte }
{
    is_blank_byte(byte) || byte == b':'
}

/// Returns the index of the first byte that ends a word.
fn word_end(text: &[u8]) -> Option<usize>
    ensures { result ≡ position is_word_end text.now }
{
    text.iter().position(|byte| is_word_end(*byte))
}

/// Returns how many bytes come before the end of a word.
fn name_length(text: &[u8]) -> usize
    ensures length { result ≡ name_length text.now }
    ensures within { result ≤ length text.now }
{
    match word_end(text) {
        Some(at) => at,
        None => text.len(),
    }
}

/// Returns whether a text has bytes alone that end a word.
fn are_word_ends(text: &[u8]) -> bool
    ensures { result ≡ list_all is_word_end text.now }
{
    text.iter().all(|byte| is_word_end(*byte))
}

/// Returns whether a text has blanks alone.
fn are_blanks(text: &[u8]) -> bool
    ensures { result ≡ list_all is_blank text.now }
{
    text.iter().all(|byte| is_blank_byte(*byte))
}

/// Returns whether a text is a word, and nothing else but blanks and `:` behind it.
fn is_one_word(text: &[u8]) -> bool
    ensures { result ≡ is_one_word text.now }
{
    let length = name_length(text);
    0 < length && are_word_ends(&text[length..])
}

/// Returns the word that a text is.
fn word_in(text: &[u8]) -> Option<&[u8]>
    ensures { option_map (λ w. w.now) result ≡ word_in text.now }
{
    if is_one_word(text) {
        Some(&text[..name_length(text)])
    } else {
        None
    }
}

/// Returns the index of the first `=`.
pub fn equals_at(line: &[u8]) -> Option<usize>
    ensures at { result ≡ position (λ b. b == byte "=") line.now }
{
    line.iter().position(|byte| *byte == b'=')
}

/// Returns the word in front of the first `=`, if nothing else stands there, and a value stands
/// behind it.
fn equation_word(line: &[u8]) -> Option<&[u8]>
    ensures { option_map (λ w. w.now) result ≡ equation_word line.now }
{
    match equals_at(line) {
        None => None,
        Some(at) => {
            if are_blanks(&line[at + 1..]) {
                None
            } else {
                word_in(without_blanks(&line[..at]))
            }
        }
    }
}

/// Returns what becomes of a line that has a fault.
pub fn faulty_meaning(line: &[u8]) -> Meaning<'_>
    ensures { meaning_view result ≡ faulty_meaning (equation_word line.now) }
{
    match equation_word(line) {
        None => Meaning::Unknown,
        Some(name) => Meaning::LeftOut(name),
    }
}
