//! What becomes of a line, with the names that an image may have and a source may not.

ghost use Rattle.std.specs.Prelude.{◌≡◌, ◌==◌, ◌++◌, IfOk, Ok, codes, drop, position};
ghost use Rattle.std.specs.Str.{byte};
ghost use Rattle.line_parts.specs.LineViews.{line_view};
ghost use Rattle.model.specs.SourceLine.{read_line};
ghost use Rattle.names_files.specs.Labels.{definition_text};
ghost use Rattle.names_files.specs.Meanings.{defined, equation_number, equation_word};
ghost use Rattle.names_files.specs.Meanings.{faulty_meaning, kept_if, label_meaning};
ghost use Rattle.names_files.specs.Meanings.{label_number, number_behind, number_by, number_given};
ghost use Rattle.names_files.specs.Meanings.{number_of_value, or_kept, read_meaning};
ghost use Rattle.names_files.specs.Views.{label_view, meaning_view};

use crate::image_name::is_image_name;
use crate::label::{Label, definition_text};
use crate::meaning::{Meaning, defined_by, equals_at, faulty_meaning, read_meaning, value_in};
use asm_line::{Line, LineError, read_line};
use model::{ExprFault, Profile};
use std::alloc::{AllocError, Global};
use symbols::Symbols;

/// Returns the number of a value, if it has one.
fn number_of_value(value: Result<i32, ExprFault>) -> Option<i32>
    ensures { result ≡ number_of_value value }
{
    match value {
        Ok(number) => Some(number),
        Err(_) => None,
    }
}

/// Returns the number that a line gives a name.
fn number_given(names: &Symbols, line: &Line<'_>) -> Option<i32>
    ensures { result ≡ number_given names.now (Ok (line_view line.now)) }
{
    match line {
        Line::Definition(_, value) => number_of_value(value_in(names, value)),
        Line::Labelled(_, _) => None,
    }
}

/// Returns the number that a line that was read gives a name.
fn number_given_by(names: &Symbols, line: Line<'_>) -> Option<i32>
    ensures { result ≡ number_given names.now (Ok (line_view line.entry)) }
{
    let number = number_given(names, &line);
    drop(line);
    number
}

/// Returns the number that a line gives a name, by the names that were given before.
fn number_by(
    alloc: Global,
    profile: Profile,
    names: &Symbols,
    line: &[u8],
) -> Result<Option<i32>, AllocError>
    ensures { IfOk result (λ number. number ≡ number_by profile names.now line.now) }
{
    match read_line(alloc, profile, line) {
        Ok(read) => Ok(number_given_by(names, read)),
        Err(LineError::Kind(_)) => Ok(None),
        Err(LineError::Memory) => Err(AllocError),
    }
}

/// Returns the number of a label, if its digits have one.
#[tactic(auto, unfolding(crate::specs::Meanings::label_number))]
fn label_number(
    alloc: Global,
    profile: Profile,
    names: &Symbols,
    label: &Label<'_>,
) -> Result<Option<i32>, AllocError>
    ensures { IfOk result (λ number. number
        ≡ label_number profile names.now (label_view label.now)) }
{
    let other = Label {
        digits: label.digits,
        name: b"n",
    };
    let text = definition_text(alloc, &other)?;
    number_by(alloc, profile, names, text.as_slice())
}

/// Returns the number of a line from an index on, where its `=` stands.
fn number_behind(
    alloc: Global,
    profile: Profile,
    names: &Symbols,
    behind: &[u8],
) -> Result<Option<i32>, AllocError>
    ensures { IfOk result (λ number. number
        ≡ number_by profile names.now (codes "n" ++ behind.now)) }
{
    let mut text = Vec::new(alloc);
    text.push(b'n')?;
    text.extend_from_slice(behind)?;
    number_by(alloc, profile, names, text.as_slice())
}

/// Returns the number of a line that has a `=`, if a value with a number stands behind that.
#[tactic(auto, unfolding(crate::specs::Meanings::equation_number))]
fn equation_number(
    alloc: Global,
    profile: Profile,
    names: &Symbols,
    line: &[u8],
) -> Result<Option<i32>, AllocError>
    ensures { IfOk result (λ number. number ≡ equation_number profile names.now line.now) }
{
    match equals_at(line) {
        None => Ok(None),
        Some(at) => number_behind(alloc, profile, names, &line[at..]),
    }
}

/// Returns what becomes of a name that is left out of a source, by its number.
fn kept_if(name: &[u8], number: Option<i32>) -> Meaning<'_>
    ensures { meaning_view result ≡ kept_if name.now number }
{
    match number {
        None => Meaning::LeftOut(name),
        Some(number) => {
            if is_image_name(name) {
                Meaning::Kept(name, number)
            } else {
                Meaning::LeftOut(name)
            }
        }
    }
}

/// Returns what becomes of a line: a name that is left out is kept if it has this number, and an
/// image may have it.
fn or_kept<'a>(number: Option<i32>, meaning: Meaning<'a>) -> Meaning<'a>
    ensures { meaning_view result ≡ or_kept number (meaning_view meaning.entry) }
{
    match meaning {
        Meaning::Other => Meaning::Other,
        Meaning::Stands => Meaning::Stands,
        Meaning::Named(name, value) => Meaning::Named(name, value),
        Meaning::Kept(name, value) => Meaning::Kept(name, value),
        Meaning::LeftOut(name) => kept_if(name, number),
        Meaning::Unknown => Meaning::Unknown,
    }
}

/// Returns what becomes of a label, whose line in a source would be `text`.
pub fn label_meaning<'a>(
    alloc: Global,
    profile: Profile,
    names: &Symbols,
    label: &Label<'a>,
    text: &[u8],
) -> Result<Meaning<'a>, AllocError>
    requires { text.now ≡ definition_text (label_view label.now) }
    ensures { IfOk result (λ meaning. meaning_view meaning
        ≡ label_meaning profile names.now (label_view label.now)) }
{
    let number = label_number(alloc, profile, names, label)?;
    match read_line(alloc, profile, text) {
        Ok(line) => Ok(or_kept(number, defined_by(names, label.name, line))),
        Err(LineError::Kind(_)) => Ok(or_kept(number, Meaning::LeftOut(label.name))),
        Err(LineError::Memory) => Err(AllocError),
    }
}

/// Returns what becomes of a line that is no line of a source.
fn equation_meaning<'a>(
    alloc: Global,
    profile: Profile,
    names: &Symbols,
    line: &'a [u8],
) -> Result<Meaning<'a>, AllocError>
    ensures { IfOk result (λ meaning. meaning_view meaning
        ≡ or_kept (equation_number profile names.now line.now)
        (faulty_meaning (equation_word line.now))) }
{
    let number = equation_number(alloc, profile, names, line)?;
    Ok(or_kept(number, faulty_meaning(line)))
}

/// Returns what becomes of a line that is no label.
pub fn plain_meaning<'a>(
    alloc: Global,
    profile: Profile,
    names: &Symbols,
    line: &'a [u8],
) -> Result<Meaning<'a>, AllocError>
    ensures { IfOk result (λ meaning. meaning_view meaning
        ≡ read_meaning profile names.now line.now (read_line profile line.now)) }
{
    match read_line(alloc, profile, line) {
        Ok(read) => Ok(read_meaning(names, read)),
        Err(LineError::Kind(_)) => equation_meaning(alloc, profile, names, line),
        Err(LineError::Memory) => Err(AllocError),
    }
}
