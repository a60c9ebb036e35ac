//! The lines of a source that are read, and the names that they begin with.

ghost use Rattle.std.specs.Prelude.{◌≡◌, ◌++◌, [], IfOk, OnOk, map};
ghost use Rattle.std.specs.Option.{option_map};
ghost use Rattle.model.specs.TextLines.{lines_of};
ghost use Rattle.source_notes.specs.Lines.{defines, line_of, line_or_none, name_of, name_view};
ghost use Rattle.source_notes.specs.Lines.{names_of, texts_of, with_name, without_blanks};

use crate::runs::{after, blank_run, word_run};
use line_parts::next_line;
use std::alloc::{AllocError, Global};

/// A name that a line defines, or may define.
#[derive(Clone, Copy)]
pub struct Name<'a> {
    pub text: &'a [u8],
    pub line: u32,
}

/// Returns the lines of a source, in their order.
///
/// Errors: `AllocError` if an allocation fails.
pub fn every_line<'a>(alloc: Global, source: &'a [u8]) -> Result<Vec<&'a [u8]>, AllocError>
    ensures { IfOk result (λ lines. texts_of lines.items ≡ lines_of source.now) }
{
    let mut lines = Vec::new(alloc);
    let mut rest = source;
    while !rest.is_empty() {
        let (line, behind) = next_line(rest);
        lines.push(line)?;
        rest = behind;
    }
    Ok(lines)
}

/// Returns the line of this number, counted from 1, if there is one.
pub fn line_of<'a>(lines: &[&'a [u8]], number: u32) -> Option<&'a [u8]>
    ensures { option_map (λ line. line.now) result ≡ line_of (texts_of lines.now) number }
{
    lines.get((number as usize).saturating_sub(1)).copied()
}

/// Returns a line, empty where there is none.
pub fn line_or_none(line: Option<&[u8]>) -> &[u8]
    ensures { result.now ≡ line_or_none (option_map (λ line. line.now) line.entry) }
{
    match line {
        Some(line) => line,
        None => &[],
    }
}

/// Returns a text from its first byte on that is no blank.
fn without_blanks(text: &[u8]) -> &[u8]
    ensures { result.now ≡ without_blanks text.now }
{
    after(text, blank_run(text))
}

/// Returns whether a text begins with `:` or `=`.
fn defines(text: &[u8]) -> bool
    ensures { result ≡ defines text.now }
{
    match text {
        [byte, ..] => *byte == b':' || *byte == b'=',
        [] => false,
    }
}

/// The name that a line begins with, if `:` or `=` stands after it.
#[tactic(auto, using(crate::proofs::LineSteps::name_steps), unfolding(crate::specs::Lines::name_of))]
fn name_of(line: &[u8]) -> Option<&[u8]>
    ensures { option_map (λ name. name.now) result ≡ name_of line.now }
{
    let rest = without_blanks(line);
    let count = word_run(rest);
    if count == 0 || count > rest.len() {
        return None;
    }
    if defines(without_blanks(after(rest, count))) {
        Some(&rest[..count])
    } else {
        None
    }
}

/// Appends the name that a line of this number begins with, if there is one.
fn push_name<'a>(names: &mut Vec<Name<'a>>, line: &'a [u8], number: u32) -> Result<(), AllocError>
    ensures { OnOk result (map name_view names.new.items
        ≡ map name_view names.old.items ++ with_name (name_of line.now) number []) }
{
    if let Some(text) = name_of(line) {
        names.push(Name { text, line: number })?;
    }
    Ok(())
}

/// Returns the names that lines define, in their order.
pub fn names_of<'a>(alloc: Global, lines: &[&'a [u8]]) -> Result<Vec<Name<'a>>, AllocError>
    ensures { IfOk result (λ names. map name_view names.items ≡ names_of (texts_of lines.now)) }
{
    let mut names = Vec::new(alloc);
    let mut number = 0u32;
    for line in lines {
        number = number.saturating_add(1);
        push_name(&mut names, line, number)?;
    }
    Ok(names)
}
