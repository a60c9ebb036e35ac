//! The lines of a source that were read, and where the text of each stands.

ghost use Rattle.std.specs.Prelude.{◌≡◌, ◌∷◌, ◌==◌, ◌<◌, ◌≤◌, drop, length, position, take};
ghost use Rattle.std.specs.Io.BufRead.{strip_last};
ghost use Rattle.line_parts.specs.LineViews.{line_view, statement_view};
ghost use Rattle.model.specs.TextLines.{lines_of};
ghost use Rattle.assembler.specs.Lines.{has_instruction, is_instruction, names_label};
ghost use Rattle.assembler.specs.Texts.{text_in};

use line_parts::{Line, Statement};

/// A line of a source that was read, in its place.
#[derive(Clone, Copy, Debug)]
pub struct SourceLine<'a> {
    /// Its number, counted from 1.
    pub number: u32,
    /// Its address. Only a line without bytes can be at 65536.
    pub address: u32,
    /// How many bytes it denotes.
    pub count: u32,
    /// Its text without its end.
    pub text: &'a [u8],
    /// Whether it is an instruction, and no directive.
    pub is_instruction: bool,
}

/// Where a line's text stands in its source, and whether the line is an instruction.
#[derive(Clone, Copy)]
pub struct LineText {
    pub start: u32,
    pub len: u32,
    pub is_instruction: bool,
}

impl LineText {
    /// Returns the text.
    #[tactic(auto, using(crate::proofs::LineTexts::text_cut))]
    pub fn of(self, source: &[u8]) -> &[u8]
        ensures { result.now ≡ text_in source.now self }
    {
        let behind = &source[(self.start as usize).min(source.len())..];
        &behind[..(self.len as usize).min(behind.len())]
    }
}

/// Returns how many bytes a line has without the one CR at its end, if there is one.
fn len_without_return(line: &[u8]) -> usize
    ensures cut { take result line.now ≡ strip_last 13 line.now }
    ensures inside { result ≤ length line.now }
{
    match line {
        [front @ .., b'\r'] => front.len(),
        line => line.len(),
    }
}

/// Returns the index of the first LF.
fn line_feed(text: &[u8]) -> Option<usize>
    ensures { result ≡ position (λ b. b == 10) text.now }
{
    text.iter().position(|byte| *byte == b'\n')
}

/// Returns how many bytes the first line of a text has, without its end and with it.
pub fn first_line(text: &[u8]) -> (usize, usize)
    requires { 0 < length text.now }
    ensures cut { lines_of text.now ≡ take result.0 text.now ∷ lines_of (drop result.1 text.now) }
    ensures some { 0 < result.1 }
    ensures shorter { result.0 ≤ result.1 }
    ensures inside { result.1 ≤ length text.now }
{
    match line_feed(text) {
        Some(at) => (len_without_return(&text[..at]), at + 1),
        None => (text.len(), text.len()),
    }
}

/// Returns whether a statement is an instruction.
fn is_instruction(statement: &Statement<'_>) -> bool
    ensures { result ≡ is_instruction (statement_view statement.now) }
{
    match statement {
        Statement::Instruction(..) => true,
        Statement::Nothing
        | Statement::Origin(_)
        | Statement::Bytes(_)
        | Statement::Words(_)
        | Statement::WordsHighFirst(_)
        | Statement::Reserve(_)
        | Statement::Finish => false,
    }
}

/// Returns whether a line has an instruction.
pub fn has_instruction(line: &Line<'_>) -> bool
    ensures { result ≡ has_instruction (line_view line.now) }
{
    match line {
        Line::Labelled(_, statement) => is_instruction(statement),
        Line::Definition(_, _) => false,
    }
}

/// Returns whether the name that a line defines is a label, if it defines one.
pub fn names_label(line: &Line<'_>) -> Option<bool>
    ensures { result ≡ names_label (line_view line.now) }
{
    match line {
        Line::Labelled(None, _) => None,
        Line::Labelled(Some(_), _) => Some(true),
        Line::Definition(_, _) => Some(false),
    }
}
