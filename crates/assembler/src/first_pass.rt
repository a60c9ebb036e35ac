//! The first pass: the address of each line, and the number of each name.

ghost use Rattle.std.specs.Prelude.{◌≡◌, ◌+◌, ◌-◌, ◌<◌, ◌≤◌, ◌^◌, ◌++◌, ◌∷◌, [], max, length, IfOk};
ghost use Rattle.std.specs.Prelude.{OnOk};
ghost use Rattle.std.specs.Option.{option_to_list};
ghost use Rattle.assembler.specs.Found.{found_lines, nothing_found, with_line_found};
ghost use Rattle.assembler.specs.FoundLines.{Lays, Takes, ends_line, found_of};
ghost use Rattle.assembler.specs.Texts.{AreTexts};
ghost use Rattle.line_parts.specs.LineViews.{statement_view, line_view};
ghost use Rattle.model.specs.Layout.{layout_of};
ghost use Rattle.model.specs.Source.{is_finish, first_context, read_lines};

use crate::found::Lines;
use crate::source_line::{LineText, first_line, has_instruction, names_label};
use asm_line::read_line_with;
use layout::place_line;
use line_parts::{Line, LineError, OUT_OF_MEMORY, Statement, Token, fault_on_line};
use model::{AsmFault, Profile};
use std::alloc::{AllocError, Global};
use symbols::Symbols;

/// What is known once a line is taken.
#[derive(Clone, Copy)]
pub struct Taken {
    /// The next line's address.
    pub next: u32,
    /// Whether no more lines are read.
    pub is_end: bool,
    /// Whether the line is an instruction.
    pub is_instruction: bool,
    /// Whether the name that it defines is a label, if it defines one.
    pub is_label: Option<bool>,
}

/// What the first pass finds.
#[derive(Drop)]
pub struct Laid<'a> {
    pub lines: Lines<'a>,
    /// Where each line's text stands.
    pub texts: Vec<LineText>,
    /// Of each name, in the order of definition, whether it is a label.
    pub labels: Vec<bool>,
}

/// Returns whether a statement is `.END`.
fn is_finish(statement: &Statement<'_>) -> bool
    ensures { result ≡ is_finish (statement_view statement.now) }
{
    match statement {
        Statement::Finish => true,
        Statement::Nothing
        | Statement::Origin(_)
        | Statement::Bytes(_)
        | Statement::Words(_)
        | Statement::WordsHighFirst(_)
        | Statement::Reserve(_)
        | Statement::Instruction(_, _) => false,
    }
}

/// Returns whether nothing after a line is read.
fn ends(line: &Line<'_>) -> bool
    ensures { result ≡ ends_line (line_view line.now) }
{
    match line {
        Line::Labelled(_, statement) => is_finish(statement),
        Line::Definition(_, _) => false,
    }
}

/// Reads a line and lays it out after those that were found.
#[tactic(auto, unfolding(model::specs::Layout::layout_of))]
fn take_line<'a>(
    alloc: Global,
    profile: Profile,
    symbols: &mut Symbols,
    lines: &mut Lines<'a>,
    room: &mut Vec<Token<'a>>,
    number: u32,
    address: u32,
    text: &'a [u8],
) -> Result<Taken, LineError>
    requires { address < 2 ^ 31 - 510 }
    ensures exact { Takes profile text.now (found_of lines.new) result symbols.new
        (with_line_found number (found_of lines.old) (layout_of
        (record { profile = profile; address = address; names = symbols.old }) text.now)) }
    ensures near { IfOk result (λ taken. taken.next ≤ max (address + 510) 65536) }
{
    let line = read_line_with(alloc, profile, room, text)?;
    let is_end = ends(&line);
    let is_instruction = has_instruction(&line);
    let is_label = names_label(&line);
    match place_line(alloc, profile, symbols, address, &line) {
        Ok(placement) => {
            lines.note(number, address, line, placement)?;
            Ok(Taken {
                next: placement.next,
                is_end,
                is_instruction,
                is_label,
            })
        }
        Err(error) => {
            drop(line);
            Err(error)
        }
    }
}

impl<'a> Laid<'a> {
    /// Makes an empty one.
    fn new(alloc: Global) -> Laid<'a>
        ensures found { found_of result.lines ≡ nothing_found }
        ensures texts { result.texts.items ≡ [] }
        ensures labels { result.labels.items ≡ [] }
    {
        Laid {
            lines: Lines::new(alloc),
            texts: Vec::new(alloc),
            labels: Vec::new(alloc),
        }
    }

    /// Appends the text of a line that was taken, and whether its name is a label.
    fn note(&mut self, start: u32, len: u32, taken: Taken) -> Result<(), AllocError>
        ensures found { self.new.lines ≡ self.old.lines }
        ensures texts { OnOk result (self.new.texts.items ≡ self.old.texts.items
            ++ record { start = start; len = len; is_instruction = taken.is_instruction } ∷ []) }
        ensures labels { OnOk result
            (self.new.labels.items ≡ self.old.labels.items ++ option_to_list taken.is_label) }
    {
        if let Some(is_label) = taken.is_label {
            self.labels.push(is_label)?;
        }
        self.texts.push(LineText {
            start,
            len,
            is_instruction: taken.is_instruction,
        })?;
        Ok(())
    }
}

/// Returns each line in its place and all names with their numbers, or the first layout fault.
pub fn lay_out<'a>(
    alloc: Global,
    profile: Profile,
    symbols: &mut Symbols,
    source: &'a [u8],
) -> Result<Laid<'a>, AsmFault>
    requires size { length source.now ≤ 1048576 }
    requires empty { symbols.old ≡ [] }
    ensures found { Lays profile result symbols.new
        (found_lines 1 (first_context profile) nothing_found (read_lines profile source.now)) }
    ensures texts { IfOk result
        (λ laid. AreTexts profile source.now laid.texts.items laid.labels.items) }
    ensures paired { IfOk result
        (λ laid. length laid.texts.items ≡ length (found_of laid.lines).extents) }
    ensures few { IfOk result (λ laid. length laid.texts.items ≤ 1048576) }
    ensures named { IfOk result (λ laid. length laid.labels.items ≡ length symbols.new) }
{
    let mut laid = Laid::new(alloc);
    let mut room = Vec::new(alloc);
    let mut start = 0;
    let mut number = 1;
    let mut address = 0;
    while start < source.len() {
        let rest = &source[start..];
        let (len, size) = first_line(rest);
        let text = &rest[..len];
        match take_line(
            alloc,
            profile,
            symbols,
            &mut laid.lines,
            &mut room,
            number,
            address,
            text,
        ) {
            Ok(taken) => {
                laid.note(start as u32, len as u32, taken)
                    .map_err(|_| OUT_OF_MEMORY)?;
                if taken.is_end {
                    return Ok(laid);
                }
                address = taken.next;
            }
            Err(error) => return Err(fault_on_line(number, error)),
        }
        start += size;
        number += 1;
    }
    Ok(laid)
}
