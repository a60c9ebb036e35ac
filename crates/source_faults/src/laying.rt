//! The layout of all lines, those with a fault mended.

ghost use Rattle.std.specs.Prelude.{◌≡◌, ◌+◌, ◌-◌, ◌<◌, ◌≤◌, ◌^◌, ℕ, [], Ok, max, length, IfOk, OnOk};
ghost use Rattle.line_parts.specs.FewBytes.{IsSmallLine};
ghost use Rattle.line_parts.specs.LineViews.{line_view};
ghost use Rattle.model.specs.AllFaults.{first_word, fixed_by, found_lines, with_word};
ghost use Rattle.model.specs.SourceLine.{read_line};
ghost use Rattle.model.specs.Source.{first_context, read_lines};
ghost use Rattle.source_faults.specs.Views.{AreNumbered, HasNumber, Lays, ends_line, found_all};
ghost use Rattle.source_faults.specs.Views.{found_view, mending_of, refused_at};

use crate::found::{Found, found_at};
use crate::mending::{Mending, number_word};
use asm_line::read_line_with;
use layout::place_line;
use line_parts::{Line, LineError, Statement, Token, next_line};
use model::{AsmFaultKind, Profile};
use std::alloc::{AllocError, Global};
use symbols::Symbols;

/// What is found of a line, the next line's address, and whether no more lines are read.
#[derive(Drop)]
pub struct Laid<'a> {
    found: Found<'a>,
    next: u32,
    ended: bool,
}

/// Whether nothing after a line is read.
fn ends(line: &Line<'_>) -> bool
    ensures { result ≡ ends_line (line_view line.now) }
{
    match line {
        Line::Labelled(_, Statement::Finish) => true,
        Line::Labelled(_, _) | Line::Definition(_, _) => false,
    }
}

/// A line with a fault, mended.
fn mend<'a>(
    alloc: Global,
    mending: Mending,
    symbols: &mut Symbols,
    address: u32,
    text: &[u8],
    kind: AsmFaultKind,
    ended: bool,
) -> Result<Laid<'a>, AllocError>
    requires { address < 2 ^ 31 - 510 }
    ensures found { IfOk result (λ laid. found_view laid.found ≡ refused_at address kind) }
    ensures names { OnOk result
        (symbols.new ≡ with_word (mending_of mending).numbered (first_word text.now) symbols.old) }
    ensures next { IfOk result (λ laid. laid.next ≡ address + (mending_of mending).bytes) }
    ensures near { IfOk result (λ laid. laid.next ≤ address + 3) }
    ensures end { IfOk result (λ laid. laid.ended ≡ ended) }
    ensures numbered { IfOk result (λ laid. (number : ℕ) → HasNumber number laid.found) }
{
    number_word(alloc, mending, symbols, text)?;
    Ok(Laid {
        found: Found::Refused { address, kind },
        next: address + mending.bytes(),
        ended,
    })
}

/// A line that was read, laid out or mended.
#[tactic(auto, unfolding(model::specs::Layout::layout_of, model::specs::AllFaults::mended))]
fn lay_read<'a>(
    alloc: Global,
    profile: Profile,
    mending: Mending,
    symbols: &mut Symbols,
    number: u32,
    address: u32,
    text: &'a [u8],
    line: Line<'a>,
) -> Result<Laid<'a>, AllocError>
    requires room { address < 2 ^ 31 - 510 }
    requires read { read_line profile text.now ≡ Ok (line_view line) }
    requires small { IsSmallLine (line_view line) }
    ensures exact { Lays (mending_of mending) profile address symbols.old text.now result
        symbols.new }
    ensures near { IfOk result (λ laid. laid.next ≤ max (address + 510) 65536) }
    ensures numbered { IfOk result (λ laid. HasNumber number laid.found) }
{
    let ended = ends(&line);
    match place_line(alloc, profile, symbols, address, &line) {
        Ok(placement) => Ok(Laid {
            found: found_at(number, address, line, placement),
            next: placement.next,
            ended,
        }),
        Err(LineError::Kind(kind)) => {
            drop(line);
            mend(alloc, mending, symbols, address, text, kind, ended)
        }
        Err(LineError::Memory) => {
            drop(line);
            Err(AllocError)
        }
    }
}

/// A line read and laid out, or mended.
#[tactic(auto, unfolding(model::specs::Layout::layout_of, model::specs::AllFaults::mended))]
fn lay_line<'a>(
    alloc: Global,
    profile: Profile,
    mending: Mending,
    symbols: &mut Symbols,
    room: &mut Vec<Token<'a>>,
    number: u32,
    address: u32,
    text: &'a [u8],
) -> Result<Laid<'a>, AllocError>
    requires { address < 2 ^ 31 - 510 }
    ensures exact { Lays (mending_of mending) profile address symbols.old text.now result
        symbols.new }
    ensures near { IfOk result (λ laid. laid.next ≤ max (address + 510) 65536) }
    ensures numbered { IfOk result (λ laid. HasNumber number laid.found) }
{
    match read_line_with(alloc, profile, room, text) {
        Ok(line) => lay_read(
            alloc, profile, mending, symbols, number, address, text, line,
        ),
        Err(LineError::Kind(kind)) => mend(alloc, mending, symbols, address, text, kind, false),
        Err(LineError::Memory) => Err(AllocError),
    }
}

/// Returns what is found of each line that is read, those with a layout fault mended, and all names
/// with their numbers. The only error is that a request for memory was refused.
pub fn lay_out<'a>(
    alloc: Global,
    profile: Profile,
    mending: Mending,
    symbols: &mut Symbols,
    source: &'a [u8],
) -> Result<Vec<Found<'a>>, AllocError>
    requires size { length source.now ≤ 1048576 }
    requires empty { symbols.old ≡ [] }
    ensures found { IfOk result (λ found. found_all found.items ≡ found_lines (mending_of mending)
        (first_context profile) (read_lines profile source.now)) }
    ensures names { OnOk result (symbols.new ≡ (fixed_by (mending_of mending)
        (first_context profile) (read_lines profile source.now)).names) }
    // A line that denotes bytes has its own number, counted from 1.
    ensures numbered { IfOk result (λ found. AreNumbered 1 found.items) }
    ensures few { IfOk result (λ found. length found.items ≤ 1048576) }
{
    let mut found = Vec::new(alloc);
    let mut room = Vec::new(alloc);
    let mut rest = source;
    let mut number = 1;
    let mut address = 0;
    while !rest.is_empty() {
        let (text, behind) = next_line(rest);
        let laid = lay_line(
            alloc, profile, mending, symbols, &mut room, number, address, text,
        )?;
        address = laid.next;
        let ended = laid.ended;
        found.push(laid.found)?;
        if ended {
            return Ok(found);
        }
        rest = behind;
        number += 1;
    }
    Ok(found)
}
