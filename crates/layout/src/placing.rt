//! A line after the lines before it: its name, its address and its size.

ghost use Rattle.std.specs.Prelude.{◌≡◌, ◌+◌, ◌-◌, ◌<◌, ◌≤◌, ◌^◌, None, Some, Ok, max, IfOk};
ghost use Rattle.line_parts.specs.LineViews.{statement_view, line_view};
ghost use Rattle.line_parts.specs.FewBytes.{IsSmall, IsSmallLine};
ghost use Rattle.line_parts.specs.Contents.{line_content};
ghost use Rattle.layout.specs.Placements.{PlacesLine, Leaves, unless_memory};
ghost use Rattle.line_parts.specs.TermViews.{term_view};
ghost use Rattle.model.specs.AllFaults.{names_left};
ghost use Rattle.model.specs.Names.{number_in};
ghost use Rattle.model.specs.SourceLine.{definition, labelled};
ghost use Rattle.model.specs.Layout.{named_line_at, or_too_many, size_of, unless_full};

use crate::layout::{Placement, place_statement, placing_value, value_at};
use line_parts::{Expr, Line, LineError, Statement};
use model::{AsmFaultKind, Profile};
use std::alloc::Global;
use symbols::Symbols;

/// The most names that a source defines. Source: mos65.
const MOST_NAMES: usize = 8192;

/// Returns the lower one of a kind and `TooManyNames`.
fn or_too_many(kind: AsmFaultKind) -> AsmFaultKind
    ensures { result ≡ or_too_many kind }
{
    if kind.number() <= AsmFaultKind::TooManyNames.number() {
        kind
    } else {
        AsmFaultKind::TooManyNames
    }
}

/// Returns the result for a line whose name may be one too many.
fn unless_full(full: bool, laid: Result<Placement, AsmFaultKind>) -> Result<Placement, LineError>
    ensures exact { unless_memory result ≡ Some (unless_full full laid) }
    ensures same { IfOk result (λ s. laid ≡ Ok s) }
{
    match laid {
        Ok(placement) => {
            if full {
                Err(LineError::Kind(AsmFaultKind::TooManyNames))
            } else {
                Ok(placement)
            }
        }
        Err(kind) => {
            if full {
                Err(LineError::Kind(or_too_many(kind)))
            } else {
                Err(LineError::Kind(kind))
            }
        }
    }
}

/// Defines a new label at its line's address, and places the line.
#[tactic(auto, unfolding(model::specs::Layout::named_line_at, model::specs::AllFaults::names_left))]
fn place_label(
    alloc: Global,
    profile: Profile,
    symbols: &mut Symbols,
    address: u32,
    name: &[u8],
    statement: &Statement<'_>,
) -> Result<Placement, LineError>
    requires room { address < 2 ^ 31 - 510 }
    requires small { IsSmall (statement_view statement.now) }
    requires fresh { number_in symbols.old name.now ≡ None }
    ensures exact { PlacesLine profile address
        (labelled (Some name.now) (statement_view statement.now)) result
        symbols.new
        (named_line_at (record { profile = profile; address = address; names = symbols.old })
        (labelled (Some name.now) (statement_view statement.now))) }
    ensures left { Leaves result symbols.new
        (names_left (record { profile = profile; address = address; names = symbols.old })
        (labelled (Some name.now) (statement_view statement.now))) }
    ensures near { IfOk result (λ s. s.next ≤ max (address + 510) 65536) }
    ensures small { IfOk result (λ s. s.count ≤ 510) }
    ensures sized { IfOk result (λ s. s.count
        ≡ size_of (line_content s.code (labelled (Some name.now) (statement_view statement.now)))) }
{
    let full = symbols.count() == MOST_NAMES;
    symbols.define(alloc, name, address as i32)?;
    unless_full(full, place_statement(profile, address, symbols, statement))
}

/// Defines a new name.
#[tactic(auto, unfolding(model::specs::Layout::named_line_at, model::specs::Layout::size_of, model::specs::AllFaults::names_left))]
fn place_definition(
    alloc: Global,
    profile: Profile,
    symbols: &mut Symbols,
    address: u32,
    name: &[u8],
    value: &Expr<'_>,
) -> Result<Placement, LineError>
    requires room { address < 2 ^ 31 - 510 }
    requires fresh { number_in symbols.old name.now ≡ None }
    ensures exact { PlacesLine profile address (definition name.now (term_view value.now)) result
        symbols.new
        (named_line_at (record { profile = profile; address = address; names = symbols.old })
        (definition name.now (term_view value.now))) }
    ensures left { Leaves result symbols.new
        (names_left (record { profile = profile; address = address; names = symbols.old })
        (definition name.now (term_view value.now))) }
    ensures near { IfOk result (λ s. s.next ≤ max (address + 510) 65536) }
    ensures small { IfOk result (λ s. s.count ≤ 510) }
    ensures sized { IfOk result
        (λ s. s.count ≡ size_of (line_content s.code (definition name.now (term_view value.now)))) }
{
    let full = symbols.count() == MOST_NAMES;
    match placing_value(value_at(value, symbols, address)) {
        Ok(number) => {
            if full {
                return Err(LineError::Kind(AsmFaultKind::TooManyNames));
            }
            symbols.define(alloc, name, number)?;
            Ok(Placement::without_bytes(address))
        }
        Err(kind) => {
            if full {
                return Err(LineError::Kind(or_too_many(kind)));
            }
            Err(LineError::Kind(kind))
        }
    }
}

/// Defines a line's name, and returns where the line is after those before it.
///
/// Errors: `Kind` with the line's layout fault; `Memory` if an allocation fails.
#[tactic(auto, unfolding(model::specs::Layout::named_line_at, model::specs::AllFaults::names_left))]
pub fn place_line(
    alloc: Global,
    profile: Profile,
    symbols: &mut Symbols,
    address: u32,
    line: &Line<'_>,
) -> Result<Placement, LineError>
    requires room { address < 2 ^ 31 - 510 }
    requires small { IsSmallLine (line_view line.now) }
    ensures exact { PlacesLine profile address (line_view line.now) result symbols.new
        (named_line_at (record { profile = profile; address = address; names = symbols.old })
        (line_view line.now)) }
    // After a fault its label is defined, unless an earlier line defines it, and nothing else.
    ensures left { Leaves result symbols.new
        (names_left (record { profile = profile; address = address; names = symbols.old })
        (line_view line.now)) }
    ensures near { IfOk result (λ s. s.next ≤ max (address + 510) 65536) }
    ensures small { IfOk result (λ s. s.count ≤ 510) }
    ensures sized { IfOk result
        (λ s. s.count ≡ size_of (line_content s.code (line_view line.now))) }
{
    match line {
        Line::Labelled(None, statement) => unless_full(
            false,
            place_statement(profile, address, symbols, statement),
        ),
        Line::Labelled(Some(name), statement) => {
            if symbols.value_of(name).is_some() {
                return Err(LineError::Kind(AsmFaultKind::DuplicateName));
            }
            place_label(alloc, profile, symbols, address, name, statement)
        }
        Line::Definition(name, value) => {
            if symbols.value_of(name).is_some() {
                return Err(LineError::Kind(AsmFaultKind::DuplicateName));
            }
            place_definition(alloc, profile, symbols, address, name, value)
        }
    }
}
