//! Names, noted once each.

ghost use Rattle.std.specs.Prelude.{◌≡◌, IfOk, OnOk, [], map, true};
ghost use Rattle.line_parts.specs.Contents.{map_option};
ghost use Rattle.line_parts.specs.LineViews.{item_view, line_view, operand_view, statement_view};
ghost use Rattle.line_parts.specs.TermViews.{term_view};
ghost use Rattle.model.specs.AllFaults.{with_word};
ghost use Rattle.model.specs.Layout.{term_of};
ghost use Rattle.warnings.specs.Uses.{used_by, used_in, used_in_item, used_in_items};
ghost use Rattle.warnings.specs.Uses.{used_in_line, used_in_operand, used_in_statement};
ghost use Rattle.warnings.specs.Uses.{used_in_terms};
ghost use Rattle.warnings.specs.Views.{placed_views};

use crate::placed_line::PlacedLine;
use line_parts::{Expr, Item, Line, Operand, Statement, term_of};
use std::alloc::{AllocError, Global};
use symbols::Symbols;

/// Notes a word, with the number 0, if it is not noted already. The only error is that a request
/// for memory was refused.
#[tactic(auto, unfolding(model::specs::AllFaults::with_word))]
pub fn note_word(alloc: Global, names: &mut Symbols, word: &[u8]) -> Result<(), AllocError>
    ensures { OnOk result (names.new ≡ with_word true word.now names.old) }
{
    if names.value_of(word).is_none() {
        names.define(alloc, word, 0)?;
    }
    Ok(())
}

/// Notes the names of an expression.
fn note_term(alloc: Global, names: &mut Symbols, term: &Expr<'_>) -> Result<(), AllocError>
    ensures { OnOk result (names.new ≡ used_in (term_view term.now) names.old) }
{
    match term {
        Expr::Literal(_) => Ok(()),
        Expr::Name(name) => note_word(alloc, names, name),
        Expr::Here => Ok(()),
        Expr::Negated(inner) => note_term(alloc, names, inner),
        Expr::Binary(_, left, right) => {
            note_term(alloc, names, left)?;
            note_term(alloc, names, right)
        }
        Expr::Low(inner) => note_term(alloc, names, inner),
        Expr::High(inner) => note_term(alloc, names, inner),
    }
}

/// Notes the names of some expressions.
fn note_terms(alloc: Global, names: &mut Symbols, terms: &[Expr<'_>]) -> Result<(), AllocError>
    ensures { OnOk result (names.new ≡ used_in_terms (map term_view terms.now) names.old) }
{
    for term in terms {
        note_term(alloc, names, term)?;
    }
    Ok(())
}

/// Notes the names of an item of `.BYTE`.
fn note_item(alloc: Global, names: &mut Symbols, item: &Item<'_>) -> Result<(), AllocError>
    ensures { OnOk result (names.new ≡ used_in_item (item_view item.now) names.old) }
{
    match item {
        Item::Value(value) => note_term(alloc, names, value),
        Item::Text(_) => Ok(()),
    }
}

/// Notes the names of the items of `.BYTE`.
fn note_items(alloc: Global, names: &mut Symbols, items: &[Item<'_>]) -> Result<(), AllocError>
    ensures { OnOk result (names.new ≡ used_in_items (map item_view items.now) names.old) }
{
    for item in items {
        note_item(alloc, names, item)?;
    }
    Ok(())
}

/// Notes the names of an operand.
fn note_operand(alloc: Global, names: &mut Symbols, operand: &Operand<'_>) -> Result<(), AllocError>
    ensures { OnOk result
        (names.new ≡ used_in_operand (term_of (operand_view operand.now)) names.old) }
{
    match term_of(operand) {
        None => Ok(()),
        Some(term) => note_term(alloc, names, term),
    }
}

/// Notes the names of a statement.
fn note_statement(
    alloc: Global,
    names: &mut Symbols,
    statement: &Statement<'_>,
) -> Result<(), AllocError>
    ensures { OnOk result
        (names.new ≡ used_in_statement (statement_view statement.now) names.old) }
{
    match statement {
        Statement::Nothing | Statement::Finish => Ok(()),
        Statement::Origin(value) | Statement::Reserve(value) => note_term(alloc, names, value),
        Statement::Bytes(items) => note_items(alloc, names, items),
        Statement::Words(values) | Statement::WordsHighFirst(values) => {
            note_terms(alloc, names, values)
        }
        Statement::Instruction(_, operand) => note_operand(alloc, names, operand),
    }
}

/// Notes the names of a line.
fn note_line(alloc: Global, names: &mut Symbols, line: &Option<Line<'_>>) -> Result<(), AllocError>
    ensures { OnOk result (names.new ≡ used_in_line (map_option line_view line.now) names.old) }
{
    match line {
        None => Ok(()),
        Some(Line::Labelled(_, statement)) => note_statement(alloc, names, statement),
        Some(Line::Definition(_, value)) => note_term(alloc, names, value),
    }
}

/// Returns the names that the expressions of lines use, each once, with the number 0.
///
/// The only error is that a request for memory was refused.
pub fn used_by(alloc: Global, lines: &[PlacedLine<'_>]) -> Result<Symbols, AllocError>
    ensures { IfOk result (λ names. names ≡ used_by (placed_views lines.now) []) }
{
    let mut names = Symbols::new(alloc);
    for one in lines {
        note_line(alloc, &mut names, &one.line)?;
    }
    Ok(names)
}
