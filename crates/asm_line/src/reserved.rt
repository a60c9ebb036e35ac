//! Reserved words in the place of names.

ghost use Rattle.std.specs.Prelude.{◌≡◌};
ghost use Rattle.std.specs.List.{list_any};
ghost use Rattle.model.specs.SourceLine.{is_reserved, item_reserves, line_reserves, operand_reserves};
ghost use Rattle.model.specs.SourceLine.{reserves, term_reserves};
ghost use Rattle.line_parts.specs.TermViews.{term_view};
ghost use Rattle.line_parts.specs.LineViews.{statement_view, item_view, line_view, operand_view};

use crate::token_tests::is_in_capitals;
use line_parts::{Expr, Item, Line, Operand, Statement};
use model::Profile;
use optable::mnemonic_in;

/// Returns whether a word is a mnemonic of a profile, A, X or Y, in either letter case.
#[tactic(auto, unfolding(model::specs::SourceLine::is_reserved))]
fn is_reserved(profile: Profile, text: &[u8]) -> bool
    ensures { result ≡ is_reserved profile text.now }
{
    mnemonic_in(profile, text).is_some()
        || is_in_capitals(text, b"A")
        || is_in_capitals(text, b"X")
        || is_in_capitals(text, b"Y")
}

/// Returns whether an expression uses a reserved word as a name.
fn expr_reserves(profile: Profile, expr: &Expr<'_>) -> bool
    ensures { result ≡ term_reserves profile (term_view expr.now) }
{
    match expr {
        Expr::Literal(_) | Expr::Here => false,
        Expr::Name(text) => is_reserved(profile, text),
        Expr::Negated(inner) | Expr::Low(inner) | Expr::High(inner) => expr_reserves(
            profile, inner,
        ),
        Expr::Binary(_, left, right) => expr_reserves(profile, left)
            || expr_reserves(profile, right),
    }
}

/// Returns whether an operand uses a reserved word as a name.
fn operand_reserves(profile: Profile, operand: &Operand<'_>) -> bool
    ensures { result ≡ operand_reserves profile (operand_view operand.now) }
{
    match operand {
        Operand::Absent | Operand::Accumulator => false,
        Operand::Immediate(value)
        | Operand::Direct { value, .. }
        | Operand::Pointer(value)
        | Operand::PointerByX(value)
        | Operand::PointerByY(value) => expr_reserves(profile, value),
    }
}

/// Returns whether an item uses a reserved word as a name.
fn item_reserves(profile: Profile, item: &Item<'_>) -> bool
    ensures { result ≡ item_reserves profile (item_view item.now) }
{
    match item {
        Item::Value(value) => expr_reserves(profile, value),
        Item::Text(_) => false,
    }
}

/// Returns whether one of some expressions uses a reserved word as a name.
fn any_reserves(profile: Profile, values: &[Expr<'_>]) -> bool
    ensures { result ≡ list_any (λ value. term_reserves profile (term_view value)) values.now }
{
    values.iter().any(|value| expr_reserves(profile, value))
}

/// Returns whether one of some items uses a reserved word as a name.
fn any_item_reserves(profile: Profile, items: &[Item<'_>]) -> bool
    ensures { result ≡ list_any (λ item. item_reserves profile (item_view item)) items.now }
{
    items.iter().any(|item| item_reserves(profile, item))
}

/// Returns whether a statement uses a reserved word as a name.
#[tactic(auto, using(crate::proofs::TokensLeft::list_any_map))]
fn reserves(profile: Profile, statement: &Statement<'_>) -> bool
    ensures { result ≡ reserves profile (statement_view statement.now) }
{
    match statement {
        Statement::Nothing | Statement::Finish => false,
        Statement::Origin(value) | Statement::Reserve(value) => expr_reserves(profile, value),
        Statement::Bytes(items) => any_item_reserves(profile, items),
        Statement::Words(values) | Statement::WordsHighFirst(values) => any_reserves(
            profile, values,
        ),
        Statement::Instruction(_, operand) => operand_reserves(profile, operand),
    }
}

/// Returns whether a line uses a reserved word as a name.
pub fn line_reserves(profile: Profile, line: &Line<'_>) -> bool
    ensures { result ≡ line_reserves profile (line_view line.now) }
{
    match line {
        Line::Labelled(None, statement) => reserves(profile, statement),
        Line::Labelled(Some(name), statement) => is_reserved(profile, name)
            || reserves(profile, statement),
        Line::Definition(name, value) => is_reserved(profile, name)
            || expr_reserves(profile, value),
    }
}
