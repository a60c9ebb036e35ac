//! What a line says, as it was read.

ghost use Rattle.std.specs.Prelude.{◌≡◌};
ghost use Rattle.line_parts.specs.Contents.{map_option};
ghost use Rattle.line_parts.specs.LineViews.{operand_view};
ghost use Rattle.line_parts.specs.TermViews.{term_view};
ghost use Rattle.model.specs.Layout.{term_of};

use crate::tree::Expr;
use model::{Index, Mnemonic};

/// An operand as it is written.
#[derive(Drop)]
pub enum Operand<'a> {
    /// None.
    Absent,
    /// `A`
    Accumulator,
    /// `#e`
    Immediate(Expr<'a>),
    /// `e`, `e,X` or `e,Y`, and whether a `!` comes before it.
    Direct {
        marked: bool,
        value: Expr<'a>,
        index: Index,
    },
    /// `(e)`
    Pointer(Expr<'a>),
    /// `(e,X)`
    PointerByX(Expr<'a>),
    /// `(e),Y`
    PointerByY(Expr<'a>),
}

/// An item of `.BYTE`.
#[derive(Drop)]
pub enum Item<'a> {
    /// `e`
    Value(Expr<'a>),
    /// The bytes between the quotes of a string.
    Text(&'a [u8]),
}

/// What comes after a line's label.
#[derive(Drop)]
pub enum Statement<'a> {
    /// Nothing.
    Nothing,
    /// `*= e`
    Origin(Expr<'a>),
    /// `.BYTE item,..`
    Bytes(Vec<Item<'a>>),
    /// `.WORD e,..`: two bytes each, the low one first.
    Words(Vec<Expr<'a>>),
    /// `.DBYTE e,..`: two bytes each, the high one first.
    WordsHighFirst(Vec<Expr<'a>>),
    /// `.RES e`
    Reserve(Expr<'a>),
    /// `.END`
    Finish,
    /// A mnemonic and its operand.
    Instruction(Mnemonic, Operand<'a>),
}

/// What a line says.
#[derive(Drop)]
pub enum Line<'a> {
    /// A label, if there is one, and what comes after it.
    Labelled(Option<&'a [u8]>, Statement<'a>),
    /// `name = e`
    Definition(&'a [u8], Expr<'a>),
}

/// Returns an operand's expression, if it has one.
pub fn term_of<'s, 'a>(operand: &'s Operand<'a>) -> Option<&'s Expr<'a>>
    ensures { map_option (λ e. term_view e.now) result ≡ term_of (operand_view operand.now) }
{
    match operand {
        Operand::Absent => None,
        Operand::Accumulator => None,
        Operand::Immediate(value) => Some(value),
        Operand::Direct {
            marked: _,
            value,
            index: _,
        } => Some(value),
        Operand::Pointer(value) => Some(value),
        Operand::PointerByX(value) => Some(value),
        Operand::PointerByY(value) => Some(value),
    }
}
