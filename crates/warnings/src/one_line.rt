//! What may be meant otherwise in one line.

ghost use Rattle.std.specs.Prelude.{◌≡◌, ◌<◌, ◌^◌, IfOk, OnOk, pos};
ghost use Rattle.std.specs.Str.{str_to_ascii_uppercase};
ghost use Rattle.line_parts.specs.Contents.{map_option};
ghost use Rattle.line_parts.specs.LineViews.{line_view, name_view, operand_view, statement_view};
ghost use Rattle.line_parts.specs.TermViews.{term_view};
ghost use Rattle.model.specs.Names.{number_in};
ghost use Rattle.model.specs.Value.{eval_of};
ghost use Rattle.warnings.specs.Views.{placed_view};
ghost use Rattle.warnings.specs.Warnings.{has_short_mode, is_alike, is_byte_value, is_long, is_short_direct};
ghost use Rattle.warnings.specs.Warnings.{is_short_line, is_short_operand, is_short_statement, is_silenced};
ghost use Rattle.warnings.specs.Warnings.{is_unused, name_in, names_register, with_capitals};

use crate::placed_line::PlacedLine;
use crate::used_names::note_word;
use crate::written_numbers::value_at;
use layout::zero_page_mode;
use line_parts::{Expr, Line, Operand, Statement};
use model::{Index, Mnemonic, Profile};
use optable::encode_in;
use std::alloc::{AllocError, Global};
use symbols::Symbols;

/// Returns whether a line ends in the comment that switches its warnings off, `; nowarn`.
pub fn is_silenced(text: &[u8]) -> bool
    ensures { result ≡ is_silenced text.now }
{
    &text[text.len().saturating_sub(8)..] == b"; nowarn".as_slice()
}

/// Returns the name that a line defines, if it can be read and defines one.
pub fn name_in<'a>(line: &Option<Line<'a>>) -> Option<&'a [u8]>
    ensures { name_view result ≡ name_in (map_option line_view line.now) }
{
    match line {
        Some(Line::Labelled(Some(name), _)) => Some(name),
        Some(Line::Labelled(None, _)) => None,
        Some(Line::Definition(name, _)) => Some(name),
        None => None,
    }
}

/// Returns whether a name is none of those that are used.
pub fn is_unused(used: &Symbols, name: Option<&[u8]>) -> bool
    ensures { result ≡ is_unused used.now (name_view name.entry) }
{
    match name {
        Some(name) => used.value_of(name).is_none(),
        None => false,
    }
}

/// Returns whether a name is that of a register in `mon`.
pub fn names_register(name: Option<&[u8]>) -> bool
    ensures { result ≡ names_register (name_view name.entry) }
{
    match name {
        Some(name) => {
            name.eq_ignore_ascii_case(b"S")
                || name.eq_ignore_ascii_case(b"P")
                || name.eq_ignore_ascii_case(b"PC")
        }
        None => false,
    }
}

/// A name in capitals.
fn in_capitals(alloc: Global, name: &[u8]) -> Result<Vec<u8>, AllocError>
    ensures { IfOk result (λ text. text.items ≡ str_to_ascii_uppercase name.now) }
{
    name.iter()
        .map(|byte| byte.to_ascii_uppercase())
        .collect(alloc)
}

/// Returns whether a name has the same letters as one that is noted in capitals, and notes it. The
/// only error is that a request for memory was refused.
pub fn note_capitals(
    alloc: Global,
    capitals: &mut Symbols,
    name: Option<&[u8]>,
) -> Result<bool, AllocError>
    ensures alike { IfOk result (λ alike. alike ≡ is_alike capitals.old (name_view name.entry)) }
    ensures noted { OnOk result
        (capitals.new ≡ with_capitals (name_view name.entry) capitals.old) }
{
    let Some(name) = name else {
        return Ok(false);
    };
    let text = in_capitals(alloc, name)?;
    let alike = capitals.value_of(&text).is_some();
    note_word(alloc, capitals, &text)?;
    Ok(alike)
}

/// Whether a mnemonic has the zero page mode with an index.
fn has_short_mode(profile: Profile, mnemonic: Mnemonic, index: Index) -> bool
    ensures { result ≡ has_short_mode profile mnemonic index }
{
    encode_in(profile, mnemonic, zero_page_mode(index)).is_some()
}

/// Whether an expression has a value that is 0..255.
fn is_byte_value(names: &Symbols, address: u32, value: &Expr<'_>) -> bool
    requires { address < 2 ^ 31 }
    ensures { result
        ≡ is_byte_value (eval_of (number_in names.now) (pos address) (term_view value.now)) }
{
    match value_at(value, names, address) {
        Ok(number) => (number >= 0) & (number <= 255),
        Err(_) => false,
    }
}

/// Whether an operand without `!` fits the zero page mode of its mnemonic.
#[tactic(auto, using(crate::proofs::Looking::all_three))]
fn is_short_direct(
    profile: Profile,
    names: &Symbols,
    address: u32,
    mnemonic: Mnemonic,
    marked: bool,
    value: &Expr<'_>,
    index: Index,
) -> bool
    requires { address < 2 ^ 31 }
    ensures { result ≡ is_short_direct marked (has_short_mode profile mnemonic index)
        (is_byte_value (eval_of (number_in names.now) (pos address) (term_view value.now))) }
{
    if marked {
        return false;
    }
    if has_short_mode(profile, mnemonic, index) {
        return is_byte_value(names, address, value);
    }
    false
}

/// Whether an operand fits the zero page mode of its mnemonic.
fn is_short_operand(
    profile: Profile,
    names: &Symbols,
    address: u32,
    mnemonic: Mnemonic,
    operand: &Operand<'_>,
) -> bool
    requires { address < 2 ^ 31 }
    ensures { result ≡ is_short_operand profile (number_in names.now) address mnemonic
        (operand_view operand.now) }
{
    match operand {
        Operand::Direct {
            marked,
            value,
            index,
        } => is_short_direct(profile, names, address, mnemonic, *marked, value, *index),
        _ => false,
    }
}

/// Whether a statement is an instruction whose operand fits its zero page mode.
fn is_short_statement(
    profile: Profile,
    names: &Symbols,
    address: u32,
    statement: &Statement<'_>,
) -> bool
    requires { address < 2 ^ 31 }
    ensures { result ≡ is_short_statement profile (number_in names.now) address
        (statement_view statement.now) }
{
    match statement {
        Statement::Instruction(mnemonic, operand) => is_short_operand(
            profile, names, address, *mnemonic, operand,
        ),
        _ => false,
    }
}

/// Whether a line is an instruction whose operand fits its zero page mode.
fn is_short_line(profile: Profile, names: &Symbols, address: u32, line: &Option<Line<'_>>) -> bool
    requires { address < 2 ^ 31 }
    ensures { result ≡ is_short_line profile (number_in names.now) address
        (map_option line_view line.now) }
{
    match line {
        Some(Line::Labelled(_, statement)) => is_short_statement(
            profile, names, address, statement,
        ),
        Some(Line::Definition(_, _)) | None => false,
    }
}

/// Returns whether a line is an instruction of three bytes, without `!`, whose operand is below 256
/// under the numbers of all names, and which has a form of two bytes for that.
pub fn is_long(profile: Profile, names: &Symbols, line: &PlacedLine<'_>) -> bool
    ensures { result ≡ is_long profile (number_in names.now) (placed_view line.now) }
{
    line.count == 3 && is_short_line(profile, names, line.address, &line.line)
}
