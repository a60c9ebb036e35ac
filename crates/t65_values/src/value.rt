//! Values.

ghost use Rattle.std.specs.Prelude.{◌≡◌, ◌==◌, drop, false, IfErr, IfOk, None, Some};
ghost use Rattle.std.specs.Str.{bytes_eq};
ghost use Rattle.t65_values.specs.ValueText.{atom_of, base_after, in_memory, is_letter_of};
ghost use Rattle.t65_values.specs.ValueText.{is_word_next, letter_in, memory_atom};
ghost use Rattle.t65_values.specs.ValueText.{letter_or_number, operation_at, operation_of, operator_by};
ghost use Rattle.t65_values.specs.ValueText.{operator_of, value_of, word_of};

use crate::expression::{Atom, Operation, Operator, Value};
use crate::fault::{Base, RowFault};
use crate::scan::{address_of, after, after_sign, after_word, is_text, number_of, word_of};
use assembler::Assembly;
use lexer::is_next;

/// The letters of a row's ranges.
#[derive(Clone, Copy)]
pub struct Letters {
    pub first: Option<u8>,
    pub second: Option<u8>,
    pub third: Option<u8>,
    pub fourth: Option<u8>,
}

fn is_letter_of(letter: Option<u8>, word: &[u8]) -> bool
    ensures { result ≡ is_letter_of letter word.now }
{
    match letter {
        None => false,
        Some(letter) => word == [letter].as_slice(),
    }
}

/// Returns the range whose letter a word is.
#[tactic(auto, unfolding(crate::specs::ValueText::letter_in))]
pub fn letter_in(letters: Letters, word: &[u8]) -> Option<Atom>
    ensures { result ≡ letter_in letters word.now }
{
    if is_letter_of(letters.first, word) {
        Some(Atom::First)
    } else if is_letter_of(letters.second, word) {
        Some(Atom::Second)
    } else if is_letter_of(letters.third, word) {
        Some(Atom::Third)
    } else if is_letter_of(letters.fourth, word) {
        Some(Atom::Fourth)
    } else {
        None
    }
}

fn letter_or_number(letters: Letters, base: Base, text: &[u8]) -> Result<(Atom, &[u8]), RowFault>
    ensures ok { IfOk result (λ p. letter_or_number base text.now
        (letter_in letters (word_of text.now)) ≡ Ok (p.0, p.1.now)) }
    ensures err { IfErr result (λ fault. letter_or_number base text.now
        (letter_in letters (word_of text.now)) ≡ Err fault) }
{
    match letter_in(letters, word_of(text)) {
        Some(atom) => Ok((atom, after_word(text))),
        None => {
            let (number, rest) = number_of(base, text)?;
            Ok((Atom::Number(number), rest))
        }
    }
}

/// Returns whether `.w` comes next.
fn is_word_next(text: &[u8]) -> bool
    ensures { result ≡ is_word_next text.now }
{
    is_next(b'.', text) && is_text(word_of(after(1, text)), b"w")
}

/// Returns the byte at an address, or the two bytes from there on where `.w` comes next, and the
/// text after it.
fn in_memory(address: u16, text: &[u8]) -> (Atom, &[u8])
    ensures { (result.0, result.1.now) ≡ in_memory address text.now }
{
    if is_word_next(text) {
        (Atom::Word(address), after_word(after(1, text)))
    } else {
        (Atom::Byte(address), text)
    }
}

/// Reads what stands after a `[`: an address, `]`, and `.w` for two bytes.
#[tactic(auto, unfolding(crate::specs::ValueText::memory_atom))]
fn memory_atom<'a>(names: &Assembly, text: &'a [u8]) -> Result<(Atom, &'a [u8]), RowFault>
    ensures ok { IfOk result (λ p. memory_atom names.now.names text.now ≡ Ok (p.0, p.1.now)) }
    ensures err { IfErr result (λ fault. memory_atom names.now.names text.now ≡ Err fault) }
{
    let (address, rest) = address_of(names, text)?;
    let rest = after_sign(b']', rest)?;
    Ok(in_memory(address, rest))
}

/// Reads a number, a letter, one byte of an address, or what is in memory.
#[tactic(auto, unfolding(crate::specs::ValueText::atom_of))]
fn atom_of<'a>(
    names: &Assembly,
    letters: Letters,
    base: Base,
    text: &'a [u8],
) -> Result<(Atom, &'a [u8]), RowFault>
    ensures ok { IfOk result
        (λ p. atom_of names.now.names letters base text.now ≡ Ok (p.0, p.1.now)) }
    ensures err { IfErr result
        (λ fault. atom_of names.now.names letters base text.now ≡ Err fault) }
{
    if is_next(b'[', text) {
        memory_atom(names, after(1, text))
    } else if is_next(b'<', text) {
        let (address, rest) = address_of(names, after(1, text))?;
        Ok((Atom::Number(address as u32 % 256), rest))
    } else if is_next(b'>', text) {
        let (address, rest) = address_of(names, after(1, text))?;
        Ok((Atom::Number(address as u32 / 256), rest))
    } else {
        letter_or_number(letters, base, text)
    }
}

fn operation_of(sign: u8) -> Option<Operation>
    ensures { result ≡ operation_of sign }
{
    match sign {
        b'+' => Some(Operation::Add),
        b'-' => Some(Operation::Subtract),
        b'*' => Some(Operation::Multiply),
        b'/' => Some(Operation::Divide),
        b'%' => Some(Operation::Remainder),
        b'&' => Some(Operation::And),
        b'|' => Some(Operation::Or),
        b'^' => Some(Operation::ExclusiveOr),
        _ => None,
    }
}

/// The operation that comes next. `->` is none.
#[tactic(auto, unfolding(crate::specs::ValueText::operation_at))]
fn operation_at(text: &[u8]) -> Option<Operation>
    ensures { result ≡ operation_at text.now }
{
    let (sign, rest) = text.split_first()?;
    if *sign == b'-' && is_next(b'>', rest) {
        return None;
    }
    operation_of(*sign)
}

fn base_after(operation: Operation, base: Base) -> Base
    ensures { result ≡ base_after operation base }
{
    match operation {
        Operation::Multiply | Operation::Divide | Operation::Remainder => Base::Decimal,
        Operation::Add
        | Operation::Subtract
        | Operation::And
        | Operation::Or
        | Operation::ExclusiveOr => base,
    }
}

/// Reads an operation and its right side, if an operation comes next.
#[tactic(auto, unfolding(crate::specs::ValueText::operator_of))]
fn operator_of<'a>(
    names: &Assembly,
    letters: Letters,
    base: Base,
    text: &'a [u8],
) -> Result<(Option<Operator>, &'a [u8]), RowFault>
    ensures ok { IfOk result
        (λ p. operator_of names.now.names letters base text.now ≡ Ok (p.0, p.1.now)) }
    ensures err { IfErr result
        (λ fault. operator_of names.now.names letters base text.now ≡ Err fault) }
{
    match operation_at(text) {
        None => Ok((None, text)),
        Some(operation) => {
            let base = base_after(operation, base);
            let (right, rest) = atom_of(names, letters, base, after(1, text))?;
            Ok((Some(Operator { operation, right }), rest))
        }
    }
}

/// Reads a value of up to three parts.
#[tactic(auto, unfolding(crate::specs::ValueText::value_of))]
pub fn value_of<'a>(
    names: &Assembly,
    letters: Letters,
    base: Base,
    text: &'a [u8],
) -> Result<(Value, &'a [u8]), RowFault>
    ensures ok { IfOk result
        (λ p. value_of names.now.names letters base text.now ≡ Ok (p.0, p.1.now)) }
    ensures err { IfErr result
        (λ fault. value_of names.now.names letters base text.now ≡ Err fault) }
{
    let (first, rest) = atom_of(names, letters, base, text)?;
    let (second, rest) = operator_of(names, letters, base, rest)?;
    let (third, rest) = operator_of(names, letters, base, rest)?;
    let value = Value {
        first,
        second,
        third,
    };
    Ok((value, rest))
}
