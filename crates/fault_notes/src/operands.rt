//! Words about operands: those that an instruction takes, and registers where none can stand.

use crate::form::is_word;
use line_parts::Token;
use model::{Mnemonic, Mode, Profile};
use opcode_facts::all_modes;
use optable::{encode_in, mnemonic_in};
use source_notes::{after_label, concat, describe, is_symbol, operand_of, phrase};
use std::alloc::{AllocError, Global};

/// Returns an operand of a mode, as it is written behind a mnemonic.
fn example_of(mode: Mode) -> &'static str {
    match mode {
        Mode::Imp => "",
        Mode::Acc => " A",
        Mode::Imm => " #5",
        Mode::Zp => " $10",
        Mode::ZpX => " $10,X",
        Mode::ZpY => " $10,Y",
        Mode::Abs => " $1234",
        Mode::AbsX => " $1234,X",
        Mode::AbsY => " $1234,Y",
        Mode::Ind => " ($1234)",
        Mode::IndX => " ($10,X)",
        Mode::IndY => " ($10),Y",
        Mode::IndZ => " ($10)",
        Mode::Rel => " label",
    }
}

/// Appends an instruction of each mode that a mnemonic has.
fn push_examples(
    words: &mut Vec<u8>,
    profile: Profile,
    mnemonic: Mnemonic,
    name: &[u8],
) -> Result<(), AllocError> {
    let mut before: &[u8] = b"";
    for mode in all_modes() {
        if encode_in(profile, mnemonic, *mode).is_some() {
            words.extend_from_slice(before)?;
            words.extend_from_slice(name)?;
            words.extend_from_slice(example_of(*mode).as_bytes())?;
            before = b"  ";
        }
    }
    Ok(())
}

/// Appends which operands a mnemonic takes.
fn push_taken(
    words: &mut Vec<u8>,
    profile: Profile,
    mnemonic: Mnemonic,
    name: &[u8],
) -> Result<(), AllocError> {
    if matches!(mnemonic, Mnemonic::Jmp) {
        return words.extend_from_slice(b"it takes a label, or one in ( )");
    }
    let is_branch = encode_in(profile, mnemonic, Mode::Rel).is_some();
    if is_branch || matches!(mnemonic, Mnemonic::Jsr) {
        return words.extend_from_slice(b"it takes a label");
    }
    words.extend_from_slice(b"there are ")?;
    push_examples(words, profile, mnemonic, name)
}

/// Returns what to write in place of an instruction of profile N with a register as its operand, if
/// there is something as short.
fn instead_of(mnemonic: Mnemonic, register: &[u8]) -> Option<&'static str> {
    match (mnemonic, register) {
        (Mnemonic::Lda, [b'X' | b'x']) => Some("write TXA"),
        (Mnemonic::Stx, [b'A' | b'a']) => Some("write TXA"),
        (Mnemonic::Lda, [b'Y' | b'y']) => Some("write TYA"),
        (Mnemonic::Sty, [b'A' | b'a']) => Some("write TYA"),
        (Mnemonic::Ldx, [b'A' | b'a']) => Some("write TAX"),
        (Mnemonic::Sta, [b'X' | b'x']) => Some("write TAX"),
        (Mnemonic::Ldy, [b'A' | b'a']) => Some("write TAY"),
        (Mnemonic::Sta, [b'Y' | b'y']) => Some("write TAY"),
        (Mnemonic::Ldx, [b'Y' | b'y']) => Some("write TYA, then TAX"),
        (Mnemonic::Sty, [b'X' | b'x']) => Some("write TYA, then TAX"),
        (Mnemonic::Ldy, [b'X' | b'x']) => Some("write TXA, then TAY"),
        (Mnemonic::Stx, [b'Y' | b'y']) => Some("write TXA, then TAY"),
        (Mnemonic::Inc, [b'X' | b'x']) => Some("write INX"),
        (Mnemonic::Inc, [b'Y' | b'y']) => Some("write INY"),
        (Mnemonic::Inc, [b'A' | b'a']) => Some("write CLC, then ADC #1"),
        (Mnemonic::Dec, [b'X' | b'x']) => Some("write DEX"),
        (Mnemonic::Dec, [b'Y' | b'y']) => Some("write DEY"),
        (Mnemonic::Dec, [b'A' | b'a']) => Some("write SEC, then SBC #1"),
        _ => None,
    }
}

/// Returns words about A as the operand of an instruction that has no such operand.
fn accumulator_words(
    alloc: Global,
    profile: Profile,
    mnemonic: Mnemonic,
    name: &[u8],
    register: &[u8],
) -> Result<Vec<u8>, AllocError> {
    if let Some(instead) = instead_of(mnemonic, register) {
        return phrase(alloc, instead);
    }
    let mut words = describe(alloc, register, " is the register here, and no name; ")?;
    push_taken(&mut words, profile, mnemonic, name)?;
    Ok(words)
}

/// Returns words about a mnemonic without an operand, before those that it takes.
fn alone_words(
    alloc: Global,
    profile: Profile,
    name: &[u8],
    mnemonic: Mnemonic,
) -> Result<Vec<u8>, AllocError> {
    if encode_in(profile, mnemonic, Mode::Acc).is_some() {
        let pieces: [&[u8]; 3] = [b"write ", name, b" A; "];
        return concat(alloc, &pieces);
    }
    describe(alloc, name, " needs an operand; ")
}

/// Returns words about an operand that a mnemonic has not, with those that it takes.
fn form_words(
    alloc: Global,
    profile: Profile,
    mnemonic: Mnemonic,
    name: &[u8],
    operand: &[Token<'_>],
) -> Result<Vec<u8>, AllocError> {
    if encode_in(profile, mnemonic, Mode::Imp).is_some() {
        return describe(alloc, name, " takes no operand");
    }
    let mut words = match operand {
        [] => alone_words(alloc, profile, name, mnemonic)?,
        [register] if is_word(register) && register.text.eq_ignore_ascii_case(b"A") => {
            return accumulator_words(alloc, profile, mnemonic, name, register.text);
        }
        _ => describe(alloc, name, " has no such operand; ")?,
    };
    push_taken(&mut words, profile, mnemonic, name)?;
    Ok(words)
}

/// Returns words about an operand that the instruction of a line has not, with those that it takes.
pub fn modes_words(
    alloc: Global,
    profile: Profile,
    tokens: &[Token<'_>],
) -> Result<Vec<u8>, AllocError> {
    match after_label(tokens) {
        [name, operand @ ..] => match mnemonic_in(profile, name.text) {
            Some(mnemonic) => form_words(alloc, profile, mnemonic, name.text, operand),
            None => phrase(alloc, "the instruction has no such form"),
        },
        [] => phrase(alloc, "the instruction has no such form"),
    }
}

/// Returns the mnemonic that stores a register.
fn store_of(register: &[u8]) -> &'static [u8] {
    match register {
        [b'X' | b'x'] => b"STX",
        [b'Y' | b'y'] => b"STY",
        _ => b"STA",
    }
}

/// Returns words about a register that is the whole operand of a mnemonic, and is none that it
/// takes.
fn operand_words(
    alloc: Global,
    mnemonic: Mnemonic,
    name: &[u8],
    register: &[u8],
) -> Result<Vec<u8>, AllocError> {
    if encode_in(Profile::C, mnemonic, Mode::Imp).is_some() {
        return describe(alloc, name, " takes no operand");
    }
    let mut words = describe(alloc, register, " is a register: ")?;
    match instead_of(mnemonic, register) {
        Some(instead) => words.extend_from_slice(instead.as_bytes())?,
        None => {
            words.extend_from_slice(name)?;
            words.extend_from_slice(b" takes none; store it, as ")?;
            words.extend_from_slice(store_of(register))?;
            words.extend_from_slice(b" does")?;
        }
    }
    Ok(words)
}

/// Returns words about a register in the operand of an instruction.
fn in_operand_words(
    alloc: Global,
    mnemonic: Mnemonic,
    name: &[u8],
    register: &[u8],
    operand: &[Token<'_>],
) -> Result<Vec<u8>, AllocError> {
    match operand {
        [_] => operand_words(alloc, mnemonic, name, register),
        [mark, _] if is_symbol(mark, b'#') => operand_words(alloc, mnemonic, name, register),
        _ => describe(
            alloc,
            register,
            " is a register: an index is written with a comma, as in table,X",
        ),
    }
}

/// Returns words about a register where a name or an address stands in a line.
pub fn register_words(
    alloc: Global,
    register: &Token<'_>,
    tokens: &[Token<'_>],
) -> Result<Vec<u8>, AllocError> {
    let is_first = match tokens.first() {
        Some(first) => first.start == register.start,
        None => false,
    };
    if let ([name, ..], false) = (after_label(tokens), is_first) {
        if let Some(mnemonic) = mnemonic_in(Profile::C, name.text) {
            let operand = operand_of(tokens);
            return in_operand_words(alloc, mnemonic, name.text, register.text, operand);
        }
    }
    describe(alloc, register.text, " is reserved: it names a register")
}

/// Appends that an instruction takes an address in the zero page alone, if it does in a mode.
pub fn push_zero_page(
    words: &mut Vec<u8>,
    mode: Mode,
    tokens: &[Token<'_>],
) -> Result<(), AllocError> {
    match (mode, after_label(tokens).first()) {
        (Mode::ZpX | Mode::ZpY | Mode::IndX | Mode::IndY | Mode::IndZ, Some(name)) => {
            words.extend_from_slice(b": an address in the zero page stands here, as in ")?;
            words.extend_from_slice(name.text)?;
            words.extend_from_slice(example_of(mode).as_bytes())
        }
        _ => Ok(()),
    }
}

/// Appends the text of a value behind a mark and an operator.
fn push_half(
    words: &mut Vec<u8>,
    mark: &[u8],
    operator: &[u8],
    value: &[Token<'_>],
) -> Result<(), AllocError> {
    words.extend_from_slice(mark)?;
    words.extend_from_slice(operator)?;
    for token in value {
        words.extend_from_slice(token.text)?;
    }
    Ok(())
}

/// Appends how the two bytes of a value are written, behind a mark.
fn push_halves(words: &mut Vec<u8>, mark: &[u8], value: &[Token<'_>]) -> Result<(), AllocError> {
    words.extend_from_slice(b": ")?;
    push_half(words, mark, b"<", value)?;
    words.extend_from_slice(b" is its low byte, ")?;
    push_half(words, mark, b">", value)?;
    words.extend_from_slice(b" its high byte")
}

/// Returns whether a name stands among some tokens.
fn has_name(tokens: &[Token<'_>]) -> bool {
    for token in tokens {
        if is_word(token) {
            return true;
        }
    }
    false
}

/// Appends how the two bytes of an address are written, if one with a name stands behind `#`, or
/// alone behind a directive.
pub fn push_bytes(words: &mut Vec<u8>, tokens: &[Token<'_>]) -> Result<(), AllocError> {
    match operand_of(tokens) {
        [mark, value @ ..] if is_symbol(mark, b'#') && has_name(value) => {
            push_halves(words, b"#", value)
        }
        [value] if is_word(value) => push_halves(words, b"", operand_of(tokens)),
        _ => Ok(()),
    }
}
