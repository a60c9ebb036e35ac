//! Addresses and operands as text.

ghost use Rattle.std.specs.Prelude.{◌≡◌, ◌++◌, None, OnOk};
ghost use Rattle.model.specs.Mnemonics.{mnemonic_text};
ghost use Rattle.model.specs.InstructionText.{byte_text, has_row, word_text};
ghost use Rattle.source_forms.specs.Pieces.{direct_front, direct_text, label_text, labelled_text};
ghost use Rattle.source_forms.specs.Pieces.{operand_refers, place_text, reach_at};

use crate::rows::push_byte;
use formatting::digits_of_address;
use model::{Mnemonic, Mode, Profile, Row};
use optable::{branch_target, encode_in, letters_of};
use std::alloc::AllocError;

/// Appends the label of an address.
pub fn push_label(out: &mut Vec<u8>, address: u16) -> Result<(), AllocError>
    ensures { OnOk result (out.new.items ≡ out.old.items ++ label_text address) }
{
    let [a, b, c, d] = digits_of_address(address);
    out.extend_from_slice(&[b'L', b'_', a, b, c, d])?;
    Ok(())
}

/// An address as a number.
fn push_word(out: &mut Vec<u8>, word: u16) -> Result<(), AllocError>
    ensures { OnOk result (out.new.items ≡ out.old.items ++ word_text word) }
{
    let [a, b, c, d] = digits_of_address(word);
    out.extend_from_slice(&[b'$', a, b, c, d])?;
    Ok(())
}

/// How far the label at an address reaches.
fn reach_at(table: &[u8], address: u16) -> u8
    ensures { result ≡ reach_at table.now address }
{
    match table.get(address as usize) {
        Some(reach) => *reach,
        None => 0,
    }
}

/// A label and what is added to it.
fn push_label_and(out: &mut Vec<u8>, address: u16, added: &[u8]) -> Result<(), AllocError>
    ensures { OnOk result (out.new.items ≡ out.old.items ++ (label_text address ++ added.now)) }
{
    push_label(out, address)?;
    out.extend_from_slice(added)?;
    Ok(())
}

/// Appends an address by the label that reaches it, and as a number where none does.
#[tactic(auto, unfolding(source_forms::specs::Pieces::place_text))]
pub fn push_place(out: &mut Vec<u8>, table: &[u8], word: u16) -> Result<(), AllocError>
    ensures { OnOk result (out.new.items ≡ out.old.items ++ place_text table.now word) }
{
    if 0 < reach_at(table, word) {
        return push_label(out, word);
    }
    if word >= 1 && 1 < reach_at(table, word - 1) {
        return push_label_and(out, word - 1, b"+1");
    }
    if word >= 2 && 2 < reach_at(table, word - 2) {
        return push_label_and(out, word - 2, b"+2");
    }
    push_word(out, word)
}

/// Whether an instruction has a mode in a profile.
#[tactic(auto, unfolding(model::specs::InstructionText::has_row))]
fn has_row(profile: Profile, mnemonic: Mnemonic, mode: Mode) -> bool
    ensures { result ≡ has_row profile mnemonic mode }
{
    encode_in(profile, mnemonic, mode).is_some()
}

/// What stands between a mnemonic and an address.
fn push_front(
    out: &mut Vec<u8>,
    profile: Profile,
    mnemonic: Mnemonic,
    short: Mode,
    word: u16,
) -> Result<(), AllocError>
    ensures { OnOk result
        (out.new.items ≡ out.old.items ++ direct_front profile mnemonic short word) }
{
    if (word < 256) & has_row(profile, mnemonic, short) {
        out.extend_from_slice(b" !")?;
    } else {
        out.extend_from_slice(b" ")?;
    }
    Ok(())
}

/// An instruction in an absolute mode.
fn push_direct(
    out: &mut Vec<u8>,
    profile: Profile,
    table: &[u8],
    mnemonic: Mnemonic,
    short: Mode,
    word: u16,
    suffix: &[u8],
) -> Result<(), AllocError>
    ensures { OnOk result (out.new.items
        ≡ out.old.items ++ direct_text profile table.now mnemonic short word suffix.now) }
{
    out.extend_from_slice(&letters_of(mnemonic))?;
    push_front(out, profile, mnemonic, short, word)?;
    push_place(out, table, word)?;
    out.extend_from_slice(suffix)?;
    Ok(())
}

/// An instruction whose address stands between two texts.
fn push_around(
    out: &mut Vec<u8>,
    table: &[u8],
    mnemonic: Mnemonic,
    front: &[u8],
    word: u16,
    suffix: &[u8],
) -> Result<(), AllocError>
    ensures { OnOk result (out.new.items ≡ out.old.items
        ++ (mnemonic_text mnemonic ++ (front.now ++ (place_text table.now word ++ suffix.now)))) }
{
    out.extend_from_slice(&letters_of(mnemonic))?;
    out.extend_from_slice(front)?;
    push_place(out, table, word)?;
    out.extend_from_slice(suffix)?;
    Ok(())
}

/// An instruction whose byte stands between two texts.
fn push_short(
    out: &mut Vec<u8>,
    mnemonic: Mnemonic,
    front: &[u8],
    byte: u8,
    suffix: &[u8],
) -> Result<(), AllocError>
    ensures { OnOk result (out.new.items ≡ out.old.items
        ++ (mnemonic_text mnemonic ++ (front.now ++ (byte_text byte ++ suffix.now)))) }
{
    out.extend_from_slice(&letters_of(mnemonic))?;
    out.extend_from_slice(front)?;
    push_byte(out, byte)?;
    out.extend_from_slice(suffix)?;
    Ok(())
}

/// An instruction with no number.
fn push_alone(out: &mut Vec<u8>, mnemonic: Mnemonic, suffix: &[u8]) -> Result<(), AllocError>
    ensures { OnOk result
        (out.new.items ≡ out.old.items ++ (mnemonic_text mnemonic ++ suffix.now)) }
{
    out.extend_from_slice(&letters_of(mnemonic))?;
    out.extend_from_slice(suffix)?;
    Ok(())
}

/// An instruction whose operand is no address.
#[tactic(auto, unfolding(model::specs::InstructionText::operand_text))]
fn push_other(
    out: &mut Vec<u8>,
    profile: Profile,
    table: &[u8],
    row: Row,
    address: u16,
    second: u8,
    third: u8,
) -> Result<(), AllocError>
    requires { operand_refers address row.mode second third ≡ None }
    ensures { OnOk result (out.new.items ≡ out.old.items
        ++ labelled_text profile table.now row.mnemonic address row.mode second third) }
{
    let mnemonic = row.mnemonic;
    match row.mode {
        Mode::Acc => push_alone(out, mnemonic, b" A"),
        Mode::Imm => push_short(out, mnemonic, b" #", second, b""),
        Mode::Zp => push_short(out, mnemonic, b" ", second, b""),
        Mode::ZpX => push_short(out, mnemonic, b" ", second, b",X"),
        Mode::ZpY => push_short(out, mnemonic, b" ", second, b",Y"),
        Mode::IndX => push_short(out, mnemonic, b" (", second, b",X)"),
        Mode::IndY => push_short(out, mnemonic, b" (", second, b"),Y"),
        Mode::IndZ => push_short(out, mnemonic, b" (", second, b")"),
        _ => push_alone(out, mnemonic, b""),
    }
}

/// Appends an instruction at an address, by its second byte and its third.
pub fn push_instruction(
    out: &mut Vec<u8>,
    profile: Profile,
    table: &[u8],
    row: Row,
    address: u16,
    second: u8,
    third: u8,
) -> Result<(), AllocError>
    ensures { OnOk result (out.new.items ≡ out.old.items
        ++ labelled_text profile table.now row.mnemonic address row.mode second third) }
{
    let word = second as u16 + 256 * third as u16;
    let m = row.mnemonic;
    match row.mode {
        Mode::Abs => push_direct(out, profile, table, m, Mode::Zp, word, b""),
        Mode::AbsX => push_direct(out, profile, table, m, Mode::ZpX, word, b",X"),
        Mode::AbsY => push_direct(out, profile, table, m, Mode::ZpY, word, b",Y"),
        Mode::Ind => push_around(out, table, m, b" (", word, b")"),
        Mode::Rel => push_around(out, table, m, b" ", branch_target(address, second), b""),
        _ => push_other(out, profile, table, row, address, second, third),
    }
}
