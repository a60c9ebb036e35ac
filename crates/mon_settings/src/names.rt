//! An instruction with addresses in place of its names.

ghost use Rattle.std.specs.Prelude.{◌≡◌, ◌++◌, IfOk, OnOk};
ghost use Rattle.mon_settings.specs.Names.{begun_by, next_before, operand_text, without_names};
ghost use Rattle.mon_settings.specs.Names.{word_text};

use formatting::{digits_of, digits_of_address};
use lexer::may_be_in_word;
use source_map::Places;
use std::alloc::{AllocError, Global};

/// What stands right before a word of an instruction.
#[derive(Clone, Copy)]
pub enum Before {
    /// Nothing: the word is the mnemonic.
    Nothing,
    /// `$` of a number or `.` of a directive, of which the word is the rest.
    Mark,
    /// `'`, which begins or ends a character.
    Quote,
    /// A string that has not ended.
    Text,
    /// Anything else: the word may be a name.
    Other,
}

/// Returns what a byte that is of no word and no string begins.
fn begun_by(byte: u8) -> Before
    ensures { result ≡ begun_by byte }
{
    match byte {
        b'"' => Before::Text,
        b'\'' => Before::Quote,
        b'$' | b'.' => Before::Mark,
        _ => Before::Other,
    }
}

/// Returns what stands before the next word, after a byte that is of no word.
fn next_before(before: Before, byte: u8) -> Before
    ensures { result ≡ next_before before byte }
{
    match before {
        Before::Text if byte != b'"' => Before::Text,
        Before::Text | Before::Quote if byte == b'"' => Before::Other,
        _ => begun_by(byte),
    }
}

/// Appends an address as an operand has it.
fn push_operand(text: &mut Vec<u8>, address: u16) -> Result<(), AllocError>
    ensures { OnOk result (text.new.items ≡ text.old.items ++ operand_text address) }
{
    text.push(b'$')?;
    if address < 256 {
        text.extend_from_slice(&digits_of(address as u8))
    } else {
        text.extend_from_slice(&digits_of_address(address))
    }
}

/// Appends a word of an instruction, or the address of the name that it is.
fn push_word(
    text: &mut Vec<u8>,
    preceding: Before,
    word: &[u8],
    places: &Places,
) -> Result<(), AllocError>
    ensures { OnOk result (text.new.items
        ≡ text.old.items ++ word_text places.now.names preceding word.now) }
{
    match preceding {
        Before::Other if word.len() > 1 => match places.names().address_of(word) {
            Some(address) => push_operand(text, address),
            None => text.extend_from_slice(word),
        },
        _ => text.extend_from_slice(word),
    }
}

/// Returns an instruction with addresses in place of the names.
pub fn without_names(alloc: Global, line: &[u8], places: &Places) -> Result<Vec<u8>, AllocError>
    ensures { IfOk result (λ text. text.items ≡ without_names places.now.names line.now) }
{
    let mut text = Vec::new(alloc);
    let mut word = Vec::new(alloc);
    let mut preceding = Before::Nothing;
    for byte in line {
        if may_be_in_word(*byte) {
            word.push(*byte)?;
        } else {
            push_word(&mut text, preceding, word.as_slice(), places)?;
            text.push(*byte)?;
            word.clear();
            preceding = next_before(preceding, *byte);
        }
    }
    push_word(&mut text, preceding, word.as_slice(), places)?;
    Ok(text)
}
