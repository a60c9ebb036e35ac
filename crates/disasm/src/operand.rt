//! Operands as text.

ghost use Rattle.std.specs.Prelude.{◌≡◌, ◌≤◌, ◌∷◌, ◌++◌, length};
ghost use Rattle.model.specs.InstructionText.{absolute_text, has_row, operand_text};

use crate::text::{Text, push_bytes, text_of};
use formatting::{digits_of, digits_of_address};
use model::{Mnemonic, Mode, Profile};
use optable::{branch_target, encode_in};

/// Returns whether an instruction has a mode in a profile.
#[tactic(auto, unfolding(model::specs::InstructionText::has_row))]
fn has_row(profile: Profile, mnemonic: Mnemonic, mode: Mode) -> bool
    ensures { result ≡ has_row profile mnemonic mode }
{
    encode_in(profile, mnemonic, mode).is_some()
}

/// Returns an address in an absolute mode, and what comes after it.
fn absolute(profile: Profile, mnemonic: Mnemonic, short: Mode, word: u16, suffix: &[u8]) -> Text
    requires { length suffix.now ≤ 2 }
    ensures exact { result.items ≡ 32 ∷ (absolute_text profile mnemonic short word ++ suffix.now) }
    ensures short { length result.items ≤ 9 }
{
    let [a, b, c, d] = digits_of_address(word);
    if (word < 256) & has_row(profile, mnemonic, short) {
        let mut text = text_of(&[b' ', b'!', b'$', a, b, c, d]);
        push_bytes(&mut text, suffix);
        return text;
    }
    let mut text = text_of(&[b' ', b'$', a, b, c, d]);
    push_bytes(&mut text, suffix);
    text
}

/// Returns the operand of an instruction at an address as text, by the bytes after its opcode.
#[tactic(auto, unfolding(model::specs::InstructionText::operand_text))]
pub fn operand(
    profile: Profile,
    mnemonic: Mnemonic,
    mode: Mode,
    address: u16,
    second: u8,
    third: u8,
) -> Text
    ensures exact { result.items ≡ operand_text profile mnemonic mode address second third }
    ensures short { length result.items ≤ 9 }
{
    let word = second as u16 + 256 * third as u16;
    let [h, l] = digits_of(second);
    match mode {
        Mode::Imp => Text::new(),
        Mode::Acc => text_of(b" A"),
        Mode::Imm => text_of(&[b' ', b'#', b'$', h, l]),
        Mode::Zp => text_of(&[b' ', b'$', h, l]),
        Mode::ZpX => text_of(&[b' ', b'$', h, l, b',', b'X']),
        Mode::ZpY => text_of(&[b' ', b'$', h, l, b',', b'Y']),
        Mode::Abs => absolute(profile, mnemonic, Mode::Zp, word, b""),
        Mode::AbsX => absolute(profile, mnemonic, Mode::ZpX, word, b",X"),
        Mode::AbsY => absolute(profile, mnemonic, Mode::ZpY, word, b",Y"),
        Mode::IndX => text_of(&[b' ', b'(', b'$', h, l, b',', b'X', b')']),
        Mode::IndY => text_of(&[b' ', b'(', b'$', h, l, b')', b',', b'Y']),
        Mode::Ind => {
            let [a, b, c, d] = digits_of_address(word);
            text_of(&[b' ', b'(', b'$', a, b, c, d, b')'])
        }
        Mode::Rel => {
            let [a, b, c, d] = digits_of_address(branch_target(address, second));
            text_of(&[b' ', b'$', a, b, c, d])
        }
        Mode::IndZ => text_of(&[b' ', b'(', b'$', h, l, b')']),
    }
}
