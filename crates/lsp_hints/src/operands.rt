//! Which form of an instruction is meant by what is written of its operand.

ghost use Rattle.std.specs.Prelude.{◌≡◌, ◌≤◌, length, position, take};
ghost use Rattle.lsp_hints.specs.Operands.{before_end, fits, forms_in, has_comma, has_end};
ghost use Rattle.lsp_hints.specs.Operands.{has_form, is_accumulator, is_indexed, is_letter};
ghost use Rattle.lsp_hints.specs.Operands.{is_meant, is_no_comma, is_no_end, is_plain, is_wide};
ghost use Rattle.lsp_hints.specs.Operands.{meant_form, operand_of, size_before_comma};
ghost use Rattle.lsp_hints.specs.Operands.{size_before_end};
ghost use Rattle.opcode_facts.specs.Forms.{all_modes};
ghost use Rattle.source_notes.specs.Lines.{without_blanks};

use crate::operation::{begins_with, code_of, start_of, word_size};
use model::{Mnemonic, Mode, Profile};
use opcode_facts::all_modes;
use optable::encode_in;
use source_notes::{after, blank_run, word_run};

/// Returns some bytes without the blanks in front of them.
fn without_blanks(bytes: &[u8]) -> &[u8]
    ensures { result.now ≡ without_blanks bytes.now }
{
    after(bytes, blank_run(bytes))
}

/// Returns what stands in a line between the word of its operation and its comment.
pub fn operand_of(line: &[u8]) -> &[u8]
    ensures { result.now ≡ operand_of line.now }
{
    let start = start_of(line);
    let size = word_size(after(line, start));
    without_blanks(after(after(code_of(line), start), size))
}

/// Returns whether a byte is no comma.
fn is_no_comma(byte: u8) -> bool
    ensures { result ≡ is_no_comma byte }
{
    byte != b','
}

/// Returns how many bytes stand before the first comma.
fn size_before_comma(text: &[u8]) -> usize
    ensures size { result ≡ size_before_comma text.now }
    ensures within { result ≤ length text.now }
{
    text.iter().take_while(|byte| is_no_comma(**byte)).count()
}

/// Returns whether an operand has a comma.
fn has_comma(text: &[u8]) -> bool
    ensures { result ≡ has_comma text.now }
{
    begins_with(b',', after(text, size_before_comma(text)))
}

/// Returns whether a byte is no `)`.
fn is_no_end(byte: u8) -> bool
    ensures { result ≡ is_no_end byte }
{
    byte != b')'
}

/// Returns how many bytes stand before the first `)`.
fn size_before_end(text: &[u8]) -> usize
    ensures size { result ≡ size_before_end text.now }
    ensures within { result ≤ length text.now }
{
    text.iter().take_while(|byte| is_no_end(**byte)).count()
}

/// Returns what stands before the first `)`.
fn before_end(text: &[u8]) -> &[u8]
    ensures { result.now ≡ before_end text.now }
{
    &text[..size_before_end(text)]
}

/// Returns whether an operand has a `)`.
fn has_end(text: &[u8]) -> bool
    ensures { result ≡ has_end text.now }
{
    begins_with(b')', after(text, size_before_end(text)))
}

/// Returns whether a text begins with a letter.
fn is_letter(capital: u8, small: u8, text: &[u8]) -> bool
    ensures { result ≡ is_letter capital small text.now }
{
    begins_with(capital, text) || begins_with(small, text)
}

/// Returns whether an operand is an `A` alone.
fn is_accumulator(text: &[u8]) -> bool
    ensures { result ≡ is_accumulator text.now }
{
    is_letter(b'A', b'a', text) && without_blanks(after(text, 1)).is_empty()
}

/// Returns whether an operand begins with `!`, or with more than two digits behind a `$`.
fn is_wide(text: &[u8]) -> bool
    ensures { result ≡ is_wide text.now }
{
    begins_with(b'!', text) || (begins_with(b'$', text) && word_run(after(text, 1)) > 2)
}

/// Returns whether an operand begins with neither `#` nor `(`.
fn is_plain(text: &[u8]) -> bool
    ensures { result ≡ is_plain text.now }
{
    !begins_with(b'#', text) && !begins_with(b'(', text)
}

/// Returns whether an operand has a register behind a comma, or none yet.
fn is_indexed(capital: u8, small: u8, text: &[u8]) -> bool
    ensures { result ≡ is_indexed capital small text.now }
{
    if is_plain(text) && has_comma(text) {
        let behind = without_blanks(after(after(text, size_before_comma(text)), 1));
        is_letter(capital, small, behind) || behind.is_empty()
    } else {
        false
    }
}

/// Returns whether an operand that is written so far may become one of a mode.
fn fits(text: &[u8], mode: Mode) -> bool
    ensures { result ≡ fits text.now mode }
{
    match mode {
        Mode::Imp => text.is_empty(),
        Mode::Acc => is_accumulator(text),
        Mode::Imm => begins_with(b'#', text),
        Mode::Zp => is_plain(text) && !has_comma(text) && !is_wide(text),
        Mode::Abs | Mode::Rel => is_plain(text) && !has_comma(text),
        Mode::ZpX => is_indexed(b'X', b'x', text) && !is_wide(text),
        Mode::AbsX => is_indexed(b'X', b'x', text),
        Mode::ZpY => is_indexed(b'Y', b'y', text) && !is_wide(text),
        Mode::AbsY => is_indexed(b'Y', b'y', text),
        Mode::Ind | Mode::IndZ => begins_with(b'(', text) && !has_comma(text),
        Mode::IndX => begins_with(b'(', text) && (has_comma(before_end(text)) || !has_end(text)),
        Mode::IndY => begins_with(b'(', text) && !has_comma(before_end(text)),
    }
}

/// Returns whether a mnemonic has a form in a mode.
fn has_form(profile: Profile, mnemonic: Mnemonic, mode: Mode) -> bool
    ensures { result ≡ has_form profile mnemonic mode }
{
    encode_in(profile, mnemonic, mode).is_some()
}

/// Returns whether a mnemonic has a form in a mode, which an operand fits.
fn is_meant(profile: Profile, mnemonic: Mnemonic, text: &[u8], mode: Mode) -> bool
    ensures { result ≡ is_meant profile mnemonic text.now mode }
{
    has_form(profile, mnemonic, mode) && fits(text, mode)
}

/// Returns the mode of the first form that an operand fits, by its number among all modes.
fn meant_mode(profile: Profile, mnemonic: Mnemonic, text: &[u8]) -> Option<usize>
    ensures { result ≡ position (is_meant profile mnemonic text.now) all_modes }
{
    all_modes()
        .iter()
        .position(|mode| is_meant(profile, mnemonic, text, *mode))
}

/// Returns so many of the first modes.
#[tactic(auto, using(std::proofs::lemmas::List::take_min))]
fn first_modes(place: usize) -> &'static [Mode]
    ensures { result.now ≡ take place all_modes }
{
    let modes = all_modes();
    &modes[..place.min(modes.len())]
}

/// Returns how many forms a mnemonic has in some modes.
fn forms_in(profile: Profile, mnemonic: Mnemonic, modes: &[Mode]) -> usize
    ensures { result ≡ forms_in profile mnemonic modes.now }
{
    modes
        .iter()
        .filter(|mode| has_form(profile, mnemonic, **mode))
        .count()
}

/// Returns the number of the first form of a mnemonic that an operand fits, counted from 0; 0 if it
/// fits none.
pub fn meant_form(profile: Profile, mnemonic: Mnemonic, text: &[u8]) -> u64
    ensures { result ≡ meant_form profile mnemonic text.now }
{
    match meant_mode(profile, mnemonic, text) {
        Some(place) => forms_in(profile, mnemonic, first_modes(place)) as u64,
        None => 0,
    }
}
