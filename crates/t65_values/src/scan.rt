//! Words, signs, numbers and addresses at the front of a text.

ghost use Rattle.std.specs.Prelude.{◌≡◌, ◌==◌, ◌+◌, ◌<◌, ◌≤◌, drop, false, IfErr, IfOk, length};
ghost use Rattle.std.specs.Prelude.{true};
ghost use Rattle.std.specs.List.{list_all};
ghost use Rattle.std.specs.Str.{bytes_eq};
ghost use Rattle.model.specs.Digits.{hex_number, is_hex_byte};
ghost use Rattle.model.specs.Token.{begins, is_digit};
ghost use Rattle.t65_values.specs.ValueText.{address_of, after_sign, after_word};
ghost use Rattle.t65_values.specs.ValueText.{base_address_of, ends, fault_at, name_of};
ghost use Rattle.t65_values.specs.ValueText.{is_long, lack_of, number_fault, number_in_word, number_of};
ghost use Rattle.t65_values.specs.ValueText.{number_or_fault, skip_blanks};
ghost use Rattle.t65_values.specs.ValueText.{sum_or_fault, unnamed, wide_halves, wide_number, word_of};

use crate::fault::{Base, RowFault, RowFaultKind};
use assembler::Assembly;
use commands::digits;
use formatting::hex_value;
use lexer::{blank_run, is_next, word_run};

/// Returns the fault that is seen where a text begins.
pub fn fault_at(kind: RowFaultKind, text: &[u8]) -> RowFault
    ensures { result ≡ fault_at kind text.now }
{
    RowFault {
        left: text.len(),
        kind,
    }
}

/// Returns a text without the blanks in front of it.
pub fn skip_blanks(text: &[u8]) -> &[u8]
    ensures { result.now ≡ skip_blanks text.now }
{
    &text[blank_run(text)..]
}

/// Returns the word at the front of a text; empty where none is.
pub fn word_of(text: &[u8]) -> &[u8]
    ensures { result.now ≡ word_of text.now }
{
    &text[..word_run(text)]
}

/// Returns the text after its first word and the blanks behind it.
pub fn after_word(text: &[u8]) -> &[u8]
    ensures { result.now ≡ after_word text.now }
{
    skip_blanks(&text[word_run(text)..])
}

/// Returns whether a line ends: with its last byte, or with a comment.
pub fn ends(text: &[u8]) -> bool
    ensures { result ≡ ends text.now }
{
    match text {
        [] => true,
        [first, ..] => *first == b';',
    }
}

/// Returns the text after its first bytes and the blanks behind them.
pub fn after(count: usize, text: &[u8]) -> &[u8]
    ensures { result.now ≡ skip_blanks (drop count text.now) }
{
    skip_blanks(&text[count.min(text.len())..])
}

/// Returns the fault where a sign has to come next.
fn lack_of(sign: u8) -> RowFaultKind
    ensures { result ≡ lack_of sign }
{
    match sign {
        b'=' => RowFaultKind::NoEquals,
        b':' => RowFaultKind::NoColon,
        b']' => RowFaultKind::NoBracket,
        _ => RowFaultKind::Syntax,
    }
}

/// Returns the text after a sign that has to come next.
pub fn after_sign(sign: u8, text: &[u8]) -> Result<&[u8], RowFault>
    ensures ok { IfOk result (λ rest. after_sign sign text.now ≡ Ok rest.now) }
    ensures err { IfErr result (λ fault. after_sign sign text.now ≡ Err fault) }
{
    if is_next(sign, text) {
        Ok(after(1, text))
    } else {
        Err(fault_at(lack_of(sign), text))
    }
}

/// Returns whether a word is this one.
pub fn is_text(word: &[u8], text: &[u8]) -> bool
    ensures { result ≡ bytes_eq word.now text.now }
{
    word == text
}

/// Returns the number that at most four hex digits write.
fn hex_number(word: &[u8]) -> Option<u16>
    requires { length word.now ≤ 4 }
    ensures { result ≡ hex_number word.now }
{
    let mut value = 0u32;
    for byte in word {
        let digit = hex_value(*byte)?;
        value = value * 16 + digit as u32;
    }
    Some(value as u16)
}

/// Returns the number that one to four hex digits write.
fn hex_in_word(word: &[u8]) -> Option<u16>
    ensures { result ≡ number_in_word Base.Hex word.now }
{
    if word.is_empty() || word.len() > 4 {
        return None;
    }
    hex_number(word)
}

/// Returns the number that the hex digits of a word write, of which so many stand before the last
/// four.
fn wide_halves(upper: usize, word: &[u8]) -> Option<u32>
    requires upper { upper ≤ 4 }
    requires last { length word.now ≡ upper + 4 }
    ensures { result ≡ wide_halves upper word.now }
{
    let upper_half = hex_number(&word[..upper])?;
    let lower_half = hex_number(&word[upper..])?;
    Some(65536 * upper_half as u32 + lower_half as u32)
}

/// Returns the number that five to eight hex digits write.
pub fn wide_number(word: &[u8]) -> Option<u32>
    ensures { result ≡ wide_number word.now }
{
    if word.len() <= 4 || word.len() > 8 {
        return None;
    }
    wide_halves(word.len() - 4, word)
}

/// Returns the number that one to seven decimal digits write.
fn decimal_in_word(word: &[u8]) -> Option<u32>
    ensures { result ≡ number_in_word Base.Decimal word.now }
{
    if word.is_empty() || word.len() > 7 {
        return None;
    }
    digits(word)
}

/// Returns whether a byte is a hex digit.
fn is_hex_byte(byte: u8) -> bool
    ensures { result ≡ is_hex_byte byte }
{
    hex_value(byte).is_some()
}

/// Returns whether a byte is a decimal digit.
fn is_digit(byte: u8) -> bool
    ensures { result ≡ is_digit byte }
{
    matches!(byte, b'0'..=b'9')
}

/// Returns whether a word has hex digits alone.
fn has_hex_alone(word: &[u8]) -> bool
    ensures { result ≡ list_all is_hex_byte word.now }
{
    word.iter().all(|byte| is_hex_byte(*byte))
}

/// Returns whether a word has decimal digits alone.
fn has_digits_alone(word: &[u8]) -> bool
    ensures { result ≡ list_all is_digit word.now }
{
    word.iter().all(|byte| is_digit(*byte))
}

/// Returns whether a word has digits alone, and too many of them.
fn is_long(base: Base, word: &[u8]) -> bool
    ensures { result ≡ is_long base word.now }
{
    match base {
        Base::Hex => word.len() > 4 && has_hex_alone(word),
        Base::Decimal => word.len() > 7 && has_digits_alone(word),
    }
}

/// Returns why a word is no number.
fn number_fault(base: Base, word: &[u8]) -> RowFaultKind
    ensures { result ≡ number_fault base word.now }
{
    if is_long(base, word) {
        RowFaultKind::LongNumber(base)
    } else {
        RowFaultKind::NoNumber(base)
    }
}

/// Reads hex digits.
fn bare_hex(text: &[u8]) -> Result<(u16, &[u8]), RowFault>
    ensures ok { IfOk result (λ p. number_or_fault Base.Hex text.now
        (number_in_word Base.Hex (word_of text.now)) ≡ Ok (p.0, p.1.now)) }
    ensures err { IfErr result (λ fault. number_or_fault Base.Hex text.now
        (number_in_word Base.Hex (word_of text.now)) ≡ Err fault) }
{
    match hex_in_word(word_of(text)) {
        Some(number) => Ok((number, after_word(text))),
        None => Err(fault_at(number_fault(Base::Hex, word_of(text)), text)),
    }
}

/// Reads hex digits, which may have `$` before them.
#[tactic(auto, unfolding(crate::specs::ValueText::number_of))]
pub fn hex_of(text: &[u8]) -> Result<(u16, &[u8]), RowFault>
    ensures ok { IfOk result (λ p. number_of Base.Hex text.now ≡ Ok (p.0, p.1.now)) }
    ensures err { IfErr result (λ fault. number_of Base.Hex text.now ≡ Err fault) }
{
    if is_next(b'$', text) {
        bare_hex(&text[1..])
    } else {
        bare_hex(text)
    }
}

/// Reads decimal digits, or hex ones after `$`.
#[tactic(auto, unfolding(crate::specs::ValueText::number_of))]
fn decimal_of(text: &[u8]) -> Result<(u32, &[u8]), RowFault>
    ensures ok { IfOk result (λ p. number_of Base.Decimal text.now ≡ Ok (p.0, p.1.now)) }
    ensures err { IfErr result (λ fault. number_of Base.Decimal text.now ≡ Err fault) }
{
    if is_next(b'$', text) {
        let (number, rest) = bare_hex(&text[1..])?;
        return Ok((number as u32, rest));
    }
    match decimal_in_word(word_of(text)) {
        Some(number) => Ok((number, after_word(text))),
        None => Err(fault_at(number_fault(Base::Decimal, word_of(text)), text)),
    }
}

/// Reads a number. `$` before it says that its digits are hex.
pub fn number_of(base: Base, text: &[u8]) -> Result<(u32, &[u8]), RowFault>
    ensures ok { IfOk result (λ p. number_of base text.now ≡ Ok (p.0, p.1.now)) }
    ensures err { IfErr result (λ fault. number_of base text.now ≡ Err fault) }
{
    match base {
        Base::Hex => {
            let (number, rest) = hex_of(text)?;
            Ok((number as u32, rest))
        }
        Base::Decimal => decimal_of(text),
    }
}

/// Returns whether a decimal digit comes next.
fn is_digit_next(text: &[u8]) -> bool
    ensures { result ≡ begins is_digit text.now }
{
    match text {
        [] => false,
        [first, ..] => matches!(*first, b'0'..=b'9'),
    }
}

/// Reads four hex digits that are no name: an address.
#[tactic(auto, unfolding(crate::specs::ValueText::unnamed))]
fn unnamed(text: &[u8]) -> Result<(u16, &[u8]), RowFault>
    ensures ok { IfOk result (λ p. unnamed text.now ≡ Ok (p.0, p.1.now)) }
    ensures err { IfErr result (λ fault. unnamed text.now ≡ Err fault) }
{
    let word = word_of(text);
    if word.len() != 4 {
        return Err(fault_at(RowFaultKind::UndefinedName, text));
    }
    match hex_in_word(word) {
        Some(number) => Ok((number, after_word(text))),
        None => Err(fault_at(RowFaultKind::UndefinedName, text)),
    }
}

/// Reads a name that the source defines: its address.
fn name_of<'a>(names: &Assembly, text: &'a [u8]) -> Result<(u16, &'a [u8]), RowFault>
    ensures ok { IfOk result (λ p. name_of names.now.names text.now ≡ Ok (p.0, p.1.now)) }
    ensures err { IfErr result (λ fault. name_of names.now.names text.now ≡ Err fault) }
{
    let word = word_of(text);
    if word.is_empty() {
        return Err(fault_at(RowFaultKind::NoAddress, text));
    }
    match names.value_of(word) {
        None => unnamed(text),
        Some(number) => {
            if 0 <= number && number <= 65535 {
                Ok((number as u16, after_word(text)))
            } else {
                Err(fault_at(RowFaultKind::AddressRange, text))
            }
        }
    }
}

#[tactic(auto, unfolding(crate::specs::ValueText::base_address_of))]
fn base_address_of<'a>(names: &Assembly, text: &'a [u8]) -> Result<(u16, &'a [u8]), RowFault>
    ensures ok { IfOk result
        (λ p. base_address_of names.now.names text.now ≡ Ok (p.0, p.1.now)) }
    ensures err { IfErr result
        (λ fault. base_address_of names.now.names text.now ≡ Err fault) }
{
    if is_digit_next(text) || is_next(b'$', text) {
        hex_of(text)
    } else {
        name_of(names, text)
    }
}

fn sum_of<'a>(
    text: &[u8],
    address: u16,
    offset: u16,
    rest: &'a [u8],
) -> Result<(u16, &'a [u8]), RowFault>
    ensures ok { IfOk result (λ p. sum_or_fault text.now address offset rest.now
        ≡ Ok (p.0, p.1.now)) }
    ensures err { IfErr result
        (λ fault. sum_or_fault text.now address offset rest.now ≡ Err fault) }
{
    let sum = address as u32 + offset as u32;
    if sum <= 65535 {
        Ok((sum as u16, rest))
    } else {
        Err(fault_at(RowFaultKind::AddressRange, text))
    }
}

/// Reads an address: hex digits that begin with a digit or with `$`, a name, or four hex digits
/// that are no name; and what is to be added.
#[tactic(auto, unfolding(crate::specs::ValueText::address_of))]
pub fn address_of<'a>(names: &Assembly, text: &'a [u8]) -> Result<(u16, &'a [u8]), RowFault>
    ensures ok { IfOk result (λ p. address_of names.now.names text.now ≡ Ok (p.0, p.1.now)) }
    ensures err { IfErr result (λ fault. address_of names.now.names text.now ≡ Err fault) }
{
    let (address, rest) = base_address_of(names, text)?;
    if is_next(b'+', rest) {
        let (offset, rest) = hex_of(after(1, rest))?;
        sum_of(text, address, offset, rest)
    } else {
        Ok((address, rest))
    }
}
