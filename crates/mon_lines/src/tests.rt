//! Tests of breaks.

ghost use Rattle.std.specs.Prelude.{◌≡◌, ◌≤◌, [], IfErr, IfOk};
ghost use Rattle.std.specs.Str.{bytes_eq};
ghost use Rattle.mon_line_parts.specs.Reading.{after_word, and_then, flaw_view, word_of};
ghost use Rattle.mon_lines.specs.Parts.{byte_left, comparison_of, flag_of, flag_or_byte, left_by};
ghost use Rattle.mon_lines.specs.Parts.{left_of, register_of};
ghost use Rattle.mon_lines.specs.Parts.{test_of, tests_of, tests_within, times_of, times_or, with_test};

use crate::command::{Compare, Left, Register, Test};
use arrayvec::ArrayVec;
use mon_line_parts::{
    Flaw, Lack, Places, address_of, after, after_word, count_of, is_next, is_same_word, is_word,
    past, word_of, word_value,
};
use opcode_facts::Flag;

fn is_text(word: &[u8], text: &[u8]) -> bool
    ensures { result ≡ bytes_eq word.now text.now }
{
    word == text
}

/// Returns the register of a name.
#[tactic(auto, unfolding(crate::specs::Parts::register_of))]
pub fn register_of(word: &[u8]) -> Option<Register>
    ensures { result ≡ register_of word.now }
{
    if is_text(word, b"A") || is_text(word, b"a") {
        Some(Register::A)
    } else if is_text(word, b"X") || is_text(word, b"x") {
        Some(Register::X)
    } else if is_text(word, b"Y") || is_text(word, b"y") {
        Some(Register::Y)
    } else if is_text(word, b"S") || is_text(word, b"s") {
        Some(Register::S)
    } else if is_text(word, b"SP") || is_text(word, b"sp") {
        Some(Register::S)
    } else if is_text(word, b"P") || is_text(word, b"p") {
        Some(Register::P)
    } else if is_text(word, b"PC") || is_text(word, b"pc") {
        Some(Register::Pc)
    } else if is_text(word, b"Pc") {
        Some(Register::Pc)
    } else {
        None
    }
}

/// Returns the flag of a letter, a capital or not.
#[tactic(auto, unfolding(crate::specs::Parts::flag_of))]
pub fn flag_of(word: &[u8]) -> Option<Flag>
    ensures { result ≡ flag_of word.now }
{
    if is_same_word(word, b"N") {
        Some(Flag::N)
    } else if is_same_word(word, b"V") {
        Some(Flag::V)
    } else if is_same_word(word, b"D") {
        Some(Flag::D)
    } else if is_same_word(word, b"I") {
        Some(Flag::I)
    } else if is_same_word(word, b"Z") {
        Some(Flag::Z)
    } else if is_same_word(word, b"C") {
        Some(Flag::C)
    } else {
        None
    }
}

/// Reads the left side of a test that begins with no register: a flag, or the address of a byte of
/// memory.
fn flag_or_byte<'a>(places: &Places, pc: u16, text: &'a [u8]) -> Result<(Left, &'a [u8]), Flaw<'a>>
    ensures ok { IfOk result (λ p. flag_or_byte places.now pc text.now (flag_of (word_of text.now))
        ≡ Ok (p.0, p.1.now)) }
    ensures err { IfErr result
        (λ why. flag_or_byte places.now pc text.now (flag_of (word_of text.now))
        ≡ Err (flaw_view why)) }
{
    match flag_of(word_of(text)) {
        Some(flag) => Ok((Left::Flag(flag), after_word(text))),
        None => {
            let (address, rest) = address_of(places, pc, text)?;
            Ok((Left::Byte(address), rest))
        }
    }
}

/// Reads the left side of a test: a register, a flag, or the address of a byte of memory.
fn left_of<'a>(places: &Places, pc: u16, text: &'a [u8]) -> Result<(Left, &'a [u8]), Flaw<'a>>
    ensures ok { IfOk result (λ p. left_of places.now pc text.now ≡ Ok (p.0, p.1.now)) }
    ensures err { IfErr result (λ why. left_of places.now pc text.now ≡ Err (flaw_view why)) }
{
    match register_of(word_of(text)) {
        Some(register) => Ok((Left::Register(register), after_word(text))),
        None => flag_or_byte(places, pc, text),
    }
}

/// Reads `=`, `==`, `<>`, `!=`, `<`, `<=`, `>` or `>=`.
#[tactic(auto, unfolding(crate::specs::Parts::comparison_of))]
fn comparison_of(text: &[u8]) -> Result<(Compare, &[u8]), Flaw<'_>>
    ensures ok { IfOk result (λ p. comparison_of text.now ≡ Ok (p.0, p.1.now)) }
    ensures err { IfErr result (λ why. comparison_of text.now ≡ Err (flaw_view why)) }
{
    let rest = after(1, text);
    if is_next(b'=', text) {
        Ok((Compare::Equal, past(b'=', rest)))
    } else if is_next(b'!', text) && is_next(b'=', rest) {
        Ok((Compare::Other, after(1, rest)))
    } else if is_next(b'<', text) {
        if is_next(b'>', rest) {
            Ok((Compare::Other, after(1, rest)))
        } else if is_next(b'=', rest) {
            Ok((Compare::LessOrEqual, after(1, rest)))
        } else {
            Ok((Compare::Less, rest))
        }
    } else if is_next(b'>', text) {
        if is_next(b'=', rest) {
            Ok((Compare::MoreOrEqual, after(1, rest)))
        } else {
            Ok((Compare::More, rest))
        }
    } else {
        Err(Flaw::Missing(Lack::Comparison))
    }
}

/// Reads a test of a register, a flag or a byte of memory.
#[tactic(auto, unfolding(crate::specs::Parts::test_of))]
fn test_of<'a>(places: &Places, pc: u16, text: &'a [u8]) -> Result<(Test, &'a [u8]), Flaw<'a>>
    ensures ok { IfOk result (λ p. test_of places.now pc text.now ≡ Ok (p.0, p.1.now)) }
    ensures err { IfErr result (λ why. test_of places.now pc text.now ≡ Err (flaw_view why)) }
{
    let (left, rest) = left_of(places, pc, text)?;
    let (compare, rest) = comparison_of(rest)?;
    let (right, rest) = word_value(places, rest)?;
    let test = Test {
        left,
        compare,
        right,
    };
    Ok((test, rest))
}

/// Reads a test and appends it, if it fits.
fn push_test<'a>(
    places: &Places,
    pc: u16,
    found: &mut ArrayVec<Test, 4>,
    text: &'a [u8],
) -> Result<&'a [u8], Flaw<'a>>
    ensures ok { IfOk result (λ rest. and_then (test_of places.now pc text.now)
        (with_test found.old.items) ≡ Ok (found.new.items, rest.now)) }
    ensures err { IfErr result (λ why. and_then (test_of places.now pc text.now)
        (with_test found.old.items) ≡ Err (flaw_view why)) }
{
    let (test, rest) = test_of(places, pc, text)?;
    match found.try_push(test) {
        Ok(()) => Ok(rest),
        Err(_) => Err(Flaw::Many),
    }
}

/// Reads tests with `and` between them.
pub fn tests_within<'a>(
    places: &Places,
    pc: u16,
    found: &mut ArrayVec<Test, 4>,
    text: &'a [u8],
) -> Result<&'a [u8], Flaw<'a>>
    ensures ok { IfOk result (λ rest. tests_within 5 places.now pc found.old.items text.now
        ≡ Ok (found.new.items, rest.now)) }
    ensures err { IfErr result (λ why. tests_within 5 places.now pc found.old.items text.now
        ≡ Err (flaw_view why)) }
{
    let mut rest = text;
    for _ in 0..5u8 {
        match push_test(places, pc, found, rest) {
            Ok(behind) => rest = behind,
            Err(why) => return Err(why),
        }
        if !is_word(b"and", rest) {
            return Ok(rest);
        }
        rest = after_word(rest);
    }
    Ok(rest)
}

/// Reads `if` and tests, if `if` comes next.
pub fn tests_of<'a>(
    places: &Places,
    pc: u16,
    text: &'a [u8],
) -> Result<(ArrayVec<Test, 4>, &'a [u8]), Flaw<'a>>
    ensures ok { IfOk result (λ p. tests_of places.now pc text.now ≡ Ok (p.0.items, p.1.now)) }
    ensures err { IfErr result (λ why. tests_of places.now pc text.now ≡ Err (flaw_view why)) }
{
    let mut found = ArrayVec::new();
    if !is_word(b"if", text) {
        return Ok((found, text));
    }
    let rest = tests_within(places, pc, &mut found, after_word(text))?;
    Ok((found, rest))
}

/// Reads `times` and a count, if `times` comes next. Otherwise the count is 1.
pub fn times_of<'a>(places: &Places, text: &'a [u8]) -> Result<(u32, &'a [u8]), Flaw<'a>>
    ensures ok { IfOk result (λ p. times_of places.now text.now ≡ Ok (p.0, p.1.now)) }
    ensures err { IfErr result (λ why. times_of places.now text.now ≡ Err (flaw_view why)) }
{
    if !is_word(b"times", text) {
        return Ok((1, text));
    }
    match count_of(places, after_word(text))? {
        (Some(times), rest) => Ok((times, rest)),
        (None, _) => Err(Flaw::Missing(Lack::Times)),
    }
}
