//! Bytes in order: values, random bytes and strings, with commas between them.

ghost use Rattle.std.specs.Prelude.{◌≡◌, ◌≢◌, ◌+◌, ◌≤◌, ◌++◌, ◌∷◌, [], drop, not, IfErr, IfOk};
ghost use Rattle.std.specs.Prelude.{length, true};
ghost use Rattle.t65_reader.specs.Sequences.{characters_of, closed, has_room, is_last, just};
ghost use Rattle.t65_reader.specs.Sequences.{piece_of, pieces_after, random_piece, random_values};
ghost use Rattle.t65_reader.specs.Sequences.{sequence_of, string_piece, with_character};
ghost use Rattle.t65_values.specs.ValueText.{after_word, skip_blanks, word_of};

use assembler::Assembly;
use std::alloc::Global;
use t65_values::{
    Atom, Base, Letters, RowFault, RowFaultKind, Value, after, after_word, character_of, fault_at,
    is_next, is_text, number_of, value_of, word_of,
};

/// Returns a value of one part.
pub fn just(atom: Atom) -> Value
    ensures { result ≡ just atom }
{
    Value {
        first: atom,
        second: None,
        third: None,
    }
}

/// Returns the fault of a request for memory that was refused.
pub fn out_of_memory() -> RowFault
    ensures { result.kind ≡ RowFaultKind.OutOfMemory }
{
    RowFault {
        left: 0,
        kind: RowFaultKind::OutOfMemory,
    }
}

/// Returns a text without its first byte.
pub fn without_first(text: &[u8]) -> &[u8]
    ensures { result.now ≡ drop 1 text.now }
{
    match text {
        [] => text,
        [_, rest @ ..] => rest,
    }
}

/// Appends a value.
pub fn push_value(found: &mut Vec<Value>, value: Value) -> Result<(), RowFault>
    ensures ok { IfOk result (λ _. found.new.items ≡ found.old.items ++ value ∷ []) }
    ensures err { IfErr result (λ fault. fault.kind ≡ RowFaultKind.OutOfMemory) }
{
    found.push(value).map_err(|_| out_of_memory())
}

/// Appends a byte that was read, and returns the text after it.
fn push_character<'a>(
    found: &mut Vec<Value>,
    byte: u8,
    rest: &'a [u8],
) -> Result<&'a [u8], RowFault>
    ensures ok { IfOk result
        (λ behind. with_character found.old.items byte rest.now ≡ (found.new.items, behind.now)) }
    ensures err { IfErr result (λ fault. fault.kind ≡ RowFaultKind.OutOfMemory) }
{
    push_value(found, just(Atom::Number(byte as u32)))?;
    Ok(rest)
}

/// Appends the characters at the front of a text, and returns the text after them.
fn push_characters<'a>(found: &mut Vec<Value>, text: &'a [u8]) -> Result<&'a [u8], RowFault>
    ensures ok { IfOk result (λ rest. characters_of (length text.now) found.old.items text.now
        ≡ (found.new.items, rest.now)) }
    ensures err { IfErr result (λ fault. fault.kind ≡ RowFaultKind.OutOfMemory) }
{
    let mut rest = text;
    for _ in 0..text.len() {
        match character_of(rest) {
            None => return Ok(rest),
            Some((byte, behind)) => match push_character(found, byte, behind) {
                Ok(next) => rest = next,
                Err(fault) => return Err(fault),
            },
        }
    }
    Ok(rest)
}

/// Reads the bytes between two `"`, and appends them.
#[tactic(auto, unfolding(crate::specs::Sequences::string_piece))]
pub fn push_string<'a>(found: &mut Vec<Value>, text: &'a [u8]) -> Result<&'a [u8], RowFault>
    ensures ok { IfOk result
        (λ rest. string_piece found.old.items text.now ≡ Ok (found.new.items, rest.now)) }
    ensures err { IfErr result (λ fault. fault.kind ≢ RowFaultKind.OutOfMemory
        → string_piece found.old.items text.now ≡ Err fault) }
{
    let behind = push_characters(found, without_first(text))?;
    if is_next(b'"', behind) {
        Ok(after(1, behind))
    } else {
        Err(fault_at(RowFaultKind::OpenString, text))
    }
}

/// Appends the random bytes of so many places in order.
fn push_randoms(found: &mut Vec<Value>, first: u32, count: u32) -> Result<(), RowFault>
    requires { first + count ≤ 65536 }
    ensures ok { IfOk result
        (λ _. found.new.items ≡ found.old.items ++ random_values first count) }
    ensures err { IfErr result (λ fault. fault.kind ≡ RowFaultKind.OutOfMemory) }
{
    for i in 0..count {
        push_value(found, just(Atom::Random((first + i) as u16)))?;
    }
    Ok(())
}

/// Returns whether so many values behind others end at the last place or before it, where the first
/// of all stands in a place.
fn has_room(start: u16, before: usize, count: u32) -> bool
    ensures room { result ≡ has_room start before count }
    ensures within { result ≡ true → start + before + count ≤ 65536 }
{
    before <= 65536 && start as usize + before + count as usize <= 65536
}

/// Reads how many random bytes stand there, and appends them.
#[tactic(auto, unfolding(crate::specs::Sequences::random_piece))]
fn push_random<'a>(found: &mut Vec<Value>, start: u16, text: &'a [u8]) -> Result<&'a [u8], RowFault>
    ensures ok { IfOk result (λ rest. random_piece start found.old.items text.now
        ≡ Ok (found.new.items, rest.now)) }
    ensures err { IfErr result (λ fault. fault.kind ≢ RowFaultKind.OutOfMemory
        → random_piece start found.old.items text.now ≡ Err fault) }
{
    let (count, rest) = number_of(Base::Decimal, text)?;
    let before = found.len();
    if !has_room(start, before, count) {
        return Err(fault_at(RowFaultKind::AddressRange, text));
    }
    push_randoms(found, start as u32 + before as u32, count)?;
    Ok(rest)
}

/// Reads a string, random bytes or a value, and appends it.
#[tactic(auto, unfolding(crate::specs::Sequences::piece_of))]
fn push_piece<'a>(
    found: &mut Vec<Value>,
    names: &Assembly,
    letters: Letters,
    start: u16,
    text: &'a [u8],
) -> Result<&'a [u8], RowFault>
    ensures ok { IfOk result
        (λ rest. piece_of names.now.names letters start found.old.items text.now
        ≡ Ok (found.new.items, rest.now)) }
    ensures err { IfErr result (λ fault. fault.kind ≢ RowFaultKind.OutOfMemory
        → piece_of names.now.names letters start found.old.items text.now ≡ Err fault) }
{
    if is_next(b'"', text) {
        push_string(found, text)
    } else if is_text(word_of(text), b"random") {
        push_random(found, start, after_word(text))
    } else {
        let (value, rest) = value_of(names, letters, Base::Hex, text)?;
        push_value(found, value)?;
        Ok(rest)
    }
}

/// Returns whether no comma comes next.
fn is_last(text: &[u8]) -> bool
    ensures { result ≡ is_last text.now }
{
    !is_next(b',', text)
}

/// Reads a string, random bytes or a value behind a comma, and appends it.
fn push_next<'a>(
    found: &mut Vec<Value>,
    names: &Assembly,
    letters: Letters,
    start: u16,
    text: &'a [u8],
) -> Result<&'a [u8], RowFault>
    ensures ok { IfOk result
        (λ rest. piece_of names.now.names letters start found.old.items
        (skip_blanks (drop 1 text.now)) ≡ Ok (found.new.items, rest.now)) }
    ensures err { IfErr result (λ fault. fault.kind ≢ RowFaultKind.OutOfMemory
        → piece_of names.now.names letters start found.old.items (skip_blanks (drop 1 text.now))
        ≡ Err fault) }
{
    push_piece(found, names, letters, start, after(1, text))
}

/// Reads further strings, random bytes and values, each behind a comma, and appends them.
fn push_pieces<'a>(
    found: &mut Vec<Value>,
    names: &Assembly,
    letters: Letters,
    start: u16,
    text: &'a [u8],
) -> Result<&'a [u8], RowFault>
    ensures ok { IfOk result (λ rest. pieces_after (length text.now) names.now.names letters start
        found.old.items text.now ≡ Ok (found.new.items, rest.now)) }
    ensures err { IfErr result (λ fault. fault.kind ≢ RowFaultKind.OutOfMemory
        → pieces_after (length text.now) names.now.names letters start found.old.items text.now
        ≡ Err fault) }
{
    let mut rest = text;
    for _ in 0..text.len() {
        if is_last(rest) {
            return Ok(rest);
        }
        rest = push_next(found, names, letters, start, rest)?;
    }
    Ok(rest)
}

/// Reads strings, random bytes and values with commas between them: bytes in order, of which the
/// first stands in a place.
///
/// Errors: those of `value_of`; `OpenString` where a string has no second `"`; `AddressRange` where
/// random bytes go past the last place; `OutOfMemory`.
#[tactic(auto, unfolding(crate::specs::Sequences::sequence_of))]
pub fn sequence_of<'a>(
    alloc: Global,
    names: &Assembly,
    letters: Letters,
    start: u16,
    text: &'a [u8],
) -> Result<(Vec<Value>, &'a [u8]), RowFault>
    ensures ok { IfOk result (λ p. sequence_of names.now.names letters start text.now
        ≡ Ok (p.0.items, p.1.now)) }
    ensures err { IfErr result (λ fault. fault.kind ≢ RowFaultKind.OutOfMemory
        → sequence_of names.now.names letters start text.now ≡ Err fault) }
{
    let mut found = Vec::new(alloc);
    let behind = push_piece(&mut found, names, letters, start, text)?;
    let rest = push_pieces(&mut found, names, letters, start, behind)?;
    Ok((found, rest))
}
