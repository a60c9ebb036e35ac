//! What a function of C has to return.

ghost use Rattle.std.specs.Prelude.{◌≡◌, ◌≢◌, IfErr, IfOk};
ghost use Rattle.t65_reader.specs.CCalls.{digits_at, low_byte, number_alone, result_of, upper_part};
ghost use Rattle.t65_reader.specs.CCalls.{wanted_by, wanted_byte, wanted_long, wanted_number};
ghost use Rattle.t65_reader.specs.CCalls.{wanted_value, with_part};
ghost use Rattle.t65_reader.specs.RowText.{result_items};

use crate::c_call::{equals, items_from, number_alone, number_at, wide_value_of};
use crate::c_program::upper_in;
use crate::row::{Item, Register, Target};
use crate::sequence::{just, without_first};
use assembler::Assembly;
use std::alloc::Global;
use t65_values::{
    Atom, Letters, Operation, Operator, RowFault, RowFaultKind, Value, after_sign, after_word,
    fault_at, is_next, is_text, word_of,
};

/// Returns a register and the low byte of a number that it has to hold.
fn wanted_byte(register: Register, number: u32) -> Item
    ensures { result ≡ wanted_byte register number }
{
    equals(Target::Register(register), just(Atom::Number(number % 256)))
}

/// Returns the four bytes of a number that has to be returned.
fn wanted_long(
    alloc: Global,
    text: &[u8],
    upper: Option<u16>,
    number: u32,
) -> Result<Vec<Item>, RowFault>
    ensures ok { IfOk result (λ items. wanted_long text.now upper number ≡ Ok items.items) }
    ensures err { IfErr result (λ fault. fault.kind ≢ RowFaultKind.OutOfMemory
        → wanted_long text.now upper number ≡ Err fault) }
{
    let Some(upper) = upper else {
        return Err(fault_at(RowFaultKind::NoRuntimeName, text));
    };
    let low = wanted_byte(Register::A, number);
    let high = wanted_byte(Register::X, number / 256);
    items_from(alloc, &[low, high, number_at(upper, number / 65536)])
}

/// Returns what a number of so many digits says.
#[tactic(auto, unfolding(crate::specs::CCalls::wanted_number))]
fn wanted_number(
    alloc: Global,
    text: &[u8],
    upper: Option<u16>,
    number: u32,
    count: usize,
) -> Result<Vec<Item>, RowFault>
    ensures ok { IfOk result
        (λ items. wanted_number text.now upper number count ≡ Ok items.items) }
    ensures err { IfErr result (λ fault. fault.kind ≢ RowFaultKind.OutOfMemory
        → wanted_number text.now upper number count ≡ Err fault) }
{
    let low = wanted_byte(Register::A, number);
    match count {
        2 => items_from(alloc, &[low]),
        4 => items_from(alloc, &[low, wanted_byte(Register::X, number / 256)]),
        8 => wanted_long(alloc, text, upper, number),
        _ => Err(fault_at(RowFaultKind::ResultSize, text)),
    }
}

/// Returns a value with one part more, which has two at most.
fn with_part(value: Value, part: Operator) -> Value
    ensures { result ≡ with_part value part value.second }
{
    match value.second {
        None => Value {
            first: value.first,
            second: Some(part),
            third: value.third,
        },
        Some(second) => Value {
            first: value.first,
            second: Some(second),
            third: Some(part),
        },
    }
}

/// Returns the part that leaves the low byte of a value.
fn low_byte() -> Operator
    ensures { result ≡ low_byte }
{
    Operator {
        operation: Operation::And,
        right: Atom::Number(255),
    }
}

/// Returns the part that leaves what is above the low byte of a value.
fn upper_part() -> Operator
    ensures { result ≡ upper_part }
{
    Operator {
        operation: Operation::Divide,
        right: Atom::Number(256),
    }
}

/// Returns A and X, which have to hold a value of two bytes.
fn wanted_value(alloc: Global, text: &[u8], value: Value) -> Result<Vec<Item>, RowFault>
    ensures ok { IfOk result (λ items. wanted_value text.now value value.third ≡ Ok items.items) }
    ensures err { IfErr result (λ fault. fault.kind ≢ RowFaultKind.OutOfMemory
        → wanted_value text.now value value.third ≡ Err fault) }
{
    match value.third {
        Some(_) => Err(fault_at(RowFaultKind::ResultSize, text)),
        None => {
            let low = equals(Target::Register(Register::A), with_part(value, low_byte()));
            let high = equals(
                Target::Register(Register::X),
                with_part(value, upper_part()),
            );
            items_from(alloc, &[low, high])
        }
    }
}

/// Returns the word that has the digits of a number.
fn digits_at(text: &[u8]) -> &[u8]
    ensures { result.now ≡ digits_at text.now }
{
    if is_next(b'$', text) {
        word_of(without_first(text))
    } else {
        word_of(text)
    }
}

/// Returns what a value says that a function has to return.
fn wanted_by(
    alloc: Global,
    text: &[u8],
    upper: Option<u16>,
    value: Value,
) -> Result<Vec<Item>, RowFault>
    ensures ok { IfOk result
        (λ items. wanted_by text.now upper value (number_alone value) ≡ Ok items.items) }
    ensures err { IfErr result (λ fault. fault.kind ≢ RowFaultKind.OutOfMemory
        → wanted_by text.now upper value (number_alone value) ≡ Err fault) }
{
    match number_alone(value) {
        Some(number) => wanted_number(alloc, text, upper, number, digits_at(text).len()),
        None => wanted_value(alloc, text, value),
    }
}

/// Reads what a function has to return.
#[tactic(auto, unfolding(crate::specs::CCalls::result_of))]
fn result_of<'a>(
    alloc: Global,
    names: &Assembly,
    letters: Letters,
    text: &'a [u8],
) -> Result<(Vec<Item>, &'a [u8]), RowFault>
    ensures ok { IfOk result
        (λ p. result_of names.now.names letters text.now ≡ Ok (p.0.items, p.1.now)) }
    ensures err { IfErr result (λ fault. fault.kind ≢ RowFaultKind.OutOfMemory
        → result_of names.now.names letters text.now ≡ Err fault) }
{
    let (value, rest) = wide_value_of(names, letters, text)?;
    let items = wanted_by(alloc, text, upper_in(names), value)?;
    Ok((items, rest))
}

/// Reads `result`, `=` and what a function has to return, if that comes next.
#[tactic(auto, unfolding(crate::specs::RowText::result_items))]
pub fn result_items<'a>(
    alloc: Global,
    names: &Assembly,
    letters: Letters,
    text: &'a [u8],
) -> Result<(Vec<Item>, &'a [u8]), RowFault>
    ensures ok { IfOk result
        (λ p. result_items names.now.names letters text.now ≡ Ok (p.0.items, p.1.now)) }
    ensures err { IfErr result (λ fault. fault.kind ≢ RowFaultKind.OutOfMemory
        → result_items names.now.names letters text.now ≡ Err fault) }
{
    if is_text(word_of(text), b"result") {
        let rest = after_sign(b'=', after_word(text))?;
        result_of(alloc, names, letters, rest)
    } else {
        Ok((Vec::new(alloc), text))
    }
}
