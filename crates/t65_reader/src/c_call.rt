//! Calls of functions of C: their arguments, and the items that these are given by.

ghost use Rattle.std.specs.Prelude.{◌≡◌, ◌≢◌, ◌+◌, ◌++◌, ◌∷◌, [], IfErr, IfOk};
ghost use Rattle.t65_reader.specs.CCalls.{argument_of, argument_text, arguments_of, before_last};
ghost use Rattle.t65_reader.specs.CCalls.{behind, below, byte_count, closed, given_value, laid_out};
ghost use Rattle.t65_reader.specs.CCalls.{loaded, long_items, long_registers, number_alone};
ghost use Rattle.t65_reader.specs.CCalls.{number_at, parameter_items, prepared_of, prepared_view};
ghost use Rattle.t65_reader.specs.CCalls.{register_items, text_argument, wide_value_of};
ghost use Rattle.t65_reader.specs.CPrograms.{callee_view, upper_in};
ghost use Rattle.t65_reader.specs.Items.{equals};

use crate::c_program::{Callee, Size, upper_in};
use crate::item::{StringPlace, push_item, push_items};
use crate::row::{Item, Register, Relation, Target};
use crate::sequence::{just, out_of_memory, push_string, push_value};
use assembler::Assembly;
use std::alloc::Global;
use t65_values::{
    Atom, Base, Letters, RowFault, RowFaultKind, Value, after, after_word, fault_at, is_next,
    value_of, wide_number, word_of,
};

/// What a parameter is given: a value, or the text that begins at an index of all texts.
#[derive(Clone, Copy)]
pub enum Given {
    Value(Value),
    Text(u16),
}

/// What a parameter of some size is given.
#[derive(Clone, Copy)]
pub struct Argument {
    pub size: Size,
    pub given: Given,
}

/// The arguments of a call, and the bytes of all texts, with a 0 behind each.
#[derive(Drop)]
pub struct ArgumentList {
    pub arguments: Vec<Argument>,
    pub texts: Vec<Value>,
}

/// Where the last parameter of a call stands, and its size, if there is one.
#[derive(Clone, Copy)]
pub struct LastParameter {
    pub address: u16,
    pub size: Option<Size>,
}

/// Reads five to eight hex digits, or a value.
#[tactic(auto, unfolding(crate::specs::CCalls::wide_value_of))]
pub fn wide_value_of<'a>(
    names: &Assembly,
    letters: Letters,
    text: &'a [u8],
) -> Result<(Value, &'a [u8]), RowFault>
    ensures ok { IfOk result
        (λ p. wide_value_of names.now.names letters text.now ≡ Ok (p.0, p.1.now)) }
    ensures err { IfErr result
        (λ fault. wide_value_of names.now.names letters text.now ≡ Err fault) }
{
    match wide_number(word_of(text)) {
        Some(number) => Ok((just(Atom::Number(number)), after_word(text))),
        None => value_of(names, letters, Base::Hex, text),
    }
}

/// Reads a text that is given by its address, and appends its bytes and a 0.
#[tactic(auto, unfolding(crate::specs::CCalls::text_argument))]
fn text_argument<'a>(
    texts: &mut Vec<Value>,
    size: Size,
    text: &'a [u8],
) -> Result<(Argument, &'a [u8]), RowFault>
    ensures ok { IfOk result (λ p. text_argument texts.old.items size text.now
        ≡ Ok ((p.0, texts.new.items), p.1.now)) }
    ensures err { IfErr result (λ fault. fault.kind ≢ RowFaultKind.OutOfMemory
        → text_argument texts.old.items size text.now ≡ Err fault) }
{
    match size {
        Size::Word => {
            let given = Given::Text((texts.len() % 65536) as u16);
            let rest = push_string(texts, text)?;
            push_value(texts, just(Atom::Number(0)))?;
            Ok((Argument { size, given }, rest))
        }
        Size::Byte | Size::Long => Err(fault_at(RowFaultKind::TextSize, text)),
    }
}

/// Reads what a parameter is given. The bytes of a text are appended to those of the others.
#[tactic(auto, unfolding(crate::specs::CCalls::argument_of))]
fn argument_of<'a>(
    names: &Assembly,
    letters: Letters,
    texts: &mut Vec<Value>,
    size: Size,
    text: &'a [u8],
) -> Result<(Argument, &'a [u8]), RowFault>
    ensures ok { IfOk result (λ p. argument_of names.now.names letters texts.old.items size
        text.now ≡ Ok ((p.0, texts.new.items), p.1.now)) }
    ensures err { IfErr result (λ fault. fault.kind ≢ RowFaultKind.OutOfMemory
        → argument_of names.now.names letters texts.old.items size text.now ≡ Err fault) }
{
    if is_next(b'"', text) {
        text_argument(texts, size, text)
    } else {
        let (value, rest) = wide_value_of(names, letters, text)?;
        let given = Given::Value(value);
        Ok((Argument { size, given }, rest))
    }
}

/// Returns the text of an argument: behind a comma, if others stand before it.
fn argument_text(is_first: bool, text: &[u8]) -> Result<&[u8], RowFault>
    ensures ok { IfOk result (λ rest. argument_text is_first text.now ≡ Ok rest.now) }
    ensures err { IfErr result (λ fault. argument_text is_first text.now ≡ Err fault) }
{
    if is_next(b')', text) {
        Err(fault_at(RowFaultKind::ParameterCount, text))
    } else if is_first {
        Ok(text)
    } else if is_next(b',', text) {
        Ok(after(1, text))
    } else {
        Err(fault_at(RowFaultKind::Syntax, text))
    }
}

/// Returns the text behind `)`, which has to come next.
fn closed(text: &[u8]) -> Result<&[u8], RowFault>
    ensures ok { IfOk result (λ rest. closed text.now ≡ Ok rest.now) }
    ensures err { IfErr result (λ fault. closed text.now ≡ Err fault) }
{
    if is_next(b')', text) {
        Ok(after(1, text))
    } else {
        Err(fault_at(RowFaultKind::ParameterCount, text))
    }
}

fn push_argument(found: &mut Vec<Argument>, argument: Argument) -> Result<(), RowFault>
    ensures ok { IfOk result (λ _. found.new.items ≡ found.old.items ++ argument ∷ []) }
    ensures err { IfErr result (λ fault. fault.kind ≡ RowFaultKind.OutOfMemory) }
{
    found.push(argument).map_err(|_| out_of_memory())
}

/// Reads an argument for each of some sizes and `)`, and appends the arguments and the bytes of
/// their texts to those before them.
#[tactic(auto, unfolding(crate::specs::CCalls::arguments_of))]
fn push_arguments<'a>(
    names: &Assembly,
    letters: Letters,
    found: &mut Vec<Argument>,
    texts: &mut Vec<Value>,
    sizes: &[Size],
    text: &'a [u8],
) -> Result<&'a [u8], RowFault>
    ensures ok { IfOk result (λ rest. arguments_of names.now.names letters found.old.items
        texts.old.items sizes.now text.now ≡ Ok ((found.new.items, texts.new.items), rest.now)) }
    ensures err { IfErr result (λ fault. fault.kind ≢ RowFaultKind.OutOfMemory
        → arguments_of names.now.names letters found.old.items texts.old.items sizes.now text.now
        ≡ Err fault) }
{
    match sizes {
        [] => closed(text),
        [size, more @ ..] => {
            let own = argument_text(found.len() == 0, text)?;
            let (argument, rest) = argument_of(names, letters, texts, *size, own)?;
            push_argument(found, argument)?;
            push_arguments(names, letters, found, texts, more, rest)
        }
    }
}

/// Reads the arguments of a call, for parameters of some sizes, and `)`.
pub fn arguments_of<'a>(
    alloc: Global,
    names: &Assembly,
    letters: Letters,
    sizes: &[Size],
    text: &'a [u8],
) -> Result<(ArgumentList, &'a [u8]), RowFault>
    ensures ok { IfOk result (λ p. arguments_of names.now.names letters [] [] sizes.now text.now
        ≡ Ok ((p.0.arguments.items, p.0.texts.items), p.1.now)) }
    ensures err { IfErr result (λ fault. fault.kind ≢ RowFaultKind.OutOfMemory
        → arguments_of names.now.names letters [] [] sizes.now text.now ≡ Err fault) }
{
    let mut arguments = Vec::new(alloc);
    let mut texts = Vec::new(alloc);
    let rest = push_arguments(names, letters, &mut arguments, &mut texts, sizes, text)?;
    Ok((ArgumentList { arguments, texts }, rest))
}

/// Returns the address so many bytes below one.
fn below(text: &[u8], address: u16, count: usize) -> Result<u16, RowFault>
    ensures ok { IfOk result (λ lower. below text.now address count ≡ Ok lower) }
    ensures room { IfOk result (λ lower. lower + count ≡ address) }
    ensures err { IfErr result (λ fault. below text.now address count ≡ Err fault) }
{
    if count <= address as usize {
        Ok(address - count as u16)
    } else {
        Err(fault_at(RowFaultKind::StackRoom, text))
    }
}

fn byte_count(size: Size) -> u16
    ensures { result ≡ byte_count size }
{
    match size {
        Size::Byte => 1,
        Size::Word => 2,
        Size::Long => 4,
    }
}

/// Returns the address so many bytes above one.
fn behind(address: u16, count: u16) -> u16
    ensures { result ≡ behind address count }
{
    ((address as u32 + count as u32) % 65536) as u16
}

/// Returns the number that a value is written as.
pub fn number_alone(value: Value) -> Option<u32>
    ensures { result ≡ number_alone value }
{
    match (value.first, value.second) {
        (Atom::Number(number), None) => Some(number),
        _ => None,
    }
}

/// Appends the two halves of a parameter of four bytes.
fn push_long(found: &mut Vec<Item>, address: u16, value: Value) -> Result<(), RowFault>
    ensures ok { IfOk result (λ _. found.new.items
        ≡ found.old.items ++ long_items address value (number_alone value)) }
    ensures err { IfErr result (λ fault. fault.kind ≡ RowFaultKind.OutOfMemory) }
{
    match number_alone(value) {
        None => {
            push_item(found, equals(Target::Word(address), value))?;
            push_item(found, number_at(behind(address, 2), 0))
        }
        Some(number) => {
            push_item(found, number_at(address, number % 65536))?;
            push_item(found, number_at(behind(address, 2), number / 65536))
        }
    }
}

/// Appends what a parameter is given.
fn push_parameter(
    found: &mut Vec<Item>,
    address: u16,
    size: Size,
    value: Value,
) -> Result<(), RowFault>
    ensures ok { IfOk result (λ _. found.new.items
        ≡ found.old.items ++ parameter_items address size value) }
    ensures err { IfErr result (λ fault. fault.kind ≡ RowFaultKind.OutOfMemory) }
{
    match size {
        Size::Byte => push_item(found, equals(Target::Byte(address), value)),
        Size::Word => push_item(found, equals(Target::Word(address), value)),
        Size::Long => push_long(found, address, value),
    }
}

/// Returns the value of an argument, where the texts begin at an address.
fn given_value(start: u16, given: Given) -> Value
    ensures { result ≡ given_value start given }
{
    match given {
        Given::Value(value) => value,
        Given::Text(offset) => just(Atom::Number(behind(start, offset) as u32)),
    }
}

/// Appends what parameters are given, from left to right, each below the one before it.
#[tactic(auto, unfolding(crate::specs::CCalls::laid_out))]
fn lay_out(
    text: &[u8],
    start: u16,
    found: &mut Vec<Item>,
    last: LastParameter,
    arguments: &[Argument],
) -> Result<LastParameter, RowFault>
    ensures ok { IfOk result (λ lowest. laid_out text.now start found.old.items last.address
        last.size arguments.now ≡ Ok (record {
          items = found.new.items;
          address = lowest.address;
          last = lowest.size;
        })) }
    ensures err { IfErr result (λ fault. fault.kind ≢ RowFaultKind.OutOfMemory
        → laid_out text.now start found.old.items last.address last.size arguments.now
        ≡ Err fault) }
{
    match arguments {
        [] => Ok(last),
        [argument, more @ ..] => {
            let address = below(text, last.address, byte_count(argument.size) as usize)?;
            let value = given_value(start, argument.given);
            push_parameter(found, address, argument.size, value)?;
            let size = Some(argument.size);
            lay_out(text, start, found, LastParameter { address, size }, more)
        }
    }
}

/// Returns the software stack pointer before a call.
fn before_last(last: LastParameter) -> u16
    ensures { result ≡ before_last last.address last.size }
{
    match last.size {
        None => last.address,
        Some(size) => behind(last.address, byte_count(size)),
    }
}

/// Returns a place and what it is given or equals.
pub fn equals(place: Target, value: Value) -> Item
    ensures { result ≡ equals place value }
{
    Item {
        place,
        relation: Relation::Equal,
        value,
    }
}

/// Returns two bytes and the number that they are given or equal.
pub fn number_at(address: u16, number: u32) -> Item
    ensures { result ≡ number_at address number }
{
    equals(Target::Word(address), just(Atom::Number(number)))
}

/// Returns some items.
pub fn items_from(alloc: Global, items: &[Item]) -> Result<Vec<Item>, RowFault>
    ensures ok { IfOk result (λ found. found.items ≡ items.now) }
    ensures err { IfErr result (λ fault. fault.kind ≡ RowFaultKind.OutOfMemory) }
{
    Vec::from_slice(alloc, items).map_err(|_| out_of_memory())
}

/// Appends items to others.
pub fn append(items: &mut Vec<Item>, others: &[Item]) -> Result<(), RowFault>
    ensures ok { IfOk result (λ _. items.new.items ≡ items.old.items ++ others.now) }
    ensures err { IfErr result (λ fault. fault.kind ≡ RowFaultKind.OutOfMemory) }
{
    items.extend_from_slice(others).map_err(|_| out_of_memory())
}

/// Returns a register and the byte at an address.
fn loaded(register: Register, address: u16) -> Item
    ensures { result ≡ loaded register address }
{
    equals(Target::Register(register), just(Atom::Byte(address)))
}

/// Returns the last parameter of four bytes in registers.
fn long_registers(
    alloc: Global,
    text: &[u8],
    upper: Option<u16>,
    address: u16,
) -> Result<Vec<Item>, RowFault>
    ensures ok { IfOk result
        (λ items. long_registers text.now address upper ≡ Ok items.items) }
    ensures err { IfErr result (λ fault. fault.kind ≢ RowFaultKind.OutOfMemory
        → long_registers text.now address upper ≡ Err fault) }
{
    let Some(upper) = upper else {
        return Err(fault_at(RowFaultKind::NoRuntimeName, text));
    };
    let low = loaded(Register::A, address);
    let high = loaded(Register::X, behind(address, 1));
    let half = equals(Target::Word(upper), just(Atom::Word(behind(address, 2))));
    items_from(alloc, &[low, high, half])
}

/// Returns the last parameter in registers.
#[tactic(auto, unfolding(crate::specs::CCalls::register_items))]
fn register_items(
    alloc: Global,
    text: &[u8],
    upper: Option<u16>,
    last: LastParameter,
) -> Result<Vec<Item>, RowFault>
    ensures ok { IfOk result
        (λ items. register_items text.now upper last.address last.size ≡ Ok items.items) }
    ensures err { IfErr result (λ fault. fault.kind ≢ RowFaultKind.OutOfMemory
        → register_items text.now upper last.address last.size ≡ Err fault) }
{
    match last.size {
        None => Ok(Vec::new(alloc)),
        Some(Size::Byte) => items_from(alloc, &[loaded(Register::A, last.address)]),
        Some(Size::Word) => {
            let high = loaded(Register::X, behind(last.address, 1));
            items_from(alloc, &[loaded(Register::A, last.address), high])
        }
        Some(Size::Long) => long_registers(alloc, text, upper, last.address),
    }
}

/// What is given before a call, and the software stack pointer after it.
#[derive(Drop)]
pub struct PreparedCall {
    pub given: Vec<Item>,
    pub start: u16,
}

/// Returns what is given before the call of a function with some arguments.
///
/// Errors: `StackRoom` if the C stack has no room for it; `NoRuntimeName` if the last parameter has
/// four bytes, and it is not known where their upper half is taken; `OutOfMemory`.
#[tactic(auto, unfolding(crate::specs::CCalls::prepared_of))]
pub fn prepared_of(
    alloc: Global,
    names: &Assembly,
    callee: Callee<'_>,
    text: &[u8],
    list: &ArgumentList,
) -> Result<PreparedCall, RowFault>
    ensures ok { IfOk result (λ call. prepared_of (upper_in names.now.names)
        (callee_view callee.entry) text.now list.now.arguments.items list.now.texts.items
        ≡ Ok (prepared_view call)) }
    ensures err { IfErr result (λ fault. fault.kind ≢ RowFaultKind.OutOfMemory
        → prepared_of (upper_in names.now.names) (callee_view callee.entry) text.now
        list.now.arguments.items list.now.texts.items ≡ Err fault) }
{
    let start = below(text, callee.top, list.texts.len())?;
    let mut given = Vec::new(alloc);
    push_items(&mut given, StringPlace::InMemory, start, &list.texts)?;
    let none = LastParameter {
        address: start,
        size: None,
    };
    let last = lay_out(text, start, &mut given, none, &list.arguments)?;
    push_item(
        &mut given,
        number_at(callee.pointer, before_last(last) as u32),
    )?;
    let registers = register_items(alloc, text, upper_in(names), last)?;
    append(&mut given, &registers)?;
    Ok(PreparedCall { given, start })
}
