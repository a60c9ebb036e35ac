//! Functions of C, and what a call of one needs.

ghost use Rattle.std.specs.Prelude.{◌≡◌, IfErr, IfOk, map};
ghost use Rattle.std.specs.Option.{option_map};
ghost use Rattle.model.specs.Names.{number_in};
ghost use Rattle.t65_reader.specs.CPrograms.{address_or_none, callee_of, callee_view};
ghost use Rattle.t65_reader.specs.CPrograms.{find_function, function_view, is_behind_underscore};
ghost use Rattle.t65_reader.specs.CPrograms.{is_called, no_program, placed_callee};
ghost use Rattle.t65_reader.specs.CPrograms.{pointer_in};
ghost use Rattle.t65_reader.specs.CPrograms.{program_view, runtime_address, sized_callee, upper_in};

use assembler::Assembly;
use std::alloc::Global;
use t65_values::{RowFault, RowFaultKind, fault_at, is_text, word_of};

/// How many bytes a parameter has, or a result.
#[derive(Clone, Copy)]
pub enum Size {
    /// One.
    Byte,
    /// Two.
    Word,
    /// Four.
    Long,
}

/// A function of C, with the name that cc65 gives it: `_` and its name in C.
#[derive(Drop)]
pub struct Function {
    pub name: Vec<u8>,
    pub address: u16,
    /// The sizes of its parameters from left to right, if it is known how it takes them.
    pub sizes: Option<Vec<Size>>,
}

/// The functions of a program, and where its C stack begins, which grows downwards.
#[derive(Drop)]
pub struct CProgram {
    pub stack: Option<u16>,
    pub functions: Vec<Function>,
}

impl CProgram {
    /// Makes a program of which no function of C is known.
    pub fn none(alloc: Global) -> CProgram
        ensures { program_view result ≡ no_program }
    {
        CProgram {
            stack: None,
            functions: Vec::new(alloc),
        }
    }
}

/// A function that is called, and what its call needs.
#[derive(Clone, Copy)]
pub struct Callee<'a> {
    pub address: u16,
    /// The sizes of its parameters, from left to right.
    pub sizes: &'a [Size],
    /// Where the C stack begins.
    pub top: u16,
    /// Where its pointer stands.
    pub pointer: u16,
}

/// Returns whether a name is `_` and a word.
fn is_behind_underscore(name: &[u8], word: &[u8]) -> bool
    ensures { result ≡ is_behind_underscore name.now word.now }
{
    match name {
        [] => false,
        [first, rest @ ..] => *first == b'_' && is_text(rest, word),
    }
}

/// Returns whether a word is a function's name, with its `_` or without it.
fn is_called(name: &[u8], word: &[u8]) -> bool
    ensures { result ≡ is_called name.now word.now }
{
    is_text(name, word) || is_behind_underscore(name, word)
}

/// Returns the first function that has a name.
fn find_function<'a>(word: &[u8], functions: &'a [Function]) -> Option<&'a Function>
    ensures { option_map (λ found. function_view found.now) result
        ≡ find_function word.now (map function_view functions.now) }
{
    for function in functions {
        if is_called(&function.name, word) {
            return Some(function);
        }
    }
    None
}

/// Returns the number of a name, if it is an address.
fn runtime_address(names: &Assembly, name: &[u8]) -> Option<u16>
    ensures { result ≡ runtime_address names.now.names name.now }
{
    let number = names.value_of(name)?;
    if 0 <= number && number <= 65535 {
        Some(number as u16)
    } else {
        None
    }
}

/// Returns where the software stack pointer stands: at `sp`, or at `c_sp`.
#[tactic(auto, unfolding(crate::specs::CPrograms::pointer_in))]
fn pointer_in(names: &Assembly) -> Option<u16>
    ensures { result ≡ pointer_in names.now.names }
{
    match runtime_address(names, b"sp") {
        Some(address) => Some(address),
        None => runtime_address(names, b"c_sp"),
    }
}

/// Returns where the upper half of four bytes stands: at `sreg`.
#[tactic(auto, unfolding(crate::specs::CPrograms::upper_in))]
pub fn upper_in(names: &Assembly) -> Option<u16>
    ensures { result ≡ upper_in names.now.names }
{
    runtime_address(names, b"sreg")
}

/// Returns what the call of a function needs, where both addresses are known.
fn sized_callee<'a>(
    text: &[u8],
    top: u16,
    pointer: u16,
    function: &'a Function,
) -> Result<Callee<'a>, RowFault>
    ensures ok { IfOk result (λ callee. sized_callee text.now top pointer function.now.address
        (option_map (λ sizes. sizes.items) function.now.sizes) ≡ Ok (callee_view callee)) }
    ensures err { IfErr result (λ fault. sized_callee text.now top pointer function.now.address
        (option_map (λ sizes. sizes.items) function.now.sizes) ≡ Err fault) }
{
    match &function.sizes {
        None => Err(fault_at(RowFaultKind::UnknownParameters, text)),
        Some(sizes) => Ok(Callee {
            address: function.address,
            sizes,
            top,
            pointer,
        }),
    }
}

/// Returns what the call of a function needs.
fn placed_callee<'a>(
    names: &Assembly,
    text: &[u8],
    function: &'a Function,
    stack: Option<u16>,
) -> Result<Callee<'a>, RowFault>
    ensures ok { IfOk result (λ callee. placed_callee names.now.names text.now
        (function_view function.now) stack ≡ Ok (callee_view callee)) }
    ensures err { IfErr result (λ fault. placed_callee names.now.names text.now
        (function_view function.now) stack ≡ Err fault) }
{
    let Some(top) = stack else {
        return Err(fault_at(RowFaultKind::NoStack, text));
    };
    let Some(pointer) = pointer_in(names) else {
        return Err(fault_at(RowFaultKind::NoRuntimeName, text));
    };
    sized_callee(text, top, pointer, function)
}

/// Returns what the call of the function needs whose name stands at the front of a text.
#[tactic(auto, unfolding(crate::specs::CPrograms::callee_of))]
pub fn callee_of<'a>(
    names: &Assembly,
    program: &'a CProgram,
    text: &[u8],
) -> Result<Callee<'a>, RowFault>
    ensures ok { IfOk result (λ callee. callee_of names.now.names (program_view program.now)
        text.now ≡ Ok (callee_view callee)) }
    ensures err { IfErr result (λ fault. callee_of names.now.names (program_view program.now)
        text.now ≡ Err fault) }
{
    match find_function(word_of(text), &program.functions) {
        Some(function) => placed_callee(names, text, function, program.stack),
        None => Err(fault_at(RowFaultKind::NoFunction, text)),
    }
}
