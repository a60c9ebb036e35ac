//! A register, a flag, the cycles, or the byte at a place.

ghost use Rattle.std.specs.Prelude.{◌≡◌, IfOk, option_map, string_bytes};
ghost use Rattle.dap_views.specs.Looks.{address_looked, byte_or_shown, capital_register, look_address};
ghost use Rattle.dap_views.specs.Looks.{look_at, look_named, look_shown, look_text};
ghost use Rattle.dap_views.specs.Looks.{look_words, looked_text, named_otherwise, own_variable};
ghost use Rattle.dap_views.specs.Looks.{place_named};
ghost use Rattle.dap_views.specs.Named.{value_byte, value_shown};
ghost use Rattle.dap_messages.specs.SeenAnswers.{answer_view};

use crate::named::{Variable, flag_or_register, value_byte, value_shown};
use crate::texts::{byte_text, number_text};
use dap_messages::{Answer, look_body};
use mon_line_parts::is_same_word;
use mon_lines::{Register, read_place};
use mon_session::MonState;
use std::alloc::{AllocError, Global};

/// What is looked at.
#[derive(Clone, Copy)]
pub enum Look {
    Variable(Variable),
    /// How many cycles were made.
    Cycles,
}

/// Returns the register that a text names in capitals, if it names one.
fn capital_register(text: &str) -> Option<Register>
    ensures { result ≡ capital_register text.now }
{
    if text == "PC" {
        Some(Register::Pc)
    } else if text == "A" {
        Some(Register::A)
    } else if text == "X" {
        Some(Register::X)
    } else if text == "Y" {
        Some(Register::Y)
    } else if text == "S" {
        Some(Register::S)
    } else if text == "P" {
        Some(Register::P)
    } else {
        None
    }
}

/// Returns the address of the place that a text names, if it names one.
pub fn place_named(mon: &MonState, text: &str) -> Option<u16>
    ensures { result
        ≡ place_named mon.now.places mon.now.session.current.regs.pc text.now }
{
    match read_place(text.as_bytes(), &mon.places, mon.session.regs().pc) {
        Ok(address) => Some(address),
        Err(_) => None,
    }
}

/// Returns the address of the place that is looked at where a text names one. The word `PC`, in
/// capitals or not, names a place only if the program has a name that is written so.
fn address_looked(mon: &MonState, text: &str) -> Option<u16>
    ensures { result
        ≡ address_looked mon.now.places mon.now.session.current.regs.pc text.now }
{
    if is_same_word(text.as_bytes(), b"PC") {
        mon.places.names().address_of(text.as_bytes())
    } else {
        place_named(mon, text)
    }
}

/// Returns the register or the flag that a text names, in capitals or not, if it names one.
fn own_variable(text: &str) -> Option<Variable>
    ensures { result ≡ own_variable text.now }
{
    if is_same_word(text.as_bytes(), b"PC") {
        return Some(Variable::Register(Register::Pc));
    }
    match flag_or_register(text.as_bytes()) {
        Ok(variable) => Some(variable),
        Err(_) => None,
    }
}

/// Returns what a text names that names no place: a register or a flag, or the cycles.
fn named_otherwise(text: &str) -> Option<Look>
    ensures { result ≡ named_otherwise (own_variable text.now) text.now }
{
    if let Some(variable) = own_variable(text) {
        return Some(Look::Variable(variable));
    }
    if text == "cycles" {
        Some(Look::Cycles)
    } else {
        None
    }
}

/// Returns what a text names: a register in capitals, or a place, or else a register or a flag in
/// any letters, or the cycles.
fn look_named(mon: &MonState, text: &str) -> Option<Look>
    ensures { result ≡ look_named mon.now.places mon.now.session.current.regs.pc text.now }
{
    if let Some(register) = capital_register(text) {
        return Some(Look::Variable(Variable::Register(register)));
    }
    match address_looked(mon, text) {
        Some(address) => Some(Look::Variable(Variable::Byte(address))),
        None => named_otherwise(text),
    }
}

/// Returns the address of what is looked at, if it is a byte of memory.
fn look_address(look: Look) -> Option<u16>
    ensures { result ≡ look_address look }
{
    match look {
        Look::Variable(Variable::Byte(address)) => Some(address),
        Look::Variable(Variable::Register(_)) => None,
        Look::Variable(Variable::Flag(_)) => None,
        Look::Cycles => None,
    }
}

/// Returns the value of what is looked at, as it is shown among the variables of its scope.
fn look_words(alloc: Global, mon: &MonState, look: Look) -> Result<String, AllocError>
    ensures { IfOk result
        (λ words. string_bytes words ≡ look_words mon.now.session.current look) }
{
    match look {
        Look::Variable(variable) => value_shown(alloc, mon, variable),
        Look::Cycles => number_text(alloc, mon.session.cycles()),
    }
}

/// Returns what a look is answered by.
fn look_shown(alloc: Global, mon: &MonState, look: Look) -> Result<Answer, AllocError>
    ensures { IfOk result (λ v. answer_view v ≡ look_shown mon.now.session.current look) }
{
    look_body(look_address(look), look_words(alloc, mon, look))
}

/// Returns what a text names, as it is shown where a client looks at it: `None` if it names
/// nothing. The status register has B clear.
pub fn look_at(alloc: Global, mon: &MonState, text: &str) -> Result<Option<Answer>, AllocError>
    ensures { IfOk result (λ found. option_map answer_view found
        ≡ look_at mon.now.session.current mon.now.places text.now) }
{
    let Some(look) = look_named(mon, text) else {
        return Ok(None);
    };
    let value = look_shown(alloc, mon, look)?;
    Ok(Some(value))
}

/// Returns the value of a variable: in hexadecimal alone, if it is a byte.
fn variable_text(alloc: Global, mon: &MonState, variable: Variable) -> Result<String, AllocError>
    ensures { IfOk result (λ text. string_bytes text
        ≡ byte_or_shown (value_byte mon.now.session.current variable)
        (value_shown mon.now.session.current variable)) }
{
    match value_byte(mon, variable) {
        Some(byte) => byte_text(alloc, byte),
        None => value_shown(alloc, mon, variable),
    }
}

/// Returns the value of what is looked at: in hexadecimal alone, if it is a byte.
fn look_text(alloc: Global, mon: &MonState, look: Look) -> Result<String, AllocError>
    ensures { IfOk result (λ text. string_bytes text ≡ look_text mon.now.session.current look) }
{
    match look {
        Look::Variable(variable) => variable_text(alloc, mon, variable),
        Look::Cycles => number_text(alloc, mon.session.cycles()),
    }
}

/// Returns the value of what a text names, in hexadecimal alone if it is a byte: `None` if it names
/// nothing.
pub fn looked_text(alloc: Global, mon: &MonState, text: &str) -> Result<Option<String>, AllocError>
    ensures { IfOk result (λ found. option_map (λ s. string_bytes s) found
        ≡ looked_text mon.now.session.current mon.now.places text.now) }
{
    let Some(look) = look_named(mon, text) else {
        return Ok(None);
    };
    let value = look_text(alloc, mon, look)?;
    Ok(Some(value))
}
