//! A variable that a client names.

ghost use Rattle.std.specs.Prelude.{◌≡◌, IfOk, MatchResult, None, Some, string_bytes};
ghost use Rattle.dap_views.specs.Named.{flag_or_register, is_of_locals, is_of_processor, meant};
ghost use Rattle.dap_views.specs.Named.{register_value};
ghost use Rattle.dap_views.specs.Named.{value_byte, value_shown, variable_in, variable_named};
ghost use Rattle.dap_views.specs.Named.{without_behind};
ghost use Rattle.dap_views.specs.Variables.{behind_text};
ghost use Rattle.mon_lines.specs.Parts.{flag_of, register_of};

use crate::texts::{behind_text, value_text};
use crate::variables::{bit_text, register_text};
use dap_messages::Scope;
use model::Regs;
use mon_line_parts::{Flaw, Topic};
use mon_lines::{Register, Slip, flag_of, read_place, register_of};
use mon_session::MonState;
use opcode_facts::Flag;
use std::alloc::{AllocError, Global};

/// A variable whose value can be set.
#[derive(Clone, Copy)]
pub enum Variable {
    Register(Register),
    Flag(Flag),
    /// The byte at an address.
    Byte(u16),
}

/// Returns whether a scope is that of the registers or that of the flags.
fn is_of_processor(scope: Scope) -> bool
    ensures { result ≡ is_of_processor scope }
{
    match scope {
        Scope::Registers | Scope::Flags => true,
        Scope::Symbols | Scope::Stack | Scope::ZeroPage => false,
        Scope::Machine | Scope::Word(_) | Scope::Locals(_) => false,
    }
}

/// Returns whether a scope is that of the locals of a frame.
fn is_of_locals(scope: Scope) -> bool
    ensures { result ≡ is_of_locals scope }
{
    match scope {
        Scope::Locals(_) => true,
        Scope::Registers | Scope::Flags | Scope::Symbols | Scope::Stack => false,
        Scope::ZeroPage | Scope::Machine | Scope::Word(_) => false,
    }
}

/// Returns the flag or the register of a name.
pub fn flag_or_register(name: &[u8]) -> Result<Variable, Slip<'_>>
    ensures { MatchResult result
        (λ variable. flag_or_register (flag_of name.now) (register_of name.now)
        ≡ Some variable)
        (λ slip. flag_or_register (flag_of name.now) (register_of name.now) ≡ None) }
{
    if let Some(flag) = flag_of(name) {
        return Ok(Variable::Flag(flag));
    }
    match register_of(name) {
        Some(register) => Ok(Variable::Register(register)),
        None => Err(Slip {
            topic: Some(Topic::Set),
            flaw: Flaw::Unreadable(name),
        }),
    }
}

/// Returns the variable of a scope that has a name. The name of a byte is that of its place. A
/// local is none: its bytes are set.
fn variable_in<'a>(mon: &MonState, scope: Scope, name: &'a str) -> Result<Variable, Slip<'a>>
    ensures { MatchResult result
        (λ variable. variable_in mon.now.places mon.now.session.current.regs.pc
        scope name.now ≡ Some variable)
        (λ slip. variable_in mon.now.places mon.now.session.current.regs.pc
        scope name.now ≡ None) }
{
    let name = name.as_bytes();
    if is_of_processor(scope) {
        return flag_or_register(name);
    }
    if is_of_locals(scope) {
        return Err(Slip {
            topic: Some(Topic::Put),
            flaw: Flaw::Unreadable(name),
        });
    }
    match read_place(name, &mon.places, mon.session.regs().pc) {
        Ok(address) => Ok(Variable::Byte(address)),
        Err(flaw) => Err(Slip {
            topic: Some(Topic::Put),
            flaw,
        }),
    }
}

/// Returns the variable that has a name of the scope that is named, if one is.
pub fn variable_named<'a>(
    mon: &MonState,
    scope: Option<Scope>,
    name: &'a str,
) -> Result<Variable, Slip<'a>>
    ensures { MatchResult result
        (λ variable. variable_named mon.now.places mon.now.session.current.regs.pc
        scope name.now ≡ Some variable)
        (λ slip. variable_named mon.now.places mon.now.session.current.regs.pc
        scope name.now ≡ None) }
{
    match scope {
        Some(scope) => variable_in(mon, scope, name),
        None => Err(Slip {
            topic: Some(Topic::Set),
            flaw: Flaw::Unreadable(name.as_bytes()),
        }),
    }
}

/// Returns the value of a variable, as it is shown among those of its scope.
pub fn value_shown(alloc: Global, mon: &MonState, variable: Variable) -> Result<String, AllocError>
    ensures { IfOk result
        (λ text. string_bytes text ≡ value_shown mon.now.session.current variable) }
{
    let regs = mon.session.regs();
    match variable {
        Variable::Register(register) => register_text(alloc, regs, register),
        Variable::Flag(flag) => bit_text(alloc, flag.of(regs.flags)),
        Variable::Byte(address) => value_text(alloc, mon.session.peek(address)),
    }
}

/// Returns the byte of a register, if it has one byte.
fn register_value(regs: Regs, register: Register) -> Option<u8>
    ensures { result ≡ register_value regs register }
{
    match register {
        Register::Pc => None,
        Register::A => Some(regs.a),
        Register::X => Some(regs.x),
        Register::Y => Some(regs.y),
        Register::S => Some(regs.s),
        Register::P => Some(regs.flags.to_byte(false)),
    }
}

/// Returns the byte of a variable, if it has one.
pub fn value_byte(mon: &MonState, variable: Variable) -> Option<u8>
    ensures { result ≡ value_byte mon.now.session.current variable }
{
    match variable {
        Variable::Register(register) => register_value(mon.session.regs(), register),
        Variable::Flag(_) => None,
        Variable::Byte(address) => Some(mon.session.peek(address)),
    }
}

/// Returns a text without other bytes, if it ends with these.
fn without_behind<'a>(text: &'a [u8], behind: &[u8]) -> &'a [u8]
    ensures { result.now ≡ without_behind behind.now text.now }
{
    if text.ends_with(behind) {
        &text[..text.len().saturating_sub(behind.len())]
    } else {
        text
    }
}

/// Returns a text without what is shown behind the hexadecimal value of a byte.
fn meant_at(alloc: Global, byte: u8, text: &[u8]) -> Result<&[u8], AllocError>
    ensures { IfOk result (λ t. t.now ≡ without_behind (behind_text byte) text.now) }
{
    let behind = behind_text(alloc, byte)?;
    Ok(without_behind(text, behind.as_slice()))
}

/// Returns the text that is meant where a variable is to have another value: without what is shown
/// behind the hexadecimal value that it has now, since an editor sends what it shows once it was
/// edited.
pub fn meant<'a>(
    alloc: Global,
    mon: &MonState,
    variable: Variable,
    text: &'a [u8],
) -> Result<&'a [u8], AllocError>
    ensures { IfOk result (λ t. t.now ≡ meant mon.now.session.current variable text.now) }
{
    match value_byte(mon, variable) {
        Some(byte) => meant_at(alloc, byte, text),
        None => Ok(text),
    }
}
