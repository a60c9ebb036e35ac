//! The variables of a scope.

ghost use Rattle.std.specs.Prelude.{◌≡◌, ◌-◌, ℕ, [], IfOk, List, map as each, slice_index};
ghost use Rattle.std.specs.Prelude.{string_bytes};
ghost use Rattle.dap_messages.specs.declared.request.Page.{Page};
ghost use Rattle.dap_views.specs.Locals.{ShowsVariables};
ghost use Rattle.dap_views.specs.Pages.{IsPage};
ghost use Rattle.dap_views.specs.Scopes.{cell, cells, listed, machine_shown, scope_shown};
ghost use Rattle.dap_views.specs.Scopes.{symbols_shown, variables_shown, word_at, word_shown};
ghost use Rattle.dap_views.specs.Variables.{bit_text, byte_variable, flag_variable, flags_shown};
ghost use Rattle.dap_views.specs.Variables.{number_variable, register_text, register_variable};
ghost use Rattle.dap_views.specs.Variables.{registers_shown};
ghost use Rattle.dap_messages.specs.SeenAnswers.{answer_view, item_view};
ghost use Rattle.source_map.specs.Names.{named};

use crate::locals::{frame_of, locals_shown};
use crate::paged::Paged;
use crate::texts::{number_text, value_text};
use dap_messages::{
    Answer, Item, Page, Scope, address_text, plain_variable, variable, variable_at, variables_body,
};
use model::{Flags, Regs};
use mon_lines::Register;
use mon_runs::Session;
use mon_session::MonState;
use source_map::Name;
use std::alloc::{AllocError, Global};

/// Returns the value of a register. That of the status register has B clear.
pub fn register_text(alloc: Global, regs: Regs, register: Register) -> Result<String, AllocError>
    ensures { IfOk result (λ text. string_bytes text ≡ register_text regs register) }
{
    match register {
        Register::Pc => address_text(alloc, regs.pc),
        Register::A => value_text(alloc, regs.a),
        Register::X => value_text(alloc, regs.x),
        Register::Y => value_text(alloc, regs.y),
        Register::S => value_text(alloc, regs.s),
        Register::P => value_text(alloc, regs.flags.to_byte(false)),
    }
}

/// Returns the value of a flag: 1 or 0.
pub fn bit_text(alloc: Global, is_set: bool) -> Result<String, AllocError>
    ensures { IfOk result (λ text. string_bytes text ≡ bit_text is_set) }
{
    if is_set {
        String::from_str(alloc, "1")
    } else {
        String::from_str(alloc, "0")
    }
}

/// Returns the byte at an address as a variable.
fn byte_variable(alloc: Global, name: &str, address: u16, byte: u8) -> Result<Item, AllocError>
    ensures { IfOk result (λ v. item_view v ≡ byte_variable name.now address byte) }
{
    variable_at(alloc, name, address, value_text(alloc, byte))
}

/// Returns a register as a variable.
fn register_variable(
    alloc: Global,
    name: &str,
    regs: Regs,
    register: Register,
) -> Result<Item, AllocError>
    ensures { IfOk result (λ v. item_view v ≡ register_variable name.now regs register) }
{
    variable(alloc, name, register_text(alloc, regs, register))
}

/// Returns a flag as a variable.
fn flag_variable(alloc: Global, name: &str, is_set: bool) -> Result<Item, AllocError>
    ensures { IfOk result (λ v. item_view v ≡ flag_variable name.now is_set) }
{
    plain_variable(alloc, name, bit_text(alloc, is_set))
}

/// Returns a number in decimal as a variable.
fn number_variable(alloc: Global, name: &str, number: u64) -> Result<Item, AllocError>
    ensures { IfOk result (λ v. item_view v ≡ number_variable name.now number) }
{
    plain_variable(alloc, name, number_text(alloc, number))
}

/// Returns a page of the registers, of which none was shown.
fn registers(alloc: Global, page: Paged, regs: Regs) -> Paged
    ensures { (asked : Page) → IsPage asked [] page
        → IsPage asked (registers_shown regs) result }
{
    page.with(register_variable(alloc, "PC", regs, Register::Pc))
        .with(register_variable(alloc, "A", regs, Register::A))
        .with(register_variable(alloc, "X", regs, Register::X))
        .with(register_variable(alloc, "Y", regs, Register::Y))
        .with(register_variable(alloc, "S", regs, Register::S))
        .with(register_variable(alloc, "P", regs, Register::P))
}

/// Returns a page of the flags, of which none was shown.
fn flags(alloc: Global, page: Paged, flags: Flags) -> Paged
    ensures { (asked : Page) → IsPage asked [] page → IsPage asked (flags_shown flags) result }
{
    page.with(flag_variable(alloc, "N", flags.n))
        .with(flag_variable(alloc, "V", flags.v))
        .with(flag_variable(alloc, "D", flags.d))
        .with(flag_variable(alloc, "I", flags.i))
        .with(flag_variable(alloc, "Z", flags.z))
        .with(flag_variable(alloc, "C", flags.c))
}

/// Returns the byte at an address as a variable of a name, if memory did not run out for that.
fn byte_named(
    alloc: Global,
    name: Result<String, AllocError>,
    address: u16,
    byte: u8,
) -> Result<Item, AllocError>
    ensures { (bytes : List ℕ) → IfOk name (λ s. string_bytes s ≡ bytes)
        → IfOk result (λ v. item_view v ≡ byte_variable bytes address byte) }
{
    let name = name?;
    byte_variable(alloc, name.as_str(), address, byte)
}

/// Returns a page of the bytes at names, each under its name. None was shown.
fn symbols(alloc: Global, page: Paged, session: &Session, names: &[Name]) -> Paged
    ensures { (asked : Page) → IsPage asked [] page → IsPage asked
        (symbols_shown session.now.current.bus.memory (each named names.now)) result }
{
    let mut page = page;
    for name in names {
        let text = String::from_utf8_lossy(alloc, name.text.as_slice());
        page = page.with(byte_named(alloc, text, name.address, session.peek(name.address)));
    }
    page
}

/// Returns a page of the bytes from an address up to another, each under its address. None was
/// shown.
fn cells(alloc: Global, page: Paged, session: &Session, from: u16, to: u16) -> Paged
    ensures { (asked : Page) → IsPage asked [] page → IsPage asked
        (cells session.now.current.bus.memory from (to - from)) result }
{
    let mut page = page;
    for address in from..to {
        let name = address_text(alloc, address);
        page = page.with(byte_named(alloc, name, address, session.peek(address)));
    }
    page
}

/// Returns a page of the cycles, how many events are held, and how many bytes were put out. None
/// was shown.
fn machine(alloc: Global, page: Paged, session: &Session) -> Paged
    ensures { (asked : Page) → IsPage asked [] page
        → IsPage asked (machine_shown session.now) result }
{
    page.with(number_variable(alloc, "cycles", session.cycles()))
        .with(number_variable(alloc, "events held", session.held() as u64))
        .with(number_variable(alloc, "bytes put out", session.output_len() as u64))
}

/// Returns the word at an address. Its low byte comes first.
fn word_at(session: &Session, address: u16) -> u16
    ensures { result ≡ word_at session.now.current.bus.memory address }
{
    let low = session.peek(address);
    let high = session.peek(address.wrapping_add(1));
    u16::from(high) * 256 + u16::from(low)
}

/// Returns the byte at an address as a variable under its address.
fn cell(alloc: Global, session: &Session, address: u16) -> Result<Item, AllocError>
    ensures { IfOk result (λ v. item_view v ≡ cell session.now.current.bus.memory address) }
{
    let name = address_text(alloc, address);
    byte_named(alloc, name, address, session.peek(address))
}

/// Returns a page of the word at an address, and of the byte that it points to. None was shown.
fn word_shown(alloc: Global, page: Paged, session: &Session, address: u16) -> Paged
    ensures { (asked : Page) → IsPage asked [] page → IsPage asked
        (word_shown session.now.current.bus.memory address) result }
{
    let word = word_at(session, address);
    page.with(plain_variable(alloc, "(word)", address_text(alloc, word)))
        .with(cell(alloc, session, word))
}

/// Returns a page of the variables of a scope, of which none was shown. The bytes of the stack are
/// those from that above the stack pointer on.
fn scope_shown(alloc: Global, page: Paged, mon: &MonState, scope: Scope) -> Paged
    ensures { (asked : Page) → IsPage asked [] page → IsPage asked
        (scope_shown mon.now.session mon.now.places.names scope) result }
{
    let session = &mon.session;
    match scope {
        Scope::Registers => registers(alloc, page, session.regs()),
        Scope::Flags => flags(alloc, page, session.regs().flags),
        Scope::Symbols => symbols(alloc, page, session, mon.places.names().all()),
        Scope::Stack => cells(alloc, page, session, 257 + u16::from(session.regs().s), 512),
        Scope::ZeroPage => cells(alloc, page, session, 0, 256),
        Scope::Machine => machine(alloc, page, session),
        Scope::Word(address) => word_shown(alloc, page, session, address),
        Scope::Locals(_) => page,
    }
}

/// Returns a page of the variables of a scope, if there is such a scope. None was shown.
fn listed(alloc: Global, page: Paged, mon: &MonState, scope: Option<Scope>) -> Paged
    ensures { (asked : Page) → IsPage asked [] page → IsPage asked
        (listed mon.now.session mon.now.places.names scope) result }
{
    match scope {
        Some(scope) => scope_shown(alloc, page, mon, scope),
        None => page,
    }
}

/// Returns those variables of a scope that are asked for, but for locals: none if there is no such
/// scope.
fn others_shown(
    alloc: Global,
    mon: &MonState,
    scope: Option<Scope>,
    asked: Page,
) -> Result<Answer, AllocError>
    ensures { IfOk result (λ v. answer_view v
        ≡ variables_shown mon.now.session mon.now.places.names scope asked) }
{
    let page = listed(alloc, Paged::new(alloc, asked), mon, scope);
    variables_body(page.build())
}

/// Returns those variables of a scope that are asked for: none if there is no such scope.
pub fn variables_shown(
    alloc: Global,
    mon: &MonState,
    scope: Option<Scope>,
    asked: Page,
) -> Result<Answer, AllocError>
    ensures { IfOk result (λ v. ShowsVariables mon.now.session mon.now.places scope asked
        (answer_view v)) }
{
    match frame_of(scope) {
        Some(frame) => locals_shown(alloc, mon, frame, asked),
        None => others_shown(alloc, mon, scope, asked),
    }
}
