//! That the machine stands.

ghost use Rattle.std.specs.Prelude.{◌≡◌, ◌∷◌, ◌++◌, IfOk, List, OnOk, map as each};
ghost use Rattle.dap_messages.specs.SeenAnswers.{SeenAnswer};
ghost use Rattle.dap_messages.specs.Messages.{Said, done, said_of};
ghost use Rattle.dap_session.specs.Answered.{all_done};
ghost use Rattle.dap_session.specs.Stands.{IsToldHalt, KeepsSession, break_reason, hits_at, id_if};
ghost use Rattle.dap_session.specs.Stands.{ids_at, is_at, reason_at};
ghost use Rattle.dap_session.specs.Told.{IsDone};

use crate::client::Client;
use crate::telling::{answered, with_halt};
use dap_messages::{Answer, Halt, Listed, Message, Placed, Reason};
use std::alloc::{AllocError, Global};

/// Returns that a request is done.
pub fn all_done(alloc: Global) -> Result<Vec<Message>, AllocError>
    ensures { IfOk result (λ ms. each said_of ms.items ≡ all_done) }
{
    answered(alloc, Ok(Answer::Nothing))
}

/// Returns whether one of some breakpoints stands at an address.
pub fn is_at(placed: &[Placed], address: u16) -> bool
    ensures { result ≡ is_at placed.now address }
{
    placed.iter().any(|other| other.address == address)
}

/// Returns which breakpoint stands at an address: one of a line before one at a name, and that
/// before one that is listed by the address.
fn break_reason(listed: &Listed, pc: u16) -> Reason
    ensures { result ≡ break_reason listed.now pc }
{
    if is_at(listed.lines.as_slice(), pc) {
        Reason::Breakpoint
    } else if is_at(listed.functions.as_slice(), pc) {
        Reason::FunctionBreakpoint
    } else if is_at(listed.addresses.as_slice(), pc) {
        Reason::InstructionBreakpoint
    } else {
        Reason::Breakpoint
    }
}

/// Returns why the machine stands. Breakpoints at names and at addresses are told apart.
fn reason_at(listed: &Listed, pc: u16, reason: Reason) -> Reason
    ensures { result ≡ reason_at listed.now pc reason }
{
    match reason {
        Reason::Breakpoint => break_reason(listed, pc),
        reason => reason,
    }
}

/// Appends the number of a breakpoint, if it stands at an address.
fn push_if(ids: &mut Vec<u64>, placed: &Placed, address: u16) -> Result<(), AllocError>
    ensures { OnOk result (ids.new.items ≡ ids.old.items ++ id_if address placed.now) }
{
    if placed.address == address {
        ids.push(placed.id)?;
        return Ok(());
    }
    Ok(())
}

/// Appends the numbers of those of some breakpoints that stand at an address.
fn push_ids(ids: &mut Vec<u64>, placed: &[Placed], address: u16) -> Result<(), AllocError>
    ensures { OnOk result (ids.new.items ≡ ids.old.items ++ ids_at address placed.now) }
{
    for one in placed {
        push_if(ids, one, address)?;
    }
    Ok(())
}

/// Returns the numbers of the breakpoints that have stopped the machine: those that are listed
/// where it stands, if one has.
fn hits_at(alloc: Global, listed: &Listed, pc: u16, reason: Reason) -> Result<Vec<u64>, AllocError>
    ensures { IfOk result (λ ids. ids.items ≡ hits_at listed.now pc reason) }
{
    let mut ids = Vec::new(alloc);
    match reason {
        Reason::Breakpoint => {
            push_ids(&mut ids, listed.lines.as_slice(), pc)?;
            push_ids(&mut ids, listed.addresses.as_slice(), pc)?;
            push_ids(&mut ids, listed.functions.as_slice(), pc)?;
            Ok(ids)
        }
        _ => Ok(ids),
    }
}

/// Returns messages and, behind them, what the client is told of a halt: what the program put out,
/// a remark if the machine is before the first instruction or at its oldest state, and that the
/// machine stands.
pub fn with_halt_at(
    alloc: Global,
    messages: Result<Vec<Message>, AllocError>,
    client: &mut Client,
    halt: Halt,
) -> Result<Vec<Message>, AllocError>
    ensures told { (before : List Said) → IfOk messages (λ ms. each said_of ms.items ≡ before)
        → IfOk result
        (λ ms. IsToldHalt client.old halt client.new before (each said_of ms.items)) }
    ensures answer { (body : SeenAnswer) (rest : List Said)
        → IfOk messages (λ ms. each said_of ms.items ≡ done body ∷ rest)
        → IfOk result (λ ms. IsDone body (each said_of ms.items)) }
    ensures kept { KeepsSession client.old client.new }
{
    let pc = client.mon.session.regs().pc;
    let hits = hits_at(alloc, &client.listed, pc, halt.reason)?;
    let halt = Halt {
        reason: reason_at(&client.listed, pc, halt.reason),
        words: halt.words,
        fault: halt.fault,
    };
    with_halt(alloc, messages, &client.mon, &mut client.told, halt, hits)
}
