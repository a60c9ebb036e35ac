//! Requests that make another instruction the next, or write bytes to memory.

ghost use Rattle.std.specs.Prelude.{◌≡◌, IfErr, IfOk, Ok, OnOk, false, is_ok, map as each};
ghost use Rattle.base64.specs.Engines.{standard};
ghost use Rattle.base64.specs.GeneralPurpose.{decode_of};
ghost use Rattle.dap_messages.specs.Messages.{said_of};
ghost use Rattle.dap_session.specs.Changes.{Goes, Writes, can_write, count_there, fitting};
ghost use Rattle.dap_session.specs.Changes.{is_there, may_write};
ghost use Rattle.dap_session.specs.Console.{ShowsIfRefused};
ghost use Rattle.dap_session.specs.Refusals.{IfRefused, IsNoTarget, IsNoWriting};
ghost use Rattle.dap_session.specs.Stands.{TellsGone};

use crate::client::Client;
use crate::console::happen;
use crate::fault::{Fault, or_memory, refused};
use crate::stands::{all_done, with_halt_at};
use crate::telling::{answered, with_unmoved};
use crate::wording::GONE_TO;
use base64::DecodeAllocError;
use base64::engine::general_purpose::STANDARD;
use dap_messages::{Answer, Counting, Message, Reason, stand_by};
use model::Setting;
use mon_runs::{Event, Session};
use mon_settings::put;
use std::alloc::Global;

/// Makes the instruction at an address the next, and says that the machine stands there.
///
/// Errors: `Refused` if no address is named, or the machine does not go there.
#[tactic(auto, using(crate::proofs::Stays::shows_same, crate::proofs::Stays::refused_so))]
pub fn go_to(alloc: Global, client: &mut Client, target: Option<u16>) -> Result<Vec<Message>, Fault>
    ensures done { OnOk result (Goes target client.old.mon client.new.mon) }
    ensures told { IfOk result
        (λ ms. TellsGone client.old client.new.mon (each said_of ms.items)) }
    ensures refused { IfErr result (λ f. ShowsIfRefused f client.old.mon client.new.mon) }
    ensures why { IfErr result (λ f. IfRefused f (IsNoTarget target client.old.mon)) }
{
    let Some(address) = target else {
        return Err(refused(alloc, "this is no address to go to"));
    };
    match happen(alloc, &mut client.mon, Event::Set(Setting::Pc(address))) {
        Ok(()) => {
            let halt = stand_by(Reason::Goto, GONE_TO);
            or_memory(with_halt_at(alloc, all_done(alloc), client, halt))
        }
        Err(fault) => Err(fault),
    }
}

/// Returns the bytes of a text.
///
/// Errors: `Refused` if they are not written in Base64.
fn bytes_in(alloc: Global, text: &str) -> Result<Vec<u8>, Fault>
    ensures bytes { IfOk result (λ bytes. decode_of standard text.now ≡ Ok bytes.items) }
    ensures why { IfErr result
        (λ f. IfRefused f (is_ok (decode_of standard text.now) ≡ false)) }
{
    match STANDARD.decode(alloc, text.as_bytes()) {
        Ok(bytes) => Ok(bytes),
        Err(DecodeAllocError::OutOfMemory) => Err(Fault::OutOfMemory),
        Err(DecodeAllocError::DecodeError(_)) => Err(refused(alloc, "the bytes are not in Base64")),
    }
}

/// Returns whether memory has a byte at an address.
fn is_there(session: &Session, address: u64, byte: u8) -> bool
    ensures { result ≡ is_there session.now.current.bus.memory address byte }
{
    address < 65536 && session.peek(address as u16) == byte
}

/// Returns how many of some bytes memory has from an address on, up to the first that differs.
#[tactic(auto, unfolding(crate::specs::Changes::count_there))]
fn count_there(session: &Session, address: u16, bytes: &[u8]) -> u64
    ensures { result ≡ count_there session.now.current.bus.memory address bytes.now }
{
    let mut count = 0;
    for byte in bytes {
        if !is_there(session, u64::from(address) + count, *byte) {
            return count;
        }
        count += 1;
    }
    count
}

/// Returns those of some bytes that memory has room for from an address on.
fn fitting(address: u16, bytes: &[u8]) -> &[u8]
    ensures { result.now ≡ fitting address bytes.now }
{
    let room = 65536 - usize::from(address);
    if bytes.len() > room {
        return &bytes[..room];
    }
    bytes
}

/// Returns whether all of some bytes can be written from an address on: they fit, and none stands
/// at the port.
#[tactic(auto, using(crate::proofs::Writable::at_port, crate::proofs::Writable::not_here, crate::proofs::Writable::nowhere, crate::proofs::Writable::too_many))]
fn can_write(session: &Session, address: u16, bytes: &[u8]) -> bool
    ensures { result ≡ can_write session.now.current.bus.map address bytes.now }
{
    if bytes.len() > 65536 - usize::from(address) {
        return false;
    }
    for index in 0..bytes.len() {
        if session.is_port((usize::from(address) + index) as u16) {
            return false;
        }
    }
    true
}

/// Returns whether some bytes may be written: all can be, or a part is allowed.
fn may_write(session: &Session, address: u16, bytes: &[u8], is_partial: bool) -> bool
    ensures { result ≡ may_write session.now.current.bus.map address bytes.now is_partial }
{
    if is_partial {
        return true;
    }
    can_write(session, address, bytes)
}

/// Writes the bytes of a text to memory, an event for each. If a part is allowed, those in front of
/// the first that cannot be written are.
///
/// Errors: `Refused` if no address is named, the bytes are not written in Base64, or not all can be
/// written and a part is not allowed.
#[tactic(auto, using(crate::proofs::Stays::shows_same, crate::proofs::Stays::refused_so))]
pub fn write_memory(
    alloc: Global,
    client: &mut Client,
    counting: Counting,
    address: Option<u16>,
    text: &str,
    is_partial: bool,
) -> Result<Vec<Message>, Fault>
    ensures done { IfOk result (λ ms. Writes counting address text.now is_partial
        client.old.mon client.new.mon (each said_of ms.items)) }
    ensures refused { IfErr result (λ f. ShowsIfRefused f client.old.mon client.new.mon) }
    ensures why { IfErr result
        (λ f. IfRefused f (IsNoWriting address text.now is_partial client.old.mon)) }
{
    let Some(address) = address else {
        return Err(refused(alloc, "this is no address to write to"));
    };
    let bytes = match bytes_in(alloc, text) {
        Ok(bytes) => bytes,
        Err(fault) => return Err(fault),
    };
    let all = bytes.as_slice();
    if !may_write(&client.mon.session, address, all, is_partial) {
        return Err(refused(alloc, "the port and what is past FFFF cannot be written"));
    }
    let some = fitting(address, all);
    client.mon.text.clear();
    let done = put(&mut client.mon, address, some);
    client.mon.text.clear();
    done?;
    let count = count_there(&client.mon.session, address, some);
    let answer = answered(alloc, Ok(Answer::Written(count)));
    or_memory(with_unmoved(answer, counting))
}
