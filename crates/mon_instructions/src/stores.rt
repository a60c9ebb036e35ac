//! What a step has stored.

ghost use Rattle.std.specs.Prelude.{◌≡◌, ◌+◌, ◌==◌, ◌++◌, OnOk};
ghost use Rattle.mon_instructions.specs.Stores.{byte_left, is_lost, left_text, port_left};
ghost use Rattle.mon_instructions.specs.Stores.{store_text, stores_text};

use debugger::Session;
use formatting::{push_address, push_byte, push_text};
use std::alloc::AllocError;

/// Returns whether an address is base+2 of the port.
#[tactic(auto, using(crate::proofs::Port::second))]
fn is_second(session: &Session, address: u16) -> bool
    ensures { result ≡ (address == session.now.current.bus.map.port + 2) }
{
    address > 0 && session.bus().takes_input(address - 1)
}

/// Returns whether an address is base+3 of the port, where the control byte is.
#[tactic(auto, using(crate::proofs::Port::third))]
fn is_control(session: &Session, address: u16) -> bool
    ensures { result ≡ (address == session.now.current.bus.map.port + 3) }
{
    address > 1 && session.bus().takes_input(address - 2)
}

/// Returns whether an address is base+1 or base+2 of the port, where a store does nothing.
fn is_lost(session: &Session, address: u16) -> bool
    ensures { result ≡ is_lost session.now.current.bus.map address }
{
    session.bus().takes_input(address) || is_second(session, address)
}

/// Returns the byte that a store has left at an address of the port, if it has left one.
#[tactic(auto, unfolding(crate::specs::Stores::port_left))]
fn port_left(session: &Session, address: u16) -> Option<u8>
    ensures { result ≡ port_left session.now.current.bus address }
{
    if is_lost(session, address) {
        return None;
    }
    if is_control(session, address) {
        return Some(session.bus().control() as u8);
    }
    let last = session.output_len().saturating_sub(1);
    session.output_at(last)
}

/// Returns the byte that a store has left at an address, if it has left one.
#[tactic(auto, unfolding(crate::specs::Stores::byte_left))]
fn byte_left(session: &Session, address: u16) -> Option<u8>
    ensures { result ≡ byte_left session.now.current.bus address }
{
    if session.is_port(address) {
        port_left(session, address)
    } else if session.bus().is_plain(address) {
        Some(session.peek(address))
    } else {
        None
    }
}

/// Appends an address and the byte that a store has left there, if it has left one.
fn push_left(text: &mut Vec<u8>, address: u16, left: Option<u8>) -> Result<(), AllocError>
    ensures { OnOk result (text.new.items ≡ text.old.items ++ left_text address left) }
{
    if let Some(byte) = left {
        push_text(text, "  ")?;
        push_address(text, address)?;
        push_text(text, "=")?;
        push_byte(text, byte)?;
    }
    Ok(())
}

/// Appends an address and what a store has left there.
fn push_store(text: &mut Vec<u8>, session: &Session, address: u16) -> Result<(), AllocError>
    ensures { OnOk result (text.new.items ≡ text.old.items
        ++ store_text session.now.current.bus address) }
{
    push_left(text, address, byte_left(session, address))
}

/// Appends addresses, each with what a store has left there: memory's byte, at the port the byte
/// that was put out or the control byte. Where a store does nothing, as in the ROM, it appends
/// nothing.
///
/// Errors: `AllocError` if an allocation fails.
pub fn push_stores(
    text: &mut Vec<u8>,
    session: &Session,
    addresses: &[u16],
) -> Result<(), AllocError>
    ensures ok { OnOk result (text.new.items ≡ text.old.items
        ++ stores_text session.now.current.bus addresses.now) }
{
    for address in addresses {
        push_store(text, session, *address)?;
    }
    Ok(())
}
