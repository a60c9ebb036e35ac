//! Bytes that are looked for in memory.

ghost use Rattle.std.specs.Prelude.{◌≡◌, ◌≤◌, ◌+◌, ◌++◌, [], IfOk, OnOk, length};
ghost use Rattle.std.specs.Prelude.{if◌then◌else◌, nat_lt};
ghost use Rattle.std.specs.List.{flat_map};
ghost use Rattle.mon_session.specs.Course.{ShowsOnly};
ghost use Rattle.mon_dispatch.specs.LookTexts.{find_text, found_line, nowhere_text, sought_byte, stands_at};

use crate::wording::{AND_MORE, NOWHERE};
use formatting::{push_byte, push_text};
use mon_instructions::push_place;
use mon_session::{MonState, Session};
use source_map::Places;
use std::alloc::AllocError;

/// The most places that `find` shows.
const MOST_FOUND: u32 = 16;

/// How many bytes memory has.
const MEMORY_SIZE: u32 = 65536;

/// Returns how many bytes memory has: as many in every state.
fn memory_size(session: &Session) -> u32
    ensures size { result ≡ length session.now.current.bus.memory }
    ensures within { result ≤ 65536 }
{
    session.is_state();
    MEMORY_SIZE
}

/// Returns whether bytes stand at an address.
fn stands_at(session: &Session, bytes: &[u8], address: u16) -> bool
    ensures { result ≡ stands_at session.now.current.bus.memory bytes.now address }
{
    let mut at = address;
    for byte in bytes {
        if session.peek(at) != *byte {
            return false;
        }
        at = at.wrapping_add(1);
    }
    true
}

/// Appends the line of a place at which bytes were found.
fn push_found(text: &mut Vec<u8>, places: &Places, address: u16) -> Result<(), AllocError>
    ensures { OnOk result (text.new.items ≡ text.old.items
        ++ found_line places.now.names address) }
{
    push_place(text, places, address)?;
    push_text(text, "\n")
}

/// Appends bytes as two hex digits, with a blank before each.
fn push_sought(text: &mut Vec<u8>, bytes: &[u8]) -> Result<(), AllocError>
    ensures { OnOk result (text.new.items ≡ text.old.items ++ flat_map sought_byte bytes.now) }
{
    for byte in bytes {
        push_text(text, " ")?;
        push_byte(text, *byte)?;
    }
    Ok(())
}

/// Appends that bytes stand nowhere, and these bytes.
#[tactic(auto, unfolding(crate::specs::LookTexts::nowhere_text))]
fn push_nowhere(text: &mut Vec<u8>, bytes: &[u8]) -> Result<(), AllocError>
    ensures { OnOk result (text.new.items ≡ text.old.items ++ nowhere_text bytes.now) }
{
    push_text(text, NOWHERE)?;
    push_sought(text, bytes)?;
    push_text(text, "\n")
}

/// Shows an address if bytes stand there and fewer than 16 places were shown. Returns how many
/// there are with it.
fn show_if_found(
    mon: &mut MonState,
    bytes: &[u8],
    address: u16,
    count: u32,
) -> Result<u32, AllocError>
    requires { count ≤ 16 }
    ensures shows { ShowsOnly mon.old mon.new }
    ensures count { IfOk result (λ new. new ≡ count
        + (if stands_at mon.old.session.current.bus.memory bytes.now address then 1 else 0)) }
    ensures text { OnOk result (mon.new.text.items ≡ mon.old.text.items
        ++ (if stands_at mon.old.session.current.bus.memory bytes.now address
        then (if nat_lt count 16 then found_line mon.old.places.names address else [])
        else [])) }
{
    if !stands_at(&mon.session, bytes, address) {
        return Ok(count);
    }
    if count < MOST_FOUND {
        push_found(&mut mon.text, &mon.places, address)?;
    }
    Ok(count + 1)
}

/// Shows where bytes stand, at most 16 places.
///
/// Errors: `AllocError` if an allocation fails.
pub fn find(mon: &mut MonState, bytes: &[u8]) -> Result<(), AllocError>
    ensures shows { ShowsOnly mon.old mon.new }
    ensures text { OnOk result (mon.new.text.items ≡ mon.old.text.items
        ++ find_text mon.old.session.current.bus.memory bytes.now mon.old.places.names) }
{
    let mut count = 0u32;
    for address in 0..memory_size(&mon.session) {
        count = show_if_found(mon, bytes, address as u16, count)?;
        if count > MOST_FOUND {
            return mon.say(AND_MORE);
        }
    }
    if count == 0 {
        return push_nowhere(&mut mon.text, bytes);
    }
    Ok(())
}
