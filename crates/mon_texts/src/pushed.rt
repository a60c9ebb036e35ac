//! What has pushed the bytes on the stack.

ghost use Rattle.std.specs.Prelude.{◌≡◌, ◌+◌, ◌<◌, ◌≤◌};
ghost use Rattle.mon_texts.specs.Pushed.{begins_instruction, is_break, is_return, jsr_at};
ghost use Rattle.mon_texts.specs.Pushed.{pushed_at, pushed_by_entry, pushed_len, word_at};

use debugger::Session;
use source_map::Places;

/// The opcode of JSR.
const JSR: u8 = 0x20;

/// The opcode of BRK.
const BRK: u8 = 0;

/// What has pushed the bytes from an address of the stack on.
#[derive(Clone, Copy)]
pub enum Pushed {
    /// The JSR at this address: the address of its last byte.
    Call(u16),
    /// The BRK at this address: P, and the address two above.
    Break(u16),
    /// An interrupt: P, and this address of the instruction that was to come next.
    Interrupt(u16),
    /// Something else: one byte.
    Byte,
}

/// Returns the address that the byte at an address and the one behind it are, the low byte first.
fn word_at(session: &Session, address: u16) -> u16
    requires { address < 65535 }
    ensures { result ≡ word_at session.now.current.bus.memory address }
{
    u16::from_le_bytes([session.peek(address), session.peek(address + 1)])
}

/// Returns the address of the JSR that pushes the byte at an address and the one behind it.
fn jsr_at(session: &Session, address: u16) -> u16
    requires { address < 65535 }
    ensures { result ≡ jsr_at session.now.current.bus.memory address }
{
    word_at(session, address).wrapping_sub(2)
}

/// Returns whether the byte at an address of the stack and the one behind it are a return address.
fn is_return(session: &Session, address: u16) -> bool
    requires { address < 512 }
    ensures { result ≡ is_return session.now.current.bus.memory address }
{
    address < 511 && session.peek(jsr_at(session, address)) == JSR
}

/// Returns whether a line of the source that is an instruction begins at an address.
fn begins_instruction(places: &Places, address: u16) -> bool
    ensures { result ≡ begins_instruction places.now.lines address }
{
    match places.row_at(address) {
        Some(row) => row.is_instruction,
        None => false,
    }
}

/// Returns whether a BRK of the source is at an address.
fn is_break(session: &Session, places: &Places, address: u16) -> bool
    ensures { result ≡ is_break session.now.current.bus.memory places.now.lines address }
{
    session.peek(address) == BRK && begins_instruction(places, address)
}

/// Returns what has pushed P and an address: an interrupt, or a BRK, if that can be, otherwise
/// something else.
fn pushed_by_entry(session: &Session, places: &Places, status: u8, address: u16) -> Pushed
    ensures { result
        ≡ pushed_by_entry session.now.current.bus.memory places.now.lines status address }
{
    if status & 0x30 == 0x20 && begins_instruction(places, address) {
        Pushed::Interrupt(address)
    } else if status & 0x30 == 0x30 && is_break(session, places, address.wrapping_sub(2)) {
        Pushed::Break(address.wrapping_sub(2))
    } else {
        Pushed::Byte
    }
}

/// Returns what has pushed the bytes from an address of the stack on. Bytes that can be a return
/// address of a JSR are taken for one; then those that can be P with its bit 5 set and the address
/// of an instruction of the source are taken for what an interrupt or a BRK has pushed.
#[tactic(auto, unfolding(crate::specs::Pushed::pushed_at))]
pub fn pushed_at(session: &Session, places: &Places, address: u16) -> Pushed
    requires { address < 512 }
    ensures { result ≡ pushed_at session.now.current.bus.memory places.now.lines address }
{
    if is_return(session, address) {
        Pushed::Call(jsr_at(session, address))
    } else if address < 510 {
        let status = session.peek(address);
        pushed_by_entry(session, places, status, word_at(session, address + 1))
    } else {
        Pushed::Byte
    }
}

/// Returns how many bytes were pushed.
pub fn pushed_len(pushed: Pushed) -> u16
    ensures len { result ≡ pushed_len pushed }
    ensures few { result ≤ 3 }
{
    match pushed {
        Pushed::Call(_) => 2,
        Pushed::Break(_) | Pushed::Interrupt(_) => 3,
        Pushed::Byte => 1,
    }
}
