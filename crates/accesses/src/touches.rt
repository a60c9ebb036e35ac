//! The addresses that the next step reads as data, and those that it stores at.

ghost use Rattle.std.specs.Prelude.{◌≡◌, ◌≤◌, length};
ghost use Rattle.model.specs.Operand.{address_at};
ghost use Rattle.accesses.specs.Footprint.{above, in_page, jump_pointer, pointer_and_operand};
ghost use Rattle.accesses.specs.Footprint.{pointer_in, reads_by, reads_here};
ghost use Rattle.cpu_step.specs.Stored.{below, stores_by, stores_here};

use crate::{Access, access_here, row_here};
use arrayvec::ArrayVec;
use debugger::Session;
use model::{Mode, Operation, Profile};
use optable::operation;

/// At most three addresses, in the order in which they are read or stored at.
pub type Addresses = ArrayVec<u16, 3>;

/// Returns these addresses.
pub fn addresses(listed: &[u16]) -> Addresses
    requires { length listed.now ≤ 3 }
    ensures { result.items ≡ listed.now }
{
    let mut addresses = Addresses::new();
    let _ = addresses.try_extend_from_slice(listed);
    addresses
}

/// Returns an address of the stack page, so many bytes above the stack pointer.
fn above(s: u8, count: u8) -> u16
    ensures { result ≡ above s count }
{
    0x0100 + s.wrapping_add(count) as u16
}

/// Returns an address of the stack page, so many bytes below the stack pointer.
pub fn below(s: u8, count: u8) -> u16
    requires { count ≤ 2 }
    ensures { result ≡ below s count }
{
    0x0100 + s.wrapping_sub(count) as u16
}

/// Returns the two bytes of memory that an address begins in the same page.
fn in_page(address: u16) -> (u16, u16)
    ensures { result ≡ in_page address }
{
    (
        address,
        (address & 0xff00) + (address.wrapping_add(1) & 0xff),
    )
}

/// Returns two bytes of plain memory as an address, the low byte first. $0000 comes after $FFFF.
#[tactic(auto, unfolding(model::specs::Operand::address_at))]
fn address_at(session: &Session, address: u16) -> u16
    ensures { result ≡ address_at session.now.current.bus address }
{
    let low = session.peek(address);
    let high = session.peek(address.wrapping_add(1));
    low as u16 + 256 * high as u16
}

/// Returns the addresses of the pointer of JMP indirect. Profile C crosses the page.
fn jump_pointer(profile: Profile, address: u16) -> (u16, u16)
    ensures { result ≡ jump_pointer profile address }
{
    match profile {
        Profile::N => in_page(address),
        Profile::C => (address, address.wrapping_add(1)),
    }
}

/// Returns the addresses of the pointer that the operand of the instruction at PC is reached by, if
/// its mode has one.
#[tactic(auto, unfolding(crate::specs::Footprint::pointer_in))]
fn pointer_here(session: &Session, mode: Mode) -> Option<(u16, u16)>
    ensures { result ≡ pointer_in session.now.current.bus session.now.current.regs mode }
{
    let regs = session.regs();
    let next = regs.pc.wrapping_add(1);
    match mode {
        Mode::IndX => Some(in_page(session.peek(next).wrapping_add(regs.x) as u16)),
        Mode::IndY | Mode::IndZ => Some(in_page(session.peek(next) as u16)),
        Mode::Ind => Some(jump_pointer(session.profile(), address_at(session, next))),
        _ => None,
    }
}

/// Returns the addresses of a pointer and of an operand.
fn pointer_and_operand(pointer: Option<(u16, u16)>, read: Option<u16>) -> Addresses
    ensures { result.items ≡ pointer_and_operand pointer read }
{
    match (pointer, read) {
        (None, None) => Addresses::new(),
        (None, Some(read)) => addresses(&[read]),
        (Some((low, high)), None) => addresses(&[low, high]),
        (Some((low, high)), Some(read)) => addresses(&[low, high, read]),
    }
}

/// Returns what an operation reads as data.
#[tactic(auto, unfolding(crate::specs::Footprint::reads_by))]
fn reads_by(
    operation: Operation,
    pointer: Option<(u16, u16)>,
    read: Option<u16>,
    s: u8,
) -> Addresses
    ensures { result.items ≡ reads_by operation pointer read s }
{
    match operation {
        Operation::PullA | Operation::PullX | Operation::PullY | Operation::PullStatus => {
            addresses(&[above(s, 1)])
        }
        Operation::Return => addresses(&[above(s, 1), above(s, 2)]),
        Operation::ReturnInterrupt => addresses(&[above(s, 1), above(s, 2), above(s, 3)]),
        Operation::Break => addresses(&[0xfffe, 0xffff]),
        _ => pointer_and_operand(pointer, read),
    }
}

/// Returns the addresses that the instruction at PC reads as data, before its step is made: of a
/// pointer, of the operand, of what it pulls from the stack, of BRK's vector.
///
/// The bytes of the instruction itself are not among them. An opcode that is not documented reads
/// nothing. An interrupt entry may come in the instruction's place. Source: MCS6500 manual,
/// chapters 5, 6, 8 and 9; mos65 for the port.
#[tactic(auto, unfolding(crate::specs::Footprint::reads_here))]
pub fn reads_here(session: &Session) -> Addresses
    ensures { result.items ≡ reads_here session.now.current }
{
    match row_here(session) {
        None => Addresses::new(),
        Some(row) => reads_by(
            operation(row.mnemonic),
            pointer_here(session, row.mode),
            access_here(session).read,
            session.regs().s,
        ),
    }
}

/// Returns the addresses that an access stores at, by the stack pointer before it: that of its
/// operand, or those of its pushes. Source: MCS6500 manual, chapters 5 and 8.
#[tactic(auto, unfolding(cpu_step::specs::Stored::stores_by))]
pub fn stores_by(access: Access, s: u8) -> Addresses
    ensures { result.items ≡ stores_by access s }
{
    match (access.store, access.pushes) {
        (Some(address), _) => addresses(&[address]),
        (None, 0) => Addresses::new(),
        (None, 1) => addresses(&[below(s, 0)]),
        (None, 2) => addresses(&[below(s, 0), below(s, 1)]),
        (None, _) => addresses(&[below(s, 0), below(s, 1), below(s, 2)]),
    }
}

/// Returns the addresses that the instruction at PC stores at, before its step is made: of its
/// operand, or of what it pushes on the stack.
///
/// A store at an address of the ROM leaves the byte there as it is. An opcode that is not
/// documented stores nothing. An interrupt entry may come in the instruction's place. Source:
/// MCS6500 manual, chapters 5 and 8.
#[tactic(auto, unfolding(cpu_step::specs::Stored::stores_here))]
pub fn stores_here(session: &Session) -> Addresses
    ensures { result.items ≡ stores_here session.now.current }
{
    stores_by(access_here(session), session.regs().s)
}
