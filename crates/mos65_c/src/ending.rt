//! What C is told of runs and registers.

ghost use Rattle.std.specs.Prelude.{◌≡◌};
ghost use Rattle.mos65_c.specs.Status.{ending_of, given_of, opcode_of, place_of, registers_of};
ghost use Rattle.mos65_c.specs.Status.{value_of};

use debugger::{EventFault, RunEnd, Session, Why};

/// The registers and the cycle count.
#[repr(C)]
#[derive(Clone, Copy, Drop)]
pub struct Registers {
    pub cycles: u64,
    pub pc: u16,
    pub a: u8,
    pub x: u8,
    pub y: u8,
    pub s: u8,
    pub p: u8,
}

/// How a run ended.
#[repr(C)]
#[derive(Clone, Copy, Drop)]
pub struct Ending {
    /// How many steps it made.
    pub did: u32,
    /// 0 limit, 1 breakpoint, 2 watch, 3 refused.
    pub why: u32,
    /// The status of the fault where a step is refused, else 0.
    pub status: u32,
    /// The breakpoint, the watch, or where the undocumented opcode stands; else 0.
    pub address: u16,
    /// The undocumented opcode, else 0.
    pub opcode: u8,
}

/// What a subroutine is called with: the registers for which `has_` is true.
#[repr(C)]
#[derive(Clone, Copy, Drop)]
pub struct Given {
    pub a: u8,
    pub x: u8,
    pub y: u8,
    pub has_a: bool,
    pub has_x: bool,
    pub has_y: bool,
}

/// What a subroutine called with registers did.
#[repr(C)]
#[derive(Clone, Copy, Drop)]
pub struct Called {
    /// The cycles from its first instruction to its end.
    pub cycles: u64,
    pub registers: Registers,
    pub ending: Ending,
}

fn value_of(has: bool, value: u8) -> Option<u8>
    ensures { result ≡ value_of has value }
{
    if has { Some(value) } else { None }
}

/// Returns the registers that are given.
pub fn given_of(given: &Given) -> rig::Given
    ensures { result ≡ given_of given.now }
{
    rig::Given {
        a: value_of(given.has_a, given.a),
        x: value_of(given.has_x, given.x),
        y: value_of(given.has_y, given.y),
    }
}

/// Returns a session's registers and cycle count, as C is told.
pub fn registers_of(session: &Session) -> Registers
    ensures { result ≡ registers_of session.now.current }
{
    let regs = session.regs();
    Registers {
        cycles: session.cycles(),
        pc: regs.pc,
        a: regs.a,
        x: regs.x,
        y: regs.y,
        s: regs.s,
        p: regs.flags.to_byte(false),
    }
}

fn place_of(fault: EventFault) -> u16
    ensures { result ≡ place_of fault }
{
    match fault {
        EventFault::Undocumented { pc, .. } => pc,
        EventFault::CyclesFull
        | EventFault::ConsoleFull
        | EventFault::PastEnd
        | EventFault::PortAddress
        | EventFault::BadLength
        | EventFault::InputFull => 0,
    }
}

fn opcode_of(fault: EventFault) -> u8
    ensures { result ≡ opcode_of fault }
{
    match fault {
        EventFault::Undocumented { opcode, .. } => opcode,
        EventFault::CyclesFull
        | EventFault::ConsoleFull
        | EventFault::PastEnd
        | EventFault::PortAddress
        | EventFault::BadLength
        | EventFault::InputFull => 0,
    }
}

/// Returns how a run ended, as C is told.
pub fn ending_of(end: RunEnd) -> Ending
    ensures { result ≡ ending_of end }
{
    let (why, status, address, opcode) = match end.why {
        Why::Limit => (0, 0, 0, 0),
        Why::Break(address) => (1, 0, address, 0),
        Why::Watch(address) => (2, 0, address, 0),
        Why::Refused(fault) => (
            3,
            100 + fault.number() as u32,
            place_of(fault),
            opcode_of(fault),
        ),
    };
    Ending {
        did: end.did,
        why,
        status,
        address,
        opcode,
    }
}
