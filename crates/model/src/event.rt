//! Events of the machine, and why one is rejected.

ghost use Rattle.std.specs.Prelude.{Some, ◌≡◌};
ghost use Rattle.model.specs.FaultNames.{event_fault_name, event_fault_number};
ghost use Rattle.model.specs.FaultTexts.{event_fault_text};

use std::fmt;
use thiserror::Error;

/// Why an event is rejected. A rejected event changes nothing. Source: mos65.
#[derive(Clone, Copy, Debug, PartialEq, Eq, Error)]
pub enum EventFault {
    /// The cycle count is above 18,446,744,073,709,551,599, which is 2^64 - 17.
    CyclesFull,
    /// The byte at PC is not a documented opcode.
    Undocumented { opcode: u8, pc: u16 },
    /// The instruction would append to an output that holds 65,536 bytes.
    ConsoleFull,
    /// A patch would go past address 65535.
    PastEnd,
    /// A patch would change a byte at a port address.
    PortAddress,
    /// A patch has no byte, or more than three.
    BadLength,
    /// 65,536 bytes of input were handed in already, those taken included.
    InputFull,
}

impl fmt::Display for EventFault {
    ghost output = { λ fault. Some (event_fault_text fault) };

    /// Writes the name and the number, as the program prints them.
    fn fmt<W: fmt::Write>(&self, f: &mut fmt::Formatter<W>) -> fmt::Result {
        write!(f, "{} {}", self.name(), self.number())
    }
}

impl EventFault {
    /// Returns the fault's number.
    pub fn number(&self) -> u8
        ensures { result ≡ event_fault_number self.now }
    {
        self.entry().0
    }

    /// Returns the fault's name.
    pub fn name(&self) -> &'static str
        ensures { result.now ≡ event_fault_name self.now }
    {
        self.entry().1
    }

    /// The fault's line in the table of numbers and names.
    fn entry(&self) -> (u8, &'static str)
        ensures number { result.0 ≡ event_fault_number self.now }
        ensures name { result.1.now ≡ event_fault_name self.now }
    {
        match self {
            EventFault::CyclesFull => (1, "CyclesFull"),
            EventFault::Undocumented { .. } => (2, "Undocumented"),
            EventFault::ConsoleFull => (3, "ConsoleFull"),
            EventFault::PastEnd => (4, "PastEnd"),
            EventFault::PortAddress => (5, "PortAddress"),
            EventFault::BadLength => (6, "BadLength"),
            EventFault::InputFull => (7, "InputFull"),
        }
    }
}

/// A register and its new value. Bits 5 and 4 of P are ignored: P sets the six flags alone.
#[derive(Clone, Copy, Debug, PartialEq, Eq)]
pub enum Setting {
    A(u8),
    X(u8),
    Y(u8),
    S(u8),
    P(u8),
    Pc(u16),
}

/// What can happen to a machine between two states.
#[derive(Clone, Copy, Debug, PartialEq, Eq)]
pub enum Event {
    /// One step: an interrupt entry or an instruction.
    Step,
    /// A reset.
    Reset,
    /// Sets the IRQ line; true asks for an interrupt. The level stays until it is set again.
    Irq(bool),
    /// An NMI. It is pending until its entry; a second one before that adds nothing.
    Nmi,
    /// Sets a register.
    Set(Setting),
    /// Puts the first `count` bytes, 1 to 3, into memory from an address on, into ROM too.
    Patch {
        address: u16,
        bytes: [u8; 3],
        count: u8,
    },
    /// Hands in a byte of input.
    Input(u8),
}
