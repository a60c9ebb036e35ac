//! Why a call of the session is rejected.

ghost use Rattle.std.specs.Prelude.{Some, ◌≡◌};
ghost use Rattle.model.specs.FaultNames.{session_fault_name, session_fault_number};
ghost use Rattle.model.specs.FaultTexts.{session_fault_text};

use std::fmt;
use thiserror::Error;

/// A fault of the session. Source: mos65.
#[derive(Clone, Copy, Debug, PartialEq, Eq, Error)]
pub enum SessionFault {
    /// Fewer events are held than are to be undone; `held` is their number.
    NoHistory { held: u32 },
    /// 256 breakpoints or watchpoints are set.
    TableFull,
    /// The breakpoint or watchpoint is set already.
    AlreadySet,
    /// The breakpoint or watchpoint is not set.
    NotSet,
    /// The image has a byte at a port address, or a watchpoint would be at one.
    PortAddress,
    /// An allocation failed.
    OutOfMemory,
}

impl fmt::Display for SessionFault {
    ghost output = { λ fault. Some (session_fault_text fault) };

    /// Writes the name and the number, as the program prints them.
    fn fmt<W: fmt::Write>(&self, f: &mut fmt::Formatter<W>) -> fmt::Result {
        write!(f, "{} {}", self.name(), self.number())
    }
}

impl SessionFault {
    /// Returns the fault's number.
    pub fn number(&self) -> u8
        ensures { result ≡ session_fault_number self.now }
    {
        self.entry().0
    }

    /// Returns the fault's name.
    pub fn name(&self) -> &'static str
        ensures { result.now ≡ session_fault_name self.now }
    {
        self.entry().1
    }

    /// The fault's line in the table of numbers and names.
    fn entry(&self) -> (u8, &'static str)
        ensures number { result.0 ≡ session_fault_number self.now }
        ensures name { result.1.now ≡ session_fault_name self.now }
    {
        match self {
            SessionFault::NoHistory { .. } => (1, "NoHistory"),
            SessionFault::TableFull => (2, "TableFull"),
            SessionFault::AlreadySet => (3, "AlreadySet"),
            SessionFault::NotSet => (4, "NotSet"),
            SessionFault::PortAddress => (5, "PortAddress"),
            SessionFault::OutOfMemory => (6, "OutOfMemory"),
        }
    }
}
