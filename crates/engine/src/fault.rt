//! Why the engine ends before its input does.

ghost use Rattle.std.specs.Prelude.{Some, ◌≡◌};
ghost use Rattle.engine.specs.FaultNames.{engine_fault_name, engine_fault_number, engine_fault_text};
ghost use Rattle.engine.specs.Refusals.{of_session, of_source, of_tape, of_tape_read};

use model::{AsmFault, AsmFaultKind, SessionFault, TapeFault, TapeFaultKind};
use papertape::TapeReadFault;
use std::fmt;
use thiserror::Error;

/// A fault of the engine. Source: mos65.
#[derive(Clone, Copy, Debug, PartialEq, Eq, Error)]
pub enum EngineFault {
    /// The source is rejected with this fault.
    Source(AsmFault),
    /// The text is not a tape; this is its first fault.
    Tape(TapeFault),
    /// No session can be made: the image has a byte at a port address.
    Session(SessionFault),
    /// A read of command lines, or of the tape, failed.
    Read,
    /// A write or a flush of a reply failed, or a write took no byte.
    Write,
    /// An allocation failed, in any part.
    OutOfMemory,
}

impl fmt::Display for EngineFault {
    ghost output = { λ fault. Some (engine_fault_text fault) };

    /// Its name and its number.
    fn fmt<W: fmt::Write>(&self, f: &mut fmt::Formatter<W>) -> fmt::Result {
        write!(f, "{} {}", self.name(), self.number())
    }
}

impl EngineFault {
    /// Returns the fault's number.
    pub fn number(&self) -> u8
        ensures { result ≡ engine_fault_number self.now }
    {
        self.entry().0
    }

    /// Returns the fault's name.
    pub fn name(&self) -> &'static str
        ensures { result.now ≡ engine_fault_name self.now }
    {
        self.entry().1
    }

    /// The fault's line in the table of numbers and names.
    fn entry(&self) -> (u8, &'static str)
        ensures number { result.0 ≡ engine_fault_number self.now }
        ensures name { result.1.now ≡ engine_fault_name self.now }
    {
        match self {
            EngineFault::Source(_) => (1, "Source"),
            EngineFault::Tape(_) => (2, "Tape"),
            EngineFault::Session(_) => (3, "Session"),
            EngineFault::Read => (4, "Read"),
            EngineFault::Write => (5, "Write"),
            EngineFault::OutOfMemory => (6, "OutOfMemory"),
        }
    }
}

impl From<AsmFault> for EngineFault {
    ghost from_gives = { λ fault e. e ≡ of_source fault };

    fn from(fault: AsmFault) -> EngineFault {
        match fault.kind {
            AsmFaultKind::OutOfMemory => EngineFault::OutOfMemory,
            _ => EngineFault::Source(fault),
        }
    }
}

impl From<TapeFault> for EngineFault {
    ghost from_gives = { λ fault e. e ≡ of_tape fault };

    fn from(fault: TapeFault) -> EngineFault {
        match fault.kind {
            TapeFaultKind::OutOfMemory => EngineFault::OutOfMemory,
            _ => EngineFault::Tape(fault),
        }
    }
}

impl From<TapeReadFault> for EngineFault {
    ghost from_gives = { λ fault e. e ≡ of_tape_read fault };

    fn from(fault: TapeReadFault) -> EngineFault {
        match fault {
            TapeReadFault::Tape(fault) => EngineFault::from(fault),
            TapeReadFault::Read => EngineFault::Read,
        }
    }
}

impl From<SessionFault> for EngineFault {
    ghost from_gives = { λ fault e. e ≡ of_session fault };

    fn from(fault: SessionFault) -> EngineFault {
        match fault {
            SessionFault::OutOfMemory => EngineFault::OutOfMemory,
            fault => EngineFault::Session(fault),
        }
    }
}
