//! Why a call of the bus is rejected.

ghost use Rattle.std.specs.Prelude.{Some, ◌≡◌};
ghost use Rattle.model.specs.FaultNames.{bus_fault_name, bus_fault_number};
ghost use Rattle.model.specs.FaultTexts.{bus_fault_text};

use std::fmt;
use thiserror::Error;

/// A fault of the bus. Source: mos65.
#[derive(Clone, Copy, Debug, PartialEq, Eq, Error)]
pub enum BusFault {
    /// The port or the ROM is at an address where it may not be.
    BadMap,
    /// An allocation failed.
    OutOfMemory,
    /// The output already holds 65,536 bytes.
    ConsoleFull,
    /// 65,536 bytes of input were handed in already, those taken included.
    InputFull,
    /// A load or a patch would put a byte at a port address.
    PortAddress,
}

impl fmt::Display for BusFault {
    ghost output = { λ fault. Some (bus_fault_text fault) };

    /// Writes the name and the number, as the program prints them.
    fn fmt<W: fmt::Write>(&self, f: &mut fmt::Formatter<W>) -> fmt::Result {
        write!(f, "{} {}", self.name(), self.number())
    }
}

impl BusFault {
    /// Returns the fault's number.
    pub fn number(&self) -> u8
        ensures { result ≡ bus_fault_number self.now }
    {
        self.entry().0
    }

    /// Returns the fault's name.
    pub fn name(&self) -> &'static str
        ensures { result.now ≡ bus_fault_name self.now }
    {
        self.entry().1
    }

    /// The fault's line in the table of numbers and names.
    fn entry(&self) -> (u8, &'static str)
        ensures number { result.0 ≡ bus_fault_number self.now }
        ensures name { result.1.now ≡ bus_fault_name self.now }
    {
        match self {
            BusFault::BadMap => (1, "BadMap"),
            BusFault::OutOfMemory => (2, "OutOfMemory"),
            BusFault::ConsoleFull => (3, "ConsoleFull"),
            BusFault::InputFull => (4, "InputFull"),
            BusFault::PortAddress => (5, "PortAddress"),
        }
    }
}
