//! Faults of the lines between a chip and its reader.

ghost use Rattle.std.specs.Prelude.{◌≡◌, ◌<◌};
ghost use Rattle.dump_faults.specs.Faults.{IsFault, address_by, byte_by, cell_by, lines_of};

use crate::lines::{address_exchanged, address_with, data_exchanged, data_with};

/// The lines that carry bytes, or those that carry addresses.
#[derive(Clone, Copy)]
pub enum Bus {
    /// The eight data lines.
    Data,
    /// The sixteen address lines.
    Address,
}

impl Bus {
    /// Returns how many lines there are.
    pub fn lines(self) -> u8
        ensures { result ≡ lines_of self }
    {
        match self {
            Bus::Data => 8,
            Bus::Address => 16,
        }
    }
}

/// A line that always has one value.
#[derive(Clone, Copy)]
pub struct Stuck {
    pub bus: Bus,
    pub line: u8,
    /// Whether the value is 1.
    pub value: bool,
}

/// A fault of lines.
#[derive(Clone, Copy)]
pub enum Fault {
    /// A line always has one value.
    Stuck(Stuck),
    /// Two lines are exchanged.
    Exchanged(Bus, u8, u8),
    /// All data lines are inverted.
    Inverted,
}

/// Returns the address that reaches a chip with a fault.
pub fn address_by(fault: Fault, address: u16) -> u16
    requires { IsFault fault }
    ensures { result ≡ address_by fault address }
{
    match fault {
        Fault::Stuck(stuck) => match stuck.bus {
            Bus::Data => address,
            Bus::Address => address_with(stuck.line, stuck.value, address),
        },
        Fault::Exchanged(bus, one, other) => match bus {
            Bus::Data => address,
            Bus::Address => address_exchanged(one, other, address),
        },
        Fault::Inverted => address,
    }
}

/// Returns the byte that is read with a fault.
fn byte_by(fault: Fault, byte: u8) -> u8
    requires { IsFault fault }
    ensures { result ≡ byte_by fault byte }
{
    match fault {
        Fault::Stuck(stuck) => match stuck.bus {
            Bus::Data => data_with(stuck.line, stuck.value, byte),
            Bus::Address => byte,
        },
        Fault::Exchanged(bus, one, other) => match bus {
            Bus::Data => data_exchanged(one, other, byte),
            Bus::Address => byte,
        },
        Fault::Inverted => 255 - byte,
    }
}

/// Returns the cell that is read with a fault.
pub fn cell_by(fault: Fault, cell: Option<u8>) -> Option<u8>
    requires { IsFault fault }
    ensures { result ≡ cell_by fault cell }
{
    match cell {
        None => None,
        Some(byte) => Some(byte_by(fault, byte)),
    }
}
