//! The registers, and the result of an arithmetic operation.

ghost use Rattle.std.specs.Prelude.{◌≡◌};
ghost use Rattle.model.specs.Effect.{flags_of_byte, status};

/// The six flags of the status register.
#[derive(Clone, Copy, Debug, PartialEq, Eq)]
pub struct Flags {
    /// Negative.
    pub n: bool,
    /// Overflow.
    pub v: bool,
    /// Decimal mode.
    pub d: bool,
    /// Interrupt disable.
    pub i: bool,
    /// Zero.
    pub z: bool,
    /// Carry.
    pub c: bool,
}

impl Flags {
    /// Returns the status register as a byte: N V 1 B D I Z C from bit 7 down, with B as given.
    ///
    /// Source: MCS6500 manual, chapter 3.
    #[tactic(auto, unfolding(crate::specs::Effect::status))]
    pub fn to_byte(self, b: bool) -> u8
        ensures { result ≡ status b self }
    {
        let high = 128 * self.n as u8 + 64 * self.v as u8 + 32 + 16 * b as u8;
        let low = 8 * self.d as u8 + 4 * self.i as u8 + 2 * self.z as u8 + self.c as u8;
        high + low
    }

    /// Returns the flags of a status byte. Bits 5 and 4 are ignored.
    #[tactic(auto, unfolding(crate::specs::Effect::flags_of_byte))]
    pub fn from_byte(byte: u8) -> Flags
        ensures { result ≡ flags_of_byte byte }
    {
        Flags {
            n: byte >= 128,
            v: (byte >> 6) & 1 == 1,
            d: (byte >> 3) & 1 == 1,
            i: (byte >> 2) & 1 == 1,
            z: (byte >> 1) & 1 == 1,
            c: byte & 1 == 1,
        }
    }
}

/// The registers: accumulator, two index registers, stack pointer, program counter, flags.
#[derive(Clone, Copy, Debug, PartialEq, Eq)]
pub struct Regs {
    pub a: u8,
    pub x: u8,
    pub y: u8,
    pub s: u8,
    pub pc: u16,
    pub flags: Flags,
}

/// The result of an arithmetic operation: a byte, and the flags that go with it.
#[derive(Clone, Copy, Debug, PartialEq, Eq)]
pub struct Sum {
    pub value: u8,
    /// Negative.
    pub n: bool,
    /// Overflow.
    pub v: bool,
    /// Zero.
    pub z: bool,
    /// Carry.
    pub c: bool,
}
