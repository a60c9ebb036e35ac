//! One flag of the status register.

ghost use Rattle.std.specs.Prelude.{◌≡◌};
ghost use Rattle.opcode_facts.specs.Flag.{flag_letter, has_flag, with_flag};

use model::Flags;

/// A flag of the status register.
#[derive(Clone, Copy)]
pub enum Flag {
    /// Negative.
    N,
    /// Overflow.
    V,
    /// Decimal mode.
    D,
    /// Interrupt disable.
    I,
    /// Zero.
    Z,
    /// Carry.
    C,
}

impl Flag {
    /// Returns whether this flag is 1.
    pub fn of(self, flags: Flags) -> bool
        ensures { result ≡ has_flag self flags }
    {
        match self {
            Flag::N => flags.n,
            Flag::V => flags.v,
            Flag::D => flags.d,
            Flag::I => flags.i,
            Flag::Z => flags.z,
            Flag::C => flags.c,
        }
    }

    /// Returns flags of which this one has a value, and the others what they had.
    pub fn with(self, value: bool, flags: Flags) -> Flags
        ensures { result ≡ with_flag self value flags }
    {
        match self {
            Flag::N => Flags { n: value, ..flags },
            Flag::V => Flags { v: value, ..flags },
            Flag::D => Flags { d: value, ..flags },
            Flag::I => Flags { i: value, ..flags },
            Flag::Z => Flags { z: value, ..flags },
            Flag::C => Flags { c: value, ..flags },
        }
    }

    /// Returns the letter of this flag, a capital.
    pub fn letter(self) -> &'static str
        ensures { result.now ≡ flag_letter self }
    {
        match self {
            Flag::N => "N",
            Flag::V => "V",
            Flag::D => "D",
            Flag::I => "I",
            Flag::Z => "Z",
            Flag::C => "C",
        }
    }
}
