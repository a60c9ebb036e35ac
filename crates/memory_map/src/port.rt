//! Where the port stands.

ghost use Rattle.std.specs.Prelude.{◌≡◌};
ghost use Rattle.model.specs.State.{no_port};

use std::marker::Model;

/// The first of the port's addresses where none is asked for. Source: mos65.
pub const DEFAULT_PORT: u16 = 0xf000;

/// The base of a port that is not there: the number past the last address.
const NO_PORT: u32 = 0x10000;

/// The first of a port's four addresses, or no port. Whether a port may stand there,
/// `MapSpec::at` says. Source: mos65.
#[derive(Clone, Copy, Debug, PartialEq, Eq)]
pub struct Port {
    base: u32,
}

impl Model for Port {
    ghost use Rattle.std.specs.Prelude.{ℕ};

    ghost Value = { ℕ };

    ghost view = { λ p. p.base };

    ghost inverse = { λ n. record { base = n } };
}

impl Port {
    /// Returns the port at this base.
    pub fn based(base: u16) -> Port
        ensures { result ≡ base }
    {
        Port { base: base as u32 }
    }

    /// Returns no port.
    pub fn none() -> Port
        ensures { result ≡ no_port }
    {
        Port { base: NO_PORT }
    }

    /// Returns the base as a number, which is 65,536 where there is no port.
    #[inline(always)]
    pub fn base(self) -> u32
        ensures { result ≡ self }
    {
        self.base
    }
}
