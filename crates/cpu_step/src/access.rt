//! What an operation does to memory and the port.

ghost use Rattle.std.specs.Prelude.{◌≡◌};

/// What an instruction reads and stores besides registers, and besides the bytes of its own and of
/// pointers.
#[derive(Clone, Copy, Debug, PartialEq, Eq)]
pub struct Access {
    /// The address that the operand is read from by the bus, if it is.
    pub read: Option<u16>,
    /// The address that a byte is stored at by the bus, if one is.
    pub store: Option<u16>,
    /// How many bytes are pushed on the stack: 0 to 3.
    pub pushes: u8,
}

impl Access {
    ghost use Rattle.cpu_step.specs.Access.{puts_byte};

    /// Returns whether a byte is stored or pushed.
    pub fn puts_byte(&self) -> bool
        ensures { result ≡ puts_byte self.now }
    {
        self.store.is_some() || self.pushes > 0
    }
}
