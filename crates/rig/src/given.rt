//! What a subroutine is called with, and what it did.

use debugger::RunEnd;

/// The registers that are set before a subroutine is called: those that have a value. Each is an
/// event.
#[derive(Clone, Copy, Debug, PartialEq, Eq)]
pub struct Given {
    pub a: Option<u8>,
    pub x: Option<u8>,
    pub y: Option<u8>,
}

/// How the run of a called subroutine ended, and the cycles from the subroutine's first instruction
/// on.
#[derive(Clone, Copy, Debug, PartialEq, Eq)]
pub struct Called {
    pub end: RunEnd,
    pub cycles: u64,
}
