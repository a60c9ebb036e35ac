//! How a run ends.

use model::EventFault;
use thiserror::Error;

/// Why a run ends. Source: mos65.
#[derive(Clone, Copy, Debug, PartialEq, Eq)]
pub enum Ending {
    /// The last step led to the address that was asked for.
    Until,
    /// The last step was a jump or a branch to itself, and no input can interrupt it.
    Rest,
    /// The program waits for input, and there is no more.
    InputOver,
    /// As many steps were made as were asked for.
    Limit,
    /// Nothing stands at the program counter: neither the file nor the program ever wrote there.
    /// The last step was made at this address, if one was made.
    Unwritten { from: Option<u16> },
    /// Nothing stands at the program counter, no step was made, and nothing stands at the reset
    /// vector.
    NoReset,
    /// The next instruction is BRK, and nothing stands at its vector.
    NoVector,
    /// The next step is rejected.
    Refused(EventFault),
}

/// How many steps a run made, and why it ended.
#[derive(Clone, Copy, Debug, PartialEq, Eq)]
pub struct Played {
    pub steps: u64,
    pub ending: Ending,
}

/// Why a run was broken off.
#[derive(Clone, Copy, Debug, PartialEq, Eq, Error)]
pub enum PlayFault {
    /// A read of input failed.
    #[error("Read")]
    Read,
    /// A write or a flush of output failed, or a write took no byte.
    #[error("Write")]
    Write,
}
