//! How a run ends.

use crate::changes::RegisterChange;
use debugger::Why;

/// Why a run ends. Source: mos65.
#[derive(Clone, Copy)]
pub enum EndWhy {
    /// The last step met the goal.
    Met,
    /// The session's run ended: a watch, a breakpoint, a step that is rejected, or as many steps as
    /// were asked for.
    Stopped(Why),
    /// As many steps were made as a run makes at most.
    Many,
    /// The last step's instruction read a byte at an address that is watched for reads.
    Read(u16),
    /// The last step's instruction stored a byte at an address that is watched for writes.
    Written(u16),
    /// The last step changed a register that is watched.
    Changed(RegisterChange),
    /// The last step was a jump or a branch to itself.
    Stuck,
    /// A BRK comes next, and nothing stands at FFFE.
    NoHandler,
    /// The program looks for input next, and none waits.
    Waits,
}

/// How many steps a run made, and why it ended.
#[derive(Clone, Copy)]
pub struct Ended {
    pub did: u64,
    pub why: EndWhy,
    /// The program counter before the step that ended the run, if the run looked at each step.
    pub from: Option<u16>,
}
