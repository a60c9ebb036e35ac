//! How a run ends.

use crate::event::EventFault;

/// Why a run ends. Source: mos65.
#[derive(Clone, Copy, Debug, PartialEq, Eq)]
pub enum Why {
    /// The last step changed a watched byte of memory. This is the lowest such address.
    Watch(u16),
    /// The last step led to a breakpoint.
    Break(u16),
    /// As many steps were made as were asked for.
    Limit,
    /// The next step is rejected.
    Refused(EventFault),
}

/// How many steps a run made, and why it ended.
#[derive(Clone, Copy, Debug, PartialEq, Eq)]
pub struct RunEnd {
    pub did: u32,
    pub why: Why,
}
