//! Words that definitions name.

pub const LESS_BEFORE: &str = "(back: the console has ";

pub const LESS_BEHIND: &str = " bytes less)\n";

/// What is said where the machine stands before the first instruction.
pub const NOT_BEGUN: &str = "before the first instruction";

/// What is said where another instruction was made the next.
pub const GONE_TO: &str = "gone to another line";

/// What is said where a step has led to a log point.
pub const STEPPED: &str = "step";

/// What is said where a move has come by many log points.
pub const MANY_LOGS: &str = "256 log points were passed";
