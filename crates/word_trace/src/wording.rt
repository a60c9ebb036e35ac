//! What the error stream gets of a trace beside what it gets of its run. Definitions in `specs`
//! name it.

/// How the line begins that says that no step is traced.
pub const NOT_BEGUN: &str = "mos65: the program ended before the trace began";
