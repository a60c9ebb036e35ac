//! The words of what a session of `mon` says, each once. Definitions in `specs` name them.

// An interrupt.
pub const INTERRUPT: &str = "interrupt: on to ";

// A table that is full, which several lines say.
pub const BREAKS_FULL: &str = "256 breaks are set; delete one first\n";

// Why an event is refused.
pub const CYCLES_FULL: &str = "the count of cycles is full";

pub const AT: &str = " at ";

pub const NO_INSTRUCTION: &str = " is no instruction of this processor";

pub const CONSOLE_FULL: &str = "the console is full: it holds 65536 bytes";

pub const PAST_END: &str = "that goes past FFFF";

pub const PORT_ADDRESS: &str = "that is an address of the console's port";

pub const TOO_MANY_BYTES: &str = "there are too many bytes";

pub const INPUT_FULL: &str = "65536 bytes of input were handed in already";
