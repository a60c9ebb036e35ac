//! How a page says that a run ended. Definitions in `specs` name it.

pub const AT_PLACE: &str = "the place that was asked for";

pub const RESTS: &str = "a jump to itself";

pub const INPUT_OVER: &str = "the program waits for input, and there is no more";

pub const CUT: &str = "the page has no more steps";

pub const UNWRITTEN: &str = "nothing was ever written here";

pub const NO_RESET: &str = "nothing stands at FFFC";

pub const NO_VECTOR: &str = "BRK, which has no handler at FFFE";

pub const CONSOLE_FULL: &str = "the console is full";

pub const NO_INSTRUCTION: &str = "this is no instruction of the processor";

pub const REJECTED: &str = "the next step is rejected";
