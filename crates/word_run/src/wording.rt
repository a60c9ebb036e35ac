//! What the error stream gets of a run. Definitions in `specs` name it.

/// How each line begins.
pub const PROGRAM: &str = "mos65: ";

/// How a line begins that says where a run stopped.
pub const STOPPED: &str = "mos65: stopped at ";

/// What stands before the number of steps, where the limit ended a run.
pub const AFTER: &str = " after ";

pub const STEP: &str = " step\n";

pub const STEPS: &str = " steps\n";

pub const CYCLES: &str = " cycles, ";

pub const CONSOLE_FULL: &str = ": the console is full, with 65536 bytes of output\n";

pub const NO_INSTRUCTION: &str = " is no instruction of this processor\n";

/// How the line begins that says where a run came to a BRK without a vector, and how it ends.
pub const BREAK_AT: &str = "mos65: BRK at ";

pub const NO_VECTOR: &str = " ended the program: it has no handler at FFFE\n";

/// How the line begins that says where a run came where nothing was written.
pub const RAN_INTO: &str = "mos65: ran into ";

pub const UNWRITTEN: &str = ", which nothing wrote";

/// What stands before the address of the last instruction.
pub const FROM: &str = ", from ";

pub const NO_RESET: &str = "; nothing stands at FFFC\n";

/// How the line ends that names a word that stands for no place.
pub const NO_PLACE: &str = " is no name of the source and no address\n";

pub const NO_FILE: &str = " names no file of the debug information\n";

pub const NO_LINE: &str = ": no line of this file from there on has bytes\n";

/// How the line begins that says where a run was interrupted.
pub const INTERRUPTED: &str = "mos65: interrupted at ";

/// What stands before the cycles at which a run was interrupted, and behind them.
pub const AFTER_CYCLES: &str = ", after ";

pub const CYCLES_END: &str = " cycles\n";
