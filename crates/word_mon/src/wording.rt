//! What `mon` writes besides the answers to lines. Definitions in `specs` name it.

/// What is written first, if a prompt is asked for.
pub const GREETING: &str = "mos65 mon: help lists the words, an empty line steps, quit ends\n";

/// Before the registers and flags whose names the program has too.
pub const HIDDEN: &str = "names of the program that mean registers or flags here:";

/// What is said where there is no reset vector.
pub const NO_VECTOR: &str =
    "FFFC holds 0000, as without a reset vector: set PC WHERE begins elsewhere\n";

/// What is written before a line is read, if a prompt is asked for.
pub const PROMPT: &str = "mon> ";

/// What is said of a file, behind its name.
pub const LOADED_AGAIN: &str = " is loaded again\n";
