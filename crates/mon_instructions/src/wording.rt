//! The words in rows of instructions, each once. Definitions in `specs` name them.

pub const NEXT: &str = "next: ";

// Data among instructions.
pub const DATA: &str = ".BYTE $";

pub const FURTHER_DATA: &str = ",$";
