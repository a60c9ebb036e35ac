//! The words of what lines say, each once. Definitions in `specs` name them.

// Bytes that are looked for.
pub const NOWHERE: &str = "nowhere:";

pub const AND_MORE: &str = "and more\n";

// Lines.
pub const IS_DECIMAL: &str = " is a decimal number; $";

pub const IS_HEX: &str = " is hex\n";

// Help on an instruction.
pub const CHANGES: &str = " changes";

pub const CHANGES_NO_FLAG: &str = " changes no flag";

pub const BYTE: &str = " byte,  ";

pub const BYTES: &str = " bytes, ";

pub const CYCLES: &str = " cycles";

pub const PAGE_CYCLE: &str = ", +1 if a page is crossed";

pub const BRANCH_CYCLES: &str = ", +1 if taken, +2 if taken to another page";
