//! The words of what is said of names and instructions, each once. Definitions in `specs` name
//! them.

// A name.
pub const NO_NUMBER: &str = " has no number";

pub const DEFINED: &str = "\ndefined on line ";

// A name that may be written.
pub const NO_VALUE: &str = "no number";

// How operands are written.
pub const FORM_IMP: &str = "no operand";

pub const FORM_ACC: &str = "the accumulator";

pub const FORM_IMM: &str = "a number, #n";

pub const FORM_ZP: &str = "zero page, n";

pub const FORM_ZPX: &str = "zero page by X, n,X";

pub const FORM_ZPY: &str = "zero page by Y, n,Y";

pub const FORM_ABS: &str = "an address, nn";

pub const FORM_ABSX: &str = "an address by X, nn,X";

pub const FORM_ABSY: &str = "an address by Y, nn,Y";

pub const FORM_INDX: &str = "a pointer by X, (n,X)";

pub const FORM_INDY: &str = "a pointer, then by Y, (n),Y";

pub const FORM_IND: &str = "a pointer, (nn)";

pub const FORM_REL: &str = "a branch";

pub const FORM_INDZ: &str = "a pointer, (n)";

// An instruction.
pub const OPCODE: &str = ": opcode $";

pub const BYTE: &str = " byte";

pub const BYTES: &str = " bytes";

pub const CYCLES: &str = " cycles";

pub const MORE_PAGE: &str = ", 1 more if a page is crossed";

pub const MORE_BRANCH: &str = ", 1 more if taken, 2 more to another page";

pub const FLAGS: &str = "\nflags:";

pub const NO_FLAG: &str = " none";
