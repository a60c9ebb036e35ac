//! The words of warnings.

/// What the title of each block begins with.
pub const WARNING: &str = "warning: ";

/// The name of the kind `PlainNumber`.
pub const PLAIN_NUMBER: &str = "PlainNumber";

/// The name of the kind `UnusedName`.
pub const UNUSED_NAME: &str = "UnusedName";

/// The name of the kind `LongForm`.
pub const LONG_FORM: &str = "LongForm";

/// The name of the kind `LetterCase`.
pub const LETTER_CASE: &str = "LetterCase";

/// The name of the kind `NoBytes`.
pub const NO_BYTES: &str = "NoBytes";

/// The name of the kind `AfterEnd`.
pub const AFTER_END: &str = "AfterEnd";

/// The name of the kind `NoVector`.
pub const NO_VECTOR: &str = "NoVector";

/// The name of the kind `FallsOff`.
pub const FALLS_OFF: &str = "FallsOff";

/// The name of the kind `PointerWrap`.
pub const POINTER_WRAP: &str = "PointerWrap";

/// The name of the kind `RegisterName`.
pub const REGISTER_NAME: &str = "RegisterName";

/// The name of the kind `SquareBrackets`.
pub const SQUARE_BRACKETS: &str = "SquareBrackets";

/// The name of the kind `VectorToData`.
pub const VECTOR_TO_DATA: &str = "VectorToData";

/// The name of the kind `HandlerReturns`.
pub const HANDLER_RETURNS: &str = "HandlerReturns";

/// Stands between a number that is an address and the same number.
pub const IS_AN_ADDRESS: &str = " is an address, and nothing writes there; for the number write #";

/// What is said of an operand that takes two bytes.
pub const TAKES_TWO_BYTES: &str = "below 256, but known only later: it takes two bytes here";

/// Follows a name that no expression uses.
pub const IS_NEVER_USED: &str = " is never used";

/// Stands between two names that have the same letters.
pub const DIFFERS_IN_CASE: &str = " differs only in letter case from ";

/// Stands between a name and the number of its line.
pub const ON_LINE: &str = ", on line ";

/// Stands in the place of a name that is not found.
pub const ANOTHER_NAME: &str = "another name";

/// What is said of a source that has no byte.
pub const HAS_NO_BYTES: &str = "the source has names, but neither an instruction nor a byte";

/// What is said of a line after `.END`.
pub const IS_NOT_READ: &str = "this line is not read: .END stands before it";

/// What is said of a source without a byte of the reset vector.
pub const HAS_NO_VECTOR: &str = "there is no reset vector: write *=$FFFC and .WORD start";

/// What is said of an instruction after which none is in memory.
pub const RUNS_ON: &str = "no instruction follows it in memory: JMP, RTS or BRK may be missing";

/// What is said of a pointer at the end of a page, before the start of that page.
pub const TAKES_HIGH_BYTE: &str = "profile N takes the high byte from ";

/// Stands before the start of the page after it.
pub const AND_NOT_FROM: &str = ", not ";

/// Stands behind both.
pub const MOVE_IT: &str = ": move the pointer";

/// Follows a name that is a register's.
pub const IS_A_REGISTER: &str = " is a register in mon: give the name one letter more";

/// Stands before an instruction with a pointer in place of its brackets.
pub const ONLY_GROUPS: &str = "[ ] only groups here; for a pointer write ";

/// Stands between a mnemonic and its pointer.
pub const OPENED: &str = " (";

/// Closes a pointer without an index.
pub const CLOSED: &str = ")";

/// Closes a pointer with the index X.
pub const CLOSED_WITH_X: &str = ",X)";

/// Closes a pointer with the index Y.
pub const CLOSED_WITH_Y: &str = "),Y";

/// What the vector at $FFFA is called.
pub const NMI_VECTOR: &str = "the NMI vector";

/// What the vector at $FFFC is called.
pub const RESET_VECTOR: &str = "the reset vector";

/// What the vector at $FFFE is called.
pub const IRQ_VECTOR: &str = "the IRQ vector";

/// Follows a vector that leads to data, before the number of its line.
pub const LEADS_TO_DATA: &str = " leads to data, on line ";

/// Follows a vector whose handler ends in RTS.
pub const LEADS_TO_RTS: &str = " leads to a handler that ends in RTS; an interrupt ends in RTI";

/// What follows the count of one warning.
pub const ONE_WARNING: &str = " warning\n";

/// What follows any other count of warnings.
pub const WARNINGS: &str = " warnings\n";
