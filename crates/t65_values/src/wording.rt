//! The words of the faults of rows, and examples of what has to stand there.
//! `specs/FaultWords.antt` says which fault has which.

pub const SYNTAX: &str = "something else has to stand here";

pub const NO_HEX: &str = "a hex number has to stand here";

pub const NO_DECIMAL: &str = "a decimal number has to stand here";

pub const NO_ADDRESS: &str = "a name or an address has to stand here";

pub const NO_EQUALS: &str = "= has to stand here";

pub const NO_COLON: &str = ": has to stand here";

pub const NO_BRACKET: &str = "] has to stand here";

pub const OPEN_STRING: &str = "this string has no second \"";

pub const NO_CALL: &str = "call or interrupt has to stand here";

pub const NO_ARROW: &str = "-> is missing; behind it stands what the call has to leave";

pub const NO_PLACE: &str = "a register, a flag or memory has to stand here";

pub const NO_RELATION: &str = "=, !=, <, <=, > or >= has to stand here";

pub const NOT_GIVEN: &str = "before -> a place is given a value by =; it is compared behind ->";

pub const NO_RANGE: &str = "a letter and its values have to stand here";

pub const NO_SEED: &str = "seed and a decimal number have to stand here";

pub const NO_TIME: &str = "at cycle and a decimal number have to stand here";

pub const LONG_HEX: &str = "a number has at most four hex digits";

pub const LONG_DECIMAL: &str = "a number has at most seven decimal digits";

pub const UNDEFINED_NAME: &str = "the source does not define this name";

pub const ADDRESS_RANGE: &str = "this is no address";

pub const EMPTY_RANGE: &str = "the last value is below the first";

pub const NO_FUNCTION: &str = "no function of C has this name; --debug-info names them";

pub const UNKNOWN_PARAMETERS: &str =
    "it is not known how this function takes its parameters, as with ...";

pub const NO_STACK: &str = "the first line has to say where the C stack begins";

pub const NO_RUNTIME_NAME: &str =
    "sp, or sreg for four bytes, is no known name; ld65 -Ln writes them for --symbols";

pub const PARAMETER_COUNT: &str = "the function has another number of parameters";

pub const TEXT_SIZE: &str = "this parameter has no room for the address of a text";

pub const RESULT_SIZE: &str =
    "a result has two, four or eight hex digits, or is a value of at most two parts";

pub const STACK_ROOM: &str = "the C stack has no room for what this call is given";

pub const SECOND_SOURCE: &str = "a file has one source";

pub const NO_SOURCE: &str = "a file names its source first";

pub const OUT_OF_MEMORY: &str = "out of memory";

/// Stands behind the words where something else has to stand.
pub const ROW_EXAMPLE: &str = ", as in: call NAME A=07 [10]=FF -> A=46 C=0 cycles<900";

/// Stands behind the words where a range or a seed has to stand.
pub const RANDOM_EXAMPLE: &str = ", as in: random 1000 seed 7: A in 00..FF: call NAME A -> A=A*2";

/// Stands behind the words where it has to stand when an interrupt comes.
pub const TIME_EXAMPLE: &str = ", as in: irq at cycle 12: call NAME -> A=46";

/// Stands behind the words where no source is named.
pub const SOURCE_EXAMPLE: &str = ", as in: source NAME.a65";

/// Stands behind the words where it is not said where the C stack begins.
pub const STACK_EXAMPLE: &str = ", as in: source NAME.hex stack=8000";

/// Stands behind all others.
pub const NO_EXAMPLE: &str = "";
