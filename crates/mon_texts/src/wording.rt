//! The words of what `mon` shows, each once. Definitions in `specs` name them.

// Help.
pub const MORE_WORDS: &str = "more words: out line rback redo where locals history list \
delete\n  display undisplay regs flags find stack set put asm type screen irq\n  nmi reset save \
page reload help\nhelp WORD shows one of them, help all shows all.\n";

pub const ADDRESS_FORMS: &str =
    "WHERE is a name, NAME+5, :6 for line 6, $0200, or four hex digits as 0200.\n";

pub const EMPTY_LINE: &str = "An empty line steps. Words may be shortened.\n";

pub const EXAMPLE_LINE: &str = "\nas in: ";

pub const EXAMPLE: &str = "; as in: ";

// What is missing in a line.
pub const MISSING: &str = "missing: ";

pub const HEX_DIGITS: &str = "hex digits after $";

pub const BINARY_DIGITS: &str = "binary digits after %";

pub const AN_ADDRESS: &str = "an address";

pub const A_VALUE: &str = "a value";

pub const A_NUMBER: &str = "a number";

pub const ADDEND: &str = "a number after +";

pub const SUBTRAHEND: &str = "a number after -";

pub const QUOTED_TEXT: &str = "text between the quotes";

pub const COMPARISON: &str = "=, <, > or <> in the test";

pub const TIMES_NUMBER: &str = "a number after times";

pub const POINTS: &str = "two points between the addresses";

pub const LAST_ADDRESS: &str = "a last address that is not below the first";

pub const A_REGISTER: &str = "a register or a flag";

pub const LEVEL: &str = "on or off";

pub const AN_INSTRUCTION: &str = "an instruction";

pub const A_FILE: &str = "the name of a file";

// What is wrong in a line.
pub const NO_WORD: &str = " is no word of mon; help lists them";

pub const SEVERAL_WORDS: &str = " begins more than one word:";

pub const UNREADABLE: &str = " cannot be read here";

pub const LEFT_OVER: &str = " is left over";

pub const NO_NAME: &str = " is neither a name of the program nor a number";

pub const NOT_BETWEEN: &str = "the number is not between ";

pub const NO_LINE_FROM: &str = "no line from ";

pub const HAS_BYTES: &str = " on has bytes";

pub const OTHER_SOURCE: &str = " is no source of this session";

pub const NO_SOURCE: &str = "no lines of a source are known here";

pub const TOO_MANY: &str = "there are too many";

pub const LINE_TOO_LONG: &str = "a line has at most 255 bytes";

// Calls, memory, the stack and the screen.
pub const CALLED_FROM: &str = "called from ";

pub const INTERRUPTED_AT: &str = "interrupted at ";

pub const BREAK_FROM: &str = "BRK at ";

pub const STATUS: &str = ", P ";

pub const PROGRAM_AT: &str = "at ";

pub const MEMORY_PART: &str = "256 bytes at a time; mem ";

pub const GOES_ON: &str = " goes on\n";

pub const STACK_EMPTY: &str = "the stack is empty: S is FF\n";

pub const RETURN_TO: &str = "return to ";

pub const OF: &str = " of ";

pub const OUTPUT: &str = "output: ";

pub const NOTHING_WRITTEN: &str = "nothing was written to the console yet\n";

// Flags.
pub const NEGATIVE: &str = "N negative: bit 7 of the last result\n";

pub const OVERFLOW: &str = "V overflow: a signed sum was out of range\n";

pub const DECIMAL: &str = "D decimal: ADC and SBC add decimal digits\n";

pub const INTERRUPT_DISABLE: &str = "I interrupt disable: 1 keeps IRQ away\n";

pub const ZERO: &str = "Z zero: the last result was 0\n";

pub const CARRY: &str = "C carry: out of a sum, no borrow, or a shifted bit\n";

// Breaks and watches.
pub const BREAK_AT: &str = "break at ";

pub const IF: &str = " if ";

pub const AND: &str = " and ";

pub const TIMES: &str = " times ";

pub const WATCH_AT: &str = "watch at ";

pub const WATCH_OF: &str = "watch of ";

pub const TO: &str = " to ";

pub const READS: &str = ", reads\n";

pub const WRITES: &str = ", writes\n";
