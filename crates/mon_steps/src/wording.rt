//! The words of what lines that run or go back say, each once. Definitions in `specs` name them.

// How a run has ended.
pub const STUCK: &str = "nothing is left to do: the instruction jumps to itself";

pub const NO_HANDLER: &str = "BRK comes next, and it has no handler at FFFE";

// The same with its place.
pub const BRK_AT: &str = "BRK at ";

pub const ENDED_IT: &str = " ended the program: it has no handler at FFFE";

pub const RAN_INTO: &str = "ran into ";

pub const NOTHING_STANDS: &str = ", where nothing stands";

pub const FROM: &str = ", from ";

// What stands before further steps of a program that has ended.
pub const NOTHING_AT: &str = "nothing stands at ";

pub const NO_SERVICE: &str = "BRK has no handler at FFFE";

pub const WAYS_ON: &str = ": back undoes steps, reset begins again\n";

pub const WAITS: &str = "the program waits for input: type \"TEXT\"";

pub const RETURNED: &str = "the subroutine has returned";

pub const WATCHED_READ: &str = "watch: a read of ";

pub const WATCHED_WRITE: &str = "watch: a write to ";

pub const IS_NOW: &str = " is now $";

pub const WAS: &str = " was $";

pub const AND_IS_NOW: &str = " and is now $";

pub const WATCH: &str = "watch: ";

pub const DONE: &str = "done";

pub const NO_STOP: &str = "no stop so far";

pub const AFTER: &str = ", after ";

pub const STEP: &str = " step";

pub const STEPS: &str = " steps";

pub const HERE: &str = "here: ";

pub const HISTORY: &str = "history ";

pub const SHOWS_THEM: &str = " shows them\n";

// Back.
pub const NONE_HELD: &str = "nothing can be undone: no step was made yet, or its history is gone\n";

pub const EVENT_UNDONE: &str = " step or change undone\n";

pub const EVENTS_UNDONE: &str = " steps and changes undone\n";

pub const ONLY: &str = "only ";

pub const EVENT_HELD: &str = " step or change can be undone\n";

pub const EVENTS_HELD: &str = " steps and changes can be undone\n";

pub const BACK_AT_BREAK: &str = "back at the break at ";

pub const BACK_AT_OLDEST: &str = "back at the oldest state";

pub const BACK_BEFORE_CHANGE: &str = "back before a change at a watch";

pub const TOO_MANY_WATCHED: &str = "more than 256 bytes are watched\n";

// Events made again.
pub const NOTHING_UNDONE: &str = "there is nothing to redo\n";

pub const EVENT_REMADE: &str = " step or change redone\n";

pub const EVENTS_REMADE: &str = " steps and changes redone\n";

pub const REGISTER_SET: &str = "      (a register was set)\n";

pub const MEMORY_CHANGED: &str = "      (memory was changed by a line)\n";

pub const BYTE_HANDED_IN: &str = "      (a byte was handed in)\n";

pub const LINE_SET: &str = "      (the interrupt line was set)\n";

pub const NMI_ASKED_FOR: &str = "      (an NMI was asked for)\n";

pub const RESET_MADE: &str = "      (a reset)\n";
