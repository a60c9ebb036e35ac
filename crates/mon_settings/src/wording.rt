//! The words of what lines say that change the session, each once. Definitions in `specs` name
//! them.

// Breaks and watches.
pub const NO_INSTRUCTION_BEGINS: &str = "no instruction of the source begins at ";

pub const SECOND_ADDRESS: &str = "the name has a second address: ";

pub const PORT_UNWATCHED: &str =
    "no byte of memory stands at the console's port; watch it with read or write\n";

pub const WATCHES_FULL: &str = "256 bytes are watched; delete a watch first\n";

pub const WATCH_TOO_WIDE: &str = "at most 256 bytes are watched for changes\n";

pub const DELETED: &str = "deleted: ";

pub const NOTHING_AT: &str = "there is no break and no watch at ";

pub const NOT_WATCHED: &str = " is not watched\n";

pub const NOTHING_SET: &str = "no break and no watch is set\n";

// Bytes that are shown at each stop.
pub const DISPLAY: &str = "display:";

pub const DISPLAYS_FULL: &str = "16 bytes are displayed; undisplay one first\n";

pub const NOTHING_DISPLAYED: &str = "nothing is displayed\n";

pub const NOT_DISPLAYED: &str = " is not displayed\n";

// Interrupts.
pub const IRQ_MASKED: &str = "IRQ is asked for, but I is 1: it waits until a CLI\n";

pub const IRQ_NEXT: &str =
    "IRQ is asked for: the next step enters it, or an NMI that is asked for too\n";

pub const NO_IRQ: &str = "the line asks for no IRQ\n";

pub const NMI_NEXT: &str = "NMI is asked for: the next step enters it\n";

// Bytes and instructions.
pub const BYTE_AT: &str = " byte at ";

pub const BYTES_AT: &str = " bytes at ";

pub const BYTE_HANDED_IN: &str = " byte handed in\n";

pub const BYTES_HANDED_IN: &str = " bytes handed in\n";

pub const NOT_ASSEMBLED: &str = "this is not assembled: ";
