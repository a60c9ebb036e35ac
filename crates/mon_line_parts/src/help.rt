//! What help says of each topic.

/// What help says of a topic.
#[derive(Clone, Copy)]
pub struct Help {
    /// How a line about it is written.
    pub form: &'static str,
    /// What such a line does.
    pub effect: &'static str,
    /// One such line or more.
    pub example: &'static str,
}

/// The form, the effect and the example of each topic, in the order of `Topic`.
pub const HELP: [(&str, &str, &str); 38] = [
    ("step [N]", "makes N steps, or 1", "step 3"),
    ("over", "makes a JSR as one step", "over"),
    (
        "out",
        "steps until this subroutine has returned; also finish",
        "out",
    ),
    ("until WHERE", "runs to an address", "until $0210"),
    (
        "go [N]",
        "runs to a break, a watch or a fault, or N steps",
        "go",
    ),
    (
        "back [N]",
        "undoes N steps, or 1; back over: a whole JSR",
        "back 3",
    ),
    (
        "rback",
        "goes back to the last break or change at a watch",
        "rback",
    ),
    ("redo [N]", "redoes N undone steps, or all", "redo"),
    ("where", "shows the calls on the stack; also bt", "where"),
    ("history [N]", "shows the last N steps, or 10", "history 5"),
    (
        "break WHERE [if TESTS] [times N]",
        "stops a run there",
        "break main, break :6, break $0200 if A=$41 and C=1",
    ),
    (
        "watch WHERE[..WHERE] [read|write]",
        "stops a run when a byte there changes, is read or written; watch X: when X changes",
        "watch $0010, watch $0010..$001F write, watch X",
    ),
    ("list", "shows breaks and watches", "list"),
    (
        "delete WHERE",
        "clears the break or the watch there",
        "delete $0200, delete X",
    ),
    ("regs", "shows the registers", "regs"),
    ("flags", "shows the flags by name", "flags"),
    (
        "mem WHERE [N]",
        "shows N bytes of memory, or 64",
        "mem $0200 32",
    ),
    (
        "dis [WHERE] [N]",
        "shows N instructions, or 10",
        "dis main 5",
    ),
    (
        "find BYTES",
        "shows where bytes or \"text\" stand",
        "find $A9 $00, find \"HELLO\"",
    ),
    ("stack", "shows the bytes on the stack", "stack"),
    (
        "set REGISTER VALUE",
        "sets A, X, Y, S, P, PC or a flag; so does A=$41",
        "set A $41, set PC $0200, set C 1",
    ),
    (
        "put WHERE BYTES",
        "puts bytes or \"text\" into memory",
        "put $0300 1 2 $FF, put $0300 \"HELLO\"",
    ),
    (
        "asm WHERE TEXT",
        "assembles an instruction into memory",
        "asm $0300 LDA #1",
    ),
    (
        "type \"TEXT\"",
        "hands text to the console's input",
        "type \"HELLO\"",
    ),
    (
        "screen [COLUMNS ROWS]",
        "shows the console's output; sets the size of --screen",
        "screen, screen 120 40",
    ),
    ("irq on|off", "sets the interrupt line", "irq on"),
    ("nmi", "asks for a nonmaskable interrupt", "nmi"),
    ("reset", "resets the processor", "reset"),
    (
        "help [WORD]",
        "shows the words, one of them or a mnemonic",
        "help break",
    ),
    ("quit", "ends", "quit"),
    (
        "mos65 trace FILE",
        "is a word of mos65, not of mon",
        "history 5",
    ),
    (
        "display [WHERE]",
        "shows the byte there at each stop",
        "display $0010, display",
    ),
    (
        "undisplay WHERE",
        "shows the byte there no more",
        "undisplay $0010",
    ),
    (
        "save FILE [FROM TO]",
        "writes memory in the form of the ending, or a tape",
        "save new.tape, save part.tape $0200 $02FF",
    ),
    (
        "reload",
        "loads the file again, keeps breaks, watches and displays",
        "reload",
    ),
    (
        "page FILE",
        "writes the kept steps as a page for a browser",
        "page run.html",
    ),
    (
        "line [back]",
        "runs to where another line begins, over calls; line back: back to where one begins",
        "line, line back",
    ),
    (
        "locals [N]",
        "shows parameters and locals of C, of the Nth call or of all",
        "locals, locals 2",
    ),
];
