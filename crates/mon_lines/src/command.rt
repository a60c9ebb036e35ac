//! What lines ask for.

use arrayvec::ArrayVec;
use model::{Mnemonic, Setting};
use mon_line_parts::Topic;
use opcode_facts::Flag;

/// A register whose value a test may look at.
#[derive(Clone, Copy)]
pub enum Register {
    A,
    X,
    Y,
    S,
    P,
    Pc,
}

/// What stands on the left side of a test.
#[derive(Clone, Copy)]
pub enum Left {
    Register(Register),
    /// A flag, which is 0 or 1.
    Flag(Flag),
    /// The byte of memory at an address.
    Byte(u16),
}

/// How a test compares.
#[derive(Clone, Copy)]
pub enum Compare {
    Equal,
    Other,
    Less,
    LessOrEqual,
    More,
    MoreOrEqual,
}

/// A test that a break makes before it stops a run.
#[derive(Clone, Copy)]
pub struct Test {
    pub left: Left,
    pub compare: Compare,
    pub right: u16,
}

impl Default for Test {
    fn default() -> Test {
        Test {
            left: Left::Register(Register::A),
            compare: Compare::Equal,
            right: 0,
        }
    }
}

/// Addresses from the first to the last.
#[derive(Clone, Copy)]
pub struct Stretch {
    pub first: u16,
    pub last: u16,
}

/// What stops a run at a watch.
#[derive(Clone, Copy)]
pub enum WatchKind {
    /// A step that changes the byte.
    Change,
    /// An instruction that reads the byte.
    Read,
    /// An instruction that stores a byte there, also one that is there already.
    Write,
}

/// What is to be undone.
#[derive(Clone, Copy)]
pub enum Undoing {
    Events(u32),
    /// A whole JSR, or one step.
    Over,
}

/// How a screen is to be drawn that shows the last answer again.
#[derive(Clone, Copy)]
pub enum Drawing {
    /// With the next lines of the answer.
    More,
    /// Without the answer.
    Clear,
    /// With so many columns and rows.
    Size { columns: u32, rows: u32 },
}

/// What a line asks for.
#[derive(Drop)]
pub enum Command<'a> {
    /// The line is empty.
    Nothing,
    Step(u32),
    Over,
    Out,
    /// To where another line of the source begins.
    Line,
    /// Back to where a line of the source begins.
    LineBack,
    Until(u16),
    /// As many steps at most, if a number is given.
    Go(Option<u32>),
    Back(Undoing),
    Rback,
    /// As many events at most, if a number is given.
    Redo(Option<u32>),
    Where,
    /// The parameters and locals of C of one call, counted from 1, or of all.
    Locals(Option<u32>),
    History(u32),
    /// Breaks are set at an address, or at all addresses of a line of a file of the source, which
    /// stands alone; `address` is the lowest one then.
    Break {
        address: u16,
        line: Option<(u32, u32)>,
        tests: ArrayVec<Test, 4>,
        times: u32,
    },
    Watch {
        stretch: Stretch,
        kind: WatchKind,
    },
    WatchRegister(Register),
    List,
    /// What stands at an address is deleted, or at all addresses of a line that stands alone.
    Delete {
        address: u16,
        line: Option<(u32, u32)>,
    },
    DeleteRegister(Register),
    /// An address is shown at each stop; what is shown so, if no address is given.
    Display(Option<u16>),
    Undisplay(u16),
    Regs,
    Flags,
    Mem(Stretch),
    Dis {
        address: u16,
        count: u32,
    },
    Find(ArrayVec<u8, 256>),
    Stack,
    Set(Setting),
    SetFlag {
        flag: Flag,
        value: bool,
    },
    Put {
        address: u16,
        bytes: ArrayVec<u8, 256>,
    },
    Asm {
        address: u16,
        text: &'a [u8],
    },
    Type(ArrayVec<u8, 256>),
    Screen,
    /// The screen that is drawn after each line is drawn so.
    Draw(Drawing),
    Irq(bool),
    Nmi,
    Reset,
    /// A tape of memory is written to a file: of a stretch, or of all that is there.
    Save {
        file: &'a [u8],
        stretch: Option<Stretch>,
    },
    /// The file of the session is loaded again.
    Reload,
    /// The page of what is held is written to a file.
    Page(&'a [u8]),
    Help(Option<Topic>),
    /// The forms of an instruction.
    Forms(Mnemonic),
    Quit,
}
