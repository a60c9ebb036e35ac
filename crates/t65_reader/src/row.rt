//! What a row asks for and expects, as plain types.

ghost use Rattle.std.specs.Prelude.{◌≡◌};
ghost use Rattle.t65_reader.specs.RowText.{line_number, line_points, line_view};

use opcode_facts::Flag;
use t65_values::{TextFault, Value};

/// A register of 8 bits. P is the status register: N V 1 B D I Z C from bit 7 down, B as 0.
#[derive(Clone, Copy)]
pub enum Register {
    A,
    X,
    Y,
    S,
    P,
}

/// What a row sets before its call, or looks at after it.
#[derive(Clone, Copy)]
pub enum Target {
    /// A register.
    Register(Register),
    /// A flag, 0 or 1.
    Flag(Flag),
    /// The byte of memory at an address.
    Byte(u16),
    /// The two bytes of memory from an address on, the low one first.
    Word(u16),
    /// One more byte of input; it is set, and not looked at.
    Input,
    /// The byte of output that the call wrote at an index, counted from 0.
    Output(u16),
    /// How many bytes of output the call wrote.
    OutputCount,
    /// The cycles that the call took, those of its RTS included.
    Cycles,
}

/// How what came is compared with a value.
#[derive(Clone, Copy)]
pub enum Relation {
    Equal,
    Unequal,
    Below,
    Above,
    AtMost,
    AtLeast,
}

/// A place and the value that it is given, or with which it is compared.
#[derive(Clone, Copy)]
pub struct Item {
    pub place: Target,
    pub relation: Relation,
    pub value: Value,
}

/// A range of values, from the first to the last, under a letter.
#[derive(Clone, Copy)]
pub struct Range {
    pub letter: u8,
    pub first: u16,
    pub last: u16,
}

/// The ranges of a row, from the first on; each letter has one.
#[derive(Clone, Copy)]
pub struct Ranges {
    pub first: Option<Range>,
    pub second: Option<Range>,
    pub third: Option<Range>,
    pub fourth: Option<Range>,
}

/// Which values of its ranges a row is run for.
#[derive(Clone, Copy)]
pub enum Choice {
    /// All, those of the last range in the inner loop.
    All,
    /// So many, which a generator of random numbers gives from a seed on.
    Random { count: u32, seed: u32 },
}

/// How a routine is entered, and by which instruction it returns.
#[derive(Clone, Copy)]
pub enum Entry {
    /// As by a `JSR`; it returns by `RTS`.
    Subroutine,
    /// As by an IRQ or an NMI; it returns by `RTI`.
    Interrupt,
}

/// What asks for an interrupt.
#[derive(Clone, Copy)]
pub enum Signal {
    /// The IRQ line.
    Irq,
    /// The NMI.
    Nmi,
}

/// An interrupt that is asked for while a routine runs.
#[derive(Clone, Copy)]
pub struct Request {
    pub signal: Signal,
    /// How many cycles the routine has taken then, at least.
    pub cycle: Value,
}

/// A routine that is called, what is given before, and what is wanted after it.
#[derive(Drop)]
pub struct Call {
    pub entry: Entry,
    pub address: u16,
    /// The interrupt that comes into the call.
    pub request: Option<Request>,
    pub given: Vec<Item>,
    pub wanted: Vec<Item>,
    /// The most steps.
    pub steps: u32,
}

/// What a row is for.
#[derive(Clone, Copy)]
pub enum Part {
    /// A test.
    Test,
    /// It is run before each test, on its machine.
    Setup,
    /// It is run after each test, on its machine.
    Teardown,
}

/// A row: a routine called for values of its ranges.
#[derive(Drop)]
pub struct Row {
    pub part: Part,
    pub ranges: Ranges,
    pub choice: Choice,
    pub call: Call,
    /// How many points it is worth.
    pub points: u32,
}

/// A row that cannot be read: it is a test that fails.
#[derive(Clone, Copy)]
pub struct Faulty {
    pub fault: TextFault,
    /// How many points it is worth.
    pub points: u32,
}

/// What a line asks for.
#[derive(Drop)]
pub enum Line {
    /// A row, with the number of its line.
    Row((u32, Row)),
    /// What cannot be read as one.
    Faulty(Faulty),
}

impl Line {
    /// Returns the number of the line.
    pub fn number(&self) -> u32
        ensures { result ≡ line_number (line_view self.now) }
    {
        match self {
            Line::Row(row) => row.0,
            Line::Faulty(faulty) => faulty.fault.line,
        }
    }

    /// Returns how many points the row is worth.
    pub fn points(&self) -> u32
        ensures { result ≡ line_points (line_view self.now) }
    {
        match self {
            Line::Row(row) => row.1.points,
            Line::Faulty(faulty) => faulty.points,
        }
    }
}

/// What is asked of rows.
#[derive(Clone, Copy)]
pub struct Asking<'a> {
    /// The most steps of a call.
    pub steps: u32,
    /// Where random numbers begin, if not where the rows say.
    pub seed: Option<u32>,
    /// The routine whose rows alone are read; those of all, where this is empty.
    pub only: &'a [u8],
}

/// The most steps of a call, where nothing else is asked for. Source: mos65.
pub const MOST_STEPS: u32 = 10_000_000;
