//! What a message asks for, with its arguments.

ghost use Rattle.std.specs.Prelude.{◌≡◌, IfOk};
ghost use Rattle.dap_messages.specs.Seen.{launch_view, text_view};

use crate::counting::Counting;
use crate::members::Member;
use std::alloc::{AllocError, Global};

/// A move of the machine.
#[derive(Clone, Copy)]
pub enum Move {
    /// One instruction, or a subroutine as one; where lines of another tool are known, to another
    /// line: `next`.
    Over,
    /// One instruction, or, where lines of another tool are known, to another line: `stepIn`.
    In,
    /// One instruction: `stepIn` and `next` by instructions.
    Step,
    /// To the end of the subroutine: `stepOut`.
    Out,
    /// To a stop: `continue`.
    Go,
    /// Back over one instruction, or a subroutine as one; where lines of another tool are known, to
    /// where a line begins: `stepBack`.
    BackOver,
    /// Back by one event: `stepBack` by instructions.
    Back,
    /// Back to a stop: `reverseContinue`.
    BackToStop,
}

/// The condition and the hit count of a breakpoint, as its client writes them: empty if it has
/// none.
#[derive(Drop)]
pub struct Condition {
    pub tests: String,
    pub hits: String,
}

/// A breakpoint that a client wants at a line.
#[derive(Drop)]
pub struct SourceBreakpoint {
    /// The number of the line, as the client counts lines, if it names one.
    pub line: Option<u64>,
    pub condition: Condition,
    /// What is said there in place of a stop: empty if it is to stop.
    pub log: String,
}

/// A breakpoint that a client wants at an address.
#[derive(Drop)]
pub struct InstructionBreakpoint {
    /// The address, if it names one.
    pub address: Option<u16>,
    pub condition: Condition,
}

/// A breakpoint that a client wants at a name of the program.
#[derive(Drop)]
pub struct FunctionBreakpoint {
    pub name: String,
    pub condition: Condition,
}

/// The accesses for which a client wants a byte watched.
#[derive(Clone, Copy)]
pub enum Access {
    Read,
    /// Those that change the byte. They are meant where none is named.
    Write,
    ReadWrite,
}

/// Bytes from an address to another one, which is not below it.
#[derive(Clone, Copy)]
pub struct ByteRange {
    pub first: u16,
    pub last: u16,
}

/// Bytes that a client wants watched.
#[derive(Clone, Copy)]
pub struct DataBreakpoint {
    /// Where they are, if it names some.
    pub range: Option<ByteRange>,
    pub access: Access,
}

/// Breakpoints that a request lists, in place of those there were.
#[derive(Drop)]
pub enum Breakpoints<'a> {
    /// Those of a source, with its path: `setBreakpoints`.
    Source {
        path: &'a str,
        listed: Vec<SourceBreakpoint>,
    },
    /// Those at addresses: `setInstructionBreakpoints`.
    Instruction(Vec<InstructionBreakpoint>),
    /// Those at names: `setFunctionBreakpoints`.
    Function(Vec<FunctionBreakpoint>),
    /// Bytes that are watched: `setDataBreakpoints`.
    Data(Vec<DataBreakpoint>),
}

/// A scope: variables of one kind.
#[derive(Clone, Copy)]
pub enum Scope {
    Registers,
    Flags,
    /// The bytes at the names of the program.
    Symbols,
    Stack,
    ZeroPage,
    /// What is told of the machine.
    Machine,
    /// The word at an address, and the byte that it points to.
    Word(u16),
    /// The parameters and locals of a frame of C, by its number.
    Locals(u16),
}

/// Which values of a list a client wants: those from one on, of which 0 is the first, at most so
/// many, or all of them if that is 0.
#[derive(Clone, Copy)]
pub struct Page {
    pub first: u64,
    pub count: u64,
}

/// A change that can be undone.
#[derive(Clone, Copy)]
pub enum Change<'a> {
    /// What a line of the console does. A text elsewhere is only looked at: in a frame, if its
    /// number is named.
    Evaluate {
        text: &'a str,
        is_console: bool,
        frame: Option<u64>,
    },
    /// Another value of a variable of a scope.
    SetVariable {
        scope: Option<Scope>,
        name: &'a str,
        value: &'a str,
    },
    /// The instruction at an address as the next, if the request names one.
    Goto(Option<u16>),
    /// Other bytes of memory, in Base64, from an address on, if the request names one.
    WriteMemory {
        address: Option<u16>,
        data: &'a str,
        /// Whether those in front of the first that cannot be written are to be written.
        is_partial: bool,
    },
}

/// A question about a session, which changes nothing of it.
#[derive(Clone, Copy)]
pub enum Query<'a> {
    /// The threads of the program.
    Threads,
    /// The frames of its stack.
    StackTrace(Page),
    /// What a frame has variables of, by the number of the frame, if one is named.
    Scopes(Option<u64>),
    /// Variables of a scope with their values, if there is such a scope.
    Variables {
        scope: Option<Scope>,
        page: Page,
    },
    /// Bytes of memory from an address on, at most 65,536.
    ReadMemory {
        address: Option<u16>,
        count: u32,
    },
    /// Instructions, each in a row, at most 65,536. The first is some rows from an address.
    Disassemble {
        address: Option<u16>,
        offset: i64,
        count: u32,
    },
    /// The addresses at which a line of a source can be gone to.
    GotoTargets {
        path: &'a str,
        line: Option<u64>,
    },
    /// The lines of a source, from one to another, at which breakpoints can stand.
    BreakpointLocations {
        path: &'a str,
        line: Option<u64>,
        end: Option<u64>,
    },
    /// The files of the program's source.
    LoadedSources,
    /// Whether what a name of a scope stands for can be watched, or what a number names as an
    /// address: one byte, or so many.
    DataBreakpointInfo {
        scope: Option<Scope>,
        name: &'a str,
        count: Option<u64>,
        is_address: bool,
    },
    /// What can stand in a line of the console for what is typed before a column.
    Completions {
        text: &'a str,
        column: Option<u64>,
    },
    /// What a step was refused for.
    ExceptionInfo,
    /// The breakpoints at faults, of which there are none.
    SetExceptionBreakpoints,
    /// A stop: the machine stands already.
    Pause,
    /// The end of another request: each is answered before the next is read.
    Cancel,
}

/// What a message asks of a session.
#[derive(Drop)]
pub enum SessionRequest<'a> {
    /// A move of the machine.
    Moves(Move),
    /// Other breakpoints.
    Sets(Breakpoints<'a>),
    /// A change of the machine.
    Changes(Change<'a>),
    /// What is shown.
    Shows(Query<'a>),
    /// The end of what is set before the program runs.
    ConfigurationDone,
    /// Begins the session again from its file.
    Restart,
    /// The end of the program.
    Terminate,
    /// Something of a thread that there is not, or of none where one has to be named.
    NoThread,
    /// Another request.
    Other,
}

/// A program that a client launches, with options: those that it does not give are missing.
#[derive(Drop)]
pub struct Launch {
    /// The path of the file.
    pub program: Option<String>,
    pub tape: bool,
    pub bin: Option<String>,
    pub prg: bool,
    pub port: Option<String>,
    pub rom: Option<String>,
    pub profile: Option<String>,
    /// The path of a file of names.
    pub symbols: Option<String>,
    /// The path of a file of debug information, and of the folder in which relative names of its
    /// sources begin.
    pub debug_info: Option<String>,
    pub source_root: Option<String>,
    /// How many events can be undone.
    pub history: Option<u64>,
    /// How many steps a run makes at most.
    pub steps: Option<u64>,
    /// Whether the machine is to stand before the first instruction.
    pub stop_on_entry: bool,
}

/// Returns a copy of a text, if there is one.
fn copy_of(alloc: Global, text: &Option<String>) -> Result<Option<String>, AllocError>
    ensures { IfOk result (λ copy. text_view copy ≡ text_view text.now) }
{
    match text {
        Some(text) => {
            let copy = String::from_str(alloc, text.as_str())?;
            Ok(Some(copy))
        }
        None => Ok(None),
    }
}

impl Launch {
    /// Returns a copy.
    ///
    /// Errors: `AllocError` if an allocation fails.
    pub fn copied(&self, alloc: Global) -> Result<Launch, AllocError>
        ensures { IfOk result (λ copy. launch_view copy ≡ launch_view self.now) }
    {
        let program = copy_of(alloc, &self.program)?;
        let bin = copy_of(alloc, &self.bin)?;
        let port = copy_of(alloc, &self.port)?;
        let rom = copy_of(alloc, &self.rom)?;
        let profile = copy_of(alloc, &self.profile)?;
        let symbols = copy_of(alloc, &self.symbols)?;
        let debug_info = copy_of(alloc, &self.debug_info)?;
        let source_root = copy_of(alloc, &self.source_root)?;
        Ok(Launch {
            program,
            tape: self.tape,
            bin,
            prg: self.prg,
            port,
            rom,
            profile,
            symbols,
            debug_info,
            source_root,
            history: self.history,
            steps: self.steps,
            stop_on_entry: self.stop_on_entry,
        })
    }
}

/// What a message asks for.
#[derive(Drop)]
pub enum Request<'a> {
    /// What the adapter can do, said to a client that counts so.
    Initialize(Counting),
    /// A session on a program.
    Launch(Launch),
    /// A launch that gives this member another value than one that it can have.
    WrongLaunch(Member),
    /// A session on a program that runs already, which there is not.
    Attach,
    /// The end of the session.
    Disconnect,
    /// A request that needs a session.
    InSession(SessionRequest<'a>),
    /// No request.
    NoRequest,
}
