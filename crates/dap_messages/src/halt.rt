//! Why the machine stands.

ghost use Rattle.std.specs.Prelude.{◌≡◌, None};
ghost use Rattle.dap_messages.specs.Halts.{word_of};

use model::EventFault;

/// A reason of the protocol why the machine stands.
#[derive(Clone, Copy)]
pub enum Reason {
    /// The machine is before the first instruction, or at the oldest state that is held.
    Entry,
    /// What was asked for is done.
    Step,
    /// A breakpoint of a line.
    Breakpoint,
    /// A breakpoint at an address.
    InstructionBreakpoint,
    /// A breakpoint at a name.
    FunctionBreakpoint,
    /// A watched byte or register.
    DataBreakpoint,
    /// A step is refused.
    Exception,
    /// Another instruction was made the next.
    Goto,
    /// There is nothing to do.
    Pause,
    /// Nothing has stopped the run so far.
    NoStop,
}

impl Reason {
    /// Returns the word of the protocol.
    pub fn word(self) -> &'static str
        ensures { result.now ≡ word_of self }
    {
        match self {
            Reason::Entry => "entry",
            Reason::Step => "step",
            Reason::Breakpoint => "breakpoint",
            Reason::InstructionBreakpoint => "instruction breakpoint",
            Reason::FunctionBreakpoint => "function breakpoint",
            Reason::DataBreakpoint => "data breakpoint",
            Reason::Exception => "exception",
            Reason::Goto => "goto",
            Reason::Pause | Reason::NoStop => "pause",
        }
    }
}

/// Why the machine stands: the reason, words, and why a step is refused, if one is.
#[derive(Clone, Copy)]
pub struct Halt {
    pub reason: Reason,
    pub words: &'static str,
    pub fault: Option<EventFault>,
}

/// Returns a halt at which no step is refused.
pub fn stand_by(reason: Reason, words: &'static str) -> Halt
    ensures reason { result.reason ≡ reason }
    ensures words { result.words.now ≡ words.now }
    ensures fault { result.fault ≡ None }
{
    Halt {
        reason,
        words,
        fault: None,
    }
}
