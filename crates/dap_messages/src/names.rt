//! The names of requests.

ghost use Rattle.std.specs.Prelude.{◌≡◌, map as each};
ghost use Rattle.dap_messages.specs.Names.{command_of, find, is_text, moves_by_instructions};
ghost use Rattle.dap_messages.specs.Names.{name_of, names, number_of, row_view};
ghost use Rattle.json_messages.specs.Fields.{text_at};
ghost use Rattle.serde_json.specs.View.{view};

use crate::request::Move;
use json_messages::{number_at, text_at};
use serde_json::Value;

/// Requests that list breakpoints.
#[derive(Clone, Copy)]
pub enum ListName {
    Source,
    Instruction,
    Function,
    Data,
}

/// Requests for a change.
#[derive(Clone, Copy)]
pub enum ChangeName {
    Evaluate,
    SetVariable,
    SetExpression,
    Goto,
    WriteMemory,
}

/// Questions.
#[derive(Clone, Copy)]
pub enum QueryName {
    Threads,
    StackTrace,
    Scopes,
    Variables,
    ReadMemory,
    Disassemble,
    GotoTargets,
    BreakpointLocations,
    LoadedSources,
    DataBreakpointInfo,
    Completions,
    ExceptionInfo,
    SetExceptionBreakpoints,
    Pause,
    Cancel,
}

/// Requests of a session.
#[derive(Clone, Copy)]
pub enum SessionName {
    Moves(Move),
    Sets(ListName),
    Changes(ChangeName),
    Shows(QueryName),
    ConfigurationDone,
    Restart,
    Terminate,
    Other,
}

/// Requests, and messages that are none.
#[derive(Clone, Copy)]
pub enum RequestName {
    Initialize,
    Launch,
    Attach,
    Disconnect,
    InSession(SessionName),
    NoRequest,
}

/// The names of requests, each with what it asks for, but for moves by instructions.
const NAMES: [(&str, RequestName); 37] = [
    ("initialize", RequestName::Initialize),
    ("launch", RequestName::Launch),
    ("attach", RequestName::Attach),
    ("disconnect", RequestName::Disconnect),
    (
        "next",
        RequestName::InSession(SessionName::Moves(Move::Over)),
    ),
    (
        "stepIn",
        RequestName::InSession(SessionName::Moves(Move::In)),
    ),
    (
        "stepOut",
        RequestName::InSession(SessionName::Moves(Move::Out)),
    ),
    (
        "stepBack",
        RequestName::InSession(SessionName::Moves(Move::BackOver)),
    ),
    (
        "continue",
        RequestName::InSession(SessionName::Moves(Move::Go)),
    ),
    (
        "reverseContinue",
        RequestName::InSession(SessionName::Moves(Move::BackToStop)),
    ),
    (
        "setBreakpoints",
        RequestName::InSession(SessionName::Sets(ListName::Source)),
    ),
    (
        "setInstructionBreakpoints",
        RequestName::InSession(SessionName::Sets(ListName::Instruction)),
    ),
    (
        "setFunctionBreakpoints",
        RequestName::InSession(SessionName::Sets(ListName::Function)),
    ),
    (
        "setDataBreakpoints",
        RequestName::InSession(SessionName::Sets(ListName::Data)),
    ),
    (
        "evaluate",
        RequestName::InSession(SessionName::Changes(ChangeName::Evaluate)),
    ),
    (
        "setVariable",
        RequestName::InSession(SessionName::Changes(ChangeName::SetVariable)),
    ),
    (
        "setExpression",
        RequestName::InSession(SessionName::Changes(ChangeName::SetExpression)),
    ),
    (
        "goto",
        RequestName::InSession(SessionName::Changes(ChangeName::Goto)),
    ),
    (
        "writeMemory",
        RequestName::InSession(SessionName::Changes(ChangeName::WriteMemory)),
    ),
    (
        "threads",
        RequestName::InSession(SessionName::Shows(QueryName::Threads)),
    ),
    (
        "stackTrace",
        RequestName::InSession(SessionName::Shows(QueryName::StackTrace)),
    ),
    (
        "scopes",
        RequestName::InSession(SessionName::Shows(QueryName::Scopes)),
    ),
    (
        "variables",
        RequestName::InSession(SessionName::Shows(QueryName::Variables)),
    ),
    (
        "readMemory",
        RequestName::InSession(SessionName::Shows(QueryName::ReadMemory)),
    ),
    (
        "disassemble",
        RequestName::InSession(SessionName::Shows(QueryName::Disassemble)),
    ),
    (
        "gotoTargets",
        RequestName::InSession(SessionName::Shows(QueryName::GotoTargets)),
    ),
    (
        "breakpointLocations",
        RequestName::InSession(SessionName::Shows(QueryName::BreakpointLocations)),
    ),
    (
        "loadedSources",
        RequestName::InSession(SessionName::Shows(QueryName::LoadedSources)),
    ),
    (
        "dataBreakpointInfo",
        RequestName::InSession(SessionName::Shows(QueryName::DataBreakpointInfo)),
    ),
    (
        "completions",
        RequestName::InSession(SessionName::Shows(QueryName::Completions)),
    ),
    (
        "exceptionInfo",
        RequestName::InSession(SessionName::Shows(QueryName::ExceptionInfo)),
    ),
    (
        "setExceptionBreakpoints",
        RequestName::InSession(SessionName::Shows(QueryName::SetExceptionBreakpoints)),
    ),
    (
        "pause",
        RequestName::InSession(SessionName::Shows(QueryName::Pause)),
    ),
    (
        "cancel",
        RequestName::InSession(SessionName::Shows(QueryName::Cancel)),
    ),
    (
        "configurationDone",
        RequestName::InSession(SessionName::ConfigurationDone),
    ),
    ("restart", RequestName::InSession(SessionName::Restart)),
    ("terminate", RequestName::InSession(SessionName::Terminate)),
];

/// The moves by instructions.
const MOVES_BY_INSTRUCTIONS: [(&str, RequestName); 3] = [
    (
        "next",
        RequestName::InSession(SessionName::Moves(Move::Step)),
    ),
    (
        "stepIn",
        RequestName::InSession(SessionName::Moves(Move::Step)),
    ),
    (
        "stepBack",
        RequestName::InSession(SessionName::Moves(Move::Back)),
    ),
];

/// Returns the names of requests, but for moves by instructions.
#[tactic(auto, unfolding(crate::specs::Names::names))]
fn names() -> &'static [(&'static str, RequestName)]
    ensures { each row_view result.now ≡ names }
{
    &NAMES
}

/// Returns the moves by instructions.
#[tactic(auto, unfolding(crate::specs::Names::moves_by_instructions))]
fn moves_by_instructions() -> &'static [(&'static str, RequestName)]
    ensures { each row_view result.now ≡ moves_by_instructions }
{
    &MOVES_BY_INSTRUCTIONS
}

/// Returns what the first of some names asks for that is this, or else what is given.
fn find(none: RequestName, name: &str, rows: &[(&str, RequestName)]) -> RequestName
    ensures { result ≡ find none name.now (each row_view rows.now) }
{
    for (known, asked) in rows {
        if name == *known {
            return *asked;
        }
    }
    none
}

/// Returns whether a text is at a path of a message, and is this.
pub fn is_text(message: &Value, path: &str, text: &str) -> bool
    ensures { result ≡ is_text text.now (text_at path.now (view message.now)) }
{
    match text_at(message, path) {
        Some(found) => found == text,
        None => false,
    }
}

/// Returns which request a message is, by its command. A move by instructions is told apart. A
/// request without a command is another request.
pub fn name_of(message: &Value) -> RequestName
    ensures { result ≡ name_of (view message.now) }
{
    if !is_text(message, "/type", "request") {
        return RequestName::NoRequest;
    }
    match text_at(message, "/command") {
        Some(name) => {
            let asked = find(RequestName::InSession(SessionName::Other), name, names());
            if is_text(message, "/arguments/granularity", "instruction") {
                find(asked, name, moves_by_instructions())
            } else {
                asked
            }
        }
        None => RequestName::InSession(SessionName::Other),
    }
}

/// Returns the name of a message's command: empty if there is none.
pub fn command_of(message: &Value) -> &str
    ensures { result.now ≡ command_of (view message.now) }
{
    text_at(message, "/command").unwrap_or("")
}

/// Returns the number of a message: 0 if it has none.
pub fn number_of(message: &Value) -> u64
    ensures { result ≡ number_of (view message.now) }
{
    number_at(message, "/seq").unwrap_or(0)
}
