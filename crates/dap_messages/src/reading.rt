//! A message read to a request with its arguments.

ghost use Rattle.std.specs.Prelude.{◌≡◌, IfOk, map as each};
ghost use Rattle.dap_messages.specs.Requests.{asked_by, asked_of, breakpoints_by, change_by};
ghost use Rattle.dap_messages.specs.Requests.{condition_of, is_of_thread, needs_thread, page_in};
ghost use Rattle.dap_messages.specs.Requests.{scope_in, scope_of};
ghost use Rattle.dap_messages.specs.Requests.{count_in, data_of, data_query, function_of};
ghost use Rattle.dap_messages.specs.Requests.{instruction_of};
ghost use Rattle.dap_messages.specs.Requests.{is_console, locals_of};
ghost use Rattle.dap_messages.specs.Requests.{end_in, expression_change, is_register};
ghost use Rattle.dap_messages.specs.Requests.{locations_query, scope_expressed};
ghost use Rattle.dap_messages.specs.Requests.{items_in, listed_in, launch_asked};
ghost use Rattle.dap_messages.specs.Requests.{launch_of, memory_in, query_by};
ghost use Rattle.dap_messages.specs.Requests.{request_of, source_of, target_in, word_of};
ghost use Rattle.dap_messages.specs.Seen.{breakpoints_view, change_view, condition_view};
ghost use Rattle.dap_messages.specs.Seen.{function_view, instruction_view, launch_view, query_view};
ghost use Rattle.dap_messages.specs.Seen.{request_view, session_view, source_view, text_view};
ghost use Rattle.json_messages.specs.Fields.{text_at};
ghost use Rattle.serde_json.specs.View.{items_view, view};

use crate::counting::Counting;
use crate::members::wrong_member;
use crate::names::{ChangeName, ListName, QueryName, RequestName, SessionName, name_of};
use crate::references::{offset_at, place_at, range_in};
use crate::request::{
    Access, Breakpoints, Change, Condition, DataBreakpoint, FunctionBreakpoint,
    InstructionBreakpoint, Launch, Page, Query, Request, Scope, SessionRequest, SourceBreakpoint,
};
use json_messages::{flag_or, number_at, text_at, text_or};
use serde_json::Value;
use std::alloc::{AllocError, Global};

/// Returns the scope of the locals of a frame by its number, if it is that of one.
fn locals_of(number: u64) -> Option<Scope>
    ensures { result ≡ locals_of number }
{
    if number >= 131_072 && number < 196_608 {
        Some(Scope::Locals((number - 131_072) as u16))
    } else {
        None
    }
}

/// Returns the scope of a word of the zero page, or that of the locals of a frame, by its number,
/// if it is that of one.
fn word_of(number: u64) -> Option<Scope>
    ensures { result ≡ word_of number }
{
    if number >= 65536 && number < 65791 {
        Some(Scope::Word((number - 65536) as u16))
    } else {
        locals_of(number)
    }
}

/// Returns the scope of a number, if it is that of one.
#[tactic(auto, unfolding(crate::specs::Requests::scope_of))]
fn scope_of(number: u64) -> Option<Scope>
    ensures { result ≡ scope_of number }
{
    match number {
        1 => Some(Scope::Registers),
        2 => Some(Scope::Flags),
        3 => Some(Scope::Symbols),
        4 => Some(Scope::Stack),
        5 => Some(Scope::ZeroPage),
        6 => Some(Scope::Machine),
        _ => word_of(number),
    }
}

/// Returns the scope that a request names, if it names one.
fn scope_in(request: &Value) -> Option<Scope>
    ensures { result ≡ scope_in (view request.now) }
{
    match number_at(request, "/arguments/variablesReference") {
        Some(number) => scope_of(number),
        None => None,
    }
}

/// Returns which values of a list a request wants, by the paths of the first one's number and of
/// how many it wants at most: all where it says nothing.
fn page_in(request: &Value, first: &str, count: &str) -> Page
    ensures { result ≡ page_in first.now count.now (view request.now) }
{
    Page {
        first: number_at(request, first).unwrap_or(0),
        count: number_at(request, count).unwrap_or(0),
    }
}

/// Returns the address of the memory that a request names, if it names one.
fn memory_in(request: &Value) -> Option<u16>
    ensures { result ≡ memory_in (view request.now) }
{
    place_at(request, "/arguments/memoryReference", "/arguments/offset")
}

/// Returns how many a request asks for at a path, at most 65,536.
fn count_in(request: &Value, path: &str) -> u32
    ensures { result ≡ count_in path.now (view request.now) }
{
    let count = number_at(request, path).unwrap_or(0);
    count.min(65536) as u32
}

/// Returns the condition of a breakpoint that a request lists.
fn condition_of(alloc: Global, listed: &Value) -> Result<Condition, AllocError>
    ensures { IfOk result (λ c. condition_view c ≡ condition_of (view listed.now)) }
{
    let tests = String::from_str(alloc, text_or(listed, "/condition", ""))?;
    let hits = String::from_str(alloc, text_or(listed, "/hitCondition", ""))?;
    Ok(Condition { tests, hits })
}

/// Returns a breakpoint at a line that a request lists.
fn source_of(alloc: Global, listed: &Value) -> Result<SourceBreakpoint, AllocError>
    ensures { IfOk result (λ b. source_view b ≡ source_of (view listed.now)) }
{
    let condition = condition_of(alloc, listed)?;
    let log = String::from_str(alloc, text_or(listed, "/logMessage", ""))?;
    Ok(SourceBreakpoint {
        line: number_at(listed, "/line"),
        condition,
        log,
    })
}

/// Returns a breakpoint at an address that a request lists.
fn instruction_of(alloc: Global, listed: &Value) -> Result<InstructionBreakpoint, AllocError>
    ensures { IfOk result (λ b. instruction_view b ≡ instruction_of (view listed.now)) }
{
    let condition = condition_of(alloc, listed)?;
    Ok(InstructionBreakpoint {
        address: place_at(listed, "/instructionReference", "/offset"),
        condition,
    })
}

/// Returns a breakpoint at a name that a request lists.
fn function_of(alloc: Global, listed: &Value) -> Result<FunctionBreakpoint, AllocError>
    ensures { IfOk result (λ b. function_view b ≡ function_of (view listed.now)) }
{
    let name = String::from_str(alloc, text_or(listed, "/name", ""))?;
    let condition = condition_of(alloc, listed)?;
    Ok(FunctionBreakpoint { name, condition })
}

/// Returns bytes to be watched that a request lists.
fn data_of(listed: &Value) -> DataBreakpoint
    ensures { result ≡ data_of (view listed.now) }
{
    let access = match text_or(listed, "/accessType", "") {
        "read" => Access::Read,
        "readWrite" => Access::ReadWrite,
        _ => Access::Write,
    };
    DataBreakpoint {
        range: range_in(text_or(listed, "/dataId", "").as_bytes()),
        access,
    }
}

/// Returns the breakpoints that a request lists.
fn items_in(request: &Value) -> &[Value]
    ensures { items_view result.now ≡ items_in (view request.now) }
{
    let Some(listed) = request.pointer("/arguments/breakpoints") else {
        return &[];
    };
    match listed.as_array() {
        Some(list) => list.as_slice(),
        None => &[],
    }
}

/// Returns the breakpoints at lines that a request lists.
fn sources_in(alloc: Global, request: &Value) -> Result<Vec<SourceBreakpoint>, AllocError>
    ensures { IfOk result
        (λ list. each source_view list.items ≡ each source_of (listed_in (view request.now))) }
{
    let mut list = Vec::new(alloc);
    let all = items_in(request);
    for listed in all {
        let breakpoint = source_of(alloc, listed)?;
        list.push(breakpoint)?;
    }
    Ok(list)
}

/// Returns the breakpoints at addresses that a request lists.
fn instructions_in(alloc: Global, request: &Value) -> Result<Vec<InstructionBreakpoint>, AllocError>
    ensures { IfOk result (λ list. each instruction_view list.items
        ≡ each instruction_of (listed_in (view request.now))) }
{
    let mut list = Vec::new(alloc);
    let all = items_in(request);
    for listed in all {
        let breakpoint = instruction_of(alloc, listed)?;
        list.push(breakpoint)?;
    }
    Ok(list)
}

/// Returns the breakpoints at names that a request lists.
fn functions_in(alloc: Global, request: &Value) -> Result<Vec<FunctionBreakpoint>, AllocError>
    ensures { IfOk result (λ list. each function_view list.items
        ≡ each function_of (listed_in (view request.now))) }
{
    let mut list = Vec::new(alloc);
    let all = items_in(request);
    for listed in all {
        let breakpoint = function_of(alloc, listed)?;
        list.push(breakpoint)?;
    }
    Ok(list)
}

/// Returns the bytes to be watched that a request lists.
fn bytes_in(alloc: Global, request: &Value) -> Result<Vec<DataBreakpoint>, AllocError>
    ensures { IfOk result (λ list. list.items ≡ each data_of (listed_in (view request.now))) }
{
    let mut list = Vec::new(alloc);
    let all = items_in(request);
    for listed in all {
        list.push(data_of(listed))?;
    }
    Ok(list)
}

/// Returns what a request lists, in place of the breakpoints there were.
fn breakpoints_by(
    alloc: Global,
    request: &Value,
    name: ListName,
) -> Result<Breakpoints<'_>, AllocError>
    ensures { IfOk result (λ b. breakpoints_view b ≡ breakpoints_by (view request.now) name) }
{
    match name {
        ListName::Source => {
            let listed = sources_in(alloc, request)?;
            let path = text_or(request, "/arguments/source/path", "");
            Ok(Breakpoints::Source { path, listed })
        }
        ListName::Instruction => {
            let listed = instructions_in(alloc, request)?;
            Ok(Breakpoints::Instruction(listed))
        }
        ListName::Function => {
            let listed = functions_in(alloc, request)?;
            Ok(Breakpoints::Function(listed))
        }
        ListName::Data => {
            let listed = bytes_in(alloc, request)?;
            Ok(Breakpoints::Data(listed))
        }
    }
}

/// Returns the address of the target that a request names, if it names one.
fn target_in(request: &Value) -> Option<u16>
    ensures { result ≡ target_in (view request.now) }
{
    match number_at(request, "/arguments/targetId") {
        Some(number) if number <= 65535 => Some(number as u16),
        _ => None,
    }
}

/// Returns whether a request is one of the console.
fn is_console(request: &Value) -> bool
    ensures { result ≡ is_console (view request.now) }
{
    text_or(request, "/arguments/context", "repl") == "repl"
}

/// Returns whether an expression is a register.
fn is_register(text: &str) -> bool
    ensures { result ≡ is_register text.now }
{
    text == "PC" || text == "A" || text == "X" || text == "Y" || text == "S" || text == "P"
}

/// Returns the scope that an expression is a variable of.
fn scope_expressed(text: &str) -> Scope
    ensures { result ≡ scope_expressed text.now }
{
    if is_register(text) {
        Scope::Registers
    } else {
        Scope::Symbols
    }
}

/// Returns the change of an expression that a request asks for.
fn expression_change(request: &Value) -> Change<'_>
    ensures { change_view result ≡ expression_change (view request.now) }
{
    let name = text_or(request, "/arguments/expression", "");
    let value = text_or(request, "/arguments/value", "");
    Change::SetVariable {
        scope: Some(scope_expressed(name)),
        name,
        value,
    }
}

/// Returns the change that a request asks for.
fn change_by(request: &Value, name: ChangeName) -> Change<'_>
    ensures { change_view result ≡ change_by (view request.now) name }
{
    match name {
        ChangeName::Evaluate => Change::Evaluate {
            text: text_or(request, "/arguments/expression", ""),
            is_console: is_console(request),
            frame: number_at(request, "/arguments/frameId"),
        },
        ChangeName::SetVariable => Change::SetVariable {
            scope: scope_in(request),
            name: text_or(request, "/arguments/name", ""),
            value: text_or(request, "/arguments/value", ""),
        },
        ChangeName::SetExpression => expression_change(request),
        ChangeName::Goto => Change::Goto(target_in(request)),
        ChangeName::WriteMemory => Change::WriteMemory {
            address: memory_in(request),
            data: text_or(request, "/arguments/data", ""),
            is_partial: flag_or(request, "/arguments/allowPartial", false),
        },
    }
}

/// Returns the last of some lines that a request names: the first, if it names no last one.
fn end_in(request: &Value) -> Option<u64>
    ensures { result ≡ end_in (view request.now) }
{
    match number_at(request, "/arguments/endLine") {
        Some(end) => Some(end),
        None => number_at(request, "/arguments/line"),
    }
}

/// Returns the question at which lines breakpoints can stand.
fn locations_query(request: &Value) -> Query<'_>
    ensures { query_view result ≡ locations_query (view request.now) }
{
    let path = text_or(request, "/arguments/source/path", "");
    let line = number_at(request, "/arguments/line");
    let end = end_in(request);
    Query::BreakpointLocations { path, line, end }
}

/// Returns the question whether something can be watched.
fn data_query(request: &Value) -> Query<'_>
    ensures { query_view result ≡ data_query (view request.now) }
{
    let scope = scope_in(request);
    let name = text_or(request, "/arguments/name", "");
    let count = number_at(request, "/arguments/bytes");
    let is_address = flag_or(request, "/arguments/asAddress", false);
    Query::DataBreakpointInfo {
        scope,
        name,
        count,
        is_address,
    }
}

/// Returns the question that a request asks.
fn query_by(request: &Value, name: QueryName) -> Query<'_>
    ensures { query_view result ≡ query_by (view request.now) name }
{
    match name {
        QueryName::Threads => Query::Threads,
        QueryName::StackTrace => Query::StackTrace(page_in(
            request,
            "/arguments/startFrame",
            "/arguments/levels",
        )),
        QueryName::Scopes => Query::Scopes(number_at(request, "/arguments/frameId")),
        QueryName::Variables => Query::Variables {
            scope: scope_in(request),
            page: page_in(request, "/arguments/start", "/arguments/count"),
        },
        QueryName::ReadMemory => Query::ReadMemory {
            address: memory_in(request),
            count: count_in(request, "/arguments/count"),
        },
        QueryName::Disassemble => Query::Disassemble {
            address: memory_in(request),
            offset: offset_at(request, "/arguments/instructionOffset"),
            count: count_in(request, "/arguments/instructionCount"),
        },
        QueryName::GotoTargets => Query::GotoTargets {
            path: text_or(request, "/arguments/source/path", ""),
            line: number_at(request, "/arguments/line"),
        },
        QueryName::BreakpointLocations => locations_query(request),
        QueryName::LoadedSources => Query::LoadedSources,
        QueryName::DataBreakpointInfo => data_query(request),
        QueryName::Completions => Query::Completions {
            text: text_or(request, "/arguments/text", ""),
            column: number_at(request, "/arguments/column"),
        },
        QueryName::ExceptionInfo => Query::ExceptionInfo,
        QueryName::SetExceptionBreakpoints => Query::SetExceptionBreakpoints,
        QueryName::Pause => Query::Pause,
        QueryName::Cancel => Query::Cancel,
    }
}

/// Returns whether a request has to name a thread.
fn needs_thread(name: SessionName) -> bool
    ensures { result ≡ needs_thread name }
{
    match name {
        SessionName::Moves(_) => true,
        SessionName::Changes(ChangeName::Goto) => true,
        SessionName::Shows(QueryName::StackTrace) => true,
        SessionName::Shows(QueryName::ExceptionInfo) => true,
        SessionName::Shows(QueryName::Pause) => true,
        _ => false,
    }
}

/// Returns whether a request names the one thread.
fn is_of_thread(request: &Value) -> bool
    ensures { result ≡ is_of_thread (view request.now) }
{
    match number_at(request, "/arguments/threadId") {
        Some(number) => number == 1,
        None => false,
    }
}

/// Returns what a request asks of a session, if it names a thread where it has to.
fn asked_of(
    alloc: Global,
    request: &Value,
    name: SessionName,
) -> Result<SessionRequest<'_>, AllocError>
    ensures { IfOk result (λ r. session_view r ≡ asked_of (view request.now) name) }
{
    match name {
        SessionName::Moves(way) => Ok(SessionRequest::Moves(way)),
        SessionName::Sets(name) => {
            let listed = breakpoints_by(alloc, request, name)?;
            Ok(SessionRequest::Sets(listed))
        }
        SessionName::Changes(name) => Ok(SessionRequest::Changes(change_by(request, name))),
        SessionName::Shows(name) => Ok(SessionRequest::Shows(query_by(request, name))),
        SessionName::ConfigurationDone => Ok(SessionRequest::ConfigurationDone),
        SessionName::Restart => Ok(SessionRequest::Restart),
        SessionName::Terminate => Ok(SessionRequest::Terminate),
        SessionName::Other => Ok(SessionRequest::Other),
    }
}

/// Returns what a request asks of a session.
fn asked_by(
    alloc: Global,
    request: &Value,
    name: SessionName,
) -> Result<SessionRequest<'_>, AllocError>
    ensures { IfOk result (λ r. session_view r ≡ asked_by (view request.now) name) }
{
    if !needs_thread(name) {
        return asked_of(alloc, request, name);
    }
    if is_of_thread(request) {
        return asked_of(alloc, request, name);
    }
    Ok(SessionRequest::NoThread)
}

/// Returns the text at a path of a message, if there is one.
fn own_text(alloc: Global, message: &Value, path: &str) -> Result<Option<String>, AllocError>
    ensures { IfOk result (λ text. text_view text ≡ text_at path.now (view message.now)) }
{
    match text_at(message, path) {
        Some(text) => {
            let text = String::from_str(alloc, text)?;
            Ok(Some(text))
        }
        None => Ok(None),
    }
}

/// Returns the program that a request launches, with its options.
fn launch_of(alloc: Global, request: &Value) -> Result<Launch, AllocError>
    ensures { IfOk result (λ launch. launch_view launch ≡ launch_of (view request.now)) }
{
    let program = own_text(alloc, request, "/arguments/program")?;
    let bin = own_text(alloc, request, "/arguments/bin")?;
    let port = own_text(alloc, request, "/arguments/port")?;
    let rom = own_text(alloc, request, "/arguments/rom")?;
    let profile = own_text(alloc, request, "/arguments/profile")?;
    let symbols = own_text(alloc, request, "/arguments/symbols")?;
    let debug_info = own_text(alloc, request, "/arguments/debugInfo")?;
    let source_root = own_text(alloc, request, "/arguments/sourceRoot")?;
    Ok(Launch {
        program,
        tape: flag_or(request, "/arguments/tape", false),
        bin,
        prg: flag_or(request, "/arguments/prg", false),
        port,
        rom,
        profile,
        symbols,
        debug_info,
        source_root,
        history: number_at(request, "/arguments/history"),
        steps: number_at(request, "/arguments/steps"),
        stop_on_entry: flag_or(request, "/arguments/stopOnEntry", true),
    })
}

/// Returns what a launch asks for, or which member has another value than one that it can have.
fn launch_asked(alloc: Global, message: &Value) -> Result<Request<'_>, AllocError>
    ensures { IfOk result (λ r. request_view r ≡ launch_asked (view message.now)) }
{
    match wrong_member(message) {
        Some(member) => Ok(Request::WrongLaunch(member)),
        None => {
            let launch = launch_of(alloc, message)?;
            Ok(Request::Launch(launch))
        }
    }
}

/// Returns what a message asks for.
///
/// Errors: `AllocError` if an allocation fails.
pub fn request_of(alloc: Global, message: &Value) -> Result<Request<'_>, AllocError>
    ensures { IfOk result (λ r. request_view r ≡ request_of (view message.now)) }
{
    match name_of(message) {
        RequestName::Initialize => Ok(Request::Initialize(Counting::of(message))),
        RequestName::Launch => launch_asked(alloc, message),
        RequestName::Attach => Ok(Request::Attach),
        RequestName::Disconnect => Ok(Request::Disconnect),
        RequestName::InSession(name) => {
            let asked = asked_by(alloc, message, name)?;
            Ok(Request::InSession(asked))
        }
        RequestName::NoRequest => Ok(Request::NoRequest),
    }
}
