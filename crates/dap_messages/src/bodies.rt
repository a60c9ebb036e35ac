//! The bodies of answers that say the same whatever the session.

ghost use Rattle.std.specs.Prelude.{◌≡◌, ◌++◌, IfOk, List, if◌then◌else◌};
ghost use Rattle.serde_json.specs.Data.{Data};
ghost use Rattle.serde_json.specs.View.{view};
ghost use Rattle.dap_messages.specs.Bodies.{capabilities, continued, first_scopes, locals_scope};
ghost use Rattle.dap_messages.specs.Bodies.{locals_scopes, nothing, other_scopes, scope, scopes};
ghost use Rattle.dap_messages.specs.Bodies.{threads};
ghost use Rattle.json_messages.specs.ValueLists.{HasValues};

use json_messages::{Object, ValueList};
use serde_json::Value;
use std::alloc::{AllocError, Global};

/// Returns what the adapter can do.
pub fn capabilities(alloc: Global) -> Result<Value, AllocError>
    ensures { IfOk result (λ v. view v ≡ capabilities) }
{
    Object::new(alloc)
        .flag("supportsBreakpointLocationsRequest", true)
        .flag("supportsCancelRequest", true)
        .flag("supportsCompletionsRequest", true)
        .flag("supportsConditionalBreakpoints", true)
        .flag("supportsConfigurationDoneRequest", true)
        .flag("supportsDataBreakpointBytes", true)
        .flag("supportsDataBreakpoints", true)
        .flag("supportsDisassembleRequest", true)
        .flag("supportsEvaluateForHovers", true)
        .flag("supportsExceptionInfoRequest", true)
        .flag("supportsFunctionBreakpoints", true)
        .flag("supportsGotoTargetsRequest", true)
        .flag("supportsHitConditionalBreakpoints", true)
        .flag("supportsInstructionBreakpoints", true)
        .flag("supportsLoadedSourcesRequest", true)
        .flag("supportsLogPoints", true)
        .flag("supportsReadMemoryRequest", true)
        .flag("supportsRestartRequest", true)
        .flag("supportsSetExpression", true)
        .flag("supportsSetVariable", true)
        .flag("supportsStepBack", true)
        .flag("supportsSteppingGranularity", true)
        .flag("supportsTerminateRequest", true)
        .flag("supportsWriteMemoryRequest", true)
        .build()
}

/// Returns a body without members.
pub fn nothing(alloc: Global) -> Result<Value, AllocError>
    ensures { IfOk result (λ v. view v ≡ nothing) }
{
    Object::new(alloc).build()
}

/// Returns the one thread.
pub fn threads(alloc: Global) -> Result<Value, AllocError>
    ensures { IfOk result (λ v. view v ≡ threads) }
{
    let thread = Object::new(alloc)
        .count("id", 1)
        .word("name", "6502")
        .build();
    let threads = ValueList::new(alloc).with(thread).build();
    Object::new(alloc).member("threads", threads).build()
}

/// Returns a scope of a name, by the number that its variables are asked for by.
fn scope(alloc: Global, name: &str, number: u64) -> Result<Value, AllocError>
    ensures { IfOk result (λ v. view v ≡ scope name.now number) }
{
    Object::new(alloc)
        .flag("expensive", false)
        .word("name", name)
        .count("variablesReference", number)
        .build()
}

/// Returns the scope of the locals of the frame of a number.
fn locals_scope(alloc: Global, frame: u16) -> Result<Value, AllocError>
    ensures { IfOk result (λ v. view v ≡ locals_scope frame) }
{
    Object::new(alloc)
        .flag("expensive", false)
        .word("name", "Locals")
        .word("presentationHint", "locals")
        .count("variablesReference", 131_072 + u64::from(frame))
        .build()
}

/// Returns a list of the scope of the locals of a frame, if it has some.
fn locals_scopes(alloc: Global, locals: Option<u16>) -> ValueList
    ensures { HasValues (locals_scopes locals) result }
{
    match locals {
        Some(frame) => ValueList::new(alloc).with(locals_scope(alloc, frame)),
        None => ValueList::new(alloc),
    }
}

/// Returns a list with the scopes of the first frame behind it: registers, flags, symbols, the
/// stack, the zero page and the machine.
fn with_first_scopes(alloc: Global, list: ValueList) -> ValueList
    ensures { (ds : List Data) → HasValues ds list → HasValues (ds ++ first_scopes) result }
{
    list.with(scope(alloc, "Registers", 1))
        .with(scope(alloc, "Flags", 2))
        .with(scope(alloc, "Symbols", 3))
        .with(scope(alloc, "Stack", 4))
        .with(scope(alloc, "Zero page", 5))
        .with(scope(alloc, "Machine", 6))
}

/// Returns a list with the scopes of another frame behind it, of which registers and flags are not
/// known any more.
fn with_other_scopes(alloc: Global, list: ValueList) -> ValueList
    ensures { (ds : List Data) → HasValues ds list → HasValues (ds ++ other_scopes) result }
{
    list.with(scope(alloc, "Symbols", 3))
        .with(scope(alloc, "Stack", 4))
        .with(scope(alloc, "Zero page", 5))
        .with(scope(alloc, "Machine", 6))
}

/// Returns a list with the scopes of the first frame, or of another one, behind it.
fn with_scopes(alloc: Global, list: ValueList, is_first: bool) -> ValueList
    ensures { (ds : List Data) → HasValues ds list
        → HasValues (ds ++ (if is_first then first_scopes else other_scopes)) result }
{
    if is_first {
        with_first_scopes(alloc, list)
    } else {
        with_other_scopes(alloc, list)
    }
}

/// Returns the scopes of the first frame, or of another one, with its locals if it has some.
pub fn scopes(alloc: Global, is_first: bool, locals: Option<u16>) -> Result<Value, AllocError>
    ensures { IfOk result (λ v. view v ≡ scopes is_first locals) }
{
    let list = with_scopes(alloc, locals_scopes(alloc, locals), is_first);
    let scopes = list.build();
    Object::new(alloc).member("scopes", scopes).build()
}

/// Returns what is answered to a move.
pub fn continued(alloc: Global) -> Result<Value, AllocError>
    ensures { IfOk result (λ v. view v ≡ continued) }
{
    Object::new(alloc).flag("allThreadsContinued", true).build()
}
