//! The values of answers: breakpoints, lines to go to, what can stand for what is typed, and
//! watched bytes.

ghost use Rattle.std.specs.Prelude.{◌≡◌, IfOk, List};
ghost use Rattle.dap_messages.specs.Answers.{breakpoints_body};
ghost use Rattle.dap_messages.specs.Bodies.{list_body};
ghost use Rattle.dap_messages.specs.BreakValues.{breakpoint_set, breakpoint_unset};
ghost use Rattle.dap_messages.specs.BreakValues.{completion_item, data_at, data_unwatched};
ghost use Rattle.dap_messages.specs.BreakValues.{data_watched, goto_target, no_data, place_on};
ghost use Rattle.dap_messages.specs.BreakValues.{targets_body};
ghost use Rattle.json_messages.specs.Values.{list_of};
ghost use Rattle.serde_json.specs.Data.{Data};
ghost use Rattle.serde_json.specs.View.{view};

use crate::request::ByteRange;
use crate::texts::{address_text, data_id, range_text, reference};
use json_messages::{Object, ValueList};
use serde_json::Value;
use std::alloc::{AllocError, Global};

/// Returns the answer that has a list at a name, if memory did not run out for it.
pub fn list_body(
    alloc: Global,
    name: &str,
    list: Result<Value, AllocError>,
) -> Result<Value, AllocError>
    ensures { (ds : List Data) → IfOk list (λ v. view v ≡ list_of ds)
        → IfOk result (λ v. view v ≡ list_body name.now ds) }
{
    Object::new(alloc).member(name, list).build()
}

/// Returns the answer that tells of some breakpoints.
pub fn breakpoints_body(alloc: Global, list: Result<Value, AllocError>) -> Result<Value, AllocError>
    ensures { (ds : List Data) → IfOk list (λ v. view v ≡ list_of ds)
        → IfOk result (λ v. view v ≡ breakpoints_body ds) }
{
    list_body(alloc, "breakpoints", list)
}

/// Returns the answer that has targets: lines to go to, or what can stand for what is typed.
pub fn targets_body(alloc: Global, list: Result<Value, AllocError>) -> Result<Value, AllocError>
    ensures { (ds : List Data) → IfOk list (λ v. view v ≡ list_of ds)
        → IfOk result (λ v. view v ≡ targets_body ds) }
{
    list_body(alloc, "targets", list)
}

/// Returns what is answered of a breakpoint that is set.
pub fn breakpoint_set(
    alloc: Global,
    id: u64,
    address: u16,
    line: Option<u64>,
) -> Result<Value, AllocError>
    ensures { IfOk result (λ v. view v ≡ breakpoint_set id address line) }
{
    let told = Object::new(alloc)
        .count("id", id)
        .text("instructionReference", reference(alloc, address))
        .flag("verified", true);
    match line {
        Some(line) => told.count("line", line).build(),
        None => told.build(),
    }
}

/// Returns what is answered of a breakpoint that is not set, with words of why.
pub fn breakpoint_unset(
    alloc: Global,
    id: u64,
    line: Option<u64>,
    words: &str,
) -> Result<Value, AllocError>
    ensures { IfOk result (λ v. view v ≡ breakpoint_unset id line words.now) }
{
    let told = Object::new(alloc)
        .count("id", id)
        .word("message", words)
        .flag("verified", false);
    match line {
        Some(line) => told.count("line", line).build(),
        None => told.build(),
    }
}

/// Returns a line as a place of a breakpoint.
pub fn place_on(alloc: Global, line: u64) -> Result<Value, AllocError>
    ensures { IfOk result (λ v. view v ≡ place_on line) }
{
    Object::new(alloc).count("line", line).build()
}

/// Returns an address that can be gone to, with its line.
pub fn goto_target(alloc: Global, address: u16, line: u64) -> Result<Value, AllocError>
    ensures { IfOk result (λ v. view v ≡ goto_target address line) }
{
    Object::new(alloc)
        .count("id", address as u64)
        .text("instructionPointerReference", reference(alloc, address))
        .text("label", address_text(alloc, address))
        .count("line", line)
        .build()
}

/// Returns a text that can stand for `count` bytes from a column on.
pub fn completion_item(
    alloc: Global,
    text: &str,
    start: u64,
    count: u64,
) -> Result<Value, AllocError>
    ensures { IfOk result (λ v. view v ≡ completion_item text.now start count) }
{
    Object::new(alloc)
        .word("label", text)
        .count("length", count)
        .count("start", start)
        .word("text", text)
        .build()
}

/// Returns that bytes can be watched.
pub fn data_at(alloc: Global, range: ByteRange) -> Result<Value, AllocError>
    ensures { IfOk result (λ v. view v ≡ data_at range) }
{
    let accesses = ValueList::new(alloc)
        .with(Value::try_from_str(alloc, "read"))
        .with(Value::try_from_str(alloc, "write"))
        .with(Value::try_from_str(alloc, "readWrite"))
        .build();
    Object::new(alloc)
        .member("accessTypes", accesses)
        .text("dataId", data_id(alloc, range))
        .text("description", range_text(alloc, range))
        .build()
}

/// Returns that nothing can be watched, with words of why.
pub fn no_data(alloc: Global, words: &str) -> Result<Value, AllocError>
    ensures { IfOk result (λ v. view v ≡ no_data words.now) }
{
    Object::new(alloc)
        .member("dataId", Ok(Value::Null))
        .word("description", words)
        .build()
}

/// Returns that a byte is watched.
pub fn data_watched(alloc: Global) -> Result<Value, AllocError>
    ensures { IfOk result (λ v. view v ≡ data_watched) }
{
    Object::new(alloc).flag("verified", true).build()
}

/// Returns that a byte is not watched, with words of why.
pub fn data_unwatched(alloc: Global, words: &str) -> Result<Value, AllocError>
    ensures { IfOk result (λ v. view v ≡ data_unwatched words.now) }
{
    Object::new(alloc)
        .word("message", words)
        .flag("verified", false)
        .build()
}
