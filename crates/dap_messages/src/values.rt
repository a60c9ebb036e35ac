//! The values of answers and of events: frames, a disassembly, bytes, and what a client is told.

ghost use Rattle.std.specs.Prelude.{◌≡◌, IfOk, List, map as each};
ghost use Rattle.dap_messages.specs.Halts.{word_of};
ghost use Rattle.dap_messages.specs.Values.{frame_at_line, frame_without_line, frames_body};
ghost use Rattle.dap_messages.specs.Values.{instruction_at_line, instruction_row, instructions_body};
ghost use Rattle.dap_messages.specs.Values.{invalidated_body, look_body, memory_body};
ghost use Rattle.dap_messages.specs.Values.{no_instruction, output_body, source, sources_body};
ghost use Rattle.dap_messages.specs.Values.{stopped_body};
ghost use Rattle.json_messages.specs.Values.{count, list_of};
ghost use Rattle.serde_json.specs.Data.{Data};
ghost use Rattle.serde_json.specs.View.{view};

use crate::break_values::list_body;
use crate::halt::Reason;
use crate::item::SourcePlace;
use crate::texts::reference;
use json_messages::{Object, ValueList};
use serde_json::Value;
use std::alloc::{AllocError, Global};

/// Returns a file of the source.
pub fn source(alloc: Global, name: &str, path: &str) -> Result<Value, AllocError>
    ensures { IfOk result (λ v. view v ≡ source name.now path.now) }
{
    Object::new(alloc)
        .word("name", name)
        .word("path", path)
        .build()
}

/// Returns the answer that has the files of the program's source, if memory did not run out for
/// them.
pub fn sources_body(alloc: Global, files: Result<Value, AllocError>) -> Result<Value, AllocError>
    ensures { (ds : List Data) → IfOk files (λ v. view v ≡ list_of ds)
        → IfOk result (λ v. view v ≡ sources_body ds) }
{
    list_body(alloc, "sources", files)
}

/// Returns a frame at a line of a source.
pub fn frame_at_line(
    alloc: Global,
    id: u64,
    address: u16,
    words: &str,
    place: SourcePlace<'_>,
) -> Result<Value, AllocError>
    ensures { IfOk result (λ v. view v ≡ frame_at_line id address words.now place.entry.line
        place.entry.column place.entry.name.now place.entry.path.now) }
{
    Object::new(alloc)
        .count("column", place.column)
        .count("id", id)
        .text("instructionPointerReference", reference(alloc, address))
        .count("line", place.line)
        .word("name", words)
        .member("source", source(alloc, place.name, place.path))
        .build()
}

/// Returns a frame that is at no line of a source.
pub fn frame_without_line(
    alloc: Global,
    id: u64,
    address: u16,
    words: &str,
) -> Result<Value, AllocError>
    ensures { IfOk result (λ v. view v ≡ frame_without_line id address words.now) }
{
    Object::new(alloc)
        .count("column", 0)
        .count("id", id)
        .text("instructionPointerReference", reference(alloc, address))
        .count("line", 0)
        .word("name", words)
        .word("presentationHint", "subtle")
        .build()
}

/// Returns the answer that has some frames, and how many there are, if memory did not run out for
/// the frames.
pub fn frames_body(
    alloc: Global,
    frames: Result<Value, AllocError>,
    total: u64,
) -> Result<Value, AllocError>
    ensures { (ds : List Data) → IfOk frames (λ v. view v ≡ list_of ds)
        → IfOk result (λ v. view v ≡ frames_body ds total) }
{
    Object::new(alloc)
        .member("stackFrames", frames)
        .count("totalFrames", total)
        .build()
}

/// Returns a row of a disassembly: an address, bytes and a text.
pub fn instruction_row(
    alloc: Global,
    address: u16,
    bytes: &str,
    text: &str,
) -> Result<Value, AllocError>
    ensures { IfOk result
        (λ v. view v ≡ instruction_row address bytes.now text.now) }
{
    Object::new(alloc)
        .text("address", reference(alloc, address))
        .word("instruction", text)
        .word("instructionBytes", bytes)
        .build()
}

/// Returns a row of a disassembly that begins a line of the source with a path.
pub fn instruction_at_line(
    alloc: Global,
    address: u16,
    bytes: &str,
    text: &str,
    line: u64,
    path: &str,
) -> Result<Value, AllocError>
    ensures { IfOk result
        (λ v. view v ≡ instruction_at_line address bytes.now text.now line path.now) }
{
    let place = Object::new(alloc).word("path", path).build();
    Object::new(alloc)
        .text("address", reference(alloc, address))
        .word("instruction", text)
        .word("instructionBytes", bytes)
        .count("line", line)
        .member("location", place)
        .build()
}

/// Returns a row where no memory is.
pub fn no_instruction(alloc: Global, address: &str) -> Result<Value, AllocError>
    ensures { IfOk result (λ v. view v ≡ no_instruction address.now) }
{
    Object::new(alloc)
        .word("address", address)
        .word("instruction", "")
        .word("presentationHint", "invalid")
        .build()
}

/// Returns the answer that has the rows of a disassembly, if memory did not run out for them.
pub fn instructions_body(
    alloc: Global,
    rows: Result<Value, AllocError>,
) -> Result<Value, AllocError>
    ensures { (ds : List Data) → IfOk rows (λ v. view v ≡ list_of ds)
        → IfOk result (λ v. view v ≡ instructions_body ds) }
{
    list_body(alloc, "instructions", rows)
}

/// Returns what a line of the console, or a look, is answered by. A byte of memory has a reference
/// to its address.
pub fn look_body(alloc: Global, address: Option<u16>, words: &str) -> Result<Value, AllocError>
    ensures { IfOk result (λ v. view v ≡ look_body address words.now) }
{
    match address {
        Some(address) => Object::new(alloc)
            .text("memoryReference", reference(alloc, address))
            .word("result", words)
            .count("variablesReference", 0)
            .build(),
        None => Object::new(alloc)
            .word("result", words)
            .count("variablesReference", 0)
            .build(),
    }
}

/// Returns the answer that has bytes of memory from an address on, written in Base64, and how many
/// more were asked for.
pub fn memory_body(
    alloc: Global,
    address: u16,
    text: &str,
    unread: u64,
) -> Result<Value, AllocError>
    ensures { IfOk result (λ v. view v ≡ memory_body address text.now unread) }
{
    Object::new(alloc)
        .text("address", reference(alloc, address))
        .word("data", text)
        .count("unreadableBytes", unread)
        .build()
}

/// Returns a list of numbers.
fn numbers(alloc: Global, all: &[u64]) -> Result<Value, AllocError>
    ensures { IfOk result (λ v. view v ≡ list_of (each count all.now)) }
{
    let mut list = ValueList::new(alloc);
    for number in all {
        list = list.with(Ok(Value::from(*number)));
    }
    list.build()
}

/// Returns what is told where the machine stands: why, in words too, and the numbers of the
/// breakpoints that have stopped it.
pub fn stopped_body(
    alloc: Global,
    reason: Reason,
    words: &str,
    hits: &[u64],
) -> Result<Value, AllocError>
    ensures { IfOk result (λ v. view v ≡ stopped_body (word_of reason) words.now hits.now) }
{
    Object::new(alloc)
        .flag("allThreadsStopped", true)
        .word("description", words)
        .member("hitBreakpointIds", numbers(alloc, hits))
        .word("reason", reason.word())
        .count("threadId", 1)
        .build()
}

/// Returns what is told of a text that is put out.
pub fn output_body(alloc: Global, category: &str, text: &str) -> Result<Value, AllocError>
    ensures { IfOk result (λ v. view v ≡ output_body category.now text.now) }
{
    Object::new(alloc)
        .word("category", category)
        .word("output", text)
        .build()
}

/// Returns that all that is shown may have changed.
pub fn invalidated_body(alloc: Global) -> Result<Value, AllocError>
    ensures { IfOk result (λ v. view v ≡ invalidated_body) }
{
    let areas = ValueList::new(alloc)
        .with(Value::try_from_str(alloc, "all"))
        .build();
    Object::new(alloc).member("areas", areas).build()
}
