//! The bodies of answers that have no lists.

ghost use Rattle.std.specs.Prelude.{◌≡◌, IfOk};
ghost use Rattle.serde_json.specs.View.{view};
ghost use Rattle.dap_messages.specs.Answers.{exception_body, value_set_body, written_body};

use json_messages::Object;
use serde_json::Value;
use std::alloc::{AllocError, Global};

/// Returns what a variable that was set is answered by.
pub fn value_set(alloc: Global, words: &str) -> Result<Value, AllocError>
    ensures { IfOk result (λ v. view v ≡ value_set_body words.now) }
{
    Object::new(alloc)
        .word("value", words)
        .count("variablesReference", 0)
        .build()
}

/// Returns how many bytes were written to memory.
pub fn written_body(alloc: Global, count: u64) -> Result<Value, AllocError>
    ensures { IfOk result (λ v. view v ≡ written_body count) }
{
    Object::new(alloc).count("bytesWritten", count).build()
}

/// Returns why the machine stands, as what the protocol calls an exception.
pub fn exception(alloc: Global, words: &str) -> Result<Value, AllocError>
    ensures { IfOk result (λ v. view v ≡ exception_body words.now) }
{
    Object::new(alloc)
        .word("breakMode", "always")
        .word("description", words)
        .word("exceptionId", "stop")
        .build()
}
