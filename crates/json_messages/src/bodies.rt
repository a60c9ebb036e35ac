//! Values as the bodies of messages.

ghost use Rattle.std.specs.Prelude.{IfErr, IfOk, List, OnErr, OnOk, ℕ};
ghost use Rattle.std.specs.Io.KnownBytes.{Appends};
ghost use Rattle.std.specs.Option.{option_map};
ghost use Rattle.json_messages.specs.Bodies.{IsMessage, IsTextOf};
ghost use Rattle.json_messages.specs.Messages.{framed};
ghost use Rattle.json_messages.specs.Taken.{IsUnwritten};
ghost use Rattle.model.specs.Writers.{AppendsFront};
ghost use Rattle.serde_json.specs.View.{view};

use crate::fault::StreamFault;
use crate::framed::write_message;
use serde_json::Value;
use std::alloc::{AllocError, Global};
use std::io::Write;

/// Returns the value of a body, or nothing if it is no JSON. The only error is that a request for
/// memory was refused.
pub fn value_of(alloc: Global, body: &[u8]) -> Result<Option<Value>, AllocError>
    ensures { IfOk result (λ found. IsMessage body.now (option_map view found)) }
{
    match Value::from_slice(alloc, body) {
        Ok(value) => Ok(Some(value)),
        Err(error) => {
            if error.is_memory() {
                Err(AllocError)
            } else {
                Ok(None)
            }
        }
    }
}

/// Writes a value as the body of a message, and flushes the writer.
///
/// # Errors
///
/// - `Write`: the write or the flush failed. A beginning of the message, or all of it, was written.
/// - `OutOfMemory`: an allocation failed. Nothing was written.
pub fn write_value<W: Write>(
    alloc: Global,
    writer: &mut W,
    value: &Value,
) -> Result<(), StreamFault>
    ensures written { OnOk result ((text : List ℕ) × IsTextOf (view value.now) text
        × Appends (W.contents writer.old) (W.contents writer.new) (framed text)) }
    ensures begun { OnErr result ((text : List ℕ) × IsTextOf (view value.now) text
        × AppendsFront (W.contents writer.old) (W.contents writer.new) (framed text)) }
    ensures fault { IfErr result IsUnwritten }
{
    match value.to_string(alloc) {
        Ok(text) => write_message(alloc, writer, text.as_bytes()),
        Err(_) => Err(StreamFault::OutOfMemory),
    }
}
