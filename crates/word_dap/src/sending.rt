//! Messages written one after another.

ghost use Rattle.std.specs.Prelude.{◌≡◌, ℕ, IfErr, IfOk, List, OnErr, OnOk, map};
ghost use Rattle.std.specs.Io.KnownBytes.{Appends};
ghost use Rattle.serde_json.specs.View.{view};
ghost use Rattle.word_dap.specs.Sent.{AreBegun, AreSent, IsSent};
ghost use Rattle.dap_messages.specs.Messages.{next_number, said_of};
ghost use Rattle.json_messages.specs.Taken.{IsUnwritten};
ghost use Rattle.model.specs.Writers.{AppendsFront};

use dap_messages::{Message, message_value, next_number};
use json_messages::{StreamFault, write_value};
use serde_json::Value;
use std::alloc::Global;
use std::io::Write;

/// Writes and flushes a message as an answer to a request, after so many that were sent.
fn send_one<W: Write>(
    alloc: Global,
    sent: u64,
    request: &Value,
    message: &Message,
    writer: &mut W,
) -> Result<u64, StreamFault>
    ensures number { IfOk result (λ total. total ≡ next_number sent) }
    ensures sent { OnOk result ((written : List ℕ)
        × IsSent (next_number sent) (view request.now) (said_of message.now) written
        × Appends (W.contents writer.old) (W.contents writer.new) written) }
    ensures begun { OnErr result ((all : List ℕ)
        × IsSent (next_number sent) (view request.now) (said_of message.now) all
        × AppendsFront (W.contents writer.old) (W.contents writer.new) all) }
    ensures fault { IfErr result IsUnwritten }
{
    let number = next_number(sent);
    match message_value(alloc, number, request, message) {
        Ok(value) => match write_value(alloc, writer, &value) {
            Ok(()) => Ok(number),
            Err(fault) => Err(fault),
        },
        Err(_) => Err(StreamFault::OutOfMemory),
    }
}

/// Writes and flushes messages, one after another, as answers to a request. `sent` messages were
/// sent before. Returns how many are sent then.
///
/// # Errors
///
/// - `Write`: a write or a flush failed.
/// - `OutOfMemory`: an allocation failed.
///
/// A beginning of what is written otherwise is written then.
pub fn send<W: Write>(
    alloc: Global,
    sent: u64,
    request: &Value,
    messages: &[Message],
    writer: &mut W,
) -> Result<u64, StreamFault>
    ensures sent { IfOk result (λ total. (written : List ℕ)
        × AreSent sent (view request.now) (map said_of messages.now) total written
        × Appends (W.contents writer.old) (W.contents writer.new) written) }
    ensures begun { OnErr result ((written : List ℕ)
        × AreBegun sent (view request.now) (map said_of messages.now) written
        × Appends (W.contents writer.old) (W.contents writer.new) written) }
    ensures fault { IfErr result IsUnwritten }
{
    let mut sent = sent;
    for message in messages {
        match send_one(alloc, sent, request, message, writer) {
            Ok(total) => sent = total,
            Err(fault) => return Err(fault),
        }
    }
    Ok(sent)
}
