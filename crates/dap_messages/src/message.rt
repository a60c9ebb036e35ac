//! Messages to the client.

ghost use Rattle.std.specs.Prelude.{◌≡◌, IfOk};
ghost use Rattle.dap_messages.specs.Messages.{data_of, next_number, response_members, said_of};
ghost use Rattle.json_messages.specs.Objects.{IsObject};
ghost use Rattle.serde_json.specs.View.{view};

use crate::answer::Answer;
use crate::bodies::nothing;
use crate::client_event::ClientEvent;
use crate::names::{command_of, number_of};
use json_messages::Object;
use serde_json::Value;
use std::alloc::{AllocError, Global};

/// A message to the client, but for its number.
#[derive(Drop)]
pub enum Message {
    /// A request is done, with this answer.
    Done(Answer),
    /// A request is refused, with these words.
    Refused(String),
    /// Something has happened.
    Event(ClientEvent),
}

/// Returns the number of the message that is sent after so many.
pub fn next_number(sent: u64) -> u64
    ensures { result ≡ next_number sent }
{
    if sent == u64::MAX { sent } else { sent + 1 }
}

/// Begins the response to a request.
fn response(alloc: Global, request: &Value) -> Object
    ensures { IsObject (response_members (view request.now)) result }
{
    Object::new(alloc)
        .word("command", command_of(request))
        .count("request_seq", number_of(request))
        .word("type", "response")
}

/// Returns a message with its number, as an answer to a request.
pub fn message_value(
    alloc: Global,
    number: u64,
    request: &Value,
    message: &Message,
) -> Result<Value, AllocError>
    ensures { IfOk result
        (λ v. view v ≡ data_of number (view request.now) (said_of message.now)) }
{
    match message {
        Message::Done(answer) => response(alloc, request)
            .member("body", answer.body(alloc))
            .count("seq", number)
            .flag("success", true)
            .build(),
        Message::Refused(words) => response(alloc, request)
            .member("body", nothing(alloc))
            .word("message", words.as_str())
            .count("seq", number)
            .flag("success", false)
            .build(),
        Message::Event(told) => Object::new(alloc)
            .member("body", told.body(alloc))
            .word("event", told.word())
            .count("seq", number)
            .word("type", "event")
            .build(),
    }
}
