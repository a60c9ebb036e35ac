//! What a client is told besides answers.

ghost use Rattle.std.specs.Prelude.{◌≡◌, IfOk};
ghost use Rattle.dap_messages.specs.Events.{category_word, event_body, event_view, event_word};
ghost use Rattle.serde_json.specs.View.{view};

use crate::bodies::nothing;
use crate::halt::Reason;
use crate::values::{invalidated_body, output_body, stopped_body};
use serde_json::Value;
use std::alloc::{AllocError, Global};

/// Who has put a text out.
#[derive(Clone, Copy)]
pub enum Category {
    /// The program.
    Stdout,
    /// The adapter.
    Console,
}

impl Category {
    /// Returns the word of the protocol.
    pub fn word(self) -> &'static str
        ensures { result.now ≡ category_word self }
    {
        match self {
            Category::Stdout => "stdout",
            Category::Console => "console",
        }
    }
}

/// What a client is told besides answers.
#[derive(Drop)]
pub enum ClientEvent {
    /// Breakpoints may be set.
    Initialized,
    /// The program has ended.
    Terminated,
    /// All that is shown may have changed.
    Invalidated,
    /// A text is put out.
    Output {
        category: Category,
        text: String,
    },
    /// The machine stands: why, in words too, and the numbers of the breakpoints that have stopped
    /// it.
    Stopped {
        reason: Reason,
        words: String,
        hits: Vec<u64>,
    },
}

impl ClientEvent {
    /// Returns the word of the protocol.
    pub fn word(&self) -> &'static str
        ensures { result.now ≡ event_word (event_view self.now) }
    {
        match self {
            ClientEvent::Initialized => "initialized",
            ClientEvent::Terminated => "terminated",
            ClientEvent::Invalidated => "invalidated",
            ClientEvent::Output { .. } => "output",
            ClientEvent::Stopped { .. } => "stopped",
        }
    }

    /// Returns the body of the message.
    pub fn body(&self, alloc: Global) -> Result<Value, AllocError>
        ensures { IfOk result (λ v. view v ≡ event_body (event_view self.now)) }
    {
        match self {
            ClientEvent::Initialized => nothing(alloc),
            ClientEvent::Terminated => nothing(alloc),
            ClientEvent::Invalidated => invalidated_body(alloc),
            ClientEvent::Output { category, text } => {
                output_body(alloc, category.word(), text.as_str())
            }
            ClientEvent::Stopped {
                reason,
                words,
                hits,
            } => stopped_body(alloc, *reason, words.as_str(), hits.as_slice()),
        }
    }
}
