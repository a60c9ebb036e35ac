//! Answers as they are written.

ghost use Rattle.std.specs.Prelude.{◌≡◌, IfOk, map as each};
ghost use Rattle.dap_messages.specs.SeenAnswers.{answer_view, item_view};
ghost use Rattle.dap_messages.specs.Written.{answer_data, item_data, items_data};
ghost use Rattle.json_messages.specs.Values.{list_of};
ghost use Rattle.serde_json.specs.View.{view};

use crate::answer::Answer;
use crate::answers::{exception, value_set, written_body};
use crate::bodies::{capabilities, continued, nothing, scopes, threads};
use crate::break_values::{
    breakpoint_set, breakpoint_unset, breakpoints_body, completion_item, data_at, data_unwatched,
    data_watched, goto_target, no_data, place_on, targets_body,
};
use crate::item::{Item, SourcePlace};
use crate::values::{
    frame_at_line, frame_without_line, frames_body, instruction_at_line, instruction_row,
    instructions_body, look_body, memory_body, no_instruction, source, sources_body,
};
use crate::variable_values::{local_at, plain_variable, variable, variable_at, variables_body};
use json_messages::ValueList;
use serde_json::Value;
use std::alloc::{AllocError, Global};

impl Item {
    /// Returns the value that it is written as.
    fn value(&self, alloc: Global) -> Result<Value, AllocError>
        ensures { IfOk result (λ v. view v ≡ item_data (item_view self.now)) }
    {
        match self {
            Item::Variable { name, value } => variable(alloc, name.as_str(), value.as_str()),
            Item::PlainVariable { name, value } => {
                plain_variable(alloc, name.as_str(), value.as_str())
            }
            Item::Byte {
                name,
                address,
                value,
            } => variable_at(alloc, name.as_str(), *address, value.as_str()),
            Item::Local {
                name,
                address,
                value,
            } => local_at(alloc, name.as_str(), *address, value.as_str()),
            Item::FrameAtLine {
                id,
                address,
                words,
                line,
                column,
                name,
                path,
            } => {
                let place = SourcePlace {
                    name: name.as_str(),
                    path: path.as_str(),
                    line: *line,
                    column: *column,
                };
                frame_at_line(alloc, *id, *address, words.as_str(), place)
            }
            Item::Frame { id, address, words } => {
                frame_without_line(alloc, *id, *address, words.as_str())
            }
            Item::Instruction {
                address,
                bytes,
                text,
            } => instruction_row(alloc, *address, bytes.as_str(), text.as_str()),
            Item::InstructionAtLine {
                address,
                bytes,
                text,
                line,
                path,
            } => instruction_at_line(
                alloc,
                *address,
                bytes.as_str(),
                text.as_str(),
                *line,
                path.as_str(),
            ),
            Item::NoInstruction(address) => no_instruction(alloc, address.as_str()),
            Item::BreakpointSet { id, address, line } => {
                breakpoint_set(alloc, *id, *address, *line)
            }
            Item::BreakpointUnset { id, line, words } => {
                breakpoint_unset(alloc, *id, *line, words.as_str())
            }
            Item::Watched => data_watched(alloc),
            Item::Unwatched(words) => data_unwatched(alloc, words.as_str()),
            Item::Place(line) => place_on(alloc, *line),
            Item::GotoTarget { address, line } => goto_target(alloc, *address, *line),
            Item::Source { name, path } => source(alloc, name.as_str(), path.as_str()),
            Item::Completion { text, start, count } => {
                completion_item(alloc, text.as_str(), *start, *count)
            }
        }
    }
}

/// Returns the list that items are written as.
fn items_value(alloc: Global, items: &[Item]) -> Result<Value, AllocError>
    ensures { IfOk result
        (λ v. view v ≡ list_of (items_data (each item_view items.now))) }
{
    let mut list = ValueList::new(alloc);
    for item in items {
        list = list.with(item.value(alloc));
    }
    list.build()
}

impl Answer {
    /// Returns the body of the message.
    pub fn body(&self, alloc: Global) -> Result<Value, AllocError>
        ensures { IfOk result (λ v. view v ≡ answer_data (answer_view self.now)) }
    {
        match self {
            Answer::Nothing => nothing(alloc),
            Answer::Capabilities => capabilities(alloc),
            Answer::Continued => continued(alloc),
            Answer::Threads => threads(alloc),
            Answer::Scopes { is_first, locals } => scopes(alloc, *is_first, *locals),
            Answer::Breakpoints(items) => {
                breakpoints_body(alloc, items_value(alloc, items.as_slice()))
            }
            Answer::Targets(items) => targets_body(alloc, items_value(alloc, items.as_slice())),
            Answer::Instructions(items) => {
                instructions_body(alloc, items_value(alloc, items.as_slice()))
            }
            Answer::Sources(items) => sources_body(alloc, items_value(alloc, items.as_slice())),
            Answer::Variables(items) => {
                variables_body(alloc, items_value(alloc, items.as_slice()))
            }
            Answer::Frames { frames, total } => {
                frames_body(alloc, items_value(alloc, frames.as_slice()), *total)
            }
            Answer::Memory {
                address,
                text,
                unread,
            } => memory_body(alloc, *address, text.as_str(), *unread),
            Answer::Look { address, words } => look_body(alloc, *address, words.as_str()),
            Answer::ValueSet(words) => value_set(alloc, words.as_str()),
            Answer::Written(count) => written_body(alloc, *count),
            Answer::Exception(words) => exception(alloc, words.as_str()),
            Answer::DataAt(range) => data_at(alloc, *range),
            Answer::NoData(words) => no_data(alloc, words.as_str()),
        }
    }
}
