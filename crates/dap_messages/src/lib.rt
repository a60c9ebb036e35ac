//! The messages of the Debug Adapter Protocol: what a client asks for, and what it is sent.
//!
//! `reading` reads a message to a `request`, which has its arguments; `names` has which request a
//! message is, by its command, `members` which values a launch can have. `listed` is what a client
//! has listed and was told, `halt` why the machine stands. `counting` is how a client counts lines,
//! `references` how it names an address.
//!
//! `answer` is what is answered, with the lists of `item_list`, which have items (`item`), and
//! `client_event` what a client is told besides: plain values. `written` has the JSON that each
//! answer is written as, made by `bodies`, `answers`, `values` (frames, rows of a disassembly,
//! bytes, events), `break_values` (breakpoints, lines, watches) and `variable_values`. `message`
//! puts it, a refusal or an event into a message with its number. `texts` has addresses and
//! references as they are shown. No crate above reads a request from JSON or makes a body.
//!
//! Which request each command is stands in `specs/Names.antt`, what a message asks for in
//! `specs/Requests.antt`, with the requests of `specs/Seen.antt` and the members of
//! `specs/Members.antt`. What a client means stands in `specs/Counting.antt` and
//! `specs/References.antt`, which numbers breakpoints have in `specs/Listed.antt`.
//!
//! Answers without where their texts lie stand in `specs/SeenAnswers.antt`, events in
//! `specs/Events.antt`; what each is written as in `specs/Written.antt`, with the values of
//! `specs/Bodies.antt`, `specs/Answers.antt`, `specs/Values.antt`, `specs/BreakValues.antt`,
//! `specs/VariableValues.antt` and `specs/Texts.antt`, and messages in `specs/Messages.antt`.
#![tactic(auto)]

mod answer;
mod answers;
mod bodies;
mod break_values;
mod client_event;
mod counting;
mod halt;
mod item;
mod item_list;
mod listed;
mod members;
mod message;
mod names;
mod reading;
mod references;
mod request;
mod texts;
mod values;
mod variable_values;
mod written;

pub use answer::{
    Answer, breakpoints_body, exception, frames_body, instructions_body, look_body, memory_body,
    no_data, sources_body, targets_body, variables_body,
};
pub use client_event::{Category, ClientEvent};
pub use counting::Counting;
pub use halt::{Halt, Reason, stand_by};
pub use item::{
    Item, SourcePlace, breakpoint_unset, completion_item, data_unwatched, frame_at_line,
    frame_without_line, instruction_at_line, instruction_row, local_at, no_instruction,
    plain_variable, source_file, variable, variable_at,
};
pub use item_list::ItemList;
pub use listed::{
    AddressList, FileLines, FunctionList, LineList, Listed, Placed, Told, number_addresses,
    number_functions, number_lines,
};
pub use members::{Form, Member};
pub use message::{Message, message_value, next_number};
pub use reading::request_of;
pub use references::{address_of, range_of};
pub use request::{
    Access, Breakpoints, ByteRange, Change, Condition, DataBreakpoint, FunctionBreakpoint,
    InstructionBreakpoint, Launch, Move, Page, Query, Request, Scope, SessionRequest,
    SourceBreakpoint,
};
pub use texts::{address_text, reference};
