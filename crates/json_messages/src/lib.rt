//! The messages of a byte stream, as the Debug Adapter Protocol and the Language Server Protocol
//! write them, and the JSON values in them, whatever the protocol.
//!
//! A message is a header with the length of a body, a blank line, and the body. `front` says what
//! stands in front of some bytes, `incoming` takes messages from a reader, `framed` writes them.
//! What a message is stands in `specs/Messages.antt`, what is taken from a reader in
//! `specs/Taken.antt`. `laws` states that a message that is written is read again.
//!
//! `bodies` reads a value from the body of a message and writes it as one. `fields` finds a text, a
//! number or a flag of a message by its path, `object` builds an object one member after another,
//! `value_list` a list one value after another. What a body says stands in `specs/Bodies.antt`,
//! what stands at a path in `specs/Fields.antt`, which value an object or a list is in
//! `specs/Values.antt`.
#![tactic(auto)]

mod bodies;
mod fault;
mod fields;
mod framed;
mod front;
mod incoming;
pub mod laws;
mod object;
mod value_list;

pub use bodies::{value_of, write_value};
pub use fault::StreamFault;
pub use fields::{flag_or, number_at, text_at, text_or};
pub use framed::write_message;
pub use front::Front;
pub use incoming::Incoming;
pub use object::Object;
pub use value_list::ValueList;
