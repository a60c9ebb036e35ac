//! The word `lsp`: the Language Server Protocol on standard input and output.
//!
//! `lsp` is the word, with its words (`words`). `serving` takes messages from the input and writes
//! what is answered before it takes the next, `server` does what a message asks for, over the
//! documents that are open (`documents`), on the map that the client has chosen (`settings`), by
//! how far it has come (`phase`). `marking` has the notices of what is marked. `answers` has the
//! answer to each request, `questions` what is answered to questions about documents, and
//! `searching` to a search of all. `capabilities` says what the server can do. What a message asks
//! for is read by `lsp_messages`, what is answered of a source is made by `lsp_answers` and
//! `lsp_hints`, and `lsp_messages` makes the values. `specs/Messages.antt` says what the server
//! does with a message, `specs/Answers.antt` what it answers, `specs/Settings.antt` on which map.
#![tactic(auto)]

mod answers;
mod capabilities;
mod documents;
mod marking;
mod phase;
mod questions;
mod searching;
mod server;
mod serving;
mod settings;
mod words;

pub use serving::lsp;
pub use words::lsp_command;
