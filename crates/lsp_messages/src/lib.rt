//! The messages of the Language Server Protocol: what a message asks for, and the values that an
//! answer is made of.
//!
//! `requests` reads a message, by its method and by what stands in it; `asked` has what it asks
//! for, and `settings` reads what an editor sets. `columns` counts columns in units of UTF-16,
//! `text_places` finds a place in a text, and `text_changes` has the text after a change. `places`
//! has ranges and locations, `pieces` what stands in an answer, `replies` the envelopes.
//! `specs/Requests.antt` says what each message asks for, `specs/Settings.antt` what it sets,
//! `specs/TextChanges.antt` what a change does, `specs/Values.antt` and `specs/Replies.antt` which
//! value each answer is.
#![tactic(auto)]

mod asked;
mod columns;
mod pieces;
mod places;
mod replies;
mod requests;
mod settings;
mod text_changes;
mod text_places;

pub use asked::{At, Client, Question, Request, Setting, Settings, Whole, Within};
pub use columns::{character_of, column_of};
pub use pieces::{
    changes, edit, found_symbol, highlight, hover, item, mark, marks, ready, shown, symbol,
};
pub use places::{location, position, range};
pub use replies::{Failure, failure_reply, notice, result_reply};
pub use requests::read_request;
pub use text_changes::changed_text;
pub use text_places::lines_between;
