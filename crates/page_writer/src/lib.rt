//! A run as a page, written while it is made, and what a page has besides: facts of a program, its
//! source, and the viewer.
//!
//! `write_page` writes the template of a viewer with what is told of a program between its parts:
//! facts, the source, the run, and how it ended. The run is that of `console`, and its data are
//! those of `page_data`: read again, they give the state at the start and the state after each
//! step, one after another (`specs/Data.antt`). The records go to the writer as they come, so
//! memory does not grow with the steps. `page_of` makes a page of data that were recorded before.
//! Nothing between the parts ends a script or begins markup.
//!
//! `facts_of` and `source_of` make what is told of a program (`specs/Facts.antt`), with the files
//! of one that another tool built (`specs/Files.antt`); `push_opening` adds what a page shows when
//! it is opened, and `viewer` is the template between whose parts it stands. A page of another run
//! is known by `PAGE_FRONT`, with which each page of this viewer begins.
#![tactic(auto)]

mod facts;
mod files;
mod in_line;
mod names;
mod opcodes;
mod opening;
mod page;
mod pieces;
mod run;
mod stretches;
mod template;
mod turn;
mod wording;

pub use facts::{Program, facts_of, source_of};
pub use opening::{Note, Opening, push_opening};
pub use page::{Template, Texts, page_of, write_page};
pub use page_data::SendFault;
pub use pieces::PAGE_FRONT;
pub use template::viewer;
