//! A screen of a session of `mon`: rows that are made of the session's state.
//!
//! `cells` makes rows of the lines of texts, `marks` says which registers have changed, `around`
//! shows the program around PC, `stored` finds the memory that is shown at first, and `view` puts
//! the rows of a screen of some `size` together. Which rows a screen has stands in
//! `specs/View.antt`, how texts become rows in `specs/Cells.antt`.
#![tactic(auto)]

mod around;
mod cells;
mod marks;
mod size;
mod stored;
mod view;
pub mod wording;

pub use size::Size;
pub use stored::first_stretch;
pub use view::{View, has_more, next_skipped, push_view};
