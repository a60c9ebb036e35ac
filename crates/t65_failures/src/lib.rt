//! Why a row has failed, as text.
//!
//! `Bench` is the machine that the rows ran on. For a row that has failed it is made again, so that
//! what was expected, what came and the last steps can be told. `specs/Failures.antt` says what is
//! told of a row, `specs/Steps.antt` which steps, and `specs/Texts.antt` how places and values are
//! written; `specs/Faulty.antt` says what is told of a row that cannot be read. Their words stand
//! in `wording`.
#![tactic(auto)]

mod detail;
mod faulty;
mod steps;
mod texts;
mod wording;

pub use detail::{Bench, detail_of};
pub use faulty::faulty_text;
