//! The runs that lines of `mon` ask for: a subroutine made as one step, or left; a run to an
//! address, for some steps, or until something stops it; back over a subroutine, or to the last
//! stop; and undone events made again. And what stops a run beyond the session's own breakpoints:
//! tests and times of breaks, and watches for reads and writes and of registers.
//!
//! - `stops` holds the breaks (`breaks`) and the watches (`watches`). `specs/Stops.antt` says when
//!   the tests of a break hold, and which register a step has changed.
//! - `looked` makes single steps and looks at each (`specs/Looked.antt`), and `rests` says where a
//!   program has nothing to do, or waits for input (`specs/Rests.antt`).
//! - `stretches` makes so many steps, on past a break whose tests do not hold. `runs` makes the
//!   runs (`specs/PastBreaks.antt`).
//! - `back` and `recall` undo events, and make undone events again (`specs/Back.antt`,
//!   `specs/Recall.antt`).
//! - `laws` states that a run that is looked at leads where as many steps lead, and that undone
//!   events made again lead to the states that were there.
#![tactic(auto)]

mod back;
mod breaks;
mod changes;
mod ended;
pub mod laws;
mod looked;
mod recall;
mod rests;
mod runs;
mod stops;
mod stretches;
mod tests;
mod watches;

pub use back::back_over;
pub use breaks::Break;
pub use changes::RegisterChange;
pub use debugger::{Event, RunEnd, Session, SessionFault, Why};
pub use ended::{EndWhy, Ended};
pub use looked::{Goal, Made, make_step};
pub use mon_lines::WatchKind;
pub use recall::{back_to_stop, make_again};
pub use rests::has_no_handler;
pub use runs::{MOST_STEPS, go, out, over, run, until};
pub use stops::Stops;
pub use watches::Watch;
