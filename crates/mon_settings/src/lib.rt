//! Lines of `mon` that change what a session has.
//!
//! `breaks`, `watches` and `deleting` set, list and delete breaks and watches, `displays` says
//! which bytes are shown at each stop. `bytes` puts bytes into memory or hands them to the
//! console's input, `asm` assembles an instruction, for which `names` puts addresses in place of
//! names.
//! `events` sets registers, flags and interrupt lines. What each line does stands in
//! `specs/StopLines.antt`, `specs/ByteLines.antt`, `specs/FlagLines.antt` and
//! `specs/Displays.antt`, what it says there and in `specs/StopTexts.antt` and
//! `specs/ChangeTexts.antt`.
#![tactic(auto)]

mod again;
mod asm;
mod breaks;
mod bytes;
mod deleting;
mod displays;
mod events;
mod names;
mod watches;
pub mod wording;

pub use asm::assemble;
pub use breaks::{addresses_at, set_breaks};
pub use bytes::{hand_in, put};
pub use deleting::{delete, delete_register, list};
pub use displays::{display, is_displayed, list_displays, show_displays, undisplay};
pub use events::{ask_nmi, reset, set, set_flag, set_irq};
pub use watches::{Unwatched, set_watch};
