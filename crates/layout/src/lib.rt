//! The layout of a line: its form, its size, the next line's address, and the name that it defines.
//!
//! `place_line` places a line after the lines before it, by the form of its instruction (`forms`)
//! and the size of what it denotes (`layout`).
#![tactic(auto)]

mod forms;
mod layout;
mod placing;

pub use forms::zero_page_mode;
pub use layout::Placement;
pub use placing::place_line;
