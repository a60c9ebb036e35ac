//! What is wrong in a line, and what the line is about.

use mon_line_parts::{Flaw, Topic};

/// A line that asks for nothing that can be done: what it is about, and what is wrong in it.
#[derive(Clone, Copy)]
pub struct Slip<'a> {
    pub topic: Option<Topic>,
    pub flaw: Flaw<'a>,
}
