//! Help, the version, and words that are none of the program's.

use crate::command_line::tell_whole;
use crate::pipe::{Piped, Quiet};
use std::cell::Cell;
use std::io;

/// Serves words by the whole command line, and returns the exit status.
pub fn serve(rt: &HostRuntime, words: &[&str], unread: &Cell<bool>) -> u8 {
    tell_whole(
        rt.alloc(),
        words,
        &mut Piped::new(io::writer(rt), unread),
        &mut Quiet::new(rt.stderr(), unread),
    )
}
