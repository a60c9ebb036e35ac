//! The command `convert`.

use crate::pipe::{Piped, Quiet, after_name};
use std::cell::Cell;
use std::io;
use word_convert::convert;

/// Serves `convert`, and returns the exit status. `words` begin with the command's name.
pub fn serve(rt: &HostRuntime, words: &[&str], unread: &Cell<bool>) -> u8 {
    convert(
        rt,
        after_name(words),
        &mut Piped::new(io::writer(rt), unread),
        &mut Quiet::new(rt.stderr(), unread),
    )
}
