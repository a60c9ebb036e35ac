//! The command `dap`.

use crate::pipe::after_name;
use standard_streams::Retrying;
use std::cell::Cell;
use std::io;
use word_dap::dap;

/// Serves an editor by `dap`, and returns the exit status. `words` begin with the command's
/// name.
pub fn serve(rt: &HostRuntime, words: &[&str], _unread: &Cell<bool>) -> u8 {
    dap(
        rt,
        after_name(words),
        &mut Retrying::new(rt.reader()),
        &mut io::writer(rt),
        &mut rt.stderr(),
    )
}
