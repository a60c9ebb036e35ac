//! The command `trace`.

use crate::debug_file::{has_file, with_program};
use crate::pipe::{Piped, Quiet, after_name};
use arguments_play::trace_command;
use standard_streams::Retrying;
use std::cell::Cell;
use std::io;
use word_trace::trace_program;

/// Serves `trace`, and returns the exit status. `words` begin with the command's name.
pub fn serve(rt: &HostRuntime, words: &[&str], unread: &Cell<bool>) -> u8 {
    let is_file = |some: &[&str], file: &str| has_file(trace_command(rt.alloc()), some, file);
    with_program(rt, after_name(words), unread, is_file, |all| {
        trace_program(
            rt,
            all,
            &mut Retrying::new(rt.reader()),
            &mut Piped::new(io::writer(rt), unread),
            &mut Quiet::new(rt.stderr(), unread),
        )
    })
}
