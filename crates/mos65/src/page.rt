//! The command `page`.

use crate::debug_file::{has_file, with_program};
use crate::pipe::{Piped, Quiet, after_name};
use std::cell::Cell;
use std::io;
use word_page::{page, page_command};

/// Serves `page`, and returns the exit status. `words` begin with the command's name.
pub fn serve(rt: &HostRuntime, words: &[&str], unread: &Cell<bool>) -> u8 {
    let is_file = |some: &[&str], file: &str| has_file(page_command(rt.alloc()), some, file);
    with_program(rt, after_name(words), unread, is_file, |all| {
        page(
            rt,
            all,
            &mut Piped::new(io::writer(rt), unread),
            &mut Quiet::new(rt.stderr(), unread),
        )
    })
}
