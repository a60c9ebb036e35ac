//! An output that nobody reads any more.

ghost use Rattle.std.specs.Prelude.{◌≡◌};

use std::cell::Cell;
use std::io;
use std::io::{ErrorKind, Write};

/// The exit status of a word whose output nobody reads any more: what a shell says of a program
/// that SIGPIPE ended, as `cat`.
pub const UNREAD: u8 = 141;

/// Returns the words behind the command's name, which stands first.
pub fn after_name<'a>(words: &'a [&'a str]) -> &'a [&'a str] {
    if words.is_empty() { words } else { &words[1..] }
}

/// A writer that notes whether a write failed since nobody reads what is written.
#[derive(Drop)]
pub struct Piped<'a, W: Write> {
    inner: W,
    is_unread: &'a Cell<bool>,
}

impl<'a, W: Write> Piped<'a, W> {
    /// Returns a writer of what `inner` writes, which notes that nobody reads it in `is_unread`.
    pub fn new(inner: W, is_unread: &'a Cell<bool>) -> Piped<'a, W>
        ensures { result.inner ≡ inner }
    {
        Piped { inner, is_unread }
    }
}

impl<W: Write> Write for Piped<'_, W> {
    ghost contents = { λ w. W.contents w.inner };

    /// Writes once.
    ///
    /// Errors: those of the inner writer. `BrokenPipe` is noted; no clause can say what a cell
    /// holds.
    fn write(&mut self, buf: &[u8]) -> io::Result<usize> {
        match self.inner.write(buf) {
            Ok(count) => Ok(count),
            Err(error) => {
                if error.kind() == ErrorKind::BrokenPipe {
                    self.is_unread.set(true);
                }
                Err(error)
            }
        }
    }

    fn flush(&mut self) -> io::Result<()> {
        self.inner.flush()
    }
}

/// An error stream that gets nothing once nobody reads the output.
#[derive(Drop)]
pub struct Quiet<'a, W: Write> {
    inner: W,
    is_unread: &'a Cell<bool>,
}

impl<'a, W: Write> Quiet<'a, W> {
    /// Returns a writer of what `inner` writes, until `is_unread` says that nobody reads the
    /// output.
    pub fn new(inner: W, is_unread: &'a Cell<bool>) -> Quiet<'a, W>
        ensures { result.inner ≡ inner }
    {
        Quiet { inner, is_unread }
    }
}

impl<W: Write> Write for Quiet<'_, W> {
    ghost contents = { λ w. W.contents w.inner };

    /// Writes once.
    ///
    /// Errors: those of the inner writer; `BrokenPipe` once nobody reads the output.
    fn write(&mut self, buf: &[u8]) -> io::Result<usize> {
        if self.is_unread.get() {
            return Err(io::Error::from(ErrorKind::BrokenPipe));
        }
        self.inner.write(buf)
    }

    fn flush(&mut self) -> io::Result<()> {
        self.inner.flush()
    }
}
