//! A reader whose reads are made again where a signal interrupts them.

ghost use Rattle.std.specs.Prelude.{◌≡◌, ◌≢◌, IfErr};
ghost use Rattle.std.specs.Io.{ReadsAtMost};
ghost use Rattle.std.specs.Io.KnownBytes.{ReadConsumes};
ghost use Rattle.std.specs.IoError.{error_kind};

use std::io;
use std::io::{ErrorKind, IsTerminal, Read};

/// A reader that reads what another one does. A read that a signal interrupts is made again.
#[derive(Drop)]
pub struct Retrying<R: Read> {
    inner: R,
}

impl<R: Read> Retrying<R> {
    /// Returns a reader of what `inner` reads.
    pub fn new(inner: R) -> Retrying<R>
        ensures { result.inner ≡ inner }
    {
        Retrying { inner }
    }
}

impl<R: Read> Read for Retrying<R> {
    ghost remaining = { λ r. R.remaining r.inner };

    /// Reads once, and again as long as a signal interrupts that.
    ///
    /// Errors: those of the inner reader but `Interrupted`; `TimedOut` after 2^64 - 1 reads that
    /// were interrupted.
    fn read(&mut self, buf: &mut [u8]) -> io::Result<usize>
        ensures bound { ReadsAtMost result buf.new }
        ensures bytes { ReadConsumes (R.remaining self.old.inner) (R.remaining self.new.inner)
            result buf.new }
        ensures retried { IfErr result (λ e. error_kind e ≢ ErrorKind.Interrupted) }
    {
        for _ in 0..u64::MAX {
            match self.inner.read(buf) {
                Ok(len) => return Ok(len),
                Err(error) => {
                    if error.kind() != ErrorKind::Interrupted {
                        return Err(error);
                    }
                }
            }
        }
        Err(io::Error::from(ErrorKind::TimedOut))
    }
}

impl<R: Read + IsTerminal> IsTerminal for Retrying<R> {
    fn is_terminal(&self) -> bool {
        self.inner.is_terminal()
    }
}
