//! A writer by which a run is interrupted.

ghost use Rattle.std.specs.Prelude.{◌≡◌, OnOk, false, true};
ghost use Rattle.std.specs.Io.KnownBytes.{Keeps};
ghost use Rattle.word_run.specs.Requests.{Came, NoneCame};

use std::fs::File;
use std::io::{ErrorKind, Read, Write};
use std::rt::{Env, Files};
use std::{io, str};

/// The variable of the environment that names the file whose first byte interrupts a run.
const VARIABLE: &str = "MOS65_INTERRUPT";

/// How many bytes the name of that file may have.
const LONGEST: usize = 4096;

/// Opens the file whose first byte interrupts a run, if the environment names one. Where it cannot
/// be opened there is none. Without a name no memory is asked for.
pub fn open_requests<H: Env + Files>(rt: &H) -> Option<H::File> {
    let mut name = [0u8; LONGEST];
    let length = rt.var(VARIABLE, &mut name).ok()?;
    let name = str::from_utf8(&name[..length]).ok()?;
    File::open(rt, name).ok()
}

/// A writer that writes what another one does, and can be told to break off: its flush fails once
/// a byte has come from `requests`, and from then on.
///
/// `console::play` flushes what it writes before a line is read, at the end, and every million
/// steps or two, so this is where a run breaks off.
#[derive(Drop)]
pub struct Interruptible<W: Write, S: Read> {
    inner: W,
    requests: Option<S>,
    interrupted: bool,
}

impl<W: Write, S: Read> Interruptible<W, S> {
    /// Returns a writer of what `inner` writes. Without `requests` it is never interrupted.
    pub fn new(inner: W, requests: Option<S>) -> Interruptible<W, S>
        ensures inner { result.inner ≡ inner }
        ensures requests { result.requests ≡ requests }
        ensures not { result.interrupted ≡ false }
    {
        Interruptible {
            inner,
            requests,
            interrupted: false,
        }
    }

    /// Returns whether a flush found that a byte had come.
    pub fn was_interrupted(&self) -> bool
        ensures { result ≡ self.now.interrupted }
    {
        self.interrupted
    }

    /// Looks whether a byte has come, if none came before. A read that fails gives none.
    fn look(&mut self)
        ensures inner { self.new.inner ≡ self.old.inner }
        ensures stays { self.old.interrupted ≡ true → self.new.interrupted ≡ true }
        ensures came { self.old.interrupted ≡ false → self.new.interrupted ≡ true
            → Came S.remaining self.old.requests self.new.requests }
        ensures none_came { self.new.interrupted ≡ false
            → NoneCame S.remaining self.old.requests self.new.requests }
    {
        if self.interrupted {
            return;
        }
        let Some(requests) = &mut self.requests else {
            return;
        };
        let mut byte = [0u8; 1];
        if let Ok(count) = requests.read(&mut byte) {
            self.interrupted = count > 0;
        }
    }
}

impl<W: Write, S: Read> Write for Interruptible<W, S> {
    ghost contents = { λ w. W.contents w.inner };

    fn write(&mut self, buf: &[u8]) -> io::Result<usize> {
        self.inner.write(buf)
    }

    /// Flushes what was written, and looks whether a byte has come.
    ///
    /// Errors: those of the inner writer; `Interrupted` once a byte has come.
    fn flush(&mut self) -> io::Result<()>
        ensures bytes { Keeps (W.contents self.old.inner) (W.contents self.new.inner) }
        ensures goes_on { OnOk result (self.new.interrupted ≡ false) }
        ensures stays { self.old.interrupted ≡ true → self.new.interrupted ≡ true }
        ensures came { self.old.interrupted ≡ false → self.new.interrupted ≡ true
            → Came S.remaining self.old.requests self.new.requests }
        ensures none_came { self.new.interrupted ≡ false
            → NoneCame S.remaining self.old.requests self.new.requests }
    {
        self.inner.flush()?;
        self.look();
        if self.interrupted {
            return Err(io::Error::from(ErrorKind::Interrupted));
        }
        Ok(())
    }
}
