//! Readers and writers that fail, or that give or take so many bytes at a time.

use std::alloc::Global;
use std::cell::Cell;
use std::io;
use std::io::{ErrorKind, Read, Write};

/// A reader of some bytes. A read behind them fails, unless they have an end.
#[derive(Drop)]
pub struct LimitedReader<'a> {
    pub rest: &'static [u8],
    /// The most bytes that a read gives.
    pub most: usize,
    pub has_end: bool,
    /// How many bytes of the writer wait for a flush.
    pub waiting: &'a Cell<usize>,
    /// Whether some waited at a read.
    pub is_early: bool,
}

impl Read for LimitedReader<'_> {
    fn read(&mut self, buf: &mut [u8]) -> io::Result<usize> {
        if self.waiting.get() > 0 {
            self.is_early = true;
        }
        let count = buf.len().min(self.most).min(self.rest.len());
        if count == 0 && !self.has_end {
            return Err(io::Error::from(ErrorKind::ConnectionReset));
        }
        buf[..count].copy_from_slice(&self.rest[..count]);
        self.rest = &self.rest[count..];
        Ok(count)
    }
}

/// A writer that takes so many bytes, and of which so many flushes succeed.
#[derive(Drop)]
pub struct LimitedWriter<'a> {
    pub text: Vec<u8>,
    /// The most bytes that a write takes.
    pub most: usize,
    /// How many bytes it still takes.
    pub room: usize,
    /// How many flushes still succeed.
    pub flushes: u32,
    /// How many bytes wait for a flush.
    pub waiting: &'a Cell<usize>,
}

impl LimitedWriter<'_> {
    /// Returns a writer that takes bytes up to its room.
    pub fn new(
        alloc: Global,
        most: usize,
        room: usize,
        flushes: u32,
        waiting: &Cell<usize>,
    ) -> LimitedWriter<'_> {
        LimitedWriter {
            text: Vec::new(alloc),
            most,
            room,
            flushes,
            waiting,
        }
    }

    /// Returns what was written, if it is text.
    pub fn text(&self) -> &str {
        str::from_utf8(&self.text).unwrap_or("no text")
    }
}

impl Write for LimitedWriter<'_> {
    fn write(&mut self, buf: &[u8]) -> io::Result<usize> {
        let count = buf.len().min(self.most).min(self.room);
        self.text.extend_from_slice(&buf[..count])?;
        self.room -= count;
        self.waiting.set(self.waiting.get().saturating_add(count));
        Ok(count)
    }

    fn flush(&mut self) -> io::Result<()> {
        if self.flushes == 0 {
            return Err(io::Error::from(ErrorKind::BrokenPipe));
        }
        self.flushes -= 1;
        self.waiting.set(0);
        Ok(())
    }
}
