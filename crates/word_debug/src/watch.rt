//! A writer that watches what it passes on.

ghost use Rattle.std.specs.Prelude.{◌≡◌, ℕ, List, Option, Some};
ghost use Rattle.std.specs.Io.KnownBytes.{Appends};

use crate::heard::Heard;
use crate::log::Log;
use std::io;
use std::io::Write;

/// A writer that passes bytes on to another one, and notes what is seen in them.
///
/// By its clauses it holds what the other one held at first and the bytes that it was told, as
/// `specs/Told.antt` says. The writer as it was at first exists only in proofs.
#[derive(Drop)]
pub struct Watch<W> {
    pub inner: W,
    pub heard: Heard,
    pub first: Log<W>,
}

impl<W: Write> Watch<W> {
    ghost use Rattle.word_debug.specs.Seen.{seen_in};
    ghost use Rattle.word_debug.specs.Told.{held_first, known_framed, told_to};

    /// Watches a writer from now on.
    pub fn over(inner: W) -> Watch<W>
        ensures told { told_to (held_first W.contents result.first.items) (W.contents result.inner)
            result.heard.told.items ≡ Some (known_framed (W.contents inner)) }
        ensures inner { result.inner ≡ inner }
    {
        let first = Log::new().and(&inner);
        Watch {
            inner,
            heard: Heard::nothing(),
            first,
        }
    }

    /// Returns whether what was written tells of a fault, and the writer.
    pub fn finish(self) -> (bool, W)
        ensures inner { result.1 ≡ self.inner }
        // The writer got what was written to the watch, and what is seen is seen in that.
        ensures passed { (held : Option (List ℕ)) → (text : List ℕ)
            → Appends (Some (known_framed held)) (told_to (held_first W.contents self.first.items)
            (W.contents self.inner) self.heard.told.items) text
            → (result.0 ≡ (seen_in text).has_fault) × Appends held (W.contents result.1) text }
    {
        let Watch {
            inner,
            heard,
            first: _,
        } = self;
        (heard.seen.has_fault, inner)
    }
}

impl<W: Write> Write for Watch<W> {
    ghost use Rattle.word_debug.specs.Told.{held_first, told_to};

    ghost contents = { λ w. told_to (held_first W.contents w.first.items) (W.contents w.inner)
        w.heard.told.items };

    fn write(&mut self, buf: &[u8]) -> io::Result<usize> {
        let count = self.inner.write(buf)?;
        self.heard.hear(&buf[..count]);
        Ok(count)
    }

    fn flush(&mut self) -> io::Result<()> {
        self.inner.flush()
    }
}
