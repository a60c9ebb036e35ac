//! Reading a text of records that comes in pieces.

ghost use Rattle.std.specs.Prelude.{◌≡◌, ◌∷◌, [], IfOk};

use crate::begun::BegunText;
use crate::fault::RecordFault;
use crate::form::TextForm;
use crate::reading::Reading;
use memory_map::Image;
use std::alloc::{AllocError, Global};
use std::marker::Model;

/// Reads a text of Intel HEX or of S-records that comes in pieces: `feed` takes each of them, and
/// `finish` returns the image.
///
/// Lines and columns count from 1. A reader that has met a fault has failed: each later call
/// returns the same fault. `feed` and `finish` do not allocate. A line is read when it ends, and at
/// most 523 bytes of it are held.
#[derive(Drop)]
pub struct RecordReader {
    begun: BegunText,
    failed: Option<RecordFault>,
}

impl Model for RecordReader {
    ghost use Rattle.image_reader.specs.Feeding.{Fed, fed_of};

    ghost Value = { Fed };

    ghost view = { λ r. fed_of r.failed r.begun };
}

impl RecordReader {
    ghost use Rattle.image_reader.specs.Feeding.{answer_of, end_of_feeding, fed, nothing_fed};
    ghost use Rattle.image_reader.specs.Feeding.{overlaps_of_feeding, read_by_feeding};

    /// Makes a reader that was fed nothing.
    ///
    /// The only error is that an allocation failed.
    pub fn new(alloc: Global, form: TextForm) -> Result<RecordReader, AllocError>
        ensures { IfOk result (λ r. r ≡ nothing_fed form) }
    {
        let Ok(image) = Image::new(alloc) else {
            return Err(AllocError);
        };
        let Ok(again) = Image::new(alloc) else {
            return Err(AllocError);
        };
        Ok(RecordReader {
            begun: BegunText::new(form, image, again),
            failed: None,
        })
    }

    /// Takes one byte.
    fn take(&mut self, byte: u8)
        ensures { self.new ≡ fed self.old (byte ∷ []) }
    {
        if self.failed.is_some() {
            return;
        }
        match self.begun.take(byte) {
            Ok(()) => {}
            Err(fault) => self.failed = Some(fault),
        }
    }

    /// Takes bytes one after another, and leaves it to `finish` to return a fault.
    pub fn take_each(&mut self, bytes: &[u8])
        ensures { self.new ≡ fed self.old bytes.now }
    {
        for byte in bytes {
            self.take(*byte);
        }
    }

    /// Takes the next piece of the text, which may be empty.
    ///
    /// Errors: the first fault of the lines that have ended. After an error the reader has failed.
    pub fn feed(&mut self, piece: &[u8]) -> Result<(), RecordFault>
        // The piece comes after what was fed.
        ensures after { self.new ≡ fed self.old piece.now }
        // The result is the reader's fault, if it has one.
        ensures answer { result ≡ answer_of self.new }
    {
        self.take_each(piece);
        match self.failed {
            None => Ok(()),
            Some(fault) => Err(fault),
        }
    }

    /// Returns what was read of the text that was fed, and the number of the line that would come
    /// next.
    ///
    /// Errors: the fault of `feed`, if the reader has failed; that of the last line, if no LF ended
    /// it.
    fn read_all(self) -> Result<(u32, Reading), RecordFault>
        ensures { read_by_feeding self ≡ result }
    {
        match self.failed {
            None => self.begun.read_all(),
            Some(fault) => Err(fault),
        }
    }

    /// Returns an image with a cell at each address for which more than one data record of the text
    /// that was fed has a byte.
    ///
    /// Errors: the fault of `feed`, if the reader has failed; that of the last line, if no LF ended
    /// it.
    pub fn overlaps(self) -> Result<Image, RecordFault>
        ensures { overlaps_of_feeding self ≡ result }
    {
        let (_, reading) = self.read_all()?;
        Ok(reading.overlaps())
    }

    /// Returns the image of the text that was fed.
    ///
    /// Errors: the fault of `feed`, if the reader has failed; that of the last line, if no LF ended
    /// it; `NoEnd`, where the next line would begin.
    pub fn finish(self) -> Result<Image, RecordFault>
        ensures { end_of_feeding self ≡ result }
    {
        let (line, reading) = self.read_all()?;
        reading.finish(line)
    }
}
