//! Reading a tape.

ghost use Rattle.std.specs.Prelude.{◌≡◌, Ok, Err, IfOk, IfErr, ◌⊎◌, ℕ, List, Option, [], ◌∷◌, true};
ghost use Rattle.std.specs.Prelude.{false};
ghost use Rattle.papertape.specs.Reading.{AnswersReading, read_of};
ghost use Rattle.model.specs.Tape.{TapeDenotes, FirstFault};
ghost use Rattle.model.specs.declared.tape.TapeFaultKind.{TapeFaultKind};
ghost use Rattle.model.specs.TapeFault.{out_of_memory};

use crate::reading::{Reading, all_are_skipped};
use memory_map::Image;
use model::{TAPE_OUT_OF_MEMORY, TapeFault, TapeFaultKind};
use std::alloc::Global;
use std::marker::Model;

/// Reads a tape: returns the image that a text denotes.
///
/// If two data records have a byte for the same address, the later one counts.
///
/// Errors, of which the first from left to right is returned:
///
/// - `JunkBetween`, at a byte where a record may begin that is neither `;` nor skipped ($00, CR,
///   LF, $13).
/// - `BadHex`, at a byte in a record that is not a hex digit.
/// - `BadChecksum`, otherwise `PastEnd` or `BadCount`, at the record's `;` when all its digits are
///   read.
/// - `JunkAfterEnd`, at a byte after the end record that is not skipped.
/// - `NoRecord`, at the text's length, if no record began; `Truncated`, there too, if a record did
///   not end or the end record is missing.
/// - `OutOfMemory`, at 0, if an allocation fails.
///
/// Source: KIM-1 manual for the form of the records; mos65 for what may come between them and for
/// the faults.
pub fn read_tape(alloc: Global, text: &[u8]) -> Result<Image, TapeFault>
    // What is read is what the text denotes.
    ensures found { IfOk result (λ image. TapeDenotes text.now image) }
    // What denotes an image is read, unless memory runs out.
    ensures only { (cells : List (Option ℕ)) → TapeDenotes text.now cells
        → (result ≡ Ok cells) ⊎ (result ≡ Err out_of_memory) }
    // Each error is the text's first fault, or `OutOfMemory`.
    ensures fault { IfErr result (λ f. (f ≡ out_of_memory) ⊎ FirstFault text.now f.kind f.offset) }
    // A text with a first fault is rejected with it, unless memory runs out.
    ensures refused { (kind : TapeFaultKind) (offset : ℕ) → FirstFault text.now kind offset
        → (result ≡ Err (record { offset = offset; kind = kind })) ⊎ (result ≡ Err out_of_memory) }
{
    read_whole(alloc, text)
}

fn read_whole(alloc: Global, text: &[u8]) -> Result<Image, TapeFault>
    ensures { AnswersReading result (read_of text.now) }
{
    let mut reader = TapeReader::new(alloc)?;
    reader.take_up_to(text.len() as u64, text);
    reader.finish()
}

/// The most bytes of a tape that is read in pieces. Source: mos65.
const LONGEST: u64 = 4_294_967_295;

/// Reads a tape that comes in pieces: `feed` takes each of them, and `finish` returns the image.
///
/// Offsets count from the first byte that was fed. A reader that has rejected a byte has failed:
/// each later call returns the same fault. `feed` and `finish` do not allocate.
#[derive(Drop)]
pub struct TapeReader {
    reading: Reading,
    offset: u64,
    failed: Option<TapeFault>,
}

impl Model for TapeReader {
    ghost use Rattle.papertape.specs.Feeding.{Fed, fed_of};

    ghost Value = { Fed };

    ghost view = { λ r. fed_of r.failed r.offset r.reading };
}

impl TapeReader {
    ghost use Rattle.papertape.specs.Feeding.{fed, fed_up_to, end_of_feeding, answer_of, nothing_fed};

    /// Makes a reader that was fed nothing.
    ///
    /// Errors: `OutOfMemory` at offset 0 if an allocation fails.
    pub fn new(alloc: Global) -> Result<TapeReader, TapeFault>
        ensures new { IfOk result (λ r. r ≡ nothing_fed) }
        ensures refused { IfErr result (λ f. f ≡ out_of_memory) }
    {
        let image = Image::new(alloc).map_err(|_| TAPE_OUT_OF_MEMORY)?;
        Ok(TapeReader {
            reading: Reading::new(image),
            offset: 0,
            failed: None,
        })
    }

    /// Takes one byte, unless `limit` bytes were taken already.
    fn take(&mut self, limit: u64, byte: u8)
        ensures { self.new ≡ fed_up_to limit self.old (byte ∷ []) }
    {
        if self.failed.is_some() {
            return;
        }
        if self.offset >= limit {
            self.failed = Some(TapeFault {
                offset: self.offset,
                kind: TapeFaultKind::TooLong,
            });
            return;
        }
        match self.reading.take(self.offset, byte) {
            Ok(()) => self.offset += 1,
            Err(fault) => self.failed = Some(fault),
        }
    }

    /// Takes bytes one after another, up to `limit` in all.
    fn take_each(&mut self, limit: u64, bytes: &[u8])
        ensures { self.new ≡ fed_up_to limit self.old bytes.now }
    {
        for byte in bytes {
            self.take(limit, *byte);
        }
    }

    /// Skips bytes at once if all may be between records, no record is begun and no limit is met.
    ///
    /// Otherwise it takes none and returns false.
    fn skip(&mut self, limit: u64, bytes: &[u8]) -> bool
        ensures all { result ≡ true → self.new ≡ fed_up_to limit self.old bytes.now }
        ensures none { result ≡ false → self.new ≡ self.old }
    {
        let None = self.failed else {
            return false;
        };
        if self.reading.is_in_record() {
            return false;
        }
        if bytes.len() as u64 > limit.saturating_sub(self.offset) || !all_are_skipped(bytes) {
            return false;
        }
        self.offset += bytes.len() as u64;
        true
    }

    /// Takes bytes, up to `limit` in all.
    fn take_up_to(&mut self, limit: u64, bytes: &[u8])
        ensures { self.new ≡ fed_up_to limit self.old bytes.now }
    {
        if !self.skip(limit, bytes) {
            self.take_each(limit, bytes);
        }
    }

    /// Takes the next piece of the tape, which may be empty.
    ///
    /// Errors: those of `read_tape` that the bytes fed so far show, whatever may follow (all but
    /// `NoRecord` and `Truncated`); `TooLong` at offset 4,294,967,295 if that many bytes were fed
    /// without a fault, and one more. After an error the reader has failed.
    pub fn feed(&mut self, piece: &[u8]) -> Result<(), TapeFault>
        // The piece comes after what was fed.
        ensures after { self.new ≡ fed self.old piece.now }
        // The result is the reader's fault, if it has one.
        ensures answer { result ≡ answer_of self.new }
    {
        self.take_up_to(LONGEST, piece);
        match self.failed {
            None => Ok(()),
            Some(fault) => Err(fault),
        }
    }

    /// Returns the image of the tape that was fed.
    ///
    /// Errors: those of `feed`, if the reader has failed; `NoRecord` and `Truncated`, at the number
    /// of bytes fed.
    pub fn finish(self) -> Result<Image, TapeFault>
        ensures { end_of_feeding self ≡ result }
    {
        match self.failed {
            None => self.reading.finish(self.offset),
            Some(fault) => Err(fault),
        }
    }
}
