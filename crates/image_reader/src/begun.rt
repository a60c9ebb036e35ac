//! What was read of a text of records, and the line that is begun.

ghost use Rattle.std.specs.Prelude.{◌≡◌};
ghost use Rattle.std.specs.Io.BufRead.{strip_last};
ghost use Rattle.image_reader.specs.Texts.{in_line, next_line};

use crate::fault::{LineFault, RecordFault};
use crate::form::TextForm;
use crate::reading::Reading;
use arrayvec::ArrayVec;
use memory_map::Image;
use std::marker::Model;

/// The beginning of a line that has not ended yet: no more than its first 523 bytes.
///
/// No record has more than 521, one more may be the CR behind it, and one more makes it too long.
type Held = ArrayVec<u8, 523>;

/// What was read of the lines before, and the line that is begun.
#[derive(Drop)]
pub struct BegunText {
    reading: Reading,
    line: u32,
    held: Held,
}

impl Model for BegunText {
    ghost use Rattle.image_reader.specs.Feeding.{Begun};

    ghost Value = { Begun };

    ghost view = { λ b. record { progress = b.reading; line = b.line; held = b.held.items } };
}

/// Returns a fault of a line, with the number of the line.
fn in_line(line: u32, fault: LineFault) -> RecordFault
    ensures { result ≡ in_line line fault }
{
    RecordFault {
        line,
        column: fault.column,
        kind: fault.kind,
    }
}

/// Returns the number of the next line. A line past 4,294,967,295 has that number.
fn next_line(line: u32) -> u32
    ensures { result ≡ next_line line }
{
    if line < 4_294_967_295 { line + 1 } else { line }
}

/// Returns a line that has ended without the CR at its end.
fn without_cr(line: &[u8]) -> &[u8]
    ensures { result.now ≡ strip_last 13 line.now }
{
    match line {
        [line @ .., b'\r'] => line,
        line => line,
    }
}

impl BegunText {
    ghost use Rattle.image_reader.specs.Feeding.{GivesBegun, all_read, fed_byte, line_ended};
    ghost use Rattle.image_reader.specs.Progress.{start};
    ghost use Rattle.std.specs.Prelude.{[]};

    /// Begins to read a text into an image, and notes overlaps in another.
    pub fn new(form: TextForm, image: Image, again: Image) -> BegunText
        ensures { result ≡ record {
          progress = record (start form) { cells = image; again = again };
          line = 1;
          held = [];
        } }
    {
        BegunText {
            reading: Reading::new(form, image, again),
            line: 1,
            held: Held::new(),
        }
    }

    /// Reads the line that ends here, and begins the next one.
    #[tactic(auto, unfolding(crate::specs::Feeding::line_ended))]
    fn end_line(&mut self) -> Result<(), RecordFault>
        ensures { GivesBegun result self.new (line_ended self.old) }
    {
        match self.reading.read_line(without_cr(self.held.as_slice())) {
            Ok(()) => {
                self.line = next_line(self.line);
                self.held.clear();
                Ok(())
            }
            Err(fault) => Err(in_line(self.line, fault)),
        }
    }

    /// Takes one byte.
    ///
    /// Errors: the fault of the line that it ends.
    #[tactic(auto, unfolding(crate::specs::Feeding::fed_byte))]
    pub fn take(&mut self, byte: u8) -> Result<(), RecordFault>
        ensures { GivesBegun result self.new (fed_byte byte self.old) }
    {
        if byte == b'\n' {
            return self.end_line();
        }
        if self.held.len() < 523 {
            self.held.push(byte);
        }
        Ok(())
    }

    /// Reads the line that the end of the text ends, and returns the number of the next line.
    ///
    /// Errors: the fault of that line.
    #[tactic(auto, unfolding(crate::specs::Feeding::all_read))]
    pub fn read_all(self) -> Result<(u32, Reading), RecordFault>
        ensures { all_read self ≡ result }
    {
        let mut reading = self.reading;
        let line = self.held.as_slice();
        if line.is_empty() {
            return Ok((self.line, reading));
        }
        match reading.read_line(line) {
            Ok(()) => Ok((next_line(self.line), reading)),
            Err(fault) => Err(in_line(self.line, fault)),
        }
    }
}
