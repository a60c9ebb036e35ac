//! What was read of a text of records so far.

ghost use Rattle.std.specs.Prelude.{◌≡◌, ◌+◌, ◌≤◌, ◌<◌, ◌∷◌, [], ◌^◌, length};
ghost use Rattle.image_reader.specs.Progress.{with_again, with_again_at};

use crate::fault::{LineFault, RecordFault, RecordFaultKind};
use crate::form::TextForm;
use crate::hex_records::hex_line;
use crate::s_records::s_line;
use memory_map::Image;
use std::marker::Model;

/// Where in its text a reader is.
#[derive(Clone, Copy)]
pub enum Place {
    /// Before the end record.
    Open,
    /// The same, where a count record was the last one.
    Counted,
    /// After the end record.
    Ended,
}

/// What was read of a text.
#[derive(Drop)]
pub struct Reading {
    form: TextForm,
    image: Image,
    again: Image,
    base: u32,
    count: u32,
    place: Place,
}

impl Model for Reading {
    ghost use Rattle.image_reader.specs.Progress.{Progress};

    ghost Value = { Progress };

    ghost view = { λ r. record {
      form = r.form;
      cells = r.image;
      again = r.again;
      base = r.base;
      count = r.count;
      place = r.place;
    } };
}

/// Puts a cell at an address where an image has a byte.
fn note(again: &mut Image, image: &Image, address: u16)
    ensures { again.new ≡ with_again_at image.now again.old address }
{
    if image.get(address).is_some() {
        again.put(address, 0);
    }
}

/// Puts a cell at each address of some bytes where an image has a byte already.
fn note_each(again: &mut Image, image: &Image, address: u16, bytes: &[u8])
    requires { address + length bytes.now ≤ 65536 }
    ensures { again.new ≡ with_again image.now again.old address bytes.now }
{
    for (i, _) in bytes.iter().enumerate() {
        note(again, image, address + i as u16);
    }
}

impl Reading {
    ghost use Rattle.image_reader.specs.Progress.{Gives, start, stored};
    ghost use Rattle.image_reader.specs.SRecords.{one_more};
    ghost use Rattle.image_reader.specs.Texts.{finished, form_line, read_line};

    /// Begins to read a text into an image, and notes overlaps in another.
    pub fn new(form: TextForm, image: Image, again: Image) -> Reading
        ensures { result ≡ record (start form) { cells = image; again = again } }
    {
        Reading {
            form,
            image,
            again,
            base: 0,
            count: 0,
            place: Place::Open,
        }
    }

    /// Returns how many data records there were.
    pub fn count(&self) -> u32
        ensures { result ≡ self.now.count }
    {
        self.count
    }

    /// Returns an address that counts from the base.
    pub fn based(&self, offset: u16) -> u64
        ensures value { result ≡ self.now.base + offset }
        ensures within { result < 2 ^ 33 }
    {
        self.base as u64 + offset as u64
    }

    /// Sets the base.
    pub fn set_base(&mut self, base: u32)
        ensures { self.new ≡ record self.old { base = base } }
    {
        self.base = base;
    }

    /// Sets where the reader is.
    pub fn set_place(&mut self, place: Place)
        ensures { self.new ≡ record self.old { place = place } }
    {
        self.place = place;
    }

    /// Counts one more data record.
    pub fn count_one(&mut self)
        ensures { self.new ≡ one_more self.old }
    {
        self.place = Place::Open;
        if self.count < 16_777_216 {
            self.count += 1;
        }
    }

    /// Puts data from an address on, in place of what is there.
    ///
    /// Errors: `PastEnd`, in the column of the address, if a byte would be past address 65535.
    #[tactic(auto, unfolding(crate::specs::Progress::stored))]
    pub fn store(&mut self, column: u32, address: u64, bytes: &[u8]) -> Result<(), LineFault>
        requires place { address < 2 ^ 33 }
        requires short { length bytes.now ≤ 523 }
        ensures { Gives result self.new (stored column address bytes.now self.old) }
    {
        if bytes.is_empty() {
            return Ok(());
        }
        if address + bytes.len() as u64 > 65536 {
            return Err(LineFault {
                kind: RecordFaultKind::PastEnd,
                column,
            });
        }
        note_each(&mut self.again, &self.image, address as u16, bytes);
        self.image.store(address as u16, bytes);
        Ok(())
    }

    /// Reads a line, without its end.
    #[tactic(auto, unfolding(crate::specs::Texts::read_line))]
    pub fn read_line(&mut self, line: &[u8]) -> Result<(), LineFault>
        requires { length line.now ≤ 523 }
        ensures { Gives result self.new (read_line self.old line.now) }
    {
        match self.place {
            Place::Ended => Ok(()),
            _ => self.read_record(line),
        }
    }

    fn read_record(&mut self, line: &[u8]) -> Result<(), LineFault>
        requires { length line.now ≤ 523 }
        ensures { Gives result self.new (form_line self.old.form self.old line.now) }
    {
        match self.form {
            TextForm::Hex => hex_line(self, line),
            TextForm::SRecord => s_line(self, line),
        }
    }

    /// Returns an image with a cell at each address for which more than one data record has a byte.
    pub fn overlaps(self) -> Image
        ensures { result ≡ self.again }
    {
        self.again
    }

    /// Returns the image, or the fault of a text that ends here, before the line of a number.
    #[tactic(auto, unfolding(crate::specs::Texts::finished))]
    pub fn finish(self, line: u32) -> Result<Image, RecordFault>
        ensures { finished line self ≡ result }
    {
        match self.place {
            Place::Open => Err(RecordFault {
                line,
                column: 1,
                kind: RecordFaultKind::NoEnd,
            }),
            Place::Counted | Place::Ended => Ok(self.image),
        }
    }
}
