//! What was read of a tape so far, and the step for one byte.

ghost use Rattle.std.specs.Prelude.{◌≡◌, ◌≢◌, [], true, false};
ghost use Rattle.std.specs.List.{list_all};
ghost use Rattle.model.specs.Digits.{is_hex_byte};
ghost use Rattle.model.specs.Tape.{is_skipped};

use crate::claim::{Claim, is_hex_digit, needed};
use memory_map::Image;
use model::{TapeFault, TapeFaultKind};
use std::marker::Model;

/// Where in the tape a reader is.
#[derive(Clone, Copy, Debug, PartialEq, Eq)]
pub enum Place {
    /// Before or between records.
    Between,
    /// Among the digits of a record.
    Within,
    /// After the end record.
    After,
}

/// Returns whether a byte is skipped between records: NUL, carriage return, line feed or X-OFF.
pub fn is_skipped(byte: u8) -> bool
    ensures { result ≡ is_skipped byte }
{
    byte == 0 || byte == 13 || byte == 10 || byte == 19
}

/// Returns whether all of some bytes are skipped. Looks at each, so that no branch depends on one.
pub fn all_are_skipped(bytes: &[u8]) -> bool
    ensures { result ≡ list_all is_skipped bytes.now }
{
    let mut all = true;
    for byte in bytes {
        all &= is_skipped(*byte);
    }
    all
}

/// What was read of a tape.
#[derive(Drop)]
pub struct Reading {
    image: Image,
    count: u32,
    place: Place,
    start: u64,
    digits: [u8; 520],
    held: usize,
}

impl Model for Reading {
    ghost use Rattle.std.specs.Prelude.{take};
    ghost use Rattle.papertape.specs.Reading.{Progress, HoldsDigits};

    ghost Value = { Progress };

    ghost view = { λ r. record {
      cells = r.image;
      count = r.count;
      place = r.place;
      start = r.start;
      digits = take r.held r.digits;
    } };

    ghost invariant = { λ r. HoldsDigits r.held r.digits };
}

impl Reading {
    ghost use Rattle.papertape.specs.Reading.{Gives, start, step, after_record, with_digit, result_at};
    ghost use Rattle.papertape.specs.declared.reading.Place.TheVariants.{Within};

    /// Returns whether a record is begun and not ended.
    pub fn is_in_record(&self) -> bool
        ensures within { result ≡ true → self.now.place ≡ Within }
        ensures apart { result ≡ false → self.now.place ≢ Within }
    {
        self.place == Place::Within
    }

    fn begin(&mut self, offset: u64)
        ensures { self.new ≡ record self.old { place = Within; start = offset; digits = [] } }
    {
        self.place = Place::Within;
        self.start = offset;
        self.held = 0;
    }

    #[tactic(auto, unfolding(crate::specs::Reading::after_record))]
    fn settle(&mut self, claim: &Claim) -> Result<(), TapeFault>
        ensures { Gives result self.new (after_record self.old claim.now) }
    {
        let fault = |kind| Err(TapeFault {
            offset: self.start,
            kind,
        });
        if claim.sum != claim.checksum {
            return fault(TapeFaultKind::BadChecksum);
        }
        if claim.length == 0 {
            if claim.address as u32 != self.count {
                return fault(TapeFaultKind::BadCount);
            }
            self.place = Place::After;
            self.held = 0;
            return Ok(());
        }
        if claim.address as u32 + claim.length as u32 > 65536 {
            return fault(TapeFaultKind::PastEnd);
        }
        self.image
            .store(claim.address, &claim.data[..claim.length as usize]);
        self.place = Place::Between;
        self.held = 0;
        if self.count < 65536 {
            self.count += 1;
        }
        Ok(())
    }

    #[tactic(auto, unfolding(crate::specs::Reading::with_digit))]
    fn with_digit(&mut self, byte: u8) -> Result<(), TapeFault>
        requires { is_hex_byte byte ≡ true }
        ensures { Gives result self.new (with_digit self.old byte) }
    {
        self.digits[self.held] = byte;
        let held = self.held + 1;
        if held < needed(&self.digits[..held]) {
            self.held = held;
            return Ok(());
        }
        let claim = Claim::read(&self.digits[..held]);
        self.held = 0;
        self.settle(&claim)
    }

    /// Takes one byte of the tape, at an offset.
    #[tactic(auto, unfolding(crate::specs::Reading::step))]
    pub fn take(&mut self, offset: u64, byte: u8) -> Result<(), TapeFault>
        ensures { Gives result self.new (step offset self.old byte) }
    {
        match self.place {
            Place::Between => {
                if byte == b';' {
                    self.begin(offset);
                    return Ok(());
                }
                if is_skipped(byte) {
                    return Ok(());
                }
                Err(TapeFault {
                    offset,
                    kind: TapeFaultKind::JunkBetween,
                })
            }
            Place::Within => {
                if is_hex_digit(byte) {
                    return self.with_digit(byte);
                }
                Err(TapeFault {
                    offset,
                    kind: TapeFaultKind::BadHex,
                })
            }
            Place::After => {
                if is_skipped(byte) {
                    return Ok(());
                }
                Err(TapeFault {
                    offset,
                    kind: TapeFaultKind::JunkAfterEnd,
                })
            }
        }
    }

    /// Begins to read a tape into an image.
    pub fn new(image: Image) -> Reading
        ensures { result ≡ record start { cells = image } }
    {
        Reading {
            image,
            count: 0,
            place: Place::Between,
            start: 0,
            digits: [0; 520],
            held: 0,
        }
    }

    /// Returns the image, or the fault of a tape that ends here.
    #[tactic(auto, unfolding(crate::specs::Reading::result_at))]
    pub fn finish(self, offset: u64) -> Result<Image, TapeFault>
        ensures { result_at offset self ≡ result }
    {
        match self.place {
            Place::Between => {
                if self.count == 0 {
                    return Err(TapeFault {
                        offset,
                        kind: TapeFaultKind::NoRecord,
                    });
                }
                Err(TapeFault {
                    offset,
                    kind: TapeFaultKind::Truncated,
                })
            }
            Place::Within => Err(TapeFault {
                offset,
                kind: TapeFaultKind::Truncated,
            }),
            Place::After => Ok(self.image),
        }
    }
}
