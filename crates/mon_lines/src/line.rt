//! A line that was read.

ghost use Rattle.std.specs.Prelude.{◌≡◌};
ghost use Rattle.mon_lines.specs.Lines.{line_view, seen_line};

use crate::command::Command;
use crate::read::{decimal_address, read_line};
use crate::slip::Slip;
use mon_line_parts::Places;

/// A line that was read.
#[derive(Drop)]
pub struct ReadLine<'a> {
    /// What it asks for, or what is missing or wrong in it.
    pub asked: Result<Command<'a>, Slip<'a>>,
    /// The decimal digits that stand where it has an address or a byte that is looked for, if there
    /// are two or three: a reader may mean a hex number.
    pub decimal: Option<&'a [u8]>,
}

impl<'a> ReadLine<'a> {
    /// Reads a line. Names are those of the places, `PC` is the program counter.
    pub fn new(line: &'a [u8], places: &Places, pc: u16) -> ReadLine<'a>
        ensures { line_view result ≡ seen_line places.now pc line.now }
    {
        ReadLine {
            asked: read_line(line, places, pc),
            decimal: decimal_address(line),
        }
    }
}
