//! The lines of a file of rows, by their numbers.

ghost use Rattle.std.specs.Prelude.{◌≡◌};
ghost use Rattle.model.specs.TextLines.{lines_of};
ghost use Rattle.t65_reports.specs.Lines.{line_at, lines_after, lines_left, next_after};

use line_parts::next_line;

/// A walk along the lines of a text.
#[derive(Clone, Copy)]
pub struct RowLines<'a> {
    rest: &'a [u8],
    next: u32,
}

impl<'a> RowLines<'a> {
    /// Begins before the first line of a text, which has this number.
    pub fn new(text: &'a [u8], first: u32) -> RowLines<'a>
        ensures lines { lines_left result ≡ lines_of text.now }
        ensures first { result.next ≡ first }
    {
        RowLines {
            rest: text,
            next: first,
        }
    }

    /// Walks to the line with a number, and returns its text; no byte where that line was passed or
    /// is not there.
    pub fn walk_to(&mut self, number: u32) -> &'a [u8]
        ensures line { result.now ≡ line_at number self.old.next (lines_left self.old) }
        ensures rest { lines_left self.new
            ≡ lines_after number self.old.next (lines_left self.old) }
        ensures next { self.new.next ≡ next_after number self.old.next (lines_left self.old) }
    {
        for _ in 0..self.rest.len() {
            if self.next > number {
                return b"";
            }
            if self.rest.is_empty() {
                return b"";
            }
            let (line, behind) = next_line(self.rest);
            let here = self.next;
            self.rest = behind;
            self.next = here.saturating_add(1);
            if here == number {
                return line;
            }
        }
        b""
    }
}
