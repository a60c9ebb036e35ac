//! A line of a source, and where its bytes stand.

ghost use Rattle.std.specs.Prelude.{◌<◌, ◌≤◌, ◌^◌};

use line_parts::Line;

/// A line of a source.
#[derive(Drop)]
pub struct PlacedLine<'a> {
    pub text: &'a [u8],
    /// What it says, if it can be read.
    pub line: Option<Line<'a>>,
    /// The address of its bytes, or 0 if it has none.
    pub address: u32,
    /// How many bytes it has.
    pub count: u32,
    /// Whether its whole address stands in square brackets, where a pointer could.
    pub bracketed: bool,
    ghost near: { address < 2 ^ 31 },
    ghost small: { count ≤ 510 },
}

/// Where the bytes of a line stand, and how many there are.
#[derive(Clone, Copy)]
pub struct Extent {
    pub address: u32,
    pub count: u32,
    ghost near: { address < 2 ^ 31 },
    ghost small: { count ≤ 510 },
}
