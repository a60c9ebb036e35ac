//! The places of lines.

ghost use Rattle.std.specs.Prelude.{◌<◌, ◌-◌, ◌^◌};

/// The address of a line, and how many bytes it has.
#[derive(Clone, Copy, Debug, PartialEq, Eq)]
pub struct Span {
    pub address: u32,
    pub count: u32,
    ghost near: { address < 2 ^ 31 - 510 },
}
