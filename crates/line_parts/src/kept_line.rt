//! What the second pass needs of a line that denotes bytes.

ghost use Rattle.std.specs.Prelude.{◌≡◌, ◌<◌, ◌≤◌, ◌-◌, ◌^◌};
ghost use Rattle.line_parts.specs.LineViews.{statement_view};
ghost use Rattle.line_parts.specs.Contents.{content_by};
ghost use Rattle.model.specs.Layout.{size_of};

use crate::code::Code;
use crate::statement::Statement;

/// A line that denotes bytes.
#[derive(Drop)]
pub struct KeptLine<'a> {
    /// Its number, counted from 1.
    pub number: u32,
    pub address: u32,
    /// How many bytes it has.
    pub count: u32,
    /// What its instruction is encoded by, if it has one.
    pub code: Option<Code>,
    pub statement: Statement<'a>,
    ghost near: { address < 2 ^ 31 - 510 },
    ghost small: { count ≤ 510 },
    ghost sized: { count ≡ size_of (content_by code (statement_view statement)) },
}
