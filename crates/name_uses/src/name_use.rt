//! A name where it stands.

/// A name where it stands in a source.
#[derive(Clone, Copy)]
pub struct NameUse<'a> {
    /// The number of its line, counted from 1.
    pub line: u32,
    /// Where in the line it starts, counted from 0.
    pub start: usize,
    /// The name, in its own letter case.
    pub text: &'a [u8],
    /// Whether the line defines the name here, as a label or before `=`.
    pub defines: bool,
}
