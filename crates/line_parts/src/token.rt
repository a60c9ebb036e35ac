//! A token of a line.

use model::TokenKind;

/// A token, whose text is a slice of its line.
#[derive(Clone, Copy, Debug)]
pub struct Token<'a> {
    pub kind: TokenKind,
    /// Where in the line it starts, counted from 0.
    pub start: usize,
    /// Its bytes, with quotes and prefixes.
    pub text: &'a [u8],
}
