//! Where a line is no longer made of tokens.

ghost use Rattle.std.specs.Prelude.{◌≡◌};
ghost use Rattle.lexer.specs.Stray.{first_stray};

use crate::byte_class::is_blank_byte;
use crate::lexer::first_token;

/// Returns the first place of a line, counted in bytes from 0, where a token should begin and none
/// does. There is none in a line of tokens, up to its comment.
///
/// Source: mos65.
pub fn first_stray(line: &[u8]) -> Option<usize>
    ensures { result ≡ first_stray line.now }
{
    let mut start = 0;
    while start < line.len() {
        let byte = line[start];
        if is_blank_byte(byte) {
            start += 1;
        } else if byte == b';' {
            return None;
        } else {
            let Some((_, text)) = first_token(&line[start..]) else {
                return Some(start);
            };
            start += text.len();
        }
    }
    None
}
