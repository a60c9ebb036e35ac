//! The words of a line.

ghost use Rattle.std.specs.Prelude.{◌≡◌};
ghost use Rattle.model.specs.Commands.{rest_of, without_spaces};
ghost use Rattle.commands.specs.Words.{IsNextWord};

/// Returns a line without the spaces in front of it.
pub fn without_spaces(line: &[u8]) -> &[u8]
    ensures { result.now ≡ without_spaces line.now }
{
    let mut start = 0;
    while start < line.len() && line[start] == b' ' {
        start += 1;
    }
    &line[start..]
}

/// Returns the first word of a line and what comes after it.
///
/// The word is empty if the line has none. Only spaces separate words. Source: mos65.
pub fn next_word(line: &[u8]) -> (&[u8], &[u8])
    ensures word { IsNextWord line.now result.0.now result.1.now }
    ensures behind { result.1.now ≡ rest_of line.now }
{
    let front = without_spaces(line);
    let mut end = 0;
    while end < front.len() && front[end] != b' ' {
        end += 1;
    }
    (&front[..end], &front[end..])
}
