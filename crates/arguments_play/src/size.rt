//! The size of a screen as a word writes it.

ghost use Rattle.std.specs.Prelude.{◌≡◌, ◌+◌, ◌≤◌, IfSome, drop, length, option_map};
ghost use Rattle.std.specs.List.{prefix_len};
ghost use Rattle.arguments_play.specs.Size.{both, is_no_x, size_asked, size_of};

use commands::digits;

/// What `--size` takes, where its value is wrong.
pub const SIZE_TAKES: &str = "--size takes columns and rows, as 80x24, up to 250x100";

/// Counts the bytes before the first `x`.
fn before_x(word: &[u8]) -> usize
    ensures counted { result ≡ prefix_len is_no_x word.now }
    ensures inside { result ≤ length word.now }
{
    word.iter().take_while(|byte| **byte != b'x').count()
}

/// Returns what is behind the first `count` bytes and one more.
fn behind(word: &[u8], count: usize) -> &[u8]
    requires { count ≤ length word.now }
    ensures { result.now ≡ drop (count + 1) word.now }
{
    match &word[count..] {
        [] => &word[count..],
        [_, rest @ ..] => rest,
    }
}

/// Returns columns and rows if there are both, and a screen can have as many.
fn both(columns: Option<u32>, rows: Option<u32>) -> Option<(u8, u8)>
    ensures { result ≡ both columns rows }
{
    match (columns, rows) {
        (Some(columns @ 80..=250), Some(rows @ 24..=100)) => Some((columns as u8, rows as u8)),
        _ => None,
    }
}

/// Returns the columns and rows of `COLUMNSxROWS`, or `None` for any other word.
fn size(word: &[u8]) -> Option<(u8, u8)>
    ensures { result ≡ size_of word.now }
{
    if word.len() > 7 {
        return None;
    }
    let count = before_x(word);
    both(digits(&word[..count]), digits(behind(word, count)))
}

/// Returns the columns and rows that the word after `--size` asks for, if any, or `None` if the
/// word is wrong.
pub fn size_asked(word: Option<&str>) -> Option<Option<(u8, u8)>>
    ensures { result ≡ size_asked (option_map (λ w. w.now) word.entry) }
{
    match word {
        None => Some(None),
        Some(word) => match size(word.as_bytes()) {
            None => None,
            Some(size) => Some(Some(size)),
        },
    }
}
