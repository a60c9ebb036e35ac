//! Places in a text, as the protocol counts them.

ghost use Rattle.std.specs.Prelude.{◌≡◌, ◌≤◌, length};
ghost use Rattle.lsp_messages.specs.TextPlaces.{end_of_line, lines_between, start_of_line};
ghost use Rattle.lsp_messages.specs.TextPlaces.{behind_end, behind_line, column_in, from_line};
ghost use Rattle.lsp_messages.specs.TextPlaces.{is_in_line, line_size, place_in, without_feed};

use crate::columns::column_of;

/// A place in a text: a line and a column, both from 0, the column in units of UTF-16.
#[derive(Clone, Copy)]
pub struct Place {
    pub line: u64,
    pub character: u64,
}

/// Returns whether a byte is neither LF nor CR.
fn is_in_line(byte: u8) -> bool
    ensures { result ≡ is_in_line byte }
{
    !matches!(byte, b'\n' | b'\r')
}

/// Returns how many bytes the first line of a text has, without its end.
fn line_size(text: &[u8]) -> usize
    ensures counted { result ≡ line_size text.now }
    ensures within { result ≤ length text.now }
{
    text.iter().take_while(|byte| is_in_line(**byte)).count()
}

/// Returns a text without an LF at its front.
fn without_feed(text: &[u8]) -> &[u8]
    ensures without { result.now ≡ without_feed text.now }
    ensures within { length result.now ≤ length text.now }
{
    match text {
        [first, rest @ ..] => if *first == b'\n' { rest } else { text },
        [] => text,
    }
}

/// Returns what stands behind the end of a line at the front of a text: LF, CR LF or CR.
fn behind_end(text: &[u8]) -> &[u8]
    ensures behind { result.now ≡ behind_end text.now }
    ensures within { length result.now ≤ length text.now }
{
    match text {
        [first, rest @ ..] => if *first == b'\r' {
            without_feed(rest)
        } else {
            rest
        },
        [] => text,
    }
}

/// Returns what stands behind the first line of a text.
fn behind_line(text: &[u8]) -> &[u8]
    ensures behind { result.now ≡ behind_line text.now }
    ensures within { length result.now ≤ length text.now }
{
    behind_end(&text[line_size(text)..])
}

/// Returns a text from a line on, counted from 0; nothing where there is no such line.
fn from_line(text: &[u8], line: u64) -> &[u8]
    ensures from { result.now ≡ from_line line text.now }
    ensures within { length result.now ≤ length text.now }
{
    let mut rest = text;
    let mut left = line;
    while left > 0 {
        if rest.is_empty() {
            return rest;
        }
        rest = behind_line(rest);
        left -= 1;
    }
    rest
}

/// Returns where a column of the first line of a text is. One behind the end of the line is that
/// end.
fn column_in(text: &[u8], character: u64) -> usize
    ensures column { result ≡ column_in character text.now }
    ensures within { result ≤ length text.now }
{
    column_of(&text[..line_size(text)], character)
}

/// Returns how many bytes of a text stand before a place. A column behind the end of its line is
/// that end, and a line behind the last one is the end of the text.
pub fn place_in(text: &[u8], place: Place) -> usize
    ensures place { result ≡ place_in text.now place }
    ensures within { result ≤ length text.now }
{
    let rest = from_line(text, place.line);
    let before = text.len() - rest.len();
    before + column_in(rest, place.character)
}

/// Returns how many bytes of a text stand before a line, counted from 0.
fn start_of_line(text: &[u8], line: u64) -> usize
    ensures start { result ≡ start_of_line text.now line }
    ensures within { result ≤ length text.now }
{
    place_in(text, Place { line, character: 0 })
}

/// Returns how many bytes of a text stand before the end of a line, counted from 0.
fn end_of_line(text: &[u8], line: u64) -> usize
    ensures end { result ≡ end_of_line text.now line }
    ensures within { result ≤ length text.now }
{
    place_in(
        text,
        Place {
            line,
            character: u64::MAX,
        },
    )
}

/// Returns the lines of a text from one to another, both counted from 0, without the end of the
/// last one.
pub fn lines_between(text: &[u8], first: u64, last: u64) -> &[u8]
    ensures { result.now ≡ lines_between text.now first last }
{
    let start = start_of_line(text, first);
    let end = end_of_line(text, last);
    if start <= end { &text[start..end] } else { &[] }
}
