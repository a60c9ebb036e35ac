//! Lines of the source in the place of addresses: `:6`, or `hello.a65:6`.
//!
//! A line without a file is one of the source's first file.

ghost use Rattle.std.specs.Prelude.{◌≡◌, ◌≤◌, Err, IfErr, IfOk, Ok, length, map};
ghost use Rattle.std.specs.List.{prefix_len};
ghost use Rattle.std.specs.Str.{bytes_eq};
ghost use Rattle.mon_line_parts.specs.Reading.{flaw_view};
ghost use Rattle.mon_line_parts.specs.SourceLines.{after_file, after_line, file_asked, file_word};
ghost use Rattle.mon_line_parts.specs.SourceLines.{first_file, is_file_byte, is_name_of, line_address};
ghost use Rattle.mon_line_parts.specs.SourceLines.{line_in, line_number, no_line_of, own_line, tail};
ghost use Rattle.source_map.specs.Lines.{source_view};

use crate::numbers::number_in;
use crate::scan::{after, after_word, is_empty, word_of};
use crate::slip::Flaw;
use lexer::is_next;
use source_map::{Places, SourceFile};

/// Counts the bytes before the first blank or `:`.
fn file_bytes(text: &[u8]) -> usize
    ensures counted { result ≡ prefix_len is_file_byte text.now }
    ensures inside { result ≤ length text.now }
{
    text.iter()
        .take_while(|byte| !matches!(**byte, b' ' | b'\t' | b':'))
        .count()
}

/// Returns the name of a file at the front: no byte if something else is next.
pub fn file_word(text: &[u8]) -> &[u8]
    ensures { result.now ≡ file_word text.now }
{
    &text[..file_bytes(text)]
}

/// Returns the text behind the name of a file.
fn after_file(text: &[u8]) -> &[u8]
    ensures { result.now ≡ after_file text.now }
{
    &text[file_bytes(text)..]
}

/// Returns the number of the line that stands behind a file's name and `:`, if one does.
#[tactic(auto, unfolding(crate::specs::SourceLines::line_number))]
pub fn line_number(text: &[u8]) -> Option<u32>
    ensures { result ≡ line_number text.now }
{
    let rest = after_file(text);
    if is_next(b':', rest) {
        number_in(10, word_of(after(1, rest)))
    } else {
        None
    }
}

/// Returns the text behind the number of a line and the blanks behind it.
pub fn after_line(text: &[u8]) -> &[u8]
    ensures { result.now ≡ after_line text.now }
{
    after_word(after(1, after_file(text)))
}

/// Returns the last bytes of a text.
fn tail(count: usize, text: &[u8]) -> &[u8]
    ensures { result.now ≡ tail count text.now }
{
    &text[text.len().saturating_sub(count)..]
}

fn is_text(one: &[u8], other: &[u8]) -> bool
    ensures { result ≡ bytes_eq one.now other.now }
{
    one == other
}

/// Returns whether a name is that of a file: the whole path, or what stands behind a `/` of it.
fn is_name_of(path: &[u8], name: &[u8]) -> bool
    ensures { result ≡ is_name_of path.now name.now }
{
    is_text(path, name)
        || (is_next(b'/', tail(name.len() + 1, path)) && is_text(tail(name.len(), path), name))
}

/// Returns the number of the first file that has a name.
fn first_file(sources: &[SourceFile], name: &[u8]) -> Option<u32>
    ensures { result ≡ first_file 0 (map source_view sources.now) name.now }
{
    let mut number = 0u32;
    for source in sources {
        if is_name_of(source.name.as_slice(), name) {
            return Some(number);
        }
        number = number.wrapping_add(1);
    }
    None
}

/// Returns the number of the file that a name means: the first file if there is no name.
fn file_asked(places: &Places, name: &[u8]) -> Option<u32>
    ensures { result ≡ file_asked places.now.sources name.now }
{
    if is_empty(name) {
        Some(0)
    } else {
        first_file(places.sources(), name)
    }
}

/// Returns a file with the number of a line, if there are both.
fn line_in(file: Option<u32>, line: Option<u32>) -> Option<(u32, u32)>
    ensures { result ≡ line_in file line }
{
    match (file, line) {
        (Some(file), Some(line)) => Some((file, line)),
        _ => None,
    }
}

/// Returns the file and the line that a text names, if it names a line of the source.
#[tactic(auto, unfolding(crate::specs::SourceLines::own_line))]
pub fn own_line(places: &Places, text: &[u8]) -> Option<(u32, u32)>
    ensures { result ≡ own_line places.now text.now }
{
    line_in(file_asked(places, file_word(text)), line_number(text))
}

/// Returns the address of a line of a file, or of the next one that has bytes.
#[tactic(auto, unfolding(crate::specs::SourceLines::line_address))]
pub fn line_address<'a>(
    places: &Places,
    file: u32,
    line: u32,
    rest: &'a [u8],
) -> Result<(i64, &'a [u8]), Flaw<'a>>
    ensures ok { IfOk result
        (λ p. line_address places.now file line rest.now ≡ Ok (p.0, p.1.now)) }
    ensures err { IfErr result
        (λ why. line_address places.now file line rest.now ≡ Err (flaw_view why)) }
{
    if !places.has_lines() {
        return Err(Flaw::NoSource);
    }
    match places.address_from(file, line) {
        Some(address) => Ok((address as i64, rest)),
        None => Err(Flaw::NoBytes(line)),
    }
}

/// Returns why a line of another file than the source has no address.
pub fn no_line_of<'a>(places: &Places, name: &'a [u8]) -> Flaw<'a>
    ensures { flaw_view result ≡ no_line_of places.now name.now }
{
    if places.has_lines() {
        Flaw::OtherSource(name)
    } else {
        Flaw::NoSource
    }
}
