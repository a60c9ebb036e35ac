//! What stands behind the end record of Intel HEX or of S-records.

ghost use Rattle.std.specs.Prelude.{◌≡◌, ◌≤◌, slice_index};
ghost use Rattle.word_info.specs.Behind.{is_end, is_record, one_behind, records_behind};

use image_reader::TextForm;
use line_parts::next_line;

/// Returns a byte of a line; 0 where there is none.
fn byte_at(line: &[u8], index: usize) -> u8
    ensures { result ≡ slice_index line.now index }
{
    line.get(index).copied().unwrap_or(0)
}

/// Returns whether a line begins with the mark of a record.
fn is_record(form: TextForm, line: &[u8]) -> bool
    ensures { result ≡ is_record form line.now }
{
    match form {
        TextForm::Hex => byte_at(line, 0) == b':',
        TextForm::SRecord => byte_at(line, 0) == b'S',
    }
}

/// Returns whether a line of a right text is its end record.
fn is_end(form: TextForm, line: &[u8]) -> bool
    ensures { result ≡ is_end form line.now }
{
    let mark = byte_at(line, 0);
    match form {
        TextForm::Hex => mark == b':' && byte_at(line, 7) == b'0' && byte_at(line, 8) == b'1',
        TextForm::SRecord => mark == b'S' && b'7' <= byte_at(line, 1) && byte_at(line, 1) <= b'9',
    }
}

/// Returns 1 for a record behind an end record.
fn one_behind(form: TextForm, has_ended: bool, line: &[u8]) -> usize
    ensures value { result ≡ one_behind form has_ended line.now }
    ensures small { result ≤ 1 }
{
    if has_ended && is_record(form, line) {
        1
    } else {
        0
    }
}

/// Returns how many records of a text stand behind its first end record.
#[tactic(auto, unfolding(crate::specs::Behind::behind_from))]
pub fn records_behind(form: TextForm, text: &[u8]) -> usize
    ensures { result ≡ records_behind form text.now }
{
    let mut count = 0usize;
    let mut has_ended = false;
    let mut rest = text;
    while rest.len() > 0 {
        let (line, behind) = next_line(rest);
        count += one_behind(form, has_ended, line);
        has_ended |= is_end(form, line);
        rest = behind;
    }
    count
}
