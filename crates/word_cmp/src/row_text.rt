//! The differences as rows of text.

ghost use Rattle.std.specs.Prelude.{◌≡◌, ◌<◌, ◌++◌, IfOk, OnOk, length, string_bytes};
ghost use Rattle.word_cmp.specs.DifferenceRows.{first_row, goes_on, hex_of, is_alone};
ghost use Rattle.word_cmp.specs.DifferenceRows.{is_within, range_end, range_text, row_text};
ghost use Rattle.word_cmp.specs.DifferenceRows.{rows_of, told_of};
ghost use Rattle.word_cmp.specs.Sides.{side_view};
ghost use Rattle.tape_words.specs.Answers.{EndsLine};

use crate::sides::Side;
use crate::wording;
use std::alloc::{AllocError, Global};
use tape_words::{BYTE, BYTES, push_count};

/// Appends an address.
pub fn push_address(words: &mut String, address: u16) -> Result<(), AllocError>
    ensures { OnOk result (string_bytes words.new ≡ string_bytes words.old ++ hex_of 4 address) }
{
    write!(words, "{address:04X}")
}

/// Appends the row of an address at which both sides have a byte.
fn push_row(
    words: &mut String,
    one: &Side<'_>,
    other: &Side<'_>,
    address: u16,
) -> Result<(), AllocError>
    ensures { OnOk result (string_bytes words.new ≡ string_bytes words.old
        ++ row_text (side_view one.now) (side_view other.now) address) }
{
    push_address(words, address)?;
    words.push_str("  ")?;
    one.push_byte(words, address)?;
    words.push_str(" ")?;
    other.push_byte(words, address)?;
    words.push_str("  ")?;
    one.push_instruction(words, address)?;
    words.push_str(" | ")?;
    other.push_instruction(words, address)?;
    words.push_str("\n")?;
    Ok(())
}

/// Appends the row of a range that one side alone has.
fn push_range(words: &mut String, side: &Side<'_>, first: u16, last: u16) -> Result<(), AllocError>
    ensures { OnOk result (string_bytes words.new
        ≡ string_bytes words.old ++ range_text (side_view side.now) first last) }
{
    push_address(words, first)?;
    words.push_str("-")?;
    push_address(words, last)?;
    words.push_str("  ")?;
    let count = last.saturating_sub(first) as u32 + 1;
    push_count(words, count as u64, BYTE, BYTES)?;
    words.push_str(wording::ON)?;
    words.push_str(side.name())?;
    words.push_str(wording::ONLY)?;
    Ok(())
}

/// Returns whether a side has a byte at an address, and the other has none.
fn is_alone(side: &Side<'_>, other: &Side<'_>, address: u16) -> bool
    ensures { result ≡ is_alone (side_view side.now) (side_view other.now) address }
{
    side.has(address) && !other.has(address)
}

/// Returns whether an address goes on with the range of an address before it: it is the next one,
/// and the side alone has both.
fn goes_on(side: &Side<'_>, other: &Side<'_>, before: u16, address: u16) -> bool
    ensures { result ≡ goes_on (side_view side.now) (side_view other.now) before address }
{
    before as u32 + 1 == address as u32
        && is_alone(side, other, before)
        && is_alone(side, other, address)
}

/// Returns whether an address stands within a range that has begun before it.
fn is_within(one: &Side<'_>, other: &Side<'_>, before: Option<u16>, address: u16) -> bool
    ensures { result ≡ is_within (side_view one.now) (side_view other.now) before address }
{
    match before {
        None => false,
        Some(before) => {
            goes_on(one, other, before, address) || goes_on(other, one, before, address)
        }
    }
}

/// Returns the last address of the range that begins with an address, by those that come after it.
fn range_end(side: &Side<'_>, other: &Side<'_>, first: u16, more: &[u16]) -> u16
    ensures { result ≡ range_end (side_view side.now) (side_view other.now) first more.now }
{
    let mut last = first;
    for next in more {
        if !goes_on(side, other, last, *next) {
            return last;
        }
        last = *next;
    }
    last
}

/// Appends the row that begins with an address, by the addresses that come after it.
fn push_first(
    words: &mut String,
    one: &Side<'_>,
    other: &Side<'_>,
    address: u16,
    more: &[u16],
) -> Result<(), AllocError>
    ensures { OnOk result (string_bytes words.new ≡ string_bytes words.old
        ++ first_row (side_view one.now) (side_view other.now) address more.now) }
{
    if is_alone(one, other, address) {
        push_range(words, one, address, range_end(one, other, address, more))
    } else if is_alone(other, one, address) {
        push_range(words, other, address, range_end(other, one, address, more))
    } else {
        push_row(words, one, other, address)
    }
}

/// Appends what is told of an address, by the one before it and those after it.
fn push_next(
    words: &mut String,
    one: &Side<'_>,
    other: &Side<'_>,
    before: Option<u16>,
    address: u16,
    more: &[u16],
) -> Result<(), AllocError>
    ensures { OnOk result (string_bytes words.new ≡ string_bytes words.old
        ++ told_of (side_view one.now) (side_view other.now) before address more.now) }
{
    if is_within(one, other, before, address) {
        return Ok(());
    }
    push_first(words, one, other, address, more)
}

/// Returns the rows of differences: for each range that one side alone has a row; for each address
/// at which both have a byte a row with both bytes and both instructions.
///
/// Errors: `AllocError` if an allocation fails.
pub fn rows(
    alloc: Global,
    one: &Side<'_>,
    other: &Side<'_>,
    differences: &[u16],
) -> Result<String, AllocError>
    requires { 0 < length differences.now }
    ensures text { IfOk result (λ words. string_bytes words
        ≡ rows_of (side_view one.now) (side_view other.now) differences.now) }
    ensures lines { IfOk result (λ words. EndsLine (string_bytes words)) }
{
    let mut words = String::new(alloc);
    let mut before = None;
    for (place, address) in differences.iter().enumerate() {
        let more = &differences[place + 1..];
        push_next(&mut words, one, other, before, *address, more)?;
        before = Some(*address);
    }
    Ok(words)
}
