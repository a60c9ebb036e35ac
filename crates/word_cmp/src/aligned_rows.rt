//! The rows of an alignment as text.

ghost use Rattle.std.specs.Prelude.{◌≡◌, ◌++◌, IfOk, OnOk, codes, string_bytes};
ghost use Rattle.word_cmp.specs.AlignedRows.{alone_text, beside_text, bytes_text, changed_text};
ghost use Rattle.word_cmp.specs.AlignedRows.{is_begin, part_text, row_text, rows_text};
ghost use Rattle.word_cmp.specs.DifferenceRows.{instruction_text};
ghost use Rattle.word_cmp.specs.Sides.{side_view};

use crate::alignment::Row;
use crate::parts::{Content, Part};
use crate::row_text::push_address;
use crate::sides::Side;
use std::alloc::{AllocError, Global};

/// Appends the bytes of an instruction, or the address at which a range begins.
fn push_bytes(words: &mut String, content: Content) -> Result<(), AllocError>
    ensures { OnOk result
        (string_bytes words.new ≡ string_bytes words.old ++ bytes_text content) }
{
    match content {
        Content::Begin(address) => write!(words, "*=${address:04X}"),
        Content::One(first) => write!(words, "{first:02X}"),
        Content::Two(first, second) => write!(words, "{first:02X} {second:02X}"),
        Content::Three(first, second, third) => {
            write!(words, "{first:02X} {second:02X} {third:02X}")
        }
    }
}

/// Returns whether a part is the begin of a range.
fn is_begin(content: Content) -> bool
    ensures { result ≡ is_begin content }
{
    match content {
        Content::Begin(_) => true,
        Content::One(_) => false,
        Content::Two(_, _) => false,
        Content::Three(_, _, _) => false,
    }
}

/// Appends the instruction at an address behind its bytes.
fn push_behind(words: &mut String, side: &Side<'_>, address: u16) -> Result<(), AllocError>
    ensures { OnOk result (string_bytes words.new ≡ string_bytes words.old
        ++ (codes "  " ++ instruction_text (side_view side.now) address)) }
{
    words.push_str("  ")?;
    side.push_instruction(words, address)
}

/// Appends a part: an instruction behind its bytes, or the address at which a range begins.
#[tactic(auto, unfolding(crate::specs::AlignedRows::part_text))]
fn push_part(words: &mut String, side: &Side<'_>, part: Part) -> Result<(), AllocError>
    ensures { OnOk result (string_bytes words.new
        ≡ string_bytes words.old ++ part_text (side_view side.now) part) }
{
    push_bytes(words, part.content)?;
    if is_begin(part.content) {
        return Ok(());
    }
    push_behind(words, side, part.address)
}

/// Appends the row of two parts that are not the same.
fn push_changed(
    words: &mut String,
    one: &Side<'_>,
    other: &Side<'_>,
    part: Part,
    beside: Part,
) -> Result<(), AllocError>
    ensures { OnOk result (string_bytes words.new ≡ string_bytes words.old
        ++ changed_text (side_view one.now) (side_view other.now) part beside) }
{
    push_address(words, part.address)?;
    words.push_str(" ")?;
    push_address(words, beside.address)?;
    words.push_str("  ")?;
    push_part(words, one, part)?;
    words.push_str(" | ")?;
    push_part(words, other, beside)?;
    words.push_str("\n")?;
    Ok(())
}

/// Appends the row of a part that the one side alone has.
fn push_alone(words: &mut String, one: &Side<'_>, part: Part) -> Result<(), AllocError>
    ensures { OnOk result (string_bytes words.new ≡ string_bytes words.old
        ++ alone_text (side_view one.now) part) }
{
    push_address(words, part.address)?;
    words.push_str(" ----  ")?;
    push_part(words, one, part)?;
    words.push_str(" |\n")?;
    Ok(())
}

/// Appends the row of a part that the other side alone has.
fn push_beside(words: &mut String, other: &Side<'_>, part: Part) -> Result<(), AllocError>
    ensures { OnOk result (string_bytes words.new ≡ string_bytes words.old
        ++ beside_text (side_view other.now) part) }
{
    words.push_str("---- ")?;
    push_address(words, part.address)?;
    words.push_str("  | ")?;
    push_part(words, other, part)?;
    words.push_str("\n")?;
    Ok(())
}

/// Appends a row of an alignment; nothing where its parts are the same.
fn push_aligned(
    words: &mut String,
    one: &Side<'_>,
    other: &Side<'_>,
    row: Row,
) -> Result<(), AllocError>
    ensures { OnOk result (string_bytes words.new ≡ string_bytes words.old
        ++ row_text (side_view one.now) (side_view other.now) row) }
{
    match row {
        Row::Same(_, _) => Ok(()),
        Row::Changed(part, beside) => push_changed(words, one, other, part, beside),
        Row::OnlyOne(part) => push_alone(words, one, part),
        Row::OnlyOther(part) => push_beside(words, other, part),
    }
}

/// Returns the rows of an alignment as text, without those whose parts are the same.
///
/// Errors: `AllocError` if an allocation fails.
pub fn aligned_rows(
    alloc: Global,
    one: &Side<'_>,
    other: &Side<'_>,
    rows: &[Row],
) -> Result<String, AllocError>
    ensures { IfOk result (λ words. string_bytes words
        ≡ rows_text (side_view one.now) (side_view other.now) rows.now) }
{
    let mut words = String::new(alloc);
    for row in rows {
        push_aligned(&mut words, one, other, *row)?;
    }
    Ok(words)
}
