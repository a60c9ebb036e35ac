//! Numbers, columns and places in a text.

ghost use Rattle.std.specs.Prelude.{◌≡◌, ◌≤◌, ◌++◌, OnOk, Some, length, take, drop};
ghost use Rattle.trace_rows.specs.Steps.{ended_row, row_front};
ghost use Rattle.trace_rows.specs.Words.{count_text, with_label, with_line, with_site};

use crate::lines::SourceLine;
use crate::sites::Sites;
use accesses::Moment;
use formatting::{push_address, push_blanks, push_count};
use itoa::Buffer;
use std::alloc::AllocError;

/// Appends a number in decimal, with blanks before it up to a width.
#[tactic(auto, unfolding(crate::specs::Words::count_text))]
pub fn push_padded(text: &mut Vec<u8>, number: u64, width: u8) -> Result<(), AllocError>
    ensures { OnOk result (text.new.items ≡ text.old.items ++ count_text width number) }
{
    let mut buffer = Buffer::new();
    let digits = buffer.format(number).as_bytes();
    let missing = (width as usize).saturating_sub(digits.len());
    text.resize(text.len() + missing, b' ')?;
    text.extend_from_slice(digits)
}

/// Where a row has the label of its address, and the number of its line.
#[derive(Clone, Copy)]
pub struct SiteColumns {
    pub label: u8,
    pub line: u8,
}

/// Appends a label and how far an address is above it, after two blanks and no further left than a
/// column.
#[tactic(auto, using(formatting::proofs::Padding::grown), unfolding(crate::specs::Words::with_label))]
fn push_label(
    text: &mut Vec<u8>,
    from: usize,
    column: u8,
    label: &[u8],
    distance: u16,
) -> Result<(), AllocError>
    requires { from ≤ length text.old.items }
    ensures { OnOk result (text.new.items ≡ take from text.old.items
        ++ with_label column (Some (label.now, distance)) (drop from text.old.items)) }
{
    text.extend_from_slice(b"  ")?;
    push_blanks(text, from, column)?;
    text.extend_from_slice(label)?;
    if distance > 0 {
        text.push(b'+')?;
        push_count(text, distance as u64)?;
    }
    Ok(())
}

/// Appends the number of a line after the name of its file, if that is shown, and a colon,
/// likewise.
#[tactic(auto, using(formatting::proofs::Padding::grown), unfolding(crate::specs::Words::with_line))]
fn push_line_number(
    text: &mut Vec<u8>,
    from: usize,
    column: u8,
    line: &SourceLine,
) -> Result<(), AllocError>
    requires { from ≤ length text.old.items }
    ensures { OnOk result (text.new.items ≡ take from text.old.items
        ++ with_line column (Some line.now) (drop from text.old.items)) }
{
    text.extend_from_slice(b"  ")?;
    push_blanks(text, from, column)?;
    text.extend_from_slice(line.file.as_slice())?;
    text.extend_from_slice(b":")?;
    push_count(text, line.number as u64)
}

/// Appends the label of an address and the number of its line, as far as the source has them, each
/// after two blanks and no further left than its column: `again+4  :6`, or `again+4  count.s:6`.
#[tactic(auto, using(formatting::proofs::Padding::grown), unfolding(crate::specs::Words::with_site, crate::specs::Words::with_label, crate::specs::Words::with_line))]
pub fn push_site(
    text: &mut Vec<u8>,
    from: usize,
    columns: SiteColumns,
    sites: &Sites,
    address: u16,
) -> Result<(), AllocError>
    requires { from ≤ length text.old.items }
    ensures { OnOk result (text.new.items ≡ take from text.old.items
        ++ with_site columns sites.now address (drop from text.old.items)) }
{
    if let Some((label, distance)) = sites.label_near(address) {
        push_label(text, from, columns.label, label, distance)?;
    }
    if let Some(line) = sites.line_at(address) {
        push_line_number(text, from, columns.line, line)?;
    }
    Ok(())
}

/// Appends the label and the line of an address, and ends the row.
#[tactic(auto, using(formatting::proofs::Padding::grown))]
pub fn push_row_end(
    text: &mut Vec<u8>,
    from: usize,
    columns: SiteColumns,
    sites: &Sites,
    address: u16,
) -> Result<(), AllocError>
    requires { from ≤ length text.old.items }
    ensures { OnOk result (text.new.items ≡ take from text.old.items
        ++ ended_row columns sites.now address (drop from text.old.items)) }
{
    push_site(text, from, columns, sites, address)?;
    text.extend_from_slice(b"\n")
}

/// Appends the number and the address at the front of a row.
#[tactic(auto, unfolding(crate::specs::Steps::row_front))]
pub fn push_front(text: &mut Vec<u8>, number: u64, moment: &Moment) -> Result<(), AllocError>
    ensures { OnOk result (text.new.items ≡ text.old.items ++ row_front number moment.now) }
{
    push_padded(text, number, 8)?;
    text.extend_from_slice(b"  ")?;
    push_address(text, moment.regs.pc)?;
    text.extend_from_slice(b"  ")
}
