//! What is said of an image.

ghost use Rattle.std.specs.Prelude.{◌≡◌, ◌≤◌, ◌+◌, OnOk, length, true};
ghost use Rattle.std.specs.List.{list_all};
ghost use Rattle.marks_files.specs.Marks.{is_same_tail, is_text, is_text_byte, meets, meets_one};
ghost use Rattle.marks_files.specs.Marks.{half, is_whole, meets_other, meets_split, with_entry, with_label};
ghost use Rattle.marks_files.specs.Marks.{with_range, with_remark, with_routine, with_split};
ghost use Rattle.marks_files.specs.Views.{marks_view};
ghost use Rattle.model.specs.Names.{number_in};
ghost use Rattle.std.specs.Prelude.{None};

use crate::labels::push_label;
use reached::{Inline, Tail};
use std::alloc::{AllocError, Global};
use symbols::Symbols;

/// What the bytes of a range are.
#[derive(Clone, Copy, Debug, PartialEq, Eq)]
pub enum RangeKind {
    /// Numbers.
    Numbers,
    /// Letters.
    Letters,
    /// Words, each an address.
    Addresses,
    /// Words, each the address before one to which RTS goes.
    Returns,
    /// Instructions, whether control reaches them or not.
    Instructions,
}

/// A table in two halves: where the low bytes of its words begin, where the high ones do, how many
/// words it has, and how much more the addresses are to which these lead.
#[derive(Clone, Copy, Debug, PartialEq, Eq)]
pub struct Split {
    pub low: u16,
    pub high: u16,
    pub count: u16,
    pub more: u16,
}

/// A comment: its address, whether it stands before the line, and where its text is among the texts
/// of all.
#[derive(Clone, Copy, Debug, PartialEq, Eq)]
pub struct Remark {
    pub address: u16,
    pub is_block: bool,
    pub begin: usize,
    pub end: usize,
}

/// What is said of an image.
#[derive(Drop)]
pub struct Marks {
    /// The ranges of numbers, each with its first and its last address.
    pub numbers: Vec<(u16, u16)>,
    /// Those of letters.
    pub letters: Vec<(u16, u16)>,
    /// Those of words, each an address.
    pub addresses: Vec<(u16, u16)>,
    /// Those of words, each the address before one to which RTS goes.
    pub returns: Vec<(u16, u16)>,
    /// Those of instructions.
    pub instructions: Vec<(u16, u16)>,
    /// The tables in two halves.
    pub splits: Vec<Split>,
    /// Whether control is followed.
    pub follows: bool,
    /// Where it comes in, beside the vectors.
    pub entries: Vec<u16>,
    /// The routines whose calls are followed by data.
    pub routines: Vec<Inline>,
    /// The names of labels with their addresses.
    pub names: Symbols,
    /// The lines of a source that define them.
    pub definitions: Vec<u8>,
    /// The comments.
    pub remarks: Vec<Remark>,
    /// Their texts, one after another.
    pub texts: Vec<u8>,
}

/// Whether two ranges have an address in common.
fn meets(one: (u16, u16), other: (u16, u16)) -> bool
    ensures { result ≡ meets one other }
{
    (one.0 <= other.1) & (other.0 <= one.1)
}

/// Whether a range has an address in common with one of some ranges.
fn meets_one(ranges: &[(u16, u16)], range: (u16, u16)) -> bool
    ensures { result ≡ meets_one ranges.now range }
{
    for other in ranges {
        if meets(*other, range) {
            return true;
        }
    }
    false
}

/// Returns whether a range has an address in common with one of another kind.
pub fn meets_other(kind: RangeKind, marks: &Marks, range: (u16, u16)) -> bool
    ensures { result ≡ meets_other kind (marks_view marks.now) range }
{
    let in_numbers = meets_one(marks.numbers.as_slice(), range);
    let in_letters = meets_one(marks.letters.as_slice(), range);
    let in_addresses = meets_one(marks.addresses.as_slice(), range);
    let in_returns = meets_one(marks.returns.as_slice(), range);
    let in_instructions = meets_one(marks.instructions.as_slice(), range);
    match kind {
        RangeKind::Numbers => in_letters || in_addresses || in_returns || in_instructions,
        RangeKind::Letters => in_numbers || in_addresses || in_returns || in_instructions,
        RangeKind::Addresses => in_numbers || in_letters || in_returns || in_instructions,
        RangeKind::Returns => in_numbers || in_letters || in_addresses || in_instructions,
        RangeKind::Instructions => in_numbers || in_letters || in_addresses || in_returns,
    }
}

/// Appends a range.
pub fn push_range(marks: &mut Marks, kind: RangeKind, range: (u16, u16)) -> Result<(), AllocError>
    ensures { OnOk result (marks_view marks.new ≡ with_range kind range (marks_view marks.old)) }
{
    match kind {
        RangeKind::Numbers => marks.numbers.push(range)?,
        RangeKind::Letters => marks.letters.push(range)?,
        RangeKind::Addresses => marks.addresses.push(range)?,
        RangeKind::Returns => marks.returns.push(range)?,
        RangeKind::Instructions => marks.instructions.push(range)?,
    }
    Ok(())
}

/// Returns whether both halves of a table end by address 65535.
pub fn is_whole(split: Split) -> bool
    ensures { result ≡ is_whole split }
{
    split.low as u32 + split.count as u32 <= 65536
        && split.high as u32 + split.count as u32 <= 65536
}

/// The addresses of a half that begins at an address.
fn half(begin: u16, count: u16) -> (u16, u16)
    requires { begin + count ≤ 65536 }
    ensures { result ≡ half begin count }
{
    (begin, begin + count.saturating_sub(1))
}

/// Returns whether a half of a table has an address in common with a range of another kind.
pub fn meets_split(marks: &Marks, split: Split) -> bool
    requires { is_whole split ≡ true }
    ensures { result ≡ meets_split (marks_view marks.now) split }
{
    meets_other(RangeKind::Numbers, marks, half(split.low, split.count))
        || meets_other(RangeKind::Numbers, marks, half(split.high, split.count))
}

/// Appends a table in two halves, which are numbers.
pub fn push_split(marks: &mut Marks, split: Split) -> Result<(), AllocError>
    requires { is_whole split ≡ true }
    ensures { OnOk result (marks_view marks.new ≡ with_split split (marks_view marks.old)) }
{
    marks.numbers.push(half(split.low, split.count))?;
    marks.numbers.push(half(split.high, split.count))?;
    marks.splits.push(split)?;
    Ok(())
}

/// Appends an address where control comes in.
pub fn push_entry(marks: &mut Marks, address: u16) -> Result<(), AllocError>
    ensures { OnOk result (marks_view marks.new ≡ with_entry address (marks_view marks.old)) }
{
    marks.entries.push(address)?;
    marks.follows = true;
    Ok(())
}

/// Returns whether the same follows a call.
pub fn is_same_tail(tail: Tail, other: Tail) -> bool
    ensures { result ≡ is_same_tail tail other }
{
    match (tail, other) {
        (Tail::String, Tail::String) => true,
        (Tail::Counted, Tail::Counted) => true,
        (Tail::HighBit, Tail::HighBit) => true,
        (Tail::Bytes(count), Tail::Bytes(other)) => count == other,
        _ => false,
    }
}

/// Appends a routine.
pub fn push_routine(marks: &mut Marks, routine: Inline) -> Result<(), AllocError>
    ensures { OnOk result
        (marks_view marks.new ≡ with_routine routine (marks_view marks.old)) }
{
    marks.routines.push(routine)?;
    Ok(())
}

/// Appends a label, whose name was not given before.
pub fn push_name(
    alloc: Global,
    marks: &mut Marks,
    name: &[u8],
    address: u16,
) -> Result<(), AllocError>
    requires { number_in marks.old.names name.now ≡ None }
    ensures { OnOk result
        (marks_view marks.new ≡ with_label name.now address (marks_view marks.old)) }
{
    push_label(&mut marks.definitions, name, address)?;
    marks.definitions.push(b'\n')?;
    marks.names.define(alloc, name, address as i32)?;
    Ok(())
}

/// Whether a source may have a byte.
fn is_text_byte(byte: u8) -> bool
    ensures { result ≡ is_text_byte byte }
{
    (32 <= byte && byte <= 126) || byte == b'\t'
}

/// Whether a source may have all bytes of a text.
fn has_text_bytes(text: &[u8]) -> bool
    ensures { result ≡ list_all is_text_byte text.now }
{
    text.iter().all(|byte| is_text_byte(*byte))
}

/// Returns whether a text can be a comment.
pub fn is_text(text: &[u8]) -> bool
    ensures { result ≡ is_text text.now }
{
    1 <= text.len() && text.len() <= 120 && has_text_bytes(text)
}

/// Appends a comment.
pub fn push_remark(
    marks: &mut Marks,
    address: u16,
    is_block: bool,
    text: &[u8],
) -> Result<(), AllocError>
    requires { length text.now ≤ 120 }
    ensures { OnOk result (marks_view marks.new
        ≡ with_remark address is_block text.now (marks_view marks.old)) }
{
    let begin = marks.texts.len();
    marks.texts.extend_from_slice(text)?;
    let end = marks.texts.len();
    marks.remarks.push(Remark {
        address,
        is_block,
        begin,
        end,
    })?;
    Ok(())
}
