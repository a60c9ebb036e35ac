//! What stands beside the lines of a source.

ghost use Rattle.std.specs.Prelude.{◌≡◌, ◌++◌, List, ◌∷◌, IfOk, OnOk, true};
ghost use Rattle.marks_files.specs.Marks.{text_of};
ghost use Rattle.marks_files.specs.declared.marks.Remark.{Remark};
ghost use Rattle.remarked_source.specs.Rows.{block_of, blocks, is_note, lies_in, note_front, notes};

use marks_files::Remark;
use std::alloc::AllocError;

/// What stands beside the lines of a source.
#[derive(Clone, Copy)]
pub struct Beside<'a> {
    /// Whether each line has its address and its bytes beside it.
    pub addresses: bool,
    /// The comments of addresses.
    pub remarks: &'a [Remark],
    /// The texts of the comments, one after another.
    pub texts: &'a [u8],
}

/// The text of a comment.
#[tactic(auto, using(crate::proofs::Cuts::text_cut))]
fn text_of(texts: &[u8], remark: Remark) -> &[u8]
    ensures { result.now ≡ text_of texts.now remark }
{
    let behind = &texts[remark.begin.min(texts.len())..];
    let count = remark.end.saturating_sub(remark.begin);
    &behind[..count.min(behind.len())]
}

/// Returns whether an address lies at one or above it, and below another.
pub fn lies_in(low: u64, high: u64, address: u64) -> bool
    ensures { result ≡ lies_in low high address }
{
    low <= address && address < high
}

/// Appends a comment that stands before a line of these addresses.
fn push_block(
    out: &mut Vec<u8>,
    texts: &[u8],
    low: u64,
    high: u64,
    remark: Remark,
) -> Result<(), AllocError>
    ensures { OnOk result
        (out.new.items ≡ out.old.items ++ block_of texts.now low high remark) }
{
    if remark.is_block && lies_in(low, high, remark.address as u64) {
        out.extend_from_slice(b"; ")?;
        out.extend_from_slice(text_of(texts, remark))?;
        out.extend_from_slice(b"\n")?;
    }
    Ok(())
}

/// Appends the comments that stand before a line of these addresses.
pub fn push_blocks(
    out: &mut Vec<u8>,
    texts: &[u8],
    low: u64,
    high: u64,
    remarks: &[Remark],
) -> Result<(), AllocError>
    ensures { OnOk result
        (out.new.items ≡ out.old.items ++ blocks texts.now low high remarks.now) }
{
    for remark in remarks {
        push_block(out, texts, low, high, *remark)?;
    }
    Ok(())
}

/// What stands before a comment: the first stands behind its line.
fn note_front(first: bool) -> &'static [u8]
    ensures { result.now ≡ note_front first }
{
    if first { b" ; " } else { b"\n; " }
}

/// Whether a comment stands behind a line of these addresses.
fn is_note(low: u64, high: u64, remark: Remark) -> bool
    ensures { result ≡ is_note low high remark }
{
    !remark.is_block && lies_in(low, high, remark.address as u64)
}

/// Appends a comment, if it stands behind a line of these addresses. Whether the next one is the
/// first.
#[tactic(auto, using(crate::proofs::Notes::here, crate::proofs::Notes::elsewhere))]
fn push_note(
    out: &mut Vec<u8>,
    texts: &[u8],
    low: u64,
    high: u64,
    first: bool,
    remark: Remark,
) -> Result<bool, AllocError>
    ensures { IfOk result (λ next. (rs : List Remark) → out.new.items
        ++ notes texts.now low high next rs
        ≡ out.old.items ++ notes texts.now low high first (remark ∷ rs)) }
{
    if !is_note(low, high, remark) {
        return Ok(first);
    }
    out.extend_from_slice(note_front(first))?;
    out.extend_from_slice(text_of(texts, remark))?;
    Ok(false)
}

/// Appends the comments that stand behind a line of these addresses.
pub fn push_notes(
    out: &mut Vec<u8>,
    texts: &[u8],
    low: u64,
    high: u64,
    remarks: &[Remark],
) -> Result<(), AllocError>
    ensures { OnOk result
        (out.new.items ≡ out.old.items ++ notes texts.now low high true remarks.now) }
{
    let mut first = true;
    for remark in remarks {
        first = push_note(out, texts, low, high, first, *remark)?;
    }
    Ok(())
}
