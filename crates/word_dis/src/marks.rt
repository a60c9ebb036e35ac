//! What is marked, and the part of an image that is written.
ghost use Rattle.std.specs.Prelude.{◌≡◌, ℕ, ◌<◌, IfOk, length, slice_index_or, vec_len};
ghost use Rattle.image_writer.specs.Window.{with_cell};
ghost use Rattle.model.specs.Image.{cell_at};
ghost use Rattle.marks_files.specs.Views.{marks_view};
ghost use Rattle.source_forms.specs.Rows.{mark_at};
ghost use Rattle.word_dis.specs.Marks.{cell_between, lies_in, lies_in_one, mark_of, said_mark};

use bus::Image;
use marks_files::Marks;
use named_source::Mark;
use std::alloc::{AllocError, Global};

/// Whether an address lies in a range.
fn lies_in(range: (u16, u16), address: u16) -> bool
    ensures { result ≡ lies_in range address }
{
    (range.0 <= address) & (address <= range.1)
}

/// Whether an address lies in one of some ranges.
fn lies_in_one(ranges: &[(u16, u16)], address: u16) -> bool
    ensures { result ≡ lies_in_one ranges.now address }
{
    for range in ranges {
        if lies_in(*range, address) {
            return true;
        }
    }
    false
}

/// What an address is marked as.
fn mark_of(labels: bool, said: &Marks, address: u16) -> Mark
    ensures { result ≡ mark_of labels (marks_view said.now) address }
{
    if lies_in_one(said.letters.as_slice(), address) {
        Mark::Text
    } else if lies_in_one(said.numbers.as_slice(), address) {
        Mark::Data
    } else if lies_in_one(said.returns.as_slice(), address) {
        Mark::Return
    } else if lies_in_one(said.addresses.as_slice(), address) {
        Mark::Address
    } else if labels & (0xfffa <= address) {
        Mark::Data
    } else {
        Mark::Code
    }
}

/// Returns the marks of all addresses: with labels the vectors are data. The only error is that a
/// request for memory was refused.
pub fn marks_of(alloc: Global, labels: bool, said: &Marks) -> Result<Vec<Mark>, AllocError>
    ensures len { IfOk result (λ marks. vec_len marks ≡ 65536) }
    ensures each { IfOk result (λ marks. (a : ℕ) → a < 65536
        → slice_index_or marks.items a Mark.Code ≡ mark_of labels (marks_view said.now) a) }
{
    let mut marks = Vec::new(alloc);
    for address in 0..65536u32 {
        marks.push(mark_of(labels, said, address as u16))?;
    }
    Ok(marks)
}

/// The mark of an address: code where none is given.
fn mark_at(marks: &[Mark], address: u16) -> Mark
    ensures { result ≡ mark_at marks.now address }
{
    match marks.get(address as usize) {
        Some(mark) => *mark,
        None => Mark::Code,
    }
}

/// What an address is marked as where ranges of instructions are said.
fn said_mark(instructions: &[(u16, u16)], marks: &[Mark], address: u16) -> Mark
    ensures { result ≡ said_mark instructions.now marks.now address }
{
    if lies_in_one(instructions, address) {
        Mark::Code
    } else {
        mark_at(marks, address)
    }
}

/// Returns marks with ranges of instructions as code. The only error is that a request for memory
/// was refused.
pub fn said_marks(
    alloc: Global,
    instructions: &[(u16, u16)],
    marks: &[Mark],
) -> Result<Vec<Mark>, AllocError>
    ensures len { IfOk result (λ said. length said.items ≡ 65536) }
    ensures each { IfOk result (λ said. (a : ℕ) → a < 65536
        → slice_index_or said.items a Mark.Code ≡ said_mark instructions.now marks.now a) }
{
    let mut said = Vec::new(alloc);
    for address in 0..65536u32 {
        said.push(said_mark(instructions, marks, address as u16))?;
    }
    Ok(said)
}

/// An image's byte at an address that lies between two others, if there is one.
fn cell_between(image: &Image, first: u16, last: u16, address: u16) -> Option<u8>
    ensures { result ≡ cell_between image.now first last address }
{
    if (first <= address) & (address <= last) {
        image.get(address)
    } else {
        None
    }
}

/// Puts a byte at an address if there is one.
pub fn put_cell(part: &mut Image, address: u16, cell: Option<u8>)
    ensures { part.new ≡ with_cell part.old address cell }
{
    match cell {
        None => {}
        Some(byte) => part.put(address, byte),
    }
}

/// Returns an image's bytes between two addresses. The only error is that an allocation failed.
#[tactic(auto, using(crate::proofs::Between::turn))]
pub fn between(alloc: Global, image: &Image, first: u16, last: u16) -> Result<Image, AllocError>
    ensures { IfOk result
        (λ part. (a : ℕ) → a < 65536 → cell_at part a ≡ cell_between image.now first last a) }
{
    let Ok(mut part) = Image::new(alloc) else {
        return Err(AllocError);
    };
    // For the proof: that every image has 65,536 cells.
    let _ = part.cells();
    for address in 0..65536u32 {
        let cell = cell_between(image, first, last, address as u16);
        put_cell(&mut part, address as u16, cell);
    }
    Ok(part)
}
