//! Writing a text of records.

ghost use Rattle.std.specs.Prelude.{◌≡◌, ◌+◌, ◌-◌, ◌<◌, ◌≤◌, ◌++◌, ◌∷◌, [], IfOk, ℕ, List, Ok};
ghost use Rattle.std.specs.Prelude.{Option, length};
ghost use Rattle.std.specs.List.{flat_map};
ghost use Rattle.image_reader.specs.Texts.{text_image};
ghost use Rattle.image_writer.specs.ImageTexts.{end_text, front_text, image_text, row_text};
ghost use Rattle.image_writer.specs.Rows.{ended, rows};

use crate::record::push_record;
use arrayvec::ArrayVec;
use image_reader::TextForm;
use memory_map::Image;
use std::alloc::{AllocError, Global};

/// The bytes of one record that are begun: fewer than 16.
type Row = ArrayVec<u8, 16>;

/// Appends what stands before the data records.
fn push_front(out: &mut Vec<u8>, form: TextForm) -> Result<(), AllocError>
    ensures { IfOk result (λ _. out.new.items ≡ out.old.items ++ front_text form) }
{
    match form {
        TextForm::Hex => Ok(()),
        TextForm::SRecord => push_record(out, b"S0", 255, &[8, 0, 0], b"mos65"),
    }
}

/// Appends the end record.
fn push_end(out: &mut Vec<u8>, form: TextForm) -> Result<(), AllocError>
    ensures { IfOk result (λ _. out.new.items ≡ out.old.items ++ end_text form) }
{
    match form {
        TextForm::Hex => push_record(out, b":", 0, &[0, 0, 0, 1], &[]),
        TextForm::SRecord => push_record(out, b"S9", 255, &[3, 0, 0], &[]),
    }
}

/// Appends the data record of a stretch.
fn push_row(out: &mut Vec<u8>, form: TextForm, address: u16, row: &[u8]) -> Result<(), AllocError>
    requires { length row.now ≤ 16 }
    ensures { IfOk result
        (λ _. out.new.items ≡ out.old.items ++ row_text form (address, row.now)) }
{
    let length = row.len() as u8;
    let high = (address / 256) as u8;
    let low = (address % 256) as u8;
    match form {
        TextForm::Hex => push_record(out, b":", 0, &[length, high, low, 0], row),
        TextForm::SRecord => push_record(out, b"S1", 255, &[length + 3, high, low], row),
    }
}

/// Appends the record of the bytes that are begun right before an address, if there are some, and
/// begins none.
fn end_row(out: &mut Vec<u8>, form: TextForm, address: u32, row: &mut Row) -> Result<(), AllocError>
    requires after { length row.old.items ≤ address }
    requires inside { address ≤ 65536 }
    ensures text { IfOk result (λ _. out.new.items
        ≡ out.old.items ++ flat_map (row_text form) (ended address row.old.items)) }
    ensures none { IfOk result (λ _. row.new.items ≡ []) }
{
    if row.len() == 0 {
        return Ok(());
    }
    let start = address - row.len() as u32;
    push_row(out, form, start as u16, row.as_slice())?;
    row.clear();
    Ok(())
}

/// Takes the byte at an address: appends the record that it fills, if it fills one.
fn take_byte(
    out: &mut Vec<u8>,
    form: TextForm,
    address: u32,
    row: &mut Row,
    byte: u8,
) -> Result<(), AllocError>
    requires after { length row.old.items ≤ address }
    requires inside { address < 65536 }
    requires few { length row.old.items < 16 }
    ensures text { IfOk result (λ _. (cells : List (Option ℕ))
        → out.new.items ++ flat_map (row_text form) (rows (address + 1) row.new.items cells)
        ≡ out.old.items
        ++ flat_map (row_text form) (rows address row.old.items (Some byte ∷ cells))) }
    ensures few { IfOk result (λ _. length row.new.items < 16) }
    ensures after { IfOk result (λ _. length row.new.items ≤ address + 1) }
{
    let count = row.len();
    row.push(byte);
    if count < 15 {
        return Ok(());
    }
    end_row(out, form, address + 1, row)
}

/// Takes the cell at an address: appends the record that it ends, if it ends one.
fn take_cell(
    out: &mut Vec<u8>,
    form: TextForm,
    address: u32,
    row: &mut Row,
    cell: Option<u8>,
) -> Result<(), AllocError>
    requires after { length row.old.items ≤ address }
    requires inside { address < 65536 }
    requires few { length row.old.items < 16 }
    // What is written and what is still to be written is the same before and after.
    ensures text { IfOk result (λ _. (cells : List (Option ℕ))
        → out.new.items ++ flat_map (row_text form) (rows (address + 1) row.new.items cells)
        ≡ out.old.items ++ flat_map (row_text form) (rows address row.old.items (cell ∷ cells))) }
    ensures few { IfOk result (λ _. length row.new.items < 16) }
    ensures after { IfOk result (λ _. length row.new.items ≤ address + 1) }
{
    match cell {
        None => end_row(out, form, address, row),
        Some(byte) => take_byte(out, form, address, row, byte),
    }
}

/// Appends the data records of an image.
fn push_rows(out: &mut Vec<u8>, form: TextForm, cells: &[Option<u8>]) -> Result<(), AllocError>
    requires { length cells.now ≡ 65536 }
    ensures { IfOk result (λ _. out.new.items
        ≡ out.old.items ++ flat_map (row_text form) (rows 0 [] cells.now)) }
{
    let mut row = Row::new();
    for address in 0..65536u32 {
        take_cell(out, form, address, &mut row, cells[address as usize])?;
    }
    end_row(out, form, 65536, &mut row)
}

/// Writes an image as a text of records, in capitals, with CR LF behind each record.
///
/// A data record has at most 16 bytes: the maximal runs of the image are cut from their starts.
/// S-records begin with an S0 record that says `mos65`, and all data is in S1 records.
///
/// The only error is that an allocation failed.
pub fn write_text(alloc: Global, form: TextForm, image: &Image) -> Result<Vec<u8>, AllocError>
    // What is written is the image's text.
    ensures text { IfOk result (λ t. t.items ≡ image_text form image.now) }
    // That text denotes the image.
    ensures denotes { IfOk result (λ t. text_image form t.items ≡ Ok image.now) }
{
    let mut out = Vec::new(alloc);
    push_front(&mut out, form)?;
    push_rows(&mut out, form, image.cells())?;
    push_end(&mut out, form)?;
    Ok(out)
}
