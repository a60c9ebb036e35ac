//! The lines of a source that have bytes: rows by address, and sites by line.

ghost use Rattle.std.specs.Prelude.{◌≡◌, ◌++◌, IfOk, OnOk, slice_get};
ghost use Rattle.std.specs.Option.{option_to_list};
ghost use Rattle.assembler.specs.Assembly.{source_lines};
ghost use Rattle.assembler.specs.Lines.{line_view};
ghost use Rattle.source_map.specs.Lines.{byte_in, bytes_in, row_of, rows_of, site_of, sites_of};

use assembler::{Assembly, SourceLine};
use debug_records::LineKind;
use memory_map::Image;
use std::alloc::{AllocError, Global};

/// Bytes of a program, and the line of a source that is shown for them.
#[derive(Clone, Copy)]
pub struct Row {
    /// The address of the first byte.
    pub address: u16,
    /// The number of the file, counted from 0.
    pub file: u32,
    /// The number of the line, counted from 1.
    pub line: u32,
    pub kind: LineKind,
    /// How deep in macros and loops the line stands.
    pub depth: u32,
    /// How many bytes they are.
    pub count: u32,
    /// What the program has at the address and at the two behind it, 0 where it has nothing.
    pub bytes: [u8; 3],
    /// Whether they are an instruction, and no data.
    pub is_instruction: bool,
    /// Whether the line has these bytes alone: it is no macro's call, and none of C.
    pub is_whole_line: bool,
    /// Whether the line begins with them. Of the bytes of a macro's call the first do.
    pub begins_line: bool,
}

/// An address at which bytes of a line begin.
#[derive(Clone, Copy)]
pub struct Site {
    /// The number of the file, counted from 0.
    pub file: u32,
    /// The number of the line, counted from 1.
    pub line: u32,
    pub address: u16,
    /// What stands behind the last of them.
    pub end: u64,
}

/// Returns what an image has at an address, 0 if that is nothing.
fn byte_in(image: &Image, address: u16) -> u8
    ensures { result ≡ byte_in image.now address }
{
    image.get(address).unwrap_or(0)
}

/// Returns what an image has at an address and at the two behind it, 0 where it has nothing.
pub fn bytes_in(image: &Image, address: u16) -> [u8; 3]
    ensures { result ≡ bytes_in image.now address }
{
    [
        byte_in(image, address),
        byte_in(image, address.wrapping_add(1)),
        byte_in(image, address.wrapping_add(2)),
    ]
}

/// Appends the row of a line, if the line has bytes.
fn push_row(rows: &mut Vec<Row>, image: &Image, line: SourceLine<'_>) -> Result<(), AllocError>
    ensures { OnOk result
        (rows.new.items ≡ rows.old.items ++ row_of image.now (line_view line.entry)) }
{
    if line.count > 0 && line.address <= 65535 {
        let address = line.address as u16;
        rows.push(Row {
            address,
            file: 0,
            line: line.number,
            kind: LineKind::Assembler,
            depth: 0,
            count: line.count,
            bytes: bytes_in(image, address),
            is_instruction: line.is_instruction,
            is_whole_line: true,
            begins_line: true,
        })?;
    }
    Ok(())
}

/// Appends the row of the line of an index, if there is such a line and it has bytes.
fn push_row_at(rows: &mut Vec<Row>, assembly: &Assembly, index: usize) -> Result<(), AllocError>
    ensures { OnOk result (rows.new.items ≡ rows.old.items
        ++ rows_of assembly.now.image
        (option_to_list (slice_get (source_lines assembly.now) index))) }
{
    match assembly.line(index) {
        Some(line) => push_row(rows, assembly.image(), line),
        None => Ok(()),
    }
}

/// Returns the rows of the lines that have bytes, in their order.
pub fn rows_of(alloc: Global, assembly: &Assembly) -> Result<Vec<Row>, AllocError>
    ensures { IfOk result
        (λ rows. rows.items ≡ rows_of assembly.now.image (source_lines assembly.now)) }
{
    let mut rows = Vec::new(alloc);
    for index in 0..assembly.line_count() {
        push_row_at(&mut rows, assembly, index)?;
    }
    Ok(rows)
}

/// Returns where a row begins and ends.
fn site_of(row: Row) -> Site
    ensures { result ≡ site_of row }
{
    Site {
        file: row.file,
        line: row.line,
        address: row.address,
        end: row.address as u64 + row.count as u64,
    }
}

/// Returns where rows begin, in their order.
pub fn sites_of(alloc: Global, rows: &[Row]) -> Result<Vec<Site>, AllocError>
    ensures { IfOk result (λ sites. sites.items ≡ sites_of rows.now) }
{
    let mut sites = Vec::new(alloc);
    for row in rows {
        sites.push(site_of(*row))?;
    }
    Ok(sites)
}
