//! Where the lines of a file begin.

ghost use Rattle.std.specs.Prelude.{◌≡◌};
ghost use Rattle.dap_views.specs.Wanted.{file_number, is_before, is_from, row_in, with_row};

use source_map::{Places, Row};

/// Returns the number of a file in the tables of lines, which have none above 4,294,967,295.
pub fn file_number(file: usize) -> u32
    ensures { result ≡ file_number file }
{
    if file <= 4_294_967_295 {
        file as u32
    } else {
        4_294_967_295
    }
}

/// Returns whether a row begins a line of a file, at a number or behind it.
pub fn is_from(row: Row, file: usize, line: u32) -> bool
    ensures { result ≡ is_from file line row }
{
    row.begins_line && (row.file as usize == file && line <= row.line)
}

/// Returns whether a row has a lower line than the best so far, or a lower address in this line.
fn is_before(row: Row, best: Option<(u32, u16)>) -> bool
    ensures { result ≡ is_before row best }
{
    match best {
        None => true,
        Some((line, address)) => { row.line < line || (row.line == line && row.address < address) }
    }
}

/// Returns the line and the address of a row, if it is better than the best so far.
fn with_row(file: usize, line: u32, best: Option<(u32, u16)>, row: Row) -> Option<(u32, u16)>
    ensures { result ≡ with_row file line best row }
{
    if is_from(row, file, line) && is_before(row, best) {
        Some((row.line, row.address))
    } else {
        best
    }
}

/// Returns the first line of a file that begins, at a number or behind it, and the lowest address
/// at which it does.
pub fn row_in(places: &Places, file: usize, line: u32) -> Option<(u32, u16)>
    ensures { result ≡ row_in places.now.lines file line }
{
    let rows = places.rows();
    let mut best = None;
    for row in rows {
        best = with_row(file, line, best, *row);
    }
    best
}
