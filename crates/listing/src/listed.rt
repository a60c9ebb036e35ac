//! The rows of an assembly's lines and names.

ghost use Rattle.std.specs.Prelude.{◌≡◌, ◌+◌, ◌-◌, ◌<◌, ◌≤◌, ◌^◌, ◌++◌, IfOk, OnOk, drop, length};
ghost use Rattle.std.specs.Prelude.{map, take};
ghost use Rattle.line_parts.specs.Spans.{pairs_of};
ghost use Rattle.model.specs.TextLines.{lines_of};
ghost use Rattle.model.specs.Listing.{bytes_at, lines_rows, listing_text, name_row, names_rows};
ghost use Rattle.model.specs.Listing.{address_and_bytes};

use crate::{push_line, push_name};
use line_parts::{Span, next_line};
use memory_map::Image;
use std::alloc::{AllocError, Global};
use symbols::Symbols;

/// Returns so many cells from an address on, or as many as there are.
#[tactic(auto, using(crate::proofs::RowsLeft::cells_cut))]
fn cells_at(cells: &[Option<u8>], address: usize, count: usize) -> &[Option<u8>]
    ensures { result.now ≡ take count (drop address cells.now) }
{
    let behind = &cells[address.min(cells.len())..];
    &behind[..count.min(behind.len())]
}

/// Replaces the contents of `room` by so many of an image's bytes from an address on.
fn take_bytes(room: &mut Vec<u8>, cells: &[Option<u8>], span: &Span) -> Result<(), AllocError>
    ensures { OnOk result (room.new.items ≡ bytes_at cells.now span.now.address span.now.count) }
{
    room.clear();
    let part = cells_at(cells, span.address as usize, span.count as usize);
    for cell in part {
        room.push(cell.unwrap_or(0))?;
    }
    Ok(())
}

/// Appends the rows of the lines that have an address.
fn push_lines(
    out: &mut Vec<u8>,
    alloc: Global,
    source: &[u8],
    spans: &[Span],
    cells: &[Option<u8>],
) -> Result<(), AllocError>
    requires { length cells.now ≡ 65536 }
    ensures { OnOk result (out.new.items ≡ out.old.items
        ++ lines_rows (lines_of source.now)
        (map (address_and_bytes cells.now) (pairs_of spans.now))) }
{
    let mut room = Vec::new(alloc);
    let mut rest = source;
    for span in spans {
        if rest.is_empty() {
            return Ok(());
        }
        let (line, behind) = next_line(rest);
        take_bytes(&mut room, cells, span)?;
        push_line(out, span.address, &room, line)?;
        rest = behind;
    }
    Ok(())
}

/// Appends a name's row.
fn push_symbol(out: &mut Vec<u8>, symbol: (&[u8], i32)) -> Result<(), AllocError>
    ensures { OnOk result
        (out.new.items ≡ out.old.items ++ name_row (symbol.entry.0.now, symbol.entry.1)) }
{
    let (name, number) = symbol;
    push_name(out, name, number)
}

/// Appends an empty line and the rows of the names, if there are names.
fn push_names(out: &mut Vec<u8>, names: &Symbols) -> Result<(), AllocError>
    ensures { OnOk result (out.new.items ≡ out.old.items ++ names_rows names.now) }
{
    if names.count() == 0 {
        return Ok(());
    }
    out.push(b'\n')?;
    for index in 0..names.count() {
        match names.symbol(index) {
            Some(symbol) => push_symbol(out, symbol)?,
            None => {}
        }
    }
    Ok(())
}

/// Returns the listing: the rows of the lines that have an address, and those of the names.
///
/// Errors: `AllocError` if an allocation fails.
pub fn listing_of(
    alloc: Global,
    source: &[u8],
    spans: &[Span],
    image: &Image,
    names: &Symbols,
) -> Result<Vec<u8>, AllocError>
    ensures { IfOk result (λ out. out.items ≡ listing_text (lines_of source.now)
        (map (address_and_bytes image.now) (pairs_of spans.now)) names.now) }
{
    let mut out = Vec::new(alloc);
    push_lines(&mut out, alloc, source, spans, image.cells())?;
    push_names(&mut out, names)?;
    Ok(out)
}
