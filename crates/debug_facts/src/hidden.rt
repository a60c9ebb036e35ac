//! The addresses that lines have, and of which none is shown.

ghost use Rattle.std.specs.Prelude.{◌≡◌, ◌∷◌, ◌++◌, [], IfOk, OnOk, length};
ghost use Rattle.debug_facts.specs.Hidden.{AreCells, AreHidden, AreHiddenAmong, hidden_cell};
ghost use Rattle.debug_records.specs.Views.{info_view};

use debug_records::{DebugInfo, Row, Wanted, clear_rows, record_at, rows_of, table_of};
use std::alloc::{AllocError, Global};

/// Returns a cell if a row has an address, and no row is shown there.
fn hidden_cell(found: Option<Row>, shown: Option<Row>) -> Option<u8>
    ensures { result ≡ hidden_cell found shown }
{
    if found.is_some() && shown.is_none() {
        Some(0)
    } else {
        None
    }
}

/// Appends a cell.
fn push_cell(cells: &mut Vec<Option<u8>>, cell: Option<u8>) -> Result<(), AllocError>
    ensures { OnOk result (cells.new.items ≡ cells.old.items ++ cell ∷ []) }
{
    cells.push(cell)?;
    Ok(())
}

/// Returns the cells of all addresses, by a row that has each and the one that is shown there.
fn cells_by(
    alloc: Global,
    found: &[Option<Row>],
    shown: &[Option<Row>],
) -> Result<Vec<Option<u8>>, AllocError>
    ensures { IfOk result (λ cells. AreCells found.now shown.now 65536 cells.items) }
{
    let mut cells = Vec::new(alloc);
    for address in 0..65536u32 {
        let cell = hidden_cell(record_at(found, address), record_at(shown, address));
        push_cell(&mut cells, cell)?;
    }
    Ok(cells)
}

/// Returns a cell for each address that one of some rows has, and none of those that are shown.
fn hidden_among(alloc: Global, rows: &[Row], clear: &[Row]) -> Result<Vec<Option<u8>>, AllocError>
    ensures { IfOk result (λ cells. AreHiddenAmong rows.now clear.now cells.items) }
{
    let found = table_of(alloc, Wanted::Shown, rows)?;
    let shown = table_of(alloc, Wanted::Shown, clear)?;
    let cells = cells_by(alloc, found.as_slice(), shown.as_slice())?;
    Ok(cells)
}

/// Returns a cell for each address that a line of debug information has, and at which none is
/// shown: it is not known of which file the line is, or whose bytes are there.
///
/// Errors: `AllocError` if an allocation fails.
pub fn hidden_cells(alloc: Global, info: &DebugInfo<'_>) -> Result<Vec<Option<u8>>, AllocError>
    ensures size { IfOk result (λ cells. length cells.items ≡ 65536) }
    ensures hidden { IfOk result (λ cells. AreHidden (info_view info.now) cells.items) }
{
    let rows = rows_of(alloc, info)?;
    let clear = clear_rows(alloc, info, rows.as_slice())?;
    let cells = hidden_among(alloc, rows.as_slice(), clear.as_slice())?;
    Ok(cells)
}
