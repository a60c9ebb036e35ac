//! What stands where in a program that another tool built, by its debug information.

ghost use Rattle.std.specs.Prelude.{◌≡◌, ◌++◌, IfOk, OnOk};
ghost use Rattle.std.specs.Option.{option_to_list};
ghost use Rattle.debug_records.specs.Rows.{clear_rows, rows_of};
ghost use Rattle.debug_records.specs.Views.{info_view};
ghost use Rattle.model.specs.OpcodeTable.{row_at};
ghost use Rattle.source_map.specs.Debugged.{Program, can_have, has_size, is_code, is_same_row};
ghost use Rattle.source_map.specs.Debugged.{piece, piece_of, pieces_of, site_in, sites_in};

use crate::rows::{Row, Site, bytes_in};
use debug_records::{
    DebugInfo, Row as DebugRow, Wanted, clear_rows, record_at, rows_of, size_of, table_of,
};
use memory_map::Image;
use model::Profile;
use optable::decode_in;
use std::alloc::{AllocError, Global};

/// Returns whether the instruction of an opcode has so many bytes.
fn has_size(profile: Profile, opcode: u8, size: u64) -> bool
    ensures { result ≡ has_size (row_at profile opcode) size }
{
    match decode_in(profile, opcode) {
        None => false,
        Some(row) => row.len as u64 == size,
    }
}

/// Returns whether an instruction can have so many bytes: that of the opcode there; or any, where
/// the program has no byte before it puts one there.
fn can_have(profile: Profile, opcode: Option<u8>, size: u64) -> bool
    ensures { result ≡ can_have profile opcode size }
{
    match opcode {
        None => size <= 3,
        Some(opcode) => has_size(profile, opcode, size),
    }
}

/// Returns whether bytes are an instruction: if they are not said to be data, and are as many as
/// that instruction has.
fn is_code(profile: Profile, image: &Image, address: u16, begun: DebugRow) -> bool
    ensures { result
        ≡ is_code (record { profile = profile; image = image.now }) address begun }
{
    !begun.is_data && can_have(profile, image.get(address), size_of(begun))
}

/// Returns whether two rows are of one line, and have the same bytes.
fn is_same_row(one: DebugRow, other: DebugRow) -> bool
    ensures { result ≡ is_same_row one other }
{
    one.file == other.file
        && one.line == other.line
        && one.start == other.start
        && one.end == other.end
}

/// Returns the bytes of the row that begins at an address, and the line of the row that is shown
/// there.
fn piece(profile: Profile, image: &Image, address: u16, begun: DebugRow, shown: DebugRow) -> Row
    ensures { result
        ≡ piece (record { profile = profile; image = image.now }) address begun shown }
{
    Row {
        address,
        file: shown.file,
        line: shown.line,
        kind: shown.kind,
        depth: shown.depth,
        count: size_of(begun).min(65536 - address as u64) as u32,
        bytes: bytes_in(image, address),
        is_instruction: is_code(profile, image, address, begun),
        is_whole_line: is_same_row(begun, shown),
        begins_line: shown.start == address as u64,
    }
}

/// Returns what stands at an address, by the row that begins there and the one that is shown there.
fn piece_of(
    profile: Profile,
    image: &Image,
    address: u16,
    begun: Option<DebugRow>,
    shown: Option<DebugRow>,
) -> Option<Row>
    ensures { result
        ≡ piece_of (record { profile = profile; image = image.now }) address begun shown }
{
    match (begun, shown) {
        (Some(begun), Some(shown)) => Some(piece(profile, image, address, begun, shown)),
        _ => None,
    }
}

/// Appends a row, if there is one.
fn push_some(rows: &mut Vec<Row>, row: Option<Row>) -> Result<(), AllocError>
    ensures { OnOk result (rows.new.items ≡ rows.old.items ++ option_to_list row) }
{
    if let Some(row) = row {
        rows.push(row)?;
    }
    Ok(())
}

/// Returns what stands at each address.
///
/// Errors: `AllocError` if an allocation fails.
pub fn pieces_of(
    alloc: Global,
    profile: Profile,
    image: &Image,
    rows: &[DebugRow],
) -> Result<Vec<Row>, AllocError>
    ensures { IfOk result (λ pieces. pieces.items
        ≡ pieces_of (record { profile = profile; image = image.now }) rows.now) }
{
    let begun_rows = table_of(alloc, Wanted::Begun, rows)?;
    let shown_rows = table_of(alloc, Wanted::Shown, rows)?;
    let mut pieces = Vec::new(alloc);
    for place in 0..65536u32 {
        let begun = record_at(&begun_rows, place);
        let shown = record_at(&shown_rows, place);
        let row = piece_of(profile, image, place as u16, begun, shown);
        push_some(&mut pieces, row)?;
    }
    Ok(pieces)
}

/// Returns where a row begins and ends, if it has a byte.
fn site_in(row: DebugRow) -> Option<Site>
    ensures { result ≡ site_in row }
{
    if row.start < row.end && row.start <= 65535 {
        Some(Site {
            file: row.file,
            line: row.line,
            address: row.start as u16,
            end: row.end,
        })
    } else {
        None
    }
}

/// Appends a site, if there is one.
fn push_site(sites: &mut Vec<Site>, site: Option<Site>) -> Result<(), AllocError>
    ensures { OnOk result (sites.new.items ≡ sites.old.items ++ option_to_list site) }
{
    if let Some(site) = site {
        sites.push(site)?;
    }
    Ok(())
}

/// Returns where rows begin.
///
/// Errors: `AllocError` if an allocation fails.
pub fn sites_in(alloc: Global, rows: &[DebugRow]) -> Result<Vec<Site>, AllocError>
    ensures { IfOk result (λ sites. sites.items ≡ sites_in rows.now) }
{
    let mut sites = Vec::new(alloc);
    for row in rows {
        push_site(&mut sites, site_in(*row))?;
    }
    Ok(sites)
}

/// Returns the rows of debug information, but those that are not told apart from others.
///
/// Errors: `AllocError` if an allocation fails.
pub fn told_rows(alloc: Global, info: &DebugInfo<'_>) -> Result<Vec<DebugRow>, AllocError>
    ensures { IfOk result (λ rows. rows.items
        ≡ clear_rows (info_view info.now) (rows_of (info_view info.now))) }
{
    let rows = rows_of(alloc, info)?;
    clear_rows(alloc, info, rows.as_slice())
}
