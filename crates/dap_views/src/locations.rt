//! The lines at which breakpoints can stand.

ghost use Rattle.std.specs.Prelude.{◌≡◌, ◌++◌, IfOk, List};
ghost use Rattle.dap_views.specs.Locations.{AreLocations, is_location, location_of, locations_of};
ghost use Rattle.dap_views.specs.Locations.{own_locations};
ghost use Rattle.dap_messages.specs.ItemLists.{HasItems};
ghost use Rattle.dap_messages.specs.SeenAnswers.{SeenItem, answer_view};

use crate::lines::is_from;
use crate::source::{Source, file_named};
use dap_messages::{Answer, Counting, Item, ItemList, breakpoints_body};
use source_map::{Places, Row};
use std::alloc::{AllocError, Global};
use std::rt::Files;

/// Returns whether a row begins a line of a file, from one line to another.
fn is_location(row: Row, file: usize, first: u32, last: u32) -> bool
    ensures { result ≡ is_location file first last row }
{
    is_from(row, file, first) && row.line <= last
}

/// Returns a list with the line of a row behind its items, if the row begins a line of a file, from
/// one line to another.
fn with_location(
    list: ItemList,
    counting: Counting,
    row: Row,
    file: usize,
    first: u32,
    last: u32,
) -> ItemList
    ensures { (ds : List SeenItem) → HasItems ds list
        → HasItems (ds ++ location_of counting file first last row) result }
{
    if is_location(row, file, first, last) {
        list.with(Ok(Item::Place(counting.shown_line(row.line))))
    } else {
        list
    }
}

/// Returns the lines of a file that rows begin, from one line to another.
fn locations_of(
    alloc: Global,
    counting: Counting,
    rows: &[Row],
    file: usize,
    first: u32,
    last: u32,
) -> ItemList
    ensures { HasItems (locations_of counting file first last rows.now) result }
{
    let mut list = ItemList::new(alloc);
    for row in rows {
        list = with_location(list, counting, *row, file, first, last);
    }
    list
}

/// Returns the lines of a file that begin, from one that a client names to another.
fn own_locations(
    alloc: Global,
    places: &Places,
    counting: Counting,
    file: usize,
    line: Option<u64>,
    end: Option<u64>,
) -> ItemList
    ensures { HasItems (own_locations counting places.now.lines file line end) result }
{
    let first = counting.own_line(line);
    let last = counting.own_line(end);
    locations_of(alloc, counting, places.rows(), file, first, last)
}

/// Returns the lines at which breakpoints can stand in the file with a path, from one that a client
/// names to another: those that begin at an address, if the file is one of the source.
pub fn breakpoint_locations<H: Files + AllocGlobal>(
    rt: &H,
    places: &Places,
    source: &Source<'_>,
    path: &str,
    line: Option<u64>,
    end: Option<u64>,
) -> Result<Answer, AllocError>
    ensures { IfOk result (λ v. AreLocations source.now.counting places.now.lines
        source.now.files.now path.now line end (answer_view v)) }
{
    let alloc = rt.alloc();
    match file_named(rt, source.files, path) {
        Some(file) => {
            let list = own_locations(alloc, places, source.counting, file, line, end);
            breakpoints_body(list)
        }
        None => breakpoints_body(ItemList::new(alloc)),
    }
}
