//! The addresses at which a line can be gone to.

ghost use Rattle.std.specs.Prelude.{IfOk};
ghost use Rattle.dap_views.specs.Targets.{AreTargets, own_targets};
ghost use Rattle.dap_messages.specs.ItemLists.{HasItems};
ghost use Rattle.dap_messages.specs.SeenAnswers.{answer_view};

use crate::lines::row_in;
use crate::source::{Source, file_named};
use dap_messages::{Answer, Counting, Item, ItemList, targets_body};
use source_map::Places;
use std::alloc::{AllocError, Global};
use std::rt::Files;

/// Returns the first line of a file that begins, at the line of a number or behind it, with its
/// address, as what can be gone to. There is none if no such line begins, or no line is named.
fn own_targets(
    alloc: Global,
    places: &Places,
    counting: Counting,
    file: usize,
    line: Option<u64>,
) -> ItemList
    ensures { HasItems (own_targets counting places.now.lines file line) result }
{
    match row_in(places, file, counting.own_line(line)) {
        Some((line, address)) => {
            let line = counting.shown_line(line);
            ItemList::new(alloc).with(Ok(Item::GotoTarget { address, line }))
        }
        None => ItemList::new(alloc),
    }
}

/// Returns the addresses at which a line of the file with a path can be gone to: that of the first
/// line that begins from there on, if there is one, and the file is one of the source.
pub fn goto_targets<H: Files + AllocGlobal>(
    rt: &H,
    places: &Places,
    source: &Source<'_>,
    path: &str,
    line: Option<u64>,
) -> Result<Answer, AllocError>
    ensures { IfOk result (λ v. AreTargets source.now.counting places.now.lines
        source.now.files.now path.now line (answer_view v)) }
{
    let alloc = rt.alloc();
    match file_named(rt, source.files, path) {
        Some(file) => targets_body(own_targets(alloc, places, source.counting, file, line)),
        None => targets_body(ItemList::new(alloc)),
    }
}
