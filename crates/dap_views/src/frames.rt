//! The frames of the stack as they are shown.

ghost use Rattle.std.specs.Prelude.{◌≡◌, ◌++◌, ℕ, IfOk, List, OnOk, map as each, string_bytes};
ghost use Rattle.std.specs.Option.{option_copied};
ghost use Rattle.dap_views.specs.Frames.{AreFrames, frame_in, frame_on, frame_shown, frame_words};
ghost use Rattle.dap_views.specs.Frames.{where_words};
ghost use Rattle.dap_views.specs.Pages.{page_of};
ghost use Rattle.dap_messages.specs.SeenAnswers.{answer_view, item_view};

use crate::paged::Paged;
use crate::source::{FilePath, Source, file_at};
use crate::stack::{Frame, stack_frames};
use crate::texts::as_text;
use arguments::push_shown;
use call_frames::function_at;
use dap_messages::{
    Answer, Counting, Item, Page, SourcePlace, frame_at_line, frame_without_line, frames_body,
};
use formatting::push_text;
use mon_instructions::push_place;
use mon_session::MonState;
use mon_texts::wording::INTERRUPTED_AT;
use source_map::{Places, Row};
use std::alloc::{AllocError, Global};

/// Returns a frame at a line of a file, if the file is known and memory did not run out for the
/// words of it.
fn frame_in(
    alloc: Global,
    counting: Counting,
    frame: Frame,
    words: Result<String, AllocError>,
    file: Option<&FilePath>,
    line: u32,
) -> Result<Item, AllocError>
    ensures { (w : List ℕ) → IfOk words (λ s. string_bytes s ≡ w)
        → IfOk result (λ v. item_view v
        ≡ frame_in counting frame w (option_copied file.entry) line) }
{
    let id = u64::from(frame.id);
    match file {
        Some(file) => {
            let place = SourcePlace {
                name: file.name.as_str(),
                path: file.path.as_str(),
                line: counting.shown_line(line),
                column: counting.first_column(),
            };
            frame_at_line(alloc, id, frame.address, words, place)
        }
        None => frame_without_line(id, frame.address, words),
    }
}

/// Returns a frame that may have a row, and so a line of a file, if memory did not run out for the
/// words of it.
fn frame_on(
    alloc: Global,
    source: &Source<'_>,
    frame: Frame,
    words: Result<String, AllocError>,
    row: Option<Row>,
) -> Result<Item, AllocError>
    ensures { (w : List ℕ) → IfOk words (λ s. string_bytes s ≡ w)
        → IfOk result (λ v. item_view v
        ≡ frame_on source.now.files.now source.now.counting frame w row) }
{
    match row {
        Some(row) => {
            let file = file_at(source.files, row.file);
            frame_in(alloc, source.counting, frame, words, file, row.line)
        }
        None => frame_without_line(u64::from(frame.id), frame.address, words),
    }
}

/// Appends the name of the function of C at an address, or else the address, and the name that
/// stands there or nearest below it.
fn push_where(text: &mut Vec<u8>, places: &Places, address: u16) -> Result<(), AllocError>
    ensures { OnOk result
        (text.new.items ≡ text.old.items ++ where_words places.now address) }
{
    match function_at(places, address) {
        Some(function) => push_shown(text, function.name.as_slice()),
        None => push_place(text, places, address),
    }
}

/// Appends where a frame stands that was interrupted there, and that it was.
fn push_interrupted(text: &mut Vec<u8>, places: &Places, address: u16) -> Result<(), AllocError>
    ensures { OnOk result (text.new.items
        ≡ text.old.items ++ (INTERRUPTED_AT.now ++ where_words places.now address)) }
{
    push_text(text, INTERRUPTED_AT)?;
    push_where(text, places, address)
}

/// Appends where a frame stands, and whether it was interrupted there.
fn push_words(text: &mut Vec<u8>, places: &Places, frame: Frame) -> Result<(), AllocError>
    ensures { OnOk result (text.new.items ≡ text.old.items ++ frame_words places.now frame) }
{
    if frame.is_interrupted {
        push_interrupted(text, places, frame.address)
    } else {
        push_where(text, places, frame.address)
    }
}

/// Returns a frame: the name that stands at its address or nearest below it, and the line.
fn frame_shown(
    alloc: Global,
    places: &Places,
    source: &Source<'_>,
    frame: Frame,
) -> Result<Item, AllocError>
    ensures { IfOk result (λ v. item_view v ≡ frame_shown places.now source.now.files.now
        source.now.counting frame) }
{
    let mut text = Vec::new(alloc);
    let grown = push_words(&mut text, places, frame);
    let words = as_text(alloc, text, grown);
    frame_on(alloc, source, frame, words, places.row_at(frame.address))
}

/// Returns those of some frames that are asked for.
fn frames_listed(
    alloc: Global,
    places: &Places,
    source: &Source<'_>,
    asked: Page,
    frames: &[Frame],
) -> Result<Vec<Item>, AllocError>
    ensures { IfOk result (λ items. each item_view items.items ≡ page_of asked
        (each (frame_shown places.now source.now.files.now source.now.counting)
        frames.now)) }
{
    let mut page = Paged::new(alloc, asked);
    for frame in frames {
        page = page.with(frame_shown(alloc, places, source, *frame));
    }
    page.build()
}

/// Returns the frames that are asked for, the last one first, and how many there are: that at the
/// program counter, and those that were left by a call, a BRK or an interrupt.
pub fn frames_shown(
    alloc: Global,
    mon: &MonState,
    source: &Source<'_>,
    asked: Page,
) -> Result<Answer, AllocError>
    ensures { IfOk result (λ v. AreFrames mon.now.session.current mon.now.places
        source.now.files.now source.now.counting asked (answer_view v)) }
{
    let frames = stack_frames(alloc, &mon.session, &mon.places)?;
    let all = frames.as_slice();
    let shown = frames_listed(alloc, &mon.places, source, asked, all);
    frames_body(shown, all.len() as u64)
}
