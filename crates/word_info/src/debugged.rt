//! What is said of debug information.

ghost use Rattle.std.specs.Prelude.{◌≡◌, ◌++◌, Err, IfOk, Ok, OnOk, Some, map, option_map, string_bytes};
ghost use Rattle.debug_files.specs.Forms.{info_of};
ghost use Rattle.debug_records.specs.Views.{info_view, segment_view};
ghost use Rattle.tape_words.specs.Asked.{info_view as asked_view};
ghost use Rattle.word_info.specs.Debugged.{AreDebugRows, IsAnswer, debug_form, hidden_rows};

use crate::ranges::{Range, ranges_of};
use debug_facts::{
    DebugForm, fault_text, form_of, hidden_cells, known_text, push_hidden, states_of,
};
use debug_files::{SourceState, read_info};
use debug_records::{DebugError, DebugFault, DebugInfo, Segment};
use image_reader::Form;
use std::alloc::{AllocError, Global};
use std::rt::Files;
use tape_words::{Answer, InfoWords};

/// Returns which form of debug information bytes have, if no form of an image is said.
pub fn debug_form(said: Option<Form>, bytes: &[u8]) -> Option<DebugForm>
    ensures { result ≡ debug_form said bytes.now }
{
    match said {
        None => form_of(bytes),
        Some(_) => None,
    }
}

/// Appends a row for each range of addresses of which no line is shown.
fn push_hidden_rows(
    alloc: Global,
    words: &mut String,
    segments: &[Option<Segment<'_>>],
    ranges: &[Range],
) -> Result<(), AllocError>
    ensures { OnOk result (string_bytes words.new ≡ string_bytes words.old
        ++ hidden_rows (map (option_map segment_view) segments.now) ranges.now) }
{
    for range in ranges {
        push_hidden(alloc, words, range.first, range.last, segments)?;
    }
    Ok(())
}

/// Returns the rows of what debug information says.
fn debug_rows(
    alloc: Global,
    form: DebugForm,
    info: &DebugInfo<'_>,
    states: &[SourceState],
) -> Result<String, AllocError>
    ensures { IfOk result
        (λ said. AreDebugRows form (info_view info.now) states.now (string_bytes said)) }
{
    let cells = hidden_cells(alloc, info)?;
    let ranges = ranges_of(alloc, cells.as_slice())?;
    let mut words = known_text(alloc, form, info, states)?;
    push_hidden_rows(
        alloc,
        &mut words,
        info.segments.as_slice(),
        ranges.as_slice(),
    )?;
    Ok(words)
}

/// Returns how each file is found that debug information names. The only error is that an
/// allocation failed.
fn found_states<H: Files + AllocGlobal>(
    rt: &H,
    path: &str,
    info: &DebugInfo<'_>,
) -> Result<Vec<SourceState>, AllocError> {
    // No clause can say what is found.
    states_of(rt, path, info.files.as_slice()).map_err(|_| AllocError)
}

/// Returns what is to be said of debug information. The only error is that an allocation failed.
fn right_debug<H: Files + AllocGlobal>(
    rt: &H,
    words: &InfoWords<'_>,
    form: DebugForm,
    bytes: &[u8],
    info: &DebugInfo<'_>,
) -> Result<Answer, AllocError>
    requires begun { debug_form words.now.form bytes.now ≡ Some form }
    requires reads { info_of bytes.now ≡ Ok (info_view info.now) }
    ensures { IfOk result (IsAnswer (asked_view words.now)) }
{
    let states = found_states(rt, words.tape, info)?;
    let text = debug_rows(rt.alloc(), form, info, states.as_slice())?;
    Ok(Answer {
        text,
        is_right: true,
    })
}

/// Returns what is to be said of debug information with a fault. The only error is that an
/// allocation failed.
fn wrong_debug(
    alloc: Global,
    words: &InfoWords<'_>,
    form: DebugForm,
    bytes: &[u8],
    fault: DebugFault,
) -> Result<Answer, AllocError>
    requires begun { debug_form words.now.form bytes.now ≡ Some form }
    requires first { info_of bytes.now ≡ Err fault }
    ensures { IfOk result (IsAnswer (asked_view words.now)) }
{
    let text = fault_text(alloc, words.tape, fault)?;
    Ok(Answer {
        text,
        is_right: false,
    })
}

/// Returns what is to be said of bytes that begin as debug information. The only error is that an
/// allocation failed.
pub fn debug_answer<H: Files + AllocGlobal>(
    rt: &H,
    words: &InfoWords<'_>,
    form: DebugForm,
    bytes: &[u8],
) -> Result<Answer, AllocError>
    requires { debug_form words.now.form bytes.now ≡ Some form }
    ensures { IfOk result (IsAnswer (asked_view words.now)) }
{
    match read_info(rt.alloc(), bytes) {
        Ok(info) => right_debug(rt, words, form, bytes, &info),
        Err(DebugError::OutOfMemory) => Err(AllocError),
        Err(DebugError::Fault(fault)) => wrong_debug(rt.alloc(), words, form, bytes, fault),
    }
}
