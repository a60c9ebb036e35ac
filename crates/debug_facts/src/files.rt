//! The files that debug information names.

ghost use Rattle.std.specs.Prelude.{◌≡◌, ◌+◌, ◌++◌, IfErr, IfOk, OnOk, length, option_map, string_bytes};
ghost use Rattle.debug_facts.specs.Rows.{counted, file_row, known_file_row, shown_bytes};
ghost use Rattle.debug_facts.specs.Rows.{size_text, state_word, twice_word};
ghost use Rattle.debug_records.specs.Views.{file_view};

use crate::wording;
use arguments::{Refusal, shown_name};
use debug_files::{SourceState, source_state};
use debug_records::File;
use std::alloc::{AllocError, Global};
use std::rt::Files;

/// Returns how a file is found that debug information names. No number may be left out, so one that
/// has no file counts as missing.
///
/// Errors: `OutOfMemory` if an allocation fails.
fn state_in<H: Files + AllocGlobal>(
    rt: &H,
    path: &str,
    file: Option<File<'_>>,
) -> Result<SourceState, Refusal>
    ensures { IfErr result (λ refusal. refusal ≡ Refusal.OutOfMemory) }
{
    match file {
        None => Ok(SourceState::Missing),
        Some(file) => source_state(rt, path, None, file.name, file.size),
    }
}

/// Appends how a file is found.
///
/// Errors: `OutOfMemory` if an allocation fails.
fn push_state(states: &mut Vec<SourceState>, state: SourceState) -> Result<(), Refusal>
    ensures count { OnOk result (length states.new.items ≡ length states.old.items + 1) }
    ensures refused { IfErr result (λ refusal. refusal ≡ Refusal.OutOfMemory) }
{
    states.push(state).map_err(|_| Refusal::OutOfMemory)
}

/// Returns how each file is found that debug information names, by its number. Relative names begin
/// in the folder of the debug information, which lies at `path`.
///
/// # Errors
///
/// `OutOfMemory` if an allocation fails.
pub fn states_of<H: Files + AllocGlobal>(
    rt: &H,
    path: &str,
    files: &[Option<File<'_>>],
) -> Result<Vec<SourceState>, Refusal>
    // No clause can say what is found.
    ensures each { IfOk result (λ states. length states.items ≡ length files.now) }
    ensures refused { IfErr result (λ refusal. refusal ≡ Refusal.OutOfMemory) }
{
    let mut states = Vec::new(rt.alloc());
    for file in files {
        let state = state_in(rt, path, *file)?;
        push_state(&mut states, state)?;
    }
    Ok(states)
}

/// Appends how many things there are: their number, and the word for one or for more.
#[tactic(auto, unfolding(crate::specs::Rows::counted))]
pub fn push_count(words: &mut String, count: u64, one: &str, more: &str) -> Result<(), AllocError>
    ensures { OnOk result (string_bytes words.new
        ≡ string_bytes words.old ++ counted count one.now more.now) }
{
    write!(words, "{count} ")?;
    words.push_str(if count == 1 { one } else { more })
}

/// Appends a name as it is shown: a control character is `?`, and what is no text is U+FFFD.
pub fn push_shown(alloc: Global, words: &mut String, name: &[u8]) -> Result<(), AllocError>
    ensures { OnOk result
        (string_bytes words.new ≡ string_bytes words.old ++ shown_bytes name.now) }
{
    let text = String::from_utf8_lossy(alloc, name)?;
    let shown = shown_name(alloc, text.as_str())?;
    words.push_str(shown.as_str())
}

/// Appends how many bytes a file had, if that is told.
fn push_size(words: &mut String, size: Option<u32>) -> Result<(), AllocError>
    ensures { OnOk result (string_bytes words.new ≡ string_bytes words.old ++ size_text size) }
{
    match size {
        None => Ok(()),
        Some(size) => {
            words.push_str("  ")?;
            push_count(words, size as u64, wording::BYTE, wording::BYTES)
        }
    }
}

/// Returns what is said of how a file is found.
fn state_word(state: SourceState) -> &'static str
    ensures { result.now ≡ state_word state }
{
    match state {
        SourceState::Same => wording::SAME,
        SourceState::Changed => wording::CHANGED,
        SourceState::Missing => wording::MISSING,
    }
}

/// Returns what is said of a file that may be one of two.
fn twice_word(is_twice: bool) -> &'static str
    ensures { result.now ≡ twice_word is_twice }
{
    if is_twice { wording::TWICE } else { "" }
}

/// Appends the row of a file.
#[tactic(auto, unfolding(crate::specs::Rows::known_file_row))]
fn push_known_file(
    alloc: Global,
    words: &mut String,
    is_twice: bool,
    file: File<'_>,
    state: SourceState,
) -> Result<(), AllocError>
    ensures { OnOk result (string_bytes words.new ≡ string_bytes words.old
        ++ known_file_row is_twice (file_view file.entry) state) }
{
    words.push_str(wording::FILE_ROW)?;
    push_shown(alloc, words, file.name)?;
    push_size(words, file.size)?;
    words.push_str(state_word(state))?;
    words.push_str(twice_word(is_twice))?;
    words.push_str("\n")
}

/// Appends the row of a file, if there is one of the number.
pub fn push_file(
    alloc: Global,
    words: &mut String,
    is_twice: bool,
    file: Option<File<'_>>,
    state: SourceState,
) -> Result<(), AllocError>
    ensures { OnOk result (string_bytes words.new ≡ string_bytes words.old
        ++ file_row is_twice (option_map file_view file.entry) state) }
{
    match file {
        None => Ok(()),
        Some(file) => push_known_file(alloc, words, is_twice, file, state),
    }
}
