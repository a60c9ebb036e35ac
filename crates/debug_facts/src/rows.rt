//! What is known of debug information, as rows.

ghost use Rattle.std.specs.Prelude.{◌≡◌, ◌++◌, IfOk, OnOk, is_some, slice_index_or, string_bytes};
ghost use Rattle.std.specs.List.{count_by};
ghost use Rattle.debug_facts.specs.Rows.{file_row_at, file_rows, head_of, head_row, known_text};
ghost use Rattle.debug_facts.specs.Rows.{segments_text};
ghost use Rattle.debug_files.specs.declared.changed.SourceState.TheVariants.{Missing};
ghost use Rattle.debug_records.specs.Info.{is_ambiguous, is_main_of, record_at};
ghost use Rattle.debug_records.specs.Views.{info_view};

use crate::files::{push_count, push_file};
use crate::form::DebugForm;
use crate::segments::push_segments;
use crate::wording;
use debug_files::SourceState;
use debug_records::{DebugInfo, File, Line};
use std::alloc::{AllocError, Global};

/// Returns what stands before the number of lines.
fn head_of(form: DebugForm) -> &'static str
    ensures { result.now ≡ head_of form }
{
    match form {
        DebugForm::Linker => wording::LINKER,
        DebugForm::Listing => wording::LISTING,
        DebugForm::Report => wording::REPORT,
    }
}

/// Returns whether there is a line of a number.
fn is_there(line: Option<Line>) -> bool
    ensures { result ≡ is_some line }
{
    line.is_some()
}

/// Returns how many lines there are.
fn line_count(lines: &[Option<Line>]) -> usize
    ensures { result ≡ count_by is_some lines.now }
{
    lines.iter().filter(|line| is_there(**line)).count()
}

/// Appends the first row: which tool wrote the debug information, and how many lines it has.
#[tactic(auto, unfolding(crate::specs::Rows::head_row))]
fn push_head(words: &mut String, form: DebugForm, lines: &[Option<Line>]) -> Result<(), AllocError>
    ensures { OnOk result (string_bytes words.new
        ≡ string_bytes words.old ++ head_row form lines.now) }
{
    words.push_str(head_of(form))?;
    push_count(
        words,
        line_count(lines) as u64,
        wording::LINE,
        wording::LINES,
    )?;
    words.push_str("\n")
}

/// Returns whether a file is this main file.
fn is_main_of(file: usize, main: Option<u32>) -> bool
    ensures { result ≡ is_main_of file main }
{
    match main {
        None => false,
        Some(main) => main as usize == file,
    }
}

/// Returns whether the file of a number is the main one of two modules.
fn is_twice(info: &DebugInfo<'_>, number: usize) -> bool
    ensures { result ≡ is_ambiguous (info_view info.now) number }
{
    let modules = info.modules.as_slice();
    1 < modules
        .iter()
        .filter(|main| is_main_of(number, **main))
        .count()
}

/// Returns the file of a number.
fn file_at<'a>(files: &[Option<File<'a>>], number: usize) -> Option<File<'a>>
    ensures { result ≡ record_at files.now number }
{
    if number < files.len() {
        files[number]
    } else {
        None
    }
}

/// Returns how the file of a number is found.
fn state_at(states: &[SourceState], number: usize) -> SourceState
    ensures { result ≡ slice_index_or states.now number Missing }
{
    match states.get(number) {
        None => SourceState::Missing,
        Some(state) => *state,
    }
}

/// Appends the row of the file of a number.
#[tactic(auto, unfolding(crate::specs::Rows::file_row_at))]
fn push_file_at(
    alloc: Global,
    words: &mut String,
    info: &DebugInfo<'_>,
    states: &[SourceState],
    number: usize,
) -> Result<(), AllocError>
    ensures { OnOk result (string_bytes words.new ≡ string_bytes words.old
        ++ file_row_at (info_view info.now) states.now number) }
{
    let file = file_at(info.files.as_slice(), number);
    let state = state_at(states, number);
    push_file(alloc, words, is_twice(info, number), file, state)
}

/// Appends a row for each file.
fn push_files(
    alloc: Global,
    words: &mut String,
    info: &DebugInfo<'_>,
    states: &[SourceState],
) -> Result<(), AllocError>
    ensures { OnOk result (string_bytes words.new ≡ string_bytes words.old
        ++ file_rows (info_view info.now) states.now) }
{
    for number in 0..info.files.len() {
        push_file_at(alloc, words, info, states, number)?;
    }
    Ok(())
}

/// Appends a row for each segment of a debug file. A listing or a report has none.
fn push_segments_by(
    alloc: Global,
    words: &mut String,
    form: DebugForm,
    info: &DebugInfo<'_>,
) -> Result<(), AllocError>
    ensures { OnOk result (string_bytes words.new ≡ string_bytes words.old
        ++ segments_text form (info_view info.now)) }
{
    match form {
        DebugForm::Linker => push_segments(alloc, words, info.segments.as_slice()),
        DebugForm::Listing | DebugForm::Report => Ok(()),
    }
}

/// Returns what is known of debug information: its lines, its files, and how these were found, and
/// its segments.
///
/// Errors: `AllocError` if an allocation fails.
#[tactic(auto, unfolding(crate::specs::Rows::known_text))]
pub fn known_text(
    alloc: Global,
    form: DebugForm,
    info: &DebugInfo<'_>,
    states: &[SourceState],
) -> Result<String, AllocError>
    ensures { IfOk result (λ words. string_bytes words
        ≡ known_text form (info_view info.now) states.now) }
{
    let mut words = String::new(alloc);
    push_head(&mut words, form, info.lines.as_slice())?;
    push_files(alloc, &mut words, info, states)?;
    push_segments_by(alloc, &mut words, form, info)?;
    Ok(words)
}
