//! What a page says of the sources of a program that another tool built.

ghost use Rattle.std.specs.Prelude.{◌≡◌, ◌++◌, OnOk, map, option_map};
ghost use Rattle.std.specs.List.{flat_map};
ghost use Rattle.page_writer.specs.Files.{debug_facts, facts_by, file_fact, file_text, files_text};
ghost use Rattle.page_writer.specs.Files.{row_end, row_fact, row_numbers, row_word, with_end};
ghost use Rattle.source_map.specs.Lines.{items_of, source_view};

use crate::in_line::push_in_line;
use formatting::{push_address, push_count, push_text};
use source_map::{Places, Row, SourceFile};
use std::alloc::AllocError;

/// Appends a file: how many lines its text has, and its name.
#[tactic(auto, unfolding(crate::specs::Files::file_fact))]
fn push_file(text: &mut Vec<u8>, source: &SourceFile) -> Result<(), AllocError>
    ensures { OnOk result (text.new.items ≡ text.old.items ++ file_fact (source_view source.now)) }
{
    push_text(text, "file ")?;
    push_count(text, source.texts.len() as u64)?;
    push_text(text, " ")?;
    push_in_line(text, source.name.as_slice())?;
    push_text(text, "\n")
}

/// Appends files, in their order.
fn push_files(text: &mut Vec<u8>, sources: &[SourceFile]) -> Result<(), AllocError>
    ensures { OnOk result (text.new.items
        ≡ text.old.items ++ flat_map file_fact (map source_view sources.now)) }
{
    for source in sources {
        push_file(text, source)?;
    }
    Ok(())
}

/// Returns the word of a row, by whether its line begins with it.
fn row_word(begins_line: bool) -> &'static str
    ensures { result.now ≡ row_word begins_line }
{
    if begins_line { "line " } else { "part " }
}

/// Returns the end of a row, by whether it is an instruction.
fn row_end(is_instruction: bool) -> &'static str
    ensures { result.now ≡ row_end is_instruction }
{
    if is_instruction { "\n" } else { " data\n" }
}

/// Appends the number of a row's line, its address, and how many bytes it has.
#[tactic(auto, unfolding(crate::specs::Files::row_numbers))]
pub fn push_numbers(text: &mut Vec<u8>, row: Row) -> Result<(), AllocError>
    ensures { OnOk result (text.new.items ≡ text.old.items ++ row_numbers row) }
{
    push_count(text, row.line as u64)?;
    push_text(text, " ")?;
    push_address(text, row.address)?;
    push_text(text, " ")?;
    push_count(text, row.count as u64)
}

/// Appends a row with the number of its file.
#[tactic(auto, unfolding(crate::specs::Files::row_fact))]
fn push_row(text: &mut Vec<u8>, row: Row) -> Result<(), AllocError>
    ensures { OnOk result (text.new.items ≡ text.old.items ++ row_fact row) }
{
    push_text(text, row_word(row.begins_line))?;
    push_numbers(text, row)?;
    push_text(text, " ")?;
    push_count(text, row.file as u64)?;
    push_text(text, row_end(row.is_instruction))
}

/// Appends rows, in their order.
fn push_rows(text: &mut Vec<u8>, rows: &[Row]) -> Result<(), AllocError>
    ensures { OnOk result (text.new.items ≡ text.old.items ++ flat_map row_fact rows.now) }
{
    for row in rows {
        push_row(text, *row)?;
    }
    Ok(())
}

/// Appends the files and the rows of debug information, if there is some.
pub fn push_debug_facts(text: &mut Vec<u8>, debug: Option<&Places>) -> Result<(), AllocError>
    ensures { OnOk result (text.new.items ≡ text.old.items
        ++ facts_by (option_map (λ places. places.now) debug.entry)) }
{
    let Some(places) = debug else {
        return Ok(());
    };
    push_files(text, places.sources())?;
    push_rows(text, places.rows())
}

/// Appends a line of a file, with an LF.
fn push_line(text: &mut Vec<u8>, line: &[u8]) -> Result<(), AllocError>
    ensures { OnOk result (text.new.items ≡ text.old.items ++ with_end line.now) }
{
    text.extend_from_slice(line)?;
    text.push(b'\n')?;
    Ok(())
}

/// Appends lines of a file, each with an LF.
fn push_lines(text: &mut Vec<u8>, lines: &[Vec<u8>]) -> Result<(), AllocError>
    ensures { OnOk result
        (text.new.items ≡ text.old.items ++ flat_map with_end (items_of lines.now)) }
{
    for line in lines {
        push_line(text, line.as_slice())?;
    }
    Ok(())
}

/// Appends the text of a file.
fn push_file_text(text: &mut Vec<u8>, source: &SourceFile) -> Result<(), AllocError>
    ensures { OnOk result (text.new.items ≡ text.old.items ++ file_text (source_view source.now)) }
{
    push_lines(text, source.texts.as_slice())
}

/// Appends the texts of files, one behind another.
fn push_texts(text: &mut Vec<u8>, sources: &[SourceFile]) -> Result<(), AllocError>
    ensures { OnOk result (text.new.items
        ≡ text.old.items ++ flat_map file_text (map source_view sources.now)) }
{
    for source in sources {
        push_file_text(text, source)?;
    }
    Ok(())
}

/// Appends the texts of the files of debug information, if there is some.
pub fn push_debug_texts(text: &mut Vec<u8>, debug: Option<&Places>) -> Result<(), AllocError>
    ensures { OnOk result (text.new.items ≡ text.old.items
        ++ files_text (option_map (λ places. places.now) debug.entry)) }
{
    match debug {
        None => Ok(()),
        Some(places) => push_texts(text, places.sources()),
    }
}
