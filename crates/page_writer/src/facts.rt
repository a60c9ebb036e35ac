//! What a page says of a program besides its run: facts, a line each, and the source.

ghost use Rattle.std.specs.Prelude.{◌≡◌, ◌++◌, IfOk, OnOk, option_map, slice_get};
ghost use Rattle.std.specs.List.{flat_map};
ghost use Rattle.std.specs.Option.{option_to_list};
ghost use Rattle.assembler.specs.Assembly.{source_lines};
ghost use Rattle.page_writer.specs.Facts.{assembly_text, facts_text, line_fact, lines_of, names_of};
ghost use Rattle.page_writer.specs.Facts.{port_fact, program_view, source_text, text_of};
ghost use Rattle.page_writer.specs.Facts.{told_by, title_fact};
ghost use Rattle.source_map.specs.Lines.{rows_of};

use crate::files::{push_debug_facts, push_debug_texts, push_numbers};
use crate::in_line::push_in_line;
use crate::names::push_names;
use crate::opcodes::push_opcodes;
use crate::stretches::push_loaded;
use accesses::Written;
use assembler::Assembly;
use formatting::{push_address, push_text};
use memory_map::Port;
use model::Profile;
use source_map::{Places, Row, rows_of};
use std::alloc::{AllocError, Global};

/// What is told of a program.
#[derive(Clone, Copy)]
pub struct Program<'a> {
    /// The title of the page.
    pub title: &'a str,
    /// The first of the port's four addresses, or no port.
    pub port: Port,
    /// The processor.
    pub profile: Profile,
    /// The addresses at which the file has a byte.
    pub written: &'a Written,
    /// What the file says of names and lines, if it is a source.
    pub assembly: Option<&'a Assembly>,
    /// What debug information says of lines, if there is some.
    pub debug: Option<&'a Places>,
    /// A file of names, if there is one.
    pub names: Option<&'a Assembly>,
}

/// Appends the title.
#[tactic(auto, unfolding(crate::specs::Facts::title_fact))]
fn push_title(text: &mut Vec<u8>, title: &str) -> Result<(), AllocError>
    ensures { OnOk result (text.new.items ≡ text.old.items ++ title_fact title.now) }
{
    push_text(text, "title ")?;
    push_in_line(text, title.as_bytes())?;
    push_text(text, "\n")
}

/// Appends where the port is, if there is one.
#[tactic(auto, unfolding(crate::specs::Facts::port_fact))]
fn push_port(text: &mut Vec<u8>, base: u32) -> Result<(), AllocError>
    ensures { OnOk result (text.new.items ≡ text.old.items ++ port_fact base) }
{
    if base > 65535 {
        return Ok(());
    }
    push_text(text, "port ")?;
    push_address(text, base as u16)?;
    push_text(text, "\n")
}

/// Appends a line of the source that has bytes: its number, its address and how many they are.
#[tactic(auto, unfolding(crate::specs::Facts::line_fact))]
fn push_line(text: &mut Vec<u8>, row: Row) -> Result<(), AllocError>
    ensures { OnOk result (text.new.items ≡ text.old.items ++ line_fact row) }
{
    push_text(text, "line ")?;
    push_numbers(text, row)?;
    push_text(text, "\n")
}

/// Appends lines of the source that have bytes.
fn push_lines(text: &mut Vec<u8>, rows: &[Row]) -> Result<(), AllocError>
    ensures { OnOk result (text.new.items ≡ text.old.items ++ flat_map line_fact rows.now) }
{
    for row in rows {
        push_line(text, *row)?;
    }
    Ok(())
}

/// Appends the lines that have bytes and the names of the source, if there is one.
fn push_source_facts(
    alloc: Global,
    text: &mut Vec<u8>,
    assembly: Option<&Assembly>,
    written: &Written,
) -> Result<(), AllocError>
    ensures { OnOk result (text.new.items ≡ text.old.items
        ++ told_by written.now (option_map (λ a. a.now) assembly.entry)) }
{
    let Some(assembly) = assembly else {
        return Ok(());
    };
    let rows = rows_of(alloc, assembly)?;
    push_lines(text, rows.as_slice())?;
    push_names(text, assembly, false, written)
}

/// Appends the names of a file of names, if there is one.
fn push_other_names(
    text: &mut Vec<u8>,
    names: Option<&Assembly>,
    written: &Written,
) -> Result<(), AllocError>
    ensures { OnOk result (text.new.items ≡ text.old.items
        ++ names_of written.now (option_map (λ a. a.now) names.entry)) }
{
    match names {
        None => Ok(()),
        Some(names) => push_names(text, names, true, written),
    }
}

/// Returns the facts of a program: its title, the port, the opcodes, where its file has bytes, the
/// lines and the names of its source, the files and the rows of debug information, and the names of
/// a file of names.
///
/// Errors: `AllocError` if an allocation fails. Source: mos65.
#[tactic(auto, unfolding(crate::specs::Facts::facts_text))]
pub fn facts_of(alloc: Global, program: &Program<'_>) -> Result<Vec<u8>, AllocError>
    ensures { IfOk result (λ text. text.items ≡ facts_text (program_view program.now)) }
{
    let mut text = Vec::new(alloc);
    push_title(&mut text, program.title)?;
    push_port(&mut text, program.port.base())?;
    push_opcodes(&mut text, program.profile)?;
    push_loaded(&mut text, program.written)?;
    push_source_facts(alloc, &mut text, program.assembly, program.written)?;
    push_debug_facts(&mut text, program.debug)?;
    push_other_names(&mut text, program.names, program.written)?;
    Ok(text)
}

/// Appends the text of the line of an index, if there is such a line, with an LF.
fn push_text_at(text: &mut Vec<u8>, assembly: &Assembly, index: usize) -> Result<(), AllocError>
    ensures { OnOk result (text.new.items ≡ text.old.items
        ++ flat_map text_of (option_to_list (slice_get (source_lines assembly.now) index))) }
{
    match assembly.line(index) {
        None => Ok(()),
        Some(line) => {
            text.extend_from_slice(line.text)?;
            text.push(b'\n')?;
            Ok(())
        }
    }
}

/// Appends the texts of the lines that were read.
fn push_texts(text: &mut Vec<u8>, assembly: &Assembly) -> Result<(), AllocError>
    ensures { OnOk result (text.new.items ≡ text.old.items ++ lines_of assembly.now) }
{
    for index in 0..assembly.line_count() {
        push_text_at(text, assembly, index)?;
    }
    Ok(())
}

/// Appends the lines of a source that were read, if there is one.
fn push_assembly_text(text: &mut Vec<u8>, assembly: Option<&Assembly>) -> Result<(), AllocError>
    ensures { OnOk result (text.new.items ≡ text.old.items
        ++ assembly_text (option_map (λ a. a.now) assembly.entry)) }
{
    match assembly {
        None => Ok(()),
        Some(assembly) => push_texts(text, assembly),
    }
}

/// Returns the source as a page has it: the lines that were read, and those of the files of debug
/// information, each with an LF.
///
/// Errors: `AllocError` if an allocation fails. Source: mos65.
pub fn source_of(
    alloc: Global,
    assembly: Option<&Assembly>,
    debug: Option<&Places>,
) -> Result<Vec<u8>, AllocError>
    ensures { IfOk result (λ text. text.items
        ≡ source_text (option_map (λ a. a.now) assembly.entry)
        (option_map (λ places. places.now) debug.entry)) }
{
    let mut text = Vec::new(alloc);
    push_assembly_text(&mut text, assembly)?;
    push_debug_texts(&mut text, debug)?;
    Ok(text)
}
