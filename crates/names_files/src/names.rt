//! A file of names as a source.

ghost use Rattle.std.specs.Prelude.{◌≡◌, ◌≤◌, ◌<◌, ◌+◌, ◌^◌, ◌++◌, IfOk, None, OnOk};
ghost use Rattle.std.specs.List.{list_all};
ghost use Rattle.model.specs.Names.{number_in};
ghost use Rattle.model.specs.TextLines.{lines_of};
ghost use Rattle.names_files.specs.ImageNames.{is_image_name};
ghost use Rattle.names_files.specs.NamesFile.{addressed_name, with_addressed, with_again, with_once, with_text};
ghost use Rattle.names_files.specs.NamesFile.{given_before, is_shown_byte, is_told, is_unknown, left_text};
ghost use Rattle.names_files.specs.NamesFile.{more_lines, names_file, nothing_taken, shown_part, source_names, table_names};
ghost use Rattle.names_files.specs.NamesFile.{one_line_more, with_empty, with_given, with_left_out};
ghost use Rattle.names_files.specs.NamesFile.{with_kept, with_meaning, with_name, with_other};
ghost use Rattle.names_files.specs.NamesFile.{with_statement, with_told, with_unknown};
ghost use Rattle.names_files.specs.Views.{meaning_view, names_view, taken_view};

use crate::form::{Form, form_of};
use crate::image_name::is_image_name;
use crate::kept::label_meaning;
use crate::label::definition_text;
use crate::meaning::Meaning;
use crate::unlabelled::{label_in, unlabelled};
use formatting::{push_address, push_count};
use line_parts::next_line;
use model::Profile;
use std::alloc::{AllocError, Global};
use symbols::Symbols;

/// The most bytes that a source has. Source: mos65.
const SOURCE_SIZE: usize = 1_048_576;

/// What a file of names says.
#[derive(Drop)]
pub struct NamesFile {
    /// A source that gives the names.
    pub source: Vec<u8>,
    /// Names that cannot stand in the source, and that an image may have.
    pub others: Symbols,
    /// How many lines were left out, and their names, as in `4: LDA, one, _main, ..`; nothing if
    /// none was.
    pub left_out: Vec<u8>,
    /// How many lines gave no name, in the source or beside it.
    pub lost: usize,
    /// Whether no line is a name in a form that is known.
    pub is_unknown: bool,
}

/// What was made of some lines of a file.
#[derive(Drop)]
pub struct Lines {
    pub source: Vec<u8>,
    pub names: Symbols,
    /// Names that cannot stand in the source.
    pub others: Symbols,
    pub left_out: usize,
    pub shown: Vec<u8>,
    /// How many names are shown.
    pub told: usize,
    /// Whether a line had a form that is known.
    pub is_known: bool,
    /// Whether a line stands in a source alone.
    pub is_source: bool,
}

/// Appends an empty line.
fn push_empty(lines: &mut Lines) -> Result<(), AllocError>
    ensures text { OnOk result (taken_view lines.new ≡ with_empty (taken_view lines.old)) }
    ensures most { OnOk result (lines.new.left_out ≡ lines.old.left_out) }
    ensures told { OnOk result (lines.new.told ≡ lines.old.told) }
{
    lines.source.push(b'\n')?;
    Ok(())
}

/// Appends an empty line for one that stands in a source alone.
fn push_statement(lines: &mut Lines) -> Result<(), AllocError>
    ensures text { OnOk result (taken_view lines.new ≡ with_statement (taken_view lines.old)) }
    ensures most { OnOk result (lines.new.left_out ≡ lines.old.left_out) }
    ensures told { OnOk result (lines.new.told ≡ lines.old.told) }
{
    push_empty(lines)?;
    lines.is_source = true;
    Ok(())
}

/// Appends an empty line for one that is left out.
fn push_unknown(lines: &mut Lines) -> Result<(), AllocError>
    requires { lines.old.left_out < 2 ^ 63 }
    ensures text { OnOk result (taken_view lines.new ≡ with_unknown (taken_view lines.old)) }
    ensures most { OnOk result (lines.new.left_out ≤ lines.old.left_out + 1) }
    ensures told { OnOk result (lines.new.told ≡ lines.old.told) }
{
    push_empty(lines)?;
    lines.left_out += 1;
    Ok(())
}

/// Returns whether a byte can be shown.
fn is_shown_byte(byte: u8) -> bool
    ensures { result ≡ is_shown_byte byte }
{
    32 < byte && byte < 127
}

/// Returns whether a name has bytes alone that can be shown.
fn are_shown(name: &[u8]) -> bool
    ensures { result ≡ list_all is_shown_byte name.now }
{
    name.iter().all(|byte| is_shown_byte(*byte))
}

/// Returns whether a name is shown behind those that were shown.
fn is_told(shown: &[u8], name: &[u8]) -> bool
    ensures { result ≡ is_told shown.now name.now }
{
    shown.len() < 64 && name.len() < 64 && are_shown(name)
}

/// Shows a name that is left out, if not many were shown.
fn push_told(lines: &mut Lines, name: &[u8]) -> Result<(), AllocError>
    requires { lines.old.told < 2 ^ 63 }
    ensures text { OnOk result (taken_view lines.new
        ≡ with_told name.now (taken_view lines.old)) }
    ensures most { OnOk result (lines.new.left_out ≡ lines.old.left_out) }
    ensures told { OnOk result (lines.new.told ≤ lines.old.told + 1) }
{
    if is_told(lines.shown.as_slice(), name) {
        if !lines.shown.is_empty() {
            lines.shown.extend_from_slice(b", ")?;
        }
        lines.shown.extend_from_slice(name)?;
        lines.told += 1;
    }
    Ok(())
}

/// Appends an empty line for a name that is left out.
fn push_left_out(lines: &mut Lines, name: &[u8]) -> Result<(), AllocError>
    requires most { lines.old.left_out < 2 ^ 63 }
    requires told { lines.old.told < 2 ^ 63 }
    ensures text { OnOk result (taken_view lines.new
        ≡ with_left_out name.now (taken_view lines.old)) }
    ensures most { OnOk result (lines.new.left_out ≤ lines.old.left_out + 1) }
    ensures told { OnOk result (lines.new.told ≤ lines.old.told + 1) }
{
    push_unknown(lines)?;
    lines.is_known = true;
    push_told(lines, name)
}

/// Appends a line that gives a name.
fn push_name(
    alloc: Global,
    lines: &mut Lines,
    text: &[u8],
    name: &[u8],
    number: i32,
) -> Result<(), AllocError>
    requires { number_in lines.old.names name.now ≡ None }
    ensures text { OnOk result (taken_view lines.new
        ≡ with_name text.now name.now number (taken_view lines.old)) }
    ensures most { OnOk result (lines.new.left_out ≡ lines.old.left_out) }
    ensures told { OnOk result (lines.new.told ≡ lines.old.told) }
{
    lines.source.extend_from_slice(text)?;
    lines.source.push(b'\n')?;
    lines.names.define(alloc, name, number)?;
    lines.is_known = true;
    Ok(())
}

/// Appends an empty line for a name that cannot stand in the source, and keeps the name.
fn push_other(alloc: Global, lines: &mut Lines, name: &[u8], number: i32) -> Result<(), AllocError>
    requires most { lines.old.left_out < 2 ^ 63 }
    requires told { lines.old.told < 2 ^ 63 }
    requires none { number_in lines.old.others name.now ≡ None }
    ensures text { OnOk result (taken_view lines.new
        ≡ with_other name.now number (taken_view lines.old)) }
    ensures most { OnOk result (lines.new.left_out ≤ lines.old.left_out + 1) }
    ensures told { OnOk result (lines.new.told ≤ lines.old.told + 1) }
{
    push_left_out(lines, name)?;
    lines.others.define(alloc, name, number)?;
    Ok(())
}

/// Returns the number that a name was given before.
fn given_before(lines: &Lines, name: &[u8]) -> Option<i32>
    ensures number { result ≡ given_before (taken_view lines.now) name.now }
    ensures none { result ≡ None → number_in lines.now.others name.now ≡ None }
{
    match lines.names.value_of(name) {
        Some(number) => Some(number),
        None => lines.others.value_of(name),
    }
}

/// Keeps a name that cannot stand in the source, unless the name was given before. It is left out
/// if it had another number.
fn push_once(alloc: Global, lines: &mut Lines, name: &[u8], number: i32) -> Result<(), AllocError>
    requires most { lines.old.left_out < 2 ^ 63 }
    requires told { lines.old.told < 2 ^ 63 }
    ensures text { OnOk result (taken_view lines.new ≡ with_once
        (given_before (taken_view lines.old) name.now) name.now number (taken_view lines.old)) }
    ensures most { OnOk result (lines.new.left_out ≤ lines.old.left_out + 1) }
    ensures told { OnOk result (lines.new.told ≤ lines.old.told + 1) }
{
    match given_before(lines, name) {
        None => push_other(alloc, lines, name, number),
        Some(given) => {
            if given == number {
                push_empty(lines)
            } else {
                push_left_out(lines, name)
            }
        }
    }
}

/// Returns a name with an address behind it, as `loop:E150`.
fn addressed_name(alloc: Global, name: &[u8], address: u16) -> Result<Vec<u8>, AllocError>
    ensures { IfOk result (λ text. text.items ≡ addressed_name name.now address) }
{
    let mut text = Vec::new(alloc);
    text.extend_from_slice(name)?;
    text.push(b':')?;
    push_address(&mut text, address)?;
    Ok(text)
}

/// Keeps a name that was given before for another address as this text, if an image may have it.
#[tactic(auto, unfolding(crate::specs::NamesFile::with_text))]
fn push_text(
    alloc: Global,
    lines: &mut Lines,
    name: &[u8],
    text: &[u8],
    address: u16,
) -> Result<(), AllocError>
    requires most { lines.old.left_out < 2 ^ 63 }
    requires told { lines.old.told < 2 ^ 63 }
    ensures text { OnOk result
        (taken_view lines.new ≡ with_text name.now text.now address (taken_view lines.old)) }
    ensures most { OnOk result (lines.new.left_out ≤ lines.old.left_out + 1) }
    ensures told { OnOk result (lines.new.told ≤ lines.old.told + 1) }
{
    if is_image_name(text) {
        push_once(alloc, lines, text, address as i32)
    } else {
        push_left_out(lines, name)
    }
}

/// Keeps a name that was given before for another address, with this one behind it.
fn push_addressed(
    alloc: Global,
    lines: &mut Lines,
    name: &[u8],
    address: u16,
) -> Result<(), AllocError>
    requires most { lines.old.left_out < 2 ^ 63 }
    requires told { lines.old.told < 2 ^ 63 }
    ensures text { OnOk result
        (taken_view lines.new ≡ with_addressed name.now address (taken_view lines.old)) }
    ensures most { OnOk result (lines.new.left_out ≤ lines.old.left_out + 1) }
    ensures told { OnOk result (lines.new.told ≤ lines.old.told + 1) }
{
    let text = addressed_name(alloc, name, address)?;
    push_text(alloc, lines, name, text.as_slice(), address)
}

/// Keeps a name that was given before with another number, if this one is an address.
fn push_again(alloc: Global, lines: &mut Lines, name: &[u8], number: i32) -> Result<(), AllocError>
    requires most { lines.old.left_out < 2 ^ 63 }
    requires told { lines.old.told < 2 ^ 63 }
    ensures text { OnOk result
        (taken_view lines.new ≡ with_again name.now number (taken_view lines.old)) }
    ensures most { OnOk result (lines.new.left_out ≤ lines.old.left_out + 1) }
    ensures told { OnOk result (lines.new.told ≤ lines.old.told + 1) }
{
    if number >= 0 && number <= 65535 {
        push_addressed(alloc, lines, name, number as u16)
    } else {
        push_left_out(lines, name)
    }
}

/// Appends a line that gives a name, unless the name was given before.
fn push_given(
    alloc: Global,
    lines: &mut Lines,
    text: &[u8],
    name: &[u8],
    number: i32,
) -> Result<(), AllocError>
    requires most { lines.old.left_out < 2 ^ 63 }
    requires told { lines.old.told < 2 ^ 63 }
    ensures text { OnOk result (taken_view lines.new ≡ with_given
        (number_in lines.old.names name.now) text.now name.now number (taken_view lines.old)) }
    ensures most { OnOk result (lines.new.left_out ≤ lines.old.left_out + 1) }
    ensures told { OnOk result (lines.new.told ≤ lines.old.told + 1) }
{
    match lines.names.value_of(name) {
        None => push_name(alloc, lines, text, name, number),
        Some(old) => {
            if old == number {
                push_empty(lines)
            } else {
                push_again(alloc, lines, name, number)
            }
        }
    }
}

/// Keeps a name that cannot stand in the source, unless the name was given before.
fn push_kept(alloc: Global, lines: &mut Lines, name: &[u8], number: i32) -> Result<(), AllocError>
    requires most { lines.old.left_out < 2 ^ 63 }
    requires told { lines.old.told < 2 ^ 63 }
    ensures text { OnOk result (taken_view lines.new ≡ with_kept
        (given_before (taken_view lines.old) name.now) name.now number (taken_view lines.old)) }
    ensures most { OnOk result (lines.new.left_out ≤ lines.old.left_out + 1) }
    ensures told { OnOk result (lines.new.told ≤ lines.old.told + 1) }
{
    match given_before(lines, name) {
        None => push_other(alloc, lines, name, number),
        Some(given) => {
            if given == number {
                push_empty(lines)
            } else {
                push_again(alloc, lines, name, number)
            }
        }
    }
}

/// Appends a line by what becomes of it.
fn push_meaning(
    alloc: Global,
    lines: &mut Lines,
    text: &[u8],
    meaning: Meaning<'_>,
) -> Result<(), AllocError>
    requires most { lines.old.left_out < 2 ^ 63 }
    requires told { lines.old.told < 2 ^ 63 }
    ensures text { OnOk result (taken_view lines.new
        ≡ with_meaning text.now (meaning_view meaning.entry) (taken_view lines.old)) }
    ensures most { OnOk result (lines.new.left_out ≤ lines.old.left_out + 1) }
    ensures told { OnOk result (lines.new.told ≤ lines.old.told + 1) }
{
    match meaning {
        Meaning::Other => push_empty(lines),
        Meaning::Stands => push_statement(lines),
        Meaning::Unknown => push_unknown(lines),
        Meaning::LeftOut(name) => push_left_out(lines, name),
        Meaning::Kept(name, number) => push_kept(alloc, lines, name, number),
        Meaning::Named(name, number) => push_given(alloc, lines, text, name, number),
    }
}

/// Appends what becomes of a line of the file.
#[tactic(auto, unfolding(crate::specs::NamesFile::one_line_more))]
fn push_one(
    alloc: Global,
    form: Form,
    profile: Profile,
    lines: &mut Lines,
    line: &[u8],
) -> Result<(), AllocError>
    requires most { lines.old.left_out < 2 ^ 63 }
    requires told { lines.old.told < 2 ^ 63 }
    ensures text { OnOk result (taken_view lines.new
        ≡ one_line_more form profile line.now (taken_view lines.old)) }
    ensures most { OnOk result (lines.new.left_out ≤ lines.old.left_out + 1) }
    ensures told { OnOk result (lines.new.told ≤ lines.old.told + 1) }
{
    match label_in(form, line) {
        Some(label) => {
            let text = definition_text(alloc, &label)?;
            let meaning = label_meaning(alloc, profile, &lines.names, &label, text.as_slice())?;
            push_meaning(alloc, lines, text.as_slice(), meaning)
        }
        None => {
            let meaning = unlabelled(alloc, form, profile, &lines.names, line)?;
            push_meaning(alloc, lines, line, meaning)
        }
    }
}

/// Makes what was made of no line.
fn no_lines(alloc: Global) -> Lines
    ensures { taken_view result ≡ nothing_taken }
{
    Lines {
        source: Vec::new(alloc),
        names: Symbols::new(alloc),
        others: Symbols::new(alloc),
        left_out: 0,
        shown: Vec::new(alloc),
        told: 0,
        is_known: false,
        is_source: false,
    }
}

/// Returns what was made of the lines of a file.
fn taken(alloc: Global, form: Form, profile: Profile, file: &[u8]) -> Result<Lines, AllocError>
    ensures { IfOk result (λ lines. taken_view lines
        ≡ more_lines form profile (lines_of file.now) nothing_taken) }
{
    let mut lines = no_lines(alloc);
    let mut rest = file;
    while !rest.is_empty() {
        let (line, behind) = next_line(rest);
        push_one(alloc, form, profile, &mut lines, line)?;
        rest = behind;
    }
    Ok(lines)
}

/// Returns whether no line of a form is a name.
fn is_unknown(form: Form, lines: &Lines) -> bool
    ensures { result ≡ is_unknown form (taken_view lines.now) }
{
    match form {
        Form::Plain => !lines.is_known && 0 < lines.left_out,
        Form::Debug | Form::Table => false,
    }
}

/// Appends the names that are shown of lines that were left out.
fn push_shown(text: &mut Vec<u8>, lines: &Lines) -> Result<(), AllocError>
    ensures { OnOk result (text.new.items
        ≡ text.old.items ++ shown_part (taken_view lines.now)) }
{
    if !lines.shown.is_empty() {
        text.extend_from_slice(b": ")?;
        text.extend_from_slice(lines.shown.as_slice())?;
        if lines.told < lines.left_out {
            text.extend_from_slice(b", ..")?;
        }
    }
    Ok(())
}

/// Returns what is said of lines that were left out, or nothing.
fn left_text(alloc: Global, lines: &Lines) -> Result<Vec<u8>, AllocError>
    ensures { IfOk result (λ text. text.items ≡ left_text (taken_view lines.now)) }
{
    let mut text = Vec::new(alloc);
    if lines.left_out != 0 {
        push_count(&mut text, lines.left_out as u64)?;
        push_shown(&mut text, lines)?;
    }
    Ok(text)
}

/// Returns the names of a table.
fn table_names(alloc: Global, form: Form, lines: Lines) -> Result<NamesFile, AllocError>
    ensures { IfOk result (λ names. names_view names ≡ table_names form (taken_view lines)) }
{
    let is_unknown = is_unknown(form, &lines);
    let left_out = left_text(alloc, &lines)?;
    let lost = lines.left_out.saturating_sub(lines.others.count());
    let Lines {
        source,
        names: _,
        others,
        left_out: _,
        shown: _,
        told: _,
        is_known: _,
        is_source: _,
    } = lines;
    Ok(NamesFile {
        source,
        others,
        left_out,
        lost,
        is_unknown,
    })
}

/// Returns the names of a source, which gives them as it stands.
fn source_names(alloc: Global, file: &[u8]) -> Result<NamesFile, AllocError>
    ensures { IfOk result (λ names. names_view names ≡ source_names file.now) }
{
    Ok(NamesFile {
        source: Vec::from_slice(alloc, file)?,
        others: Symbols::new(alloc),
        left_out: Vec::new(alloc),
        lost: 0,
        is_unknown: false,
    })
}

/// Returns a source that gives the names of a file, and what is said of lines that were left out.
///
/// A file that begins as a debug file of ld65 gives the names of its symbols, and one that begins
/// as the table of DASM those of its rows. In any other file a line `al ADDRESS .NAME` gives a
/// name, and so does a line that defines one. Left out are names that cannot stand in a source,
/// that have no number, or that were given before with another number, and lines in no form that
/// is known. Names with a number that cannot stand in a source, and that an image may have, are
/// given beside it; so is a name that had another number, with its address behind it. A file with
/// a line of a source that defines nothing is one, and gives its names as it stands. The only error
/// is that an allocation failed.
///
/// Source: mos65.
#[tactic(auto, unfolding(crate::specs::NamesFile::names_file))]
pub fn names_of_file(alloc: Global, profile: Profile, file: &[u8]) -> Result<NamesFile, AllocError>
    ensures { IfOk result (λ names. names_view names ≡ names_file profile file.now) }
{
    let form = form_of(file);
    let lines = taken(alloc, form, profile, file)?;
    if lines.is_source || SOURCE_SIZE < file.len() {
        drop(lines);
        source_names(alloc, file)
    } else {
        table_names(alloc, form, lines)
    }
}
