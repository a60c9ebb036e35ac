//! Why a row cannot be read.

ghost use Rattle.std.specs.Prelude.{◌≡◌, ◌++◌, IfOk, OnOk, option_map, string_bytes};
ghost use Rattle.t65_failures.specs.Faulty.{faulty_place, faulty_text, faulty_words, marked_line};
ghost use Rattle.t65_failures.specs.Faulty.{near_name, near_text, near_words, word_at};

use crate::steps::push_blanks;
use assembler::Assembly;
use fault_notes::is_near;
use std::alloc::{AllocError, Global};
use t65_values::{RowFaultKind, TextFault, push_visible_text, word_of};

/// Appends the place of a fault in the file of rows.
fn push_place(text: &mut String, rows: &str, fault: TextFault) -> Result<(), AllocError>
    ensures { OnOk result (string_bytes text.new
        ≡ string_bytes text.old ++ faulty_place rows.now fault) }
{
    text.push_str("mos65: ")?;
    push_visible_text(text, rows.as_bytes())?;
    write!(text, ":{}:{}: ", fault.line, fault.column)
}

/// Returns the first name of a source that is near a word, if there is one.
fn near_name<'a>(names: &'a Assembly, word: &[u8]) -> Option<&'a [u8]>
    ensures { option_map (λ name. name.now) result ≡ near_name names.now.names word.now }
{
    for index in 0..names.symbol_count() {
        let Some((name, _)) = names.symbol(index) else {
            return None;
        };
        if is_near(name, word) {
            return Some(name);
        }
    }
    None
}

/// Appends that a name is defined which is near one that is not, if there is one.
fn push_near_name(text: &mut String, near: Option<&[u8]>) -> Result<(), AllocError>
    ensures { OnOk result (string_bytes text.new ≡ string_bytes text.old
        ++ near_text (option_map (λ name. name.now) near.entry)) }
{
    let Some(name) = near else {
        return Ok(());
    };
    text.push_str("; ")?;
    push_visible_text(text, name)?;
    text.push_str(" is")
}

/// Appends the name that is near a word, where that is a name that the source does not define.
fn push_near(
    text: &mut String,
    kind: RowFaultKind,
    names: &Assembly,
    word: &[u8],
) -> Result<(), AllocError>
    ensures { OnOk result (string_bytes text.new
        ≡ string_bytes text.old ++ near_words kind names.now.names word.now) }
{
    match kind {
        RowFaultKind::UndefinedName => push_near_name(text, near_name(names, word)),
        _ => Ok(()),
    }
}

/// Returns the word at a column, which is counted from 1.
fn word_at(line: &[u8], column: usize) -> &[u8]
    ensures { result.now ≡ word_at line.now column }
{
    let start = column.saturating_sub(1).min(line.len());
    word_of(&line[start..])
}

/// Appends what is wrong there, with the name that is near.
fn push_words(
    text: &mut String,
    names: &Assembly,
    kind: RowFaultKind,
    word: &[u8],
) -> Result<(), AllocError>
    ensures { OnOk result (string_bytes text.new
        ≡ string_bytes text.old ++ faulty_words names.now.names kind word.now) }
{
    write!(text, "{kind}{}", kind.example())?;
    push_near(text, kind, names, word)?;
    text.push('\n')
}

/// Appends a line, and a mark under a column, which is counted from 1.
fn push_marked(text: &mut String, line: &[u8], column: usize) -> Result<(), AllocError>
    ensures { OnOk result (string_bytes text.new
        ≡ string_bytes text.old ++ marked_line line.now column) }
{
    push_visible_text(text, line)?;
    text.push('\n')?;
    push_blanks(text, column.saturating_sub(1))?;
    text.push_str("^\n")
}

/// Returns why a line of a file of rows cannot be read as a row: the place, what is wrong there,
/// with the nearest name of the source, and the line with a mark under the place.
///
/// Errors: `AllocError` if an allocation fails.
pub fn faulty_text(
    alloc: Global,
    names: &Assembly,
    rows: &str,
    line: &[u8],
    fault: TextFault,
) -> Result<String, AllocError>
    ensures { IfOk result
        (λ text. string_bytes text ≡ faulty_text names.now.names rows.now line.now fault) }
{
    let mut text = String::new(alloc);
    push_place(&mut text, rows, fault)?;
    push_words(&mut text, names, fault.kind, word_at(line, fault.column))?;
    push_marked(&mut text, line, fault.column)?;
    Ok(text)
}
