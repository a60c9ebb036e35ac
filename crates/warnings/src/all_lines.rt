//! What may be meant otherwise in the lines of a source.

ghost use Rattle.std.specs.Prelude.{◌≡◌, ◌+◌, ◌++◌, ◌≤◌, IfOk, OnOk, [], length};
ghost use Rattle.line_parts.specs.Contents.{map_option};
ghost use Rattle.line_parts.specs.LineViews.{line_view, statement_view};
ghost use Rattle.model.specs.Names.{number_in};
ghost use Rattle.model.specs.TextLines.{lines_of};
ghost use Rattle.warnings.specs.Placed.{meaning_of};
ghost use Rattle.warnings.specs.Views.{placed_view, placed_views};
ghost use Rattle.warnings.specs.Warnings.{begins_silenced, cut_off, denotes_bytes, has_bytes};
ghost use Rattle.warnings.specs.Warnings.{known, lines_warnings, one_if, says_bytes};
ghost use Rattle.warnings.specs.Warnings.{warnings_alone, warnings_more, warnings_with};
ghost use Rattle.warnings.specs.Warnings.{wrap_warnings};

use crate::flow::{falls_off, wrapped_page};
use crate::kinds::{Warning, WarningKind};
use crate::one_line::{is_long, is_silenced, is_unused, name_in, names_register, note_capitals};
use crate::placed_line::PlacedLine;
use crate::placement::meaning_of;
use crate::vectors::push_vectors;
use crate::written_numbers::Reach;
use crate::zero_page_writes::is_plain;
use line_parts::{Line, Statement, Token, next_line};
use model::Profile;
use std::alloc::{AllocError, Global};
use symbols::Symbols;

/// Appends a warning, if it is told.
pub fn push_if(
    warnings: &mut Vec<Warning>,
    told: bool,
    line: u32,
    kind: WarningKind,
) -> Result<(), AllocError>
    ensures { OnOk result (warnings.new.items ≡ warnings.old.items ++ one_if told line kind) }
{
    if told {
        warnings.push(Warning { line, kind })?;
    }
    Ok(())
}

/// Appends the warnings of what a line says alone.
fn push_alone(
    warnings: &mut Vec<Warning>,
    profile: Profile,
    names: &Symbols,
    used: &Symbols,
    reaches: &[Reach],
    number: u32,
    line: &PlacedLine<'_>,
) -> Result<(), AllocError>
    ensures { OnOk result (warnings.new.items ≡ warnings.old.items
        ++ warnings_alone (known profile names.now used.now reaches.now []) number
        (placed_view line.now)) }
{
    let plain = is_plain(profile, line, reaches) && !line.bracketed;
    let unused = is_unused(used, name_in(&line.line));
    let long = is_long(profile, names, line);
    push_if(warnings, plain, number, WarningKind::PlainNumber)?;
    push_if(warnings, unused, number, WarningKind::UnusedName)?;
    push_if(warnings, long, number, WarningKind::LongForm)
}

/// Appends the warning of a pointer at the end of a page.
fn push_wrap(warnings: &mut Vec<Warning>, line: u32, page: Option<u8>) -> Result<(), AllocError>
    ensures { OnOk result (warnings.new.items ≡ warnings.old.items ++ wrap_warnings line page) }
{
    match page {
        Some(page) => push_if(warnings, true, line, WarningKind::PointerWrap(page)),
        None => Ok(()),
    }
}

/// Appends the warnings of a line's name, of its pointer, and of where control goes from it.
fn push_more(
    warnings: &mut Vec<Warning>,
    profile: Profile,
    names: &Symbols,
    number: u32,
    falls: bool,
    line: &PlacedLine<'_>,
) -> Result<(), AllocError>
    ensures { OnOk result (warnings.new.items ≡ warnings.old.items
        ++ warnings_more profile (number_in names.now) number falls (placed_view line.now)) }
{
    let register = names_register(name_in(&line.line));
    let page = wrapped_page(profile, names, line);
    push_if(warnings, register, number, WarningKind::RegisterName)?;
    push_wrap(warnings, number, page)?;
    push_if(
        warnings,
        line.bracketed,
        number,
        WarningKind::SquareBrackets,
    )?;
    push_if(warnings, falls, number, WarningKind::FallsOff)
}

/// Appends the warnings of a line whose name has the letters of an earlier one or not, before these
/// lines, among all lines.
fn push_line(
    warnings: &mut Vec<Warning>,
    profile: Profile,
    names: &Symbols,
    used: &Symbols,
    reaches: &[Reach],
    lines: &[PlacedLine<'_>],
    number: u32,
    alike: bool,
    line: &PlacedLine<'_>,
    behind: &[PlacedLine<'_>],
) -> Result<(), AllocError>
    requires { length lines.now ≤ 1048576 }
    ensures { OnOk result (warnings.new.items ≡ warnings.old.items
        ++ warnings_with (known profile names.now used.now reaches.now (placed_views lines.now))
        number alike (placed_view line.now) (placed_views behind.now)) }
{
    if is_silenced(line.text) {
        return Ok(());
    }
    push_alone(warnings, profile, names, used, reaches, number, line)?;
    push_if(warnings, alike, number, WarningKind::LetterCase)?;
    push_more(
        warnings,
        profile,
        names,
        number,
        falls_off(line, behind),
        line,
    )?;
    push_vectors(warnings, names, lines, number, line)
}

/// Appends the warnings of lines, after lines with these names in capitals, and notes theirs.
fn push_each_line(
    alloc: Global,
    warnings: &mut Vec<Warning>,
    capitals: &mut Symbols,
    profile: Profile,
    names: &Symbols,
    used: &Symbols,
    reaches: &[Reach],
    lines: &[PlacedLine<'_>],
) -> Result<(), AllocError>
    requires { length lines.now ≤ 1048576 }
    ensures { OnOk result (warnings.new.items ≡ warnings.old.items
        ++ lines_warnings (known profile names.now used.now reaches.now (placed_views lines.now)) 1
        capitals.old (placed_views lines.now)) }
{
    let mut number = 0u32;
    for one in lines {
        number += 1;
        let alike = note_capitals(alloc, capitals, name_in(&one.line))?;
        let behind = &lines[number as usize..];
        push_line(
            warnings, profile, names, used, reaches, lines, number, alike, one, behind,
        )?;
    }
    Ok(())
}

/// Appends the warnings of lines, under all names with their numbers, the names that expressions
/// use, and what is written of the zero page. The only error is that a request for memory was
/// refused.
pub fn push_lines(
    alloc: Global,
    warnings: &mut Vec<Warning>,
    profile: Profile,
    names: &Symbols,
    used: &Symbols,
    reaches: &[Reach],
    lines: &[PlacedLine<'_>],
) -> Result<(), AllocError>
    requires { length lines.now ≤ 1048576 }
    ensures { OnOk result (warnings.new.items ≡ warnings.old.items
        ++ lines_warnings (known profile names.now used.now reaches.now (placed_views lines.now)) 1
        [] (placed_views lines.now)) }
{
    let mut capitals = Symbols::new(alloc);
    push_each_line(
        alloc,
        warnings,
        &mut capitals,
        profile,
        names,
        used,
        reaches,
        lines,
    )
}

/// Returns whether one of some lines has a byte.
pub fn has_bytes(lines: &[PlacedLine<'_>]) -> bool
    ensures { result ≡ has_bytes (placed_views lines.now) }
{
    for one in lines {
        if one.count > 0 {
            return true;
        }
    }
    false
}

/// Returns whether the warnings of the first line are switched off.
pub fn begins_silenced(lines: &[PlacedLine<'_>]) -> bool
    ensures { result ≡ begins_silenced (placed_views lines.now) }
{
    match lines {
        [first, ..] => is_silenced(first.text),
        [] => false,
    }
}

/// Whether a statement is an instruction or has bytes.
fn denotes_bytes(statement: &Statement<'_>) -> bool
    ensures { result ≡ denotes_bytes (statement_view statement.now) }
{
    match statement {
        Statement::Bytes(_) | Statement::Words(_) | Statement::WordsHighFirst(_) => true,
        Statement::Instruction(_, _) => true,
        Statement::Nothing | Statement::Origin(_) => false,
        Statement::Reserve(_) | Statement::Finish => false,
    }
}

/// Whether a line is an instruction or has bytes.
fn says_bytes(line: &Option<Line<'_>>) -> bool
    ensures { result ≡ says_bytes (map_option line_view line.now) }
{
    match line {
        Some(Line::Labelled(_, statement)) => denotes_bytes(statement),
        Some(Line::Definition(_, _)) | None => false,
    }
}

/// Whether a text is a line that is an instruction or has bytes. Its tokens are put into `room` in
/// place of its contents.
fn text_says_bytes<'a>(
    alloc: Global,
    profile: Profile,
    room: &mut Vec<Token<'a>>,
    text: &'a [u8],
) -> Result<bool, AllocError>
    ensures { IfOk result (λ told. told ≡ says_bytes (meaning_of profile text.now)) }
{
    let line = meaning_of(alloc, profile, room, text)?;
    let told = says_bytes(&line);
    drop(line);
    Ok(told)
}

/// Appends the warning of the first line with an instruction or bytes in a text that `.END` cuts
/// off, the number of whose first line this is. The only error is that a request for memory was
/// refused.
pub fn push_cut_off(
    alloc: Global,
    warnings: &mut Vec<Warning>,
    profile: Profile,
    number: u32,
    behind: &[u8],
) -> Result<(), AllocError>
    requires { number + length behind.now ≤ 4294967295 }
    ensures { OnOk result (warnings.new.items ≡ warnings.old.items
        ++ cut_off profile number (lines_of behind.now)) }
{
    let mut room = Vec::new(alloc);
    let mut rest = behind;
    let mut at = number;
    while !rest.is_empty() {
        let (text, after) = next_line(rest);
        let told = text_says_bytes(alloc, profile, &mut room, text)?;
        if told {
            return push_if(warnings, !is_silenced(text), at, WarningKind::AfterEnd);
        }
        rest = after;
        at += 1;
    }
    Ok(())
}
