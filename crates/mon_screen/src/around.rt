//! The program around PC.

ghost use Rattle.std.specs.Prelude.{◌≡◌, ◌==◌, ◌++◌, IfOk, OnOk};
ghost use Rattle.mon_screen.specs.Around.{around_text, first_number, marked_line, next_address};
ghost use Rattle.mon_screen.specs.Around.{next_number, numbered, place_mark, several, source_line};
ghost use Rattle.mon_screen.specs.Around.{told_row};
ghost use Rattle.source_map.specs.Lines.{text_of, texts_at};

use crate::wording::{ELSEWHERE, HERE};
use debugger::Session;
use formatting::{push_blanks, push_count, push_text};
use mon_instructions::push_listed;
use source_map::{Places, Row};
use std::alloc::AllocError;

/// Appends whether the program stands here.
fn push_place_mark(text: &mut Vec<u8>, is_here: bool) -> Result<(), AllocError>
    ensures { OnOk result (text.new.items ≡ text.old.items ++ place_mark is_here) }
{
    push_text(text, if is_here { HERE } else { ELSEWHERE })
}

/// Appends the number and the text of a line of a file, if there is such a line.
#[tactic(auto, using(formatting::proofs::Padding::grown))]
fn push_numbered(
    text: &mut Vec<u8>,
    places: &Places,
    file: u32,
    number: u32,
) -> Result<(), AllocError>
    ensures { OnOk result (text.new.items ≡ text.old.items
        ++ numbered number (text_of (texts_at places.now.sources file) number)) }
{
    let Some(line) = places.text_of(file, number) else {
        return Ok(());
    };
    let from = text.len();
    push_count(text, number as u64)?;
    push_blanks(text, from, 5)?;
    text.extend_from_slice(line)
}

/// Appends a line of a file, with a mark if its number is `here`.
#[tactic(auto, unfolding(crate::specs::Around::source_line))]
fn push_source_line(
    text: &mut Vec<u8>,
    places: &Places,
    file: u32,
    here: u32,
    number: u32,
) -> Result<(), AllocError>
    ensures { OnOk result (text.new.items ≡ text.old.items
        ++ source_line (texts_at places.now.sources file) here number) }
{
    push_place_mark(text, number == here)?;
    push_numbered(text, places, file, number)?;
    push_text(text, "\n")
}

/// Returns the number of the first of `count` lines around a line.
fn first_number(here: u32, count: u8) -> u32
    ensures { result ≡ first_number here count }
{
    here.saturating_sub(1).saturating_sub(count as u32 / 2) + 1
}

/// Appends `count` lines of a file from a number on, with a mark at the line `here`.
fn push_source(
    text: &mut Vec<u8>,
    places: &Places,
    file: u32,
    here: u32,
    first: u32,
    count: u8,
) -> Result<(), AllocError>
    ensures { OnOk result (text.new.items ≡ text.old.items
        ++ several count (source_line (texts_at places.now.sources file) here) next_number first) }
{
    let mut number = first;
    for _ in 0..count {
        push_source_line(text, places, file, here, number)?;
        number = number.wrapping_add(1);
    }
    Ok(())
}

/// Appends the line of an address, with a mark if it is PC. Returns the address behind it.
#[tactic(auto, unfolding(crate::specs::Around::marked_line))]
fn push_marked_line(
    text: &mut Vec<u8>,
    session: &Session,
    places: &Places,
    address: u16,
) -> Result<u16, AllocError>
    ensures ok { OnOk result (text.new.items ≡ text.old.items
        ++ marked_line session.now.current places.now address) }
    ensures next { IfOk result
        (λ next. next ≡ next_address session.now.current places.now address) }
{
    push_place_mark(text, address == session.regs().pc)?;
    let length = push_listed(text, session, places, address)?;
    Ok(address.wrapping_add(length as u16))
}

/// Appends `count` instructions or pieces of data from an address on.
fn push_listing(
    text: &mut Vec<u8>,
    session: &Session,
    places: &Places,
    first: u16,
    count: u8,
) -> Result<(), AllocError>
    ensures { OnOk result (text.new.items ≡ text.old.items
        ++ several count (marked_line session.now.current places.now)
        (next_address session.now.current places.now) first) }
{
    let mut address = first;
    for _ in 0..count {
        address = push_marked_line(text, session, places, address)?;
    }
    Ok(())
}

/// Returns a row, if the text of its line is known.
fn told_row(places: &Places, row: Option<Row>) -> Option<Row>
    ensures { result ≡ told_row places.now.sources row }
{
    match row {
        None => None,
        Some(row) => {
            if places.text_of(row.file, row.line).is_some() {
                Some(row)
            } else {
                None
            }
        }
    }
}

/// Appends the lines around that of a row.
fn push_source_around(
    text: &mut Vec<u8>,
    places: &Places,
    row: Row,
    count: u8,
) -> Result<(), AllocError>
    ensures { OnOk result (text.new.items ≡ text.old.items
        ++ several count (source_line (texts_at places.now.sources row.file) row.line)
        next_number (first_number row.line count)) }
{
    let first = first_number(row.line, count);
    push_source(text, places, row.file, row.line, first, count)
}

/// Appends the program around PC in `count` lines.
pub fn push_around(
    text: &mut Vec<u8>,
    session: &Session,
    places: &Places,
    count: u8,
) -> Result<(), AllocError>
    ensures { OnOk result (text.new.items ≡ text.old.items
        ++ around_text count session.now.current places.now) }
{
    let pc = session.regs().pc;
    match told_row(places, places.row_at(pc)) {
        Some(row) => push_source_around(text, places, row, count),
        None => push_listing(text, session, places, pc, count),
    }
}
