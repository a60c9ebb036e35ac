//! The rows of a disassembly.

ghost use Rattle.std.specs.Prelude.{◌≡◌, ◌+◌, ◌≤◌, ◌++◌, ◌-◌, [], ℕ, IfOk, List, OnOk, codes};
ghost use Rattle.std.specs.Prelude.{string_bytes};
ghost use Rattle.dap_views.specs.Rows.{ahead, behind, behind_row, disassembled, joined};
ghost use Rattle.std.specs.Option.{option_copied};
ghost use Rattle.dap_views.specs.Rows.{lacking_rows, next_row, row_bytes, row_in, row_of, row_on};
ghost use Rattle.dap_views.specs.Rows.{row_text};
ghost use Rattle.dap_views.specs.Rows.{rows, rows_around, rows_on, rows_to};
ghost use Rattle.dap_messages.specs.ItemLists.{HasItems};
ghost use Rattle.dap_messages.specs.SeenAnswers.{SeenItem, answer_view, item_view};

use crate::source::{FilePath, Source, file_at};
use crate::texts::as_text;
use dap_messages::{
    Answer, Counting, Item, ItemList, instruction_at_line, instruction_row, instructions_body,
    no_instruction,
};
use disasm::line_in;
use formatting::{push_byte, push_text};
use mon_instructions::{push_instruction, push_listed};
use mon_session::MonState;
use source_map::Row;
use std::alloc::{AllocError, Global};

/// Behind the memory.
const BEHIND: u32 = 65536;

/// Returns the address behind a row of so many bytes. Behind the memory a row has one.
fn behind_row(address: u32, len: u8) -> u32
    ensures { result ≡ behind_row address len }
{
    if address < BEHIND {
        address + u32::from(len)
    } else if address == u32::MAX {
        address
    } else {
        address + 1
    }
}

/// Returns how many bytes the row at an address has: one if it would run past an end. Behind the
/// memory it does not matter.
fn row_len(alloc: Global, mon: &MonState, until: u32, address: u32) -> Result<u8, AllocError>
    ensures { IfOk result (λ len. behind_row address len ≡ next_row mon.now until address) }
{
    if address >= BEHIND {
        return Ok(0);
    }
    let mut text = Vec::new(alloc);
    let len = push_listed(&mut text, &mon.session, &mon.places, address as u16)?;
    if address < until && until < address + u32::from(len) {
        return Ok(1);
    }
    Ok(len)
}

/// Returns where the row begins that is `count` rows on.
fn rows_on(
    alloc: Global,
    mon: &MonState,
    until: u32,
    count: u32,
    from: u32,
) -> Result<u32, AllocError>
    ensures { IfOk result (λ at. at ≡ rows_on mon.now until count from) }
{
    let mut address = from;
    for _ in 0..count {
        let len = row_len(alloc, mon, until, address)?;
        address = behind_row(address, len);
    }
    Ok(address)
}

/// Returns how many rows there are from an address to the end.
fn rows_to(alloc: Global, mon: &MonState, until: u32, from: u32) -> Result<u32, AllocError>
    requires { from ≤ 65790 }
    ensures value { IfOk result (λ count. count ≡ rows_to mon.now until (until - from) from) }
    ensures most { IfOk result (λ count. count ≤ until - from) }
{
    let mut address = from;
    let mut count = 0;
    for _ in 0..until.saturating_sub(from) {
        if address >= until {
            return Ok(count);
        }
        let len = row_len(alloc, mon, until, address)?;
        address = behind_row(address, len);
        count += 1;
    }
    Ok(count)
}

/// Appends bytes in hex, with words in front of the first and between them.
fn push_row_bytes(
    text: &mut Vec<u8>,
    front: &str,
    between: &str,
    bytes: &[u8],
) -> Result<(), AllocError>
    ensures { OnOk result (text.new.items
        ≡ text.old.items ++ joined front.now between.now bytes.now) }
{
    let mut words = front;
    for byte in bytes {
        push_text(text, words)?;
        push_byte(text, *byte)?;
        words = between;
    }
    Ok(())
}

/// Appends the bytes of a row to one text, and what it shows to another: an instruction, or data.
fn push_row(
    column: &mut Vec<u8>,
    words: &mut Vec<u8>,
    mon: &MonState,
    address: u16,
    len: u8,
) -> Result<(), AllocError>
    ensures column { OnOk result (column.new.items
        ≡ column.old.items ++ joined [] (codes " ") (row_bytes mon.now address len)) }
    ensures words { OnOk result
        (words.new.items ≡ words.old.items ++ row_text mon.now address len) }
{
    let session = &mon.session;
    let bytes = [
        session.peek(address),
        session.peek(address.wrapping_add(1)),
        session.peek(address.wrapping_add(2)),
    ];
    let shown = &bytes[..usize::from(len.min(3))];
    push_row_bytes(column, "", " ", shown)?;
    if line_in(session.profile(), &bytes, address).len == len
        && mon.places.data_left(address) == 0
    {
        push_instruction(words, session, &mon.places, address)
    } else {
        push_row_bytes(words, ".BYTE $", ",$", shown)
    }
}

/// Returns a row of bytes and a text at a line of a file, if the file is known and memory did not
/// run out.
fn row_in(
    alloc: Global,
    counting: Counting,
    address: u16,
    bytes: Result<String, AllocError>,
    text: Result<String, AllocError>,
    file: Option<&FilePath>,
    line: u32,
) -> Result<Item, AllocError>
    ensures { (b t : List ℕ) → IfOk bytes (λ s. string_bytes s ≡ b)
        → IfOk text (λ s. string_bytes s ≡ t)
        → IfOk result (λ v. item_view v
        ≡ row_in counting address b t (option_copied file.entry) line) }
{
    match file {
        Some(file) => {
            let line = counting.shown_line(line);
            instruction_at_line(alloc, address, bytes, text, line, file.path.as_str())
        }
        None => instruction_row(address, bytes, text),
    }
}

/// Returns a row of bytes and a text, if memory did not run out for them. It may stand at a line of
/// a file.
fn row_on(
    alloc: Global,
    source: &Source<'_>,
    address: u16,
    bytes: Result<String, AllocError>,
    text: Result<String, AllocError>,
    row: Option<Row>,
) -> Result<Item, AllocError>
    ensures { (b t : List ℕ) → IfOk bytes (λ s. string_bytes s ≡ b)
        → IfOk text (λ s. string_bytes s ≡ t)
        → IfOk result (λ v. item_view v
        ≡ row_on source.now.files.now source.now.counting address b t row) }
{
    match row {
        Some(row) => {
            let file = file_at(source.files, row.file);
            row_in(alloc, source.counting, address, bytes, text, file, row.line)
        }
        None => instruction_row(address, bytes, text),
    }
}

/// Returns the row of some bytes at an address, an instruction or data, which may begin a line of
/// the source. Where no memory is, it says so.
fn row_of(
    alloc: Global,
    mon: &MonState,
    source: &Source<'_>,
    address: u32,
    len: u8,
) -> Result<Item, AllocError>
    ensures { IfOk result (λ v. item_view v ≡ row_of mon.now source.now.files.now
        source.now.counting address len) }
{
    if address >= BEHIND {
        return no_instruction(format!(in alloc; "{address}"));
    }
    let address = address as u16;
    let mut column = Vec::new(alloc);
    let mut words = Vec::new(alloc);
    let grown = push_row(&mut column, &mut words, mon, address, len);
    let bytes = as_text(alloc, column, grown);
    let text = as_text(alloc, words, grown);
    let row = mon.places.row_at(address);
    row_on(alloc, source, address, bytes, text, row)
}

/// Returns a list with so many rows from an address on behind its items.
fn with_rows(
    alloc: Global,
    front: ItemList,
    mon: &MonState,
    source: &Source<'_>,
    until: u32,
    count: u32,
    from: u32,
) -> Result<ItemList, AllocError>
    ensures { (ds : List SeenItem) → HasItems ds front → IfOk result (HasItems (ds
        ++ rows mon.now source.now.files.now source.now.counting until count from)) }
{
    let mut list = front;
    let mut address = from;
    for _ in 0..count {
        let len = row_len(alloc, mon, until, address)?;
        list = list.with(row_of(alloc, mon, source, address, len));
        address = behind_row(address, len);
    }
    Ok(list)
}

/// Returns rows in front of the memory, at most so many, of which the first is so many bytes before
/// it.
fn lacking_rows(alloc: Global, count: u32, lacking: u32) -> ItemList
    ensures { HasItems (lacking_rows count lacking) result }
{
    let mut list = ItemList::new(alloc);
    let mut before = lacking;
    for _ in 0..count {
        list = list.with(no_instruction(format!(in alloc; "-{before}")));
        before = before.saturating_sub(1);
    }
    list
}

/// Returns how many rows back the first one is, and how many rows ahead.
fn moved(offset: i64) -> (u32, u32)
    ensures behind { result.0 ≡ behind offset }
    ensures ahead { result.1 ≡ ahead offset }
    ensures most_behind { result.0 ≤ 65536 }
    ensures most_ahead { result.1 ≤ 65536 }
{
    if offset <= -65536 {
        (65536, 0)
    } else if offset < 0 {
        ((-offset) as u32, 0)
    } else if offset < 65536 {
        (0, offset as u32)
    } else {
        (0, 65536)
    }
}

/// Returns so many rows, of which the first is some rows before an address or behind it.
fn rows_around(
    alloc: Global,
    mon: &MonState,
    source: &Source<'_>,
    until: u16,
    offset: i64,
    count: u32,
) -> Result<ItemList, AllocError>
    ensures { IfOk result (HasItems (rows_around mon.now source.now.files.now
        source.now.counting until (behind offset) (ahead offset) count)) }
{
    let until = u32::from(until);
    let (back, on) = moved(offset);
    let begin = until.saturating_sub(back * 3);
    let found = rows_to(alloc, mon, until, begin)?;
    let passed = found.saturating_sub(back) + on;
    let first = rows_on(alloc, mon, until, passed, begin)?;
    let lacking = back.saturating_sub(found);
    let front = lacking_rows(alloc, lacking.min(count), lacking);
    let left = count.saturating_sub(lacking);
    with_rows(alloc, front, mon, source, until, left, first)
}

/// Returns so many rows of a disassembly, of which the first is some rows before an address or
/// behind it: instructions, and data where a line of the source says so. Rows before the address
/// end there. Rows where no memory is say so; all do if no address is named.
pub fn disassembled(
    alloc: Global,
    mon: &MonState,
    source: &Source<'_>,
    address: Option<u16>,
    offset: i64,
    count: u32,
) -> Result<Answer, AllocError>
    ensures { IfOk result (λ v. answer_view v ≡ disassembled mon.now source.now.files.now
        source.now.counting address offset count) }
{
    let rows = match address {
        Some(until) => rows_around(alloc, mon, source, until, offset, count),
        None => with_rows(alloc, ItemList::new(alloc), mon, source, 0, count, BEHIND),
    };
    let list = rows?;
    instructions_body(list)
}
