//! A row for a step.

ghost use Rattle.std.specs.Prelude.{◌≡◌, ◌≤◌, ◌++◌, OnOk, length, take, drop};
ghost use Rattle.std.specs.List.{flat_map};
ghost use Rattle.disasm.specs.Rows.{row_view};
ghost use Rattle.model.specs.InstructionText.{row_of};
ghost use Rattle.trace_rows.specs.Steps.{byte_left, bytes_of, flag_letter, flag_letters};
ghost use Rattle.trace_rows.specs.Steps.{instruction_columns, regs_text, step_row, with_entry};
ghost use Rattle.trace_rows.specs.Steps.{byte_column, named_byte, step_front, store_text, with_executed};
ghost use Rattle.trace_rows.specs.Steps.{with_stores};

use crate::sites::Sites;
use crate::words::{SiteColumns, push_front, push_row_end};
use accesses::{Addresses, Moment};
use debugger::Session;
use disasm::{TextLine, line_in};
use formatting::{push_address, push_blanks, push_byte};
use model::{Flags, Regs};
use std::alloc::AllocError;

/// A step that was made: what was about to happen before it, whether an interrupt entry came in the
/// instruction's place, and the addresses where it left a byte in memory or at the port.
#[derive(Drop)]
pub struct Step {
    pub moment: Moment,
    pub is_entry: bool,
    pub stores: Addresses,
}

/// The column of an instruction's text, behind 8 digits of cycles, an address and three bytes.
const TEXT_COLUMN: u8 = 26;
/// The column of the registers.
const REGS_COLUMN: u8 = 40;
/// The column of what was stored.
const STORES_COLUMN: u8 = 70;
/// The columns of the label and the line where nothing stands before them.
const SITE: SiteColumns = SiteColumns {
    label: 70,
    line: 84,
};
/// Those behind what was stored, which mostly is `01FD=02 01FC=07` at most.
const SITE_BEHIND: SiteColumns = SiteColumns {
    label: 87,
    line: 97,
};

/// Returns the instruction of a moment as text.
fn instruction(session: &Session, moment: &Moment) -> TextLine
    ensures row { row_view result ≡ row_of session.now.current.bus.map.profile
        (bytes_of moment.now) moment.now.regs.pc }
    ensures short { result.text_len ≤ 12 }
    ensures within { result.len ≤ 3 }
{
    let bytes = [moment.first, moment.second, moment.third];
    line_in(session.profile(), &bytes, moment.regs.pc)
}

/// Appends bytes as two hex digits, with a blank behind each.
fn push_bytes(text: &mut Vec<u8>, bytes: &[u8]) -> Result<(), AllocError>
    ensures { OnOk result (text.new.items ≡ text.old.items ++ flat_map byte_column bytes.now) }
{
    for byte in bytes {
        push_byte_column(text, *byte)?;
    }
    Ok(())
}

/// Appends a byte as two hex digits, and a blank.
fn push_byte_column(text: &mut Vec<u8>, byte: u8) -> Result<(), AllocError>
    ensures { OnOk result (text.new.items ≡ text.old.items ++ byte_column byte) }
{
    push_byte(text, byte)?;
    text.extend_from_slice(b" ")
}

/// Appends the bytes and the text of the instruction of a moment.
#[tactic(auto, using(formatting::proofs::Padding::grown), unfolding(crate::specs::Steps::instruction_columns))]
pub fn push_instruction(
    text: &mut Vec<u8>,
    session: &Session,
    moment: &Moment,
) -> Result<(), AllocError>
    ensures { OnOk result (text.new.items ≡ text.old.items
        ++ instruction_columns session.now.current.bus.map.profile moment.now) }
{
    let row = instruction(session, moment);
    let from = text.len();
    let bytes = [moment.first, moment.second, moment.third];
    push_bytes(text, &bytes[..row.len as usize])?;
    push_blanks(text, from, 10)?;
    text.extend_from_slice(&row.text[..row.text_len as usize])
}

/// Appends what stands for the instruction in the row of an interrupt entry that begins at `from`.
#[tactic(auto, using(formatting::proofs::Padding::grown), unfolding(crate::specs::Steps::with_entry))]
pub fn push_entry(text: &mut Vec<u8>, from: usize) -> Result<(), AllocError>
    requires { from ≤ length text.old.items }
    ensures { OnOk result (text.new.items ≡ take from text.old.items
        ++ with_entry (drop from text.old.items)) }
{
    push_blanks(text, from, TEXT_COLUMN)?;
    text.extend_from_slice(b"(interrupt)")
}

/// Appends what a step executes to the row that begins at `from`: an entry, or the instruction.
#[tactic(auto, using(formatting::proofs::Padding::grown))]
pub fn push_executed(
    text: &mut Vec<u8>,
    from: usize,
    session: &Session,
    moment: &Moment,
    is_entry: bool,
) -> Result<(), AllocError>
    requires { from ≤ length text.old.items }
    ensures { OnOk result (text.new.items ≡ take from text.old.items
        ++ with_executed is_entry session.now.current.bus.map.profile moment.now
        (drop from text.old.items)) }
{
    if is_entry {
        push_entry(text, from)
    } else {
        push_instruction(text, session, moment)
    }
}

/// A flag's letter: a capital if it is 1.
fn letter(is_set: bool, letter: u8) -> u8
    requires { 97 ≤ letter }
    ensures { result ≡ flag_letter is_set letter }
{
    if is_set { letter - 32 } else { letter }
}

/// Returns a blank and the flags as letters: capitals are 1. The bits that are no flags are `-` and
/// `b`.
fn letters(flags: Flags) -> [u8; 9]
    ensures { result ≡ flag_letters flags }
{
    [
        b' ',
        letter(flags.n, b'n'),
        letter(flags.v, b'v'),
        b'-',
        b'b',
        letter(flags.d, b'd'),
        letter(flags.i, b'i'),
        letter(flags.z, b'z'),
        letter(flags.c, b'c'),
    ]
}

/// Appends a name and a byte.
fn push_named(text: &mut Vec<u8>, name: &[u8], byte: u8) -> Result<(), AllocError>
    ensures { OnOk result (text.new.items ≡ text.old.items ++ named_byte name.now byte) }
{
    text.extend_from_slice(name)?;
    push_byte(text, byte)
}

/// Appends the registers and flags: `A=01 X=00 Y=00 S=FD nv-bdIzc`.
fn push_regs(text: &mut Vec<u8>, regs: Regs) -> Result<(), AllocError>
    ensures { OnOk result (text.new.items ≡ text.old.items ++ regs_text regs) }
{
    push_named(text, b"A=", regs.a)?;
    push_named(text, b" X=", regs.x)?;
    push_named(text, b" Y=", regs.y)?;
    push_named(text, b" S=", regs.s)?;
    text.extend_from_slice(&letters(regs.flags))?;
    Ok(())
}

/// Appends an address and what a store has left there: `01FD=02`.
fn push_store(text: &mut Vec<u8>, session: &Session, address: u16) -> Result<(), AllocError>
    ensures { OnOk result (text.new.items ≡ text.old.items
        ++ store_text session.now.current.bus address) }
{
    push_address(text, address)?;
    text.extend_from_slice(b"=")?;
    push_byte(text, byte_left(session, address))
}

/// Appends what a step left at the addresses where it stored: memory's byte, or the last byte of
/// output at the port.
fn push_stores(
    text: &mut Vec<u8>,
    from: usize,
    session: &Session,
    stores: &Addresses,
) -> Result<(), AllocError>
    requires { from ≤ length text.old.items }
    ensures { OnOk result (text.new.items ≡ take from text.old.items
        ++ with_stores session.now.current.bus STORES_COLUMN stores.now.items
        (drop from text.old.items)) }
{
    let mut column = STORES_COLUMN;
    for address in stores.as_slice() {
        push_blanks(text, from, column)?;
        push_store(text, session, *address)?;
        column = column.saturating_add(8);
    }
    Ok(())
}

/// Returns the byte that a store has left at an address: memory's, or the last byte of output at
/// the port.
#[tactic(auto, unfolding(crate::specs::Steps::byte_left))]
fn byte_left(session: &Session, address: u16) -> u8
    ensures { result ≡ byte_left session.now.current.bus address }
{
    if session.is_port(address) {
        let last = session.output_len().saturating_sub(1);
        session.output_at(last).unwrap_or(0)
    } else {
        session.peek(address)
    }
}

/// Appends what the row of a step has before its stores.
#[tactic(auto, using(formatting::proofs::Padding::grown), unfolding(crate::specs::Steps::step_front))]
fn push_step_front(text: &mut Vec<u8>, session: &Session, step: &Step) -> Result<(), AllocError>
    ensures { OnOk result (text.new.items ≡ text.old.items
        ++ step_front session.now.current step.now) }
{
    let from = text.len();
    push_front(text, step.moment.cycles, &step.moment)?;
    push_executed(text, from, session, &step.moment, step.is_entry)?;
    text.extend_from_slice(b"  ")?;
    push_blanks(text, from, REGS_COLUMN)?;
    push_regs(text, session.regs())
}

/// Appends the row of a step that was made: the cycles before it, address, bytes and text of its
/// instruction, the registers and flags after it, with `shows_stores` what it stored and where, and
/// the label and the line of the source as far as there are any. The row ends with LF, and with no
/// blank before it.
///
/// The session is in the state after the step.
///
/// Errors: `AllocError` if an allocation fails.
#[tactic(auto, using(formatting::proofs::Padding::grown), unfolding(crate::specs::Steps::step_row))]
pub fn push_step(
    text: &mut Vec<u8>,
    session: &Session,
    sites: &Sites,
    step: &Step,
    shows_stores: bool,
) -> Result<(), AllocError>
    ensures { OnOk result (text.new.items ≡ text.old.items
        ++ step_row session.now.current sites.now step.now shows_stores) }
{
    let from = text.len();
    push_step_front(text, session, step)?;
    let address = step.moment.regs.pc;
    if shows_stores {
        push_stores(text, from, session, &step.stores)?;
        push_row_end(text, from, SITE_BEHIND, sites, address)
    } else {
        push_row_end(text, from, SITE, sites, address)
    }
}
