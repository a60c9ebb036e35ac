//! The state that a run starts from.

ghost use Rattle.std.specs.Prelude.{◌≡◌, ◌*◌, ◌<◌, ◌++◌, [], ◌∷◌, List, ℕ, OnOk, drop};
ghost use Rattle.std.specs.Prelude.{length, slice_index, take};
ghost use Rattle.page_data.specs.Start.{is_blank, lines_of, listed, number, page, pages};
ghost use Rattle.page_data.specs.Start.{registers_of, start_at, start_bytes};

use crate::step::signals;
use debugger::Session;
use std::alloc::AllocError;

/// Returns the bytes of a page of memory.
fn page_of(session: &Session, number: u8) -> [u8; 256]
    ensures { result ≡ take 256 (drop (256 * number) session.now.current.bus.memory) }
{
    // For the proof: that the memory has all its bytes.
    session.is_state();
    let mut cells = [0u8; 256];
    for index in 0..256usize {
        cells[index] = session.peek(256 * number as u16 + index as u16);
    }
    cells
}

/// Returns whether bytes are all 0.
fn is_blank(cells: &[u8]) -> bool
    ensures { result ≡ is_blank cells.now }
{
    for cell in cells {
        if *cell != 0 {
            return false;
        }
    }
    true
}

/// Appends a page of memory: 0 if all its bytes are 0, and otherwise 1 and its bytes.
#[tactic(auto, unfolding(crate::specs::Start::page))]
fn push_page(written: &mut Vec<u8>, cells: [u8; 256]) -> Result<(), AllocError>
    ensures { OnOk result (written.new.items ≡ written.old.items ++ page cells) }
{
    if is_blank(&cells) {
        written.push(0)?;
        Ok(())
    } else {
        written.push(1)?;
        written.extend_from_slice(&cells)
    }
}

/// Appends all pages of memory.
fn push_pages(written: &mut Vec<u8>, session: &Session) -> Result<(), AllocError>
    ensures { OnOk result (written.new.items ≡ written.old.items
        ++ pages 256 session.now.current.bus.memory) }
{
    for number in 0..256u16 {
        push_page(written, page_of(session, number as u8))?;
    }
    Ok(())
}

/// Appends a number in eight bytes, the lowest first.
fn push_number(written: &mut Vec<u8>, count: u64) -> Result<(), AllocError>
    ensures { OnOk result (written.new.items ≡ written.old.items ++ number count) }
{
    written.extend_from_slice(&count.to_le_bytes())
}

/// Returns a byte that the output has.
fn output_byte(session: &Session, index: u32) -> u8
    requires { index < length session.now.current.bus.out }
    ensures { result ≡ slice_index session.now.current.bus.out index }
{
    session.output_at(index).unwrap_or(0)
}

/// Appends what was put out, with its count before it.
fn push_output(written: &mut Vec<u8>, session: &Session) -> Result<(), AllocError>
    ensures { OnOk result (written.new.items ≡ written.old.items
        ++ listed session.now.current.bus.out) }
{
    push_number(written, session.output_len() as u64)?;
    for index in 0..session.output_len() {
        written.push(output_byte(session, index))?;
    }
    Ok(())
}

/// Appends the registers.
#[tactic(auto, unfolding(crate::specs::Start::registers_of))]
fn push_registers(written: &mut Vec<u8>, session: &Session) -> Result<(), AllocError>
    ensures { OnOk result (written.new.items ≡ written.old.items
        ++ registers_of session.now.current) }
{
    let regs = session.regs();
    written.extend_from_slice(&[
        regs.a,
        regs.x,
        regs.y,
        regs.s,
        regs.flags.to_byte(false),
        (regs.pc % 256) as u8,
        (regs.pc / 256) as u8,
    ])
}

/// Returns the signals of a state.
fn lines_of(session: &Session) -> u8
    ensures { result ≡ lines_of session.now.current }
{
    let control = session.bus().control();
    let irq = session.irq();
    let nmi = session.nmi_is_pending();
    signals(false, false, control, irq, nmi, false, false)
}

/// Appends the signals of a state.
fn push_lines(written: &mut Vec<u8>, session: &Session) -> Result<(), AllocError>
    ensures { OnOk result (written.new.items ≡ written.old.items
        ++ lines_of session.now.current ∷ []) }
{
    written.push(lines_of(session))?;
    Ok(())
}

/// Returns a byte of the input that was handed in.
fn input_byte(session: &Session, index: u32) -> u8
    requires { index < length session.now.current.bus.given }
    ensures { result ≡ slice_index session.now.current.bus.given index }
{
    session.input_at(index).unwrap_or(0)
}

/// Appends the input that was handed in, with its count before it.
fn push_input(written: &mut Vec<u8>, session: &Session) -> Result<(), AllocError>
    ensures { OnOk result (written.new.items ≡ written.old.items
        ++ listed session.now.current.bus.given) }
{
    push_number(written, session.input_len() as u64)?;
    for index in 0..session.input_len() {
        written.push(input_byte(session, index))?;
    }
    Ok(())
}

/// Appends the start of a run: the current state of a session.
///
/// Errors: `AllocError` if an allocation fails; a beginning of it may have been appended.
pub fn push_start(written: &mut Vec<u8>, session: &Session) -> Result<(), AllocError>
    ensures ok { OnOk result (written.new.items ≡ written.old.items
        ++ start_bytes session.now.current) }
    // What is written of a state is read as this state, whatever comes after it.
    ensures told { OnOk result ((rest : List ℕ) → start_at session.now.current.bus.map
        (start_bytes session.now.current ++ rest) ≡ (session.now.current, rest)) }
{
    // For the proof: that the registers and the memory are in range.
    session.is_state();
    push_pages(written, session)?;
    push_registers(written, session)?;
    push_number(written, session.cycles())?;
    push_lines(written, session)?;
    push_number(written, session.bus().taken() as u64)?;
    push_output(written, session)?;
    push_input(written, session)
}
