//! The last steps of a call.

ghost use Rattle.std.specs.Prelude.{◌≡◌, ◌-◌, ◌≤◌, ◌++◌, Ok, OnOk, false, string_bytes, string_len};
ghost use Rattle.std.specs.List.{flat_map};
ghost use Rattle.formatting.specs.Padding.{padded, blanks};
ghost use Rattle.model.specs.Effect.{status};
ghost use Rattle.model.specs.Run.{after_steps};
ghost use Rattle.t65_failures.specs.Steps.{after_last_steps, around_text, arrival_count};
ghost use Rattle.t65_failures.specs.Steps.{arrival_steps_text, arrival_text};
ghost use Rattle.t65_failures.specs.Steps.{instruction_text, signal_name, signal_text, steps_by};
ghost use Rattle.t65_failures.specs.Steps.{last_steps_text, regs_text};
ghost use Rattle.t65_failures.specs.Steps.{row_character, source_text, step_text, steps_text, undone_text};
ghost use Rattle.t65_failures.specs.Texts.{named_byte};
ghost use Rattle.t65_runner.specs.Requests.{after_arrival};
ghost use Rattle.t65_failures.specs.declared.wording.TheConstants as the_text;

use crate::texts::push_named_byte;
use crate::wording::{A_IS, IRQ, LAST_STEPS, NMI, P_IS, S_IS, X_IS, Y_IS};
use debugger::Session;
use disasm::row_text_in;
use model::{Flags, Regs};
use source_map::Places;
use std::alloc::AllocError;
use t65_reader::{Request, Signal};
use t65_runner::{CallEnd, arrive};
use t65_values::push_visible_text;

/// The most steps that are told.
const TOLD: u32 = 20;

/// Appends a byte of a row as a character, and nothing for the line's end.
fn push_row_byte(text: &mut String, byte: u8) -> Result<(), AllocError>
    ensures { OnOk result (string_bytes text.new ≡ string_bytes text.old ++ row_character byte) }
{
    if byte == b'\n' {
        Ok(())
    } else {
        text.push(byte as char)
    }
}

/// Appends a row without its line's end.
fn push_row_bytes(text: &mut String, row: &[u8]) -> Result<(), AllocError>
    ensures { OnOk result (string_bytes text.new
        ≡ string_bytes text.old ++ flat_map row_character row.now) }
{
    for byte in row {
        push_row_byte(text, *byte)?;
    }
    Ok(())
}

/// Appends the row of the instruction at an address, without its line's end.
#[tactic(auto, unfolding(crate::specs::Steps::instruction_text))]
fn push_row(text: &mut String, session: &Session, address: u16) -> Result<(), AllocError>
    ensures { OnOk result (string_bytes text.new
        ≡ string_bytes text.old ++ instruction_text session.now.current address) }
{
    let first = session.peek(address);
    let second = session.peek(address.wrapping_add(1));
    let third = session.peek(address.wrapping_add(2));
    let row = row_text_in(session.profile(), &[first, second, third], address);
    push_row_bytes(text, row.text.as_slice())
}

/// Appends so many blanks.
pub fn push_blanks(text: &mut String, count: usize) -> Result<(), AllocError>
    ensures { OnOk result (string_bytes text.new ≡ string_bytes text.old ++ blanks count) }
{
    for _ in 0..count {
        text.push(' ')?;
    }
    Ok(())
}

/// Appends blanks until so many bytes follow the first `from`.
fn pad(text: &mut String, from: usize, width: usize) -> Result<(), AllocError>
    requires { from ≤ string_len text.old }
    ensures { OnOk result (string_bytes text.new ≡ string_bytes text.old
        ++ blanks (width - (string_len text.old - from))) }
{
    push_blanks(text, width.saturating_sub(text.len() - from))
}

/// Appends the row of the instruction at an address, with blanks behind it up to a width.
#[tactic(auto, unfolding(formatting::specs::Padding::padded))]
fn push_padded_row(
    text: &mut String,
    session: &Session,
    address: u16,
    width: usize,
) -> Result<(), AllocError>
    ensures { OnOk result (string_bytes text.new ≡ string_bytes text.old
        ++ padded width (instruction_text session.now.current address)) }
{
    let from = text.len();
    push_row(text, session, address)?;
    pad(text, from, width)
}

/// Appends the status register, which is told with B clear.
fn push_status(text: &mut String, flags: Flags) -> Result<(), AllocError>
    ensures { OnOk result (string_bytes text.new
        ≡ string_bytes text.old ++ named_byte the_text.P_IS.now (status false flags)) }
{
    push_named_byte(text, P_IS, flags.to_byte(false))
}

/// Appends the registers.
fn push_regs(text: &mut String, regs: Regs) -> Result<(), AllocError>
    ensures { OnOk result (string_bytes text.new ≡ string_bytes text.old ++ regs_text regs) }
{
    push_named_byte(text, A_IS, regs.a)?;
    push_named_byte(text, X_IS, regs.x)?;
    push_named_byte(text, Y_IS, regs.y)?;
    push_named_byte(text, S_IS, regs.s)?;
    push_status(text, regs.flags)?;
    Ok(())
}

/// Appends the line of the source whose bytes stand at an address, if there is one.
fn push_source_line(text: &mut String, places: &Places, address: u16) -> Result<(), AllocError>
    ensures { OnOk result (string_bytes text.new
        ≡ string_bytes text.old ++ source_text places.now address) }
{
    match places.row_at(address) {
        Some(row) => {
            text.push_str("  ")?;
            push_visible_text(text, places.file_name(row.file))?;
            write!(text, ":{}", row.line)
        }
        None => Ok(()),
    }
}

/// Makes the step that comes next, if it is not rejected.
#[tactic(auto, using(crate::proofs::StepByStep::one_run))]
fn make_step(session: &mut Session)
    ensures { session.new ≡ after_steps 1 session.old }
{
    let _ = session.run(1);
}

/// Appends a line for the step that comes next, with the registers after it, and makes the step.
fn push_step(text: &mut String, session: &mut Session, places: &Places) -> Result<(), AllocError>
    ensures text { OnOk result (string_bytes text.new ≡ string_bytes text.old
        ++ step_text places.now session.old.current session.new.current) }
    ensures session { OnOk result (session.new ≡ after_steps 1 session.old) }
{
    let address = session.regs().pc;
    text.push_str("  ")?;
    push_padded_row(text, session, address, 30)?;
    make_step(session);
    push_regs(text, session.regs())?;
    push_source_line(text, places, address)?;
    text.push_str("\n")?;
    Ok(())
}

/// Appends a line for each of so many steps that come next, and makes them.
fn push_each_step(
    text: &mut String,
    session: &mut Session,
    places: &Places,
    count: u32,
) -> Result<(), AllocError>
    ensures text { OnOk result (string_bytes text.new
        ≡ string_bytes text.old ++ steps_text places.now count session.old) }
    ensures session { OnOk result (session.new ≡ after_steps count session.old) }
{
    for _ in 0..count {
        push_step(text, session, places)?;
    }
    Ok(())
}

/// Appends so many steps that come next, with what they are above them, and makes them.
fn push_undone(
    text: &mut String,
    session: &mut Session,
    places: &Places,
    count: u32,
) -> Result<(), AllocError>
    ensures text { OnOk result (string_bytes text.new
        ≡ string_bytes text.old ++ undone_text places.now count (Ok session.old)) }
    ensures session { OnOk result (session.new ≡ after_steps count session.old) }
{
    text.push_str(LAST_STEPS)?;
    push_each_step(text, session, places, count)?;
    Ok(())
}

/// Appends the last steps of a call of so many steps, at most twenty. The session is then where the
/// call has ended.
#[tactic(auto, unfolding(crate::specs::Steps::last_steps_text, crate::specs::Steps::after_last_steps))]
fn push_steps(
    text: &mut String,
    session: &mut Session,
    places: &Places,
    did: u32,
) -> Result<(), AllocError>
    ensures text { OnOk result (string_bytes text.new
        ≡ string_bytes text.old ++ last_steps_text places.now did session.old) }
    ensures session { OnOk result (session.new ≡ after_last_steps did session.old) }
{
    let count = did.min(TOLD);
    match session.back(count) {
        Ok(()) => push_undone(text, session, places, count),
        Err(_) => Ok(()),
    }
}

/// Returns the name of what asks for an interrupt.
pub fn signal_name(signal: Signal) -> &'static str
    ensures { result.now ≡ signal_name signal }
{
    match signal {
        Signal::Irq => IRQ,
        Signal::Nmi => NMI,
    }
}

/// Appends the name of an interrupt between brackets.
fn push_signal(text: &mut String, signal: Signal) -> Result<(), AllocError>
    ensures { OnOk result (string_bytes text.new ≡ string_bytes text.old ++ signal_text signal) }
{
    let name = signal_name(signal);
    write!(text, "({name})")
}

/// Appends the name of an interrupt between brackets, with blanks behind it up to a width.
#[tactic(auto, unfolding(formatting::specs::Padding::padded))]
fn push_padded_signal(text: &mut String, signal: Signal, width: usize) -> Result<(), AllocError>
    ensures { OnOk result (string_bytes text.new
        ≡ string_bytes text.old ++ padded width (signal_text signal)) }
{
    let from = text.len();
    push_signal(text, signal)?;
    pad(text, from, width)
}

/// Has an interrupt come, and appends a line for its entry, with the registers after it.
fn push_entry(text: &mut String, session: &mut Session, signal: Signal) -> Result<(), AllocError>
    ensures text { OnOk result (string_bytes text.new
        ≡ string_bytes text.old ++ arrival_text signal session.new.current) }
    ensures session { OnOk result (session.new ≡ after_arrival signal session.old) }
{
    arrive(session, signal);
    text.push_str("  ")?;
    push_padded_signal(text, signal, 30)?;
    push_regs(text, session.regs())?;
    text.push_str("\n")?;
    Ok(())
}

/// Appends so many steps that come next, the entry of an interrupt and so many steps after it, with
/// what they are above them, and makes them.
fn push_around(
    text: &mut String,
    session: &mut Session,
    places: &Places,
    signal: Signal,
    before: u32,
    did: u32,
) -> Result<(), AllocError>
    ensures { OnOk result (string_bytes text.new
        ≡ string_bytes text.old ++ around_text places.now signal before did session.old) }
{
    text.push_str(LAST_STEPS)?;
    push_each_step(text, session, places, before)?;
    push_entry(text, session, signal)?;
    push_each_step(text, session, places, did)?;
    Ok(())
}

/// Returns how many events an interrupt's coming is.
fn arrival_count(signal: Signal) -> u32
    ensures count { result ≡ arrival_count signal }
    ensures few { result ≤ 3 }
{
    match signal {
        Signal::Irq => 3,
        Signal::Nmi => 2,
    }
}

/// Appends the last steps of a call that an interrupt has come into, its entry among them: those
/// before it, and so many after its entry.
#[tactic(auto, unfolding(crate::specs::Steps::arrival_steps_text))]
fn push_arrival_steps(
    text: &mut String,
    session: &mut Session,
    places: &Places,
    signal: Signal,
    before: u32,
    did: u32,
) -> Result<(), AllocError>
    ensures { OnOk result (string_bytes text.new
        ≡ string_bytes text.old ++ arrival_steps_text places.now signal before did session.old) }
{
    if did >= TOLD {
        return push_steps(text, session, places, did);
    }
    let told = before.min(TOLD - 1 - did);
    match session.back(told + arrival_count(signal) + did) {
        Ok(()) => push_around(text, session, places, signal, told, did),
        Err(_) => Ok(()),
    }
}

/// Appends the last steps of a call, at most twenty, the entry of an interrupt among them.
pub fn push_call_steps(
    text: &mut String,
    session: &mut Session,
    places: &Places,
    request: Option<Request>,
    end: CallEnd,
) -> Result<(), AllocError>
    ensures { OnOk result (string_bytes text.new
        ≡ string_bytes text.old ++ steps_by places.now request end.before end.end.did session.old) }
{
    let did = end.end.did;
    match request {
        None => push_steps(text, session, places, did),
        Some(request) => match end.before {
            None => push_steps(text, session, places, did),
            Some(before) => {
                push_arrival_steps(text, session, places, request.signal, before, did)
            }
        },
    }
}
