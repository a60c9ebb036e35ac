//! The calls and the interrupts that have led to a state.

ghost use Rattle.std.specs.Prelude.{◌≡◌, ◌<◌, ◌≤◌, ◌++◌, IfOk, OnOk, drop};
ghost use Rattle.std.specs.List.{flat_map};
ghost use Rattle.mon_texts.specs.Pushed.{entries, entry_len};
ghost use Rattle.mon_calls.specs.Calls.{ShowsCalls, called_line, entry_line, entry_of, frames_in};
ghost use Rattle.mon_calls.specs.Calls.{stack_behind, where_text};

use crate::spots::{push_from, push_spot_line};
use call_frames::{Frame, Tables, tables_at};
use debugger::Session;
use mon_texts::wording::{CALLED_FROM, INTERRUPTED_AT, PROGRAM_AT};
use mon_texts::{Pushed, pushed_at, pushed_len};
use source_map::Places;
use std::alloc::{AllocError, Global};

/// Appends the line of a call, of a BRK or of an interrupt.
fn push_pushed(
    text: &mut Vec<u8>,
    session: &Session,
    places: &Places,
    pushed: Pushed,
) -> Result<(), AllocError>
    ensures { OnOk result (text.new.items ≡ text.old.items
        ++ entry_of session.now.current places.now pushed) }
{
    match pushed {
        Pushed::Call(address) | Pushed::Break(address) => {
            push_from(text, session, places, CALLED_FROM, address)
        }
        Pushed::Interrupt(address) => push_from(text, session, places, INTERRUPTED_AT, address),
        Pushed::Byte => Ok(()),
    }
}

/// Appends the line of what has pushed the bytes from an address of the stack on.
fn push_entry(
    text: &mut Vec<u8>,
    session: &Session,
    places: &Places,
    address: u16,
) -> Result<(), AllocError>
    requires { address < 512 }
    ensures { OnOk result (text.new.items ≡ text.old.items
        ++ entry_line session.now.current places.now address) }
{
    push_pushed(text, session, places, pushed_at(session, places, address))
}

/// Appends the lines of calls and interrupts from an address of the stack on.
fn push_entries(
    text: &mut Vec<u8>,
    session: &Session,
    places: &Places,
    first: u16,
) -> Result<(), AllocError>
    requires { first ≤ 512 }
    ensures { OnOk result (text.new.items ≡ text.old.items
        ++ entries 256 (entry_line session.now.current places.now)
        (entry_len session.now.current.bus.memory places.now.lines) first) }
{
    let mut address = first;
    for _ in 0..256u16 {
        if address >= 512 {
            return Ok(());
        }
        push_entry(text, session, places, address)?;
        address += pushed_len(pushed_at(session, places, address));
    }
    Ok(())
}

/// Appends the lines of frames that were left by calls.
fn push_called(
    text: &mut Vec<u8>,
    session: &Session,
    places: &Places,
    frames: &[Frame],
) -> Result<(), AllocError>
    ensures { OnOk result (text.new.items ≡ text.old.items
        ++ flat_map (called_line session.now.current places.now) frames.now) }
{
    for frame in frames {
        push_from(text, session, places, CALLED_FROM, frame.address)?;
    }
    Ok(())
}

/// Returns some frames without the innermost.
fn left(frames: &[Frame]) -> &[Frame]
    ensures { result.now ≡ drop 1 frames.now }
{
    match frames {
        [] => frames,
        [_, others @ ..] => others,
    }
}

/// Returns the stack pointer at the outermost of some frames: where a machine stands if there is
/// none.
fn stack_behind(frames: &[Frame], s: u8) -> u8
    ensures { result ≡ stack_behind frames.now s }
{
    match frames.last() {
        Some(frame) => frame.s,
        None => s,
    }
}

/// Appends where the program is, the calls of C that have led there, and what else is on the stack.
fn push_calls(
    text: &mut Vec<u8>,
    session: &Session,
    places: &Places,
    frames: &[Frame],
) -> Result<(), AllocError>
    ensures { OnOk result (text.new.items ≡ text.old.items
        ++ where_text session.now.current places.now frames.now) }
{
    let regs = session.regs();
    push_spot_line(text, places, PROGRAM_AT, regs.pc)?;
    push_called(text, session, places, left(frames))?;
    push_entries(
        text,
        session,
        places,
        257 + stack_behind(frames, regs.s) as u16,
    )
}

/// Returns the frames of C at a session's state, as far as they are known.
fn frames_in(
    alloc: Global,
    session: &Session,
    tables: &Option<Tables>,
) -> Result<Vec<Frame>, AllocError>
    ensures { IfOk result
        (λ frames. frames.items ≡ frames_in tables.now session.now.current.regs) }
{
    match tables {
        Some(tables) => tables.frames(alloc, session.regs()),
        None => Ok(Vec::new(alloc)),
    }
}

/// Appends where the program is, and the calls and the interrupts that have led there, the last one
/// first: those of C by following its code, and then those that are found on the stack.
///
/// Errors: `AllocError` if an allocation fails.
pub fn push_where(
    text: &mut Vec<u8>,
    alloc: Global,
    session: &Session,
    places: &Places,
) -> Result<(), AllocError>
    ensures { OnOk result
        (ShowsCalls session.now.current places.now text.old.items text.new.items) }
{
    let tables = tables_at(alloc, session, places)?;
    let frames = frames_in(alloc, session, &tables)?;
    push_calls(text, session, places, frames.as_slice())
}
