//! The parameters and locals of C of the calls that have led to a state.

ghost use Rattle.std.specs.Prelude.{◌≡◌, ◌++◌, IfOk, OnOk, map};
ghost use Rattle.std.specs.List.{flat_map};
ghost use Rattle.call_frames.specs.Tables.{frames_at};
ghost use Rattle.source_map.specs.Functions.{function_view, local_view};
ghost use Rattle.mon_calls.specs.Locals.{ShowsLocals, asked_by, asked_text, body_text, frame_text};
ghost use Rattle.mon_calls.specs.Locals.{frames_from, head_text, held_text, if_any, local_row, local_text};
ghost use Rattle.mon_calls.specs.Locals.{locals_text, nth_text, number_text, row_of, rows_of};
ghost use Rattle.mon_calls.specs.Locals.{sized_text, unknown_text, words_of};

use crate::spots::push_spot_line;
use crate::wording::{NO_BASE, NO_FUNCTIONS, NO_LOCALS, NO_POINTER, NO_SUCH_CALL, NOT_IN_C};
use arguments::push_shown;
use call_frames::{
    Auto, Frame, Local, Tables, auto_of, autos_of, function_at, is_number, push_bytes, push_value,
    tables_at,
};
use debugger::Session;
use formatting::{push_address, push_blanks, push_count, push_text};
use mon_texts::wording::{CALLED_FROM, PROGRAM_AT};
use source_map::{CFunction, CLocal, Places};
use std::alloc::{AllocError, Global};

/// Appends the number that a local of a known size is.
fn push_number(
    text: &mut Vec<u8>,
    session: &Session,
    local: Local,
    size: u16,
) -> Result<(), AllocError>
    ensures { OnOk result (text.new.items ≡ text.old.items
        ++ number_text session.now.current.bus.memory local size) }
{
    if !is_number(size) {
        return Ok(());
    }
    push_text(text, "  ")?;
    push_value(text, session, local)
}

/// Appends the bytes of a local of a known size, and the number that they are.
fn push_sized(
    text: &mut Vec<u8>,
    session: &Session,
    local: Local,
    size: u16,
) -> Result<(), AllocError>
    ensures { OnOk result (text.new.items ≡ text.old.items
        ++ sized_text session.now.current.bus.memory local size) }
{
    push_bytes(text, session, local.address, size)?;
    push_number(text, session, local, size)
}

/// Appends what a local holds.
fn push_held(text: &mut Vec<u8>, session: &Session, local: Local) -> Result<(), AllocError>
    ensures { OnOk result (text.new.items ≡ text.old.items
        ++ held_text session.now.current.bus.memory local) }
{
    match local.size {
        Some(size) => push_sized(text, session, local, size),
        None => {
            push_text(text, " ")?;
            push_value(text, session, local)
        }
    }
}

/// Appends the row of a local: its name, its address, and what it holds.
#[tactic(auto, using(formatting::proofs::Padding::grown), unfolding(crate::specs::Locals::local_row))]
fn push_local(
    text: &mut Vec<u8>,
    session: &Session,
    name: &[u8],
    local: Local,
) -> Result<(), AllocError>
    ensures { OnOk result (text.new.items ≡ text.old.items
        ++ local_row session.now.current.bus.memory name.now local) }
{
    let from = text.len();
    push_text(text, "  ")?;
    push_shown(text, name)?;
    push_blanks(text, from, 14)?;
    push_text(text, "  ")?;
    push_address(text, local.address)?;
    push_text(text, " ")?;
    push_held(text, session, local)?;
    push_text(text, "\n")
}

/// Appends the row of a local that is somewhere.
fn push_row(
    text: &mut Vec<u8>,
    session: &Session,
    name: &[u8],
    local: Option<Local>,
) -> Result<(), AllocError>
    ensures { OnOk result (text.new.items ≡ text.old.items
        ++ row_of session.now.current.bus.memory name.now local) }
{
    match local {
        Some(local) => push_local(text, session, name, local),
        None => Ok(()),
    }
}

/// Appends the rows of some locals in a frame, by all locals of its function.
fn push_rows(
    text: &mut Vec<u8>,
    session: &Session,
    tables: &Tables,
    frame: Frame,
    autos: &[Auto],
    locals: &[CLocal],
) -> Result<(), AllocError>
    ensures { OnOk result (text.new.items ≡ text.old.items
        ++ flat_map (local_text tables.now session.now.current.bus.memory frame autos.now)
        (map local_view locals.now)) }
{
    for local in locals {
        let place = tables.local_in(frame, autos, auto_of(local));
        push_row(text, session, local.name.as_slice(), place)?;
    }
    Ok(())
}

/// Appends a text that was found, or words if it has no byte.
fn push_if_any(text: &mut Vec<u8>, found: &[u8], words: &str) -> Result<(), AllocError>
    ensures { OnOk result (text.new.items ≡ text.old.items ++ if_any words.now found.now) }
{
    if found.is_empty() {
        push_text(text, words)
    } else {
        text.extend_from_slice(found)
    }
}

/// Appends the rows of the locals of a function in a frame.
fn push_known(
    text: &mut Vec<u8>,
    alloc: Global,
    session: &Session,
    tables: &Tables,
    frame: Frame,
    function: &CFunction,
) -> Result<(), AllocError>
    ensures { OnOk result (text.new.items ≡ text.old.items ++ if_any NO_LOCALS.now
        (rows_of tables.now session.now.current.bus.memory frame (function_view function.now))) }
{
    let locals = function.locals.as_slice();
    let autos = autos_of(alloc, locals)?;
    let mut rows = Vec::new(alloc);
    push_rows(&mut rows, session, tables, frame, autos.as_slice(), locals)?;
    push_if_any(text, rows.as_slice(), NO_LOCALS)
}

/// Appends the locals of a function in a frame, or that it is not known where they are.
fn push_body(
    text: &mut Vec<u8>,
    alloc: Global,
    session: &Session,
    tables: &Tables,
    frame: Frame,
    function: &CFunction,
) -> Result<(), AllocError>
    ensures { OnOk result (text.new.items ≡ text.old.items ++ body_text tables.now
        session.now.current.bus.memory frame (function_view function.now) frame.base) }
{
    match frame.base {
        None => push_text(text, NO_BASE),
        Some(_) => push_known(text, alloc, session, tables, frame, function),
    }
}

/// Returns the words before the place of a call of a number: the first is where the program is.
fn words_of(number: u64) -> &'static str
    ensures { result.now ≡ words_of number }
{
    if number == 1 { PROGRAM_AT } else { CALLED_FROM }
}

/// Appends the line of a call of a number.
fn push_head(
    text: &mut Vec<u8>,
    places: &Places,
    number: u64,
    address: u16,
) -> Result<(), AllocError>
    ensures { OnOk result
        (text.new.items ≡ text.old.items ++ head_text places.now number address) }
{
    push_count(text, number)?;
    push_text(text, " ")?;
    push_spot_line(text, places, words_of(number), address)
}

/// Appends the line of a call of a number, and its parameters and locals, if it is one of C.
fn push_frame(
    text: &mut Vec<u8>,
    alloc: Global,
    session: &Session,
    places: &Places,
    tables: &Tables,
    number: u64,
    frame: Frame,
) -> Result<(), AllocError>
    ensures { OnOk result (text.new.items ≡ text.old.items ++ frame_text tables.now
        session.now.current.bus.memory places.now number frame) }
{
    match function_at(places, frame.address) {
        Some(function) => {
            push_head(text, places, number, frame.address)?;
            push_body(text, alloc, session, tables, frame, function)
        }
        None => Ok(()),
    }
}

/// Appends the calls of C among some frames, with their parameters and locals.
fn push_frames(
    text: &mut Vec<u8>,
    alloc: Global,
    session: &Session,
    places: &Places,
    tables: &Tables,
    frames: &[Frame],
) -> Result<(), AllocError>
    ensures { OnOk result (text.new.items ≡ text.old.items ++ frames_from tables.now
        session.now.current.bus.memory places.now 1 frames.now) }
{
    for (index, frame) in frames.iter().enumerate() {
        push_frame(
            text,
            alloc,
            session,
            places,
            tables,
            index as u64 + 1,
            *frame,
        )?;
    }
    Ok(())
}

/// Appends the call of C of a number among some frames, with its parameters and locals.
fn push_nth(
    text: &mut Vec<u8>,
    alloc: Global,
    session: &Session,
    places: &Places,
    tables: &Tables,
    frames: &[Frame],
    number: u32,
) -> Result<(), AllocError>
    ensures { OnOk result (text.new.items ≡ text.old.items ++ nth_text tables.now
        session.now.current.bus.memory places.now number frames.now) }
{
    match frames.get(number.saturating_sub(1) as usize) {
        Some(frame) => push_frame(text, alloc, session, places, tables, number as u64, *frame),
        None => Ok(()),
    }
}

/// Appends the calls of C among some frames, or that there is none.
fn push_all(
    text: &mut Vec<u8>,
    alloc: Global,
    session: &Session,
    places: &Places,
    tables: &Tables,
    frames: &[Frame],
) -> Result<(), AllocError>
    ensures { OnOk result (text.new.items ≡ text.old.items ++ if_any NOT_IN_C.now
        (frames_from tables.now session.now.current.bus.memory places.now 1 frames.now)) }
{
    let mut found = Vec::new(alloc);
    push_frames(&mut found, alloc, session, places, tables, frames)?;
    push_if_any(text, found.as_slice(), NOT_IN_C)
}

/// Appends the call of C of a number among some frames, or that there is none.
fn push_one(
    text: &mut Vec<u8>,
    alloc: Global,
    session: &Session,
    places: &Places,
    tables: &Tables,
    frames: &[Frame],
    number: u32,
) -> Result<(), AllocError>
    ensures { OnOk result (text.new.items ≡ text.old.items ++ if_any NO_SUCH_CALL.now
        (nth_text tables.now session.now.current.bus.memory places.now number frames.now)) }
{
    let mut found = Vec::new(alloc);
    push_nth(&mut found, alloc, session, places, tables, frames, number)?;
    push_if_any(text, found.as_slice(), NO_SUCH_CALL)
}

/// Appends the calls of C among some frames, or that of a number.
fn push_asked(
    text: &mut Vec<u8>,
    alloc: Global,
    session: &Session,
    places: &Places,
    tables: &Tables,
    frames: &[Frame],
    number: Option<u32>,
) -> Result<(), AllocError>
    ensures { OnOk result (text.new.items ≡ text.old.items ++ asked_by tables.now
        session.now.current.bus.memory places.now frames.now number) }
{
    match number {
        None => push_all(text, alloc, session, places, tables, frames),
        Some(number) => push_one(text, alloc, session, places, tables, frames, number),
    }
}

/// Returns the frames of C at a session's state.
fn frames_of(alloc: Global, session: &Session, tables: &Tables) -> Result<Vec<Frame>, AllocError>
    ensures { IfOk result
        (λ frames. frames.items ≡ frames_at tables.now session.now.current.regs) }
{
    tables.frames(alloc, session.regs())
}

/// Appends the calls of C at a session's state, or that of a number, or why there is none.
fn push_known_calls(
    text: &mut Vec<u8>,
    alloc: Global,
    session: &Session,
    places: &Places,
    tables: &Tables,
    number: Option<u32>,
) -> Result<(), AllocError>
    ensures { OnOk result (text.new.items ≡ text.old.items ++ asked_text tables.now
        session.now.current places.now number) }
{
    let frames = frames_of(alloc, session, tables)?;
    push_asked(
        text,
        alloc,
        session,
        places,
        tables,
        frames.as_slice(),
        number,
    )
}

/// Appends what is not known of a program.
fn push_unknown(text: &mut Vec<u8>, places: &Places) -> Result<(), AllocError>
    ensures { OnOk result (text.new.items ≡ text.old.items ++ unknown_text places.now) }
{
    if places.functions().is_empty() {
        push_text(text, NO_FUNCTIONS)
    } else {
        push_text(text, NO_POINTER)
    }
}

/// Appends the parameters and locals by what was found by following the code.
fn push_found(
    text: &mut Vec<u8>,
    alloc: Global,
    session: &Session,
    places: &Places,
    tables: &Option<Tables>,
    number: Option<u32>,
) -> Result<(), AllocError>
    ensures { OnOk result (text.new.items ≡ text.old.items ++ locals_text
        session.now.current places.now number tables.now) }
{
    match tables {
        Some(tables) => push_known_calls(text, alloc, session, places, tables, number),
        None => push_unknown(text, places),
    }
}

/// Appends the calls of C at a session's state with their parameters and locals, all or that of a
/// number, counted from 1; or why there is none.
///
/// Errors: `AllocError` if an allocation fails.
pub fn push_locals(
    text: &mut Vec<u8>,
    alloc: Global,
    session: &Session,
    places: &Places,
    number: Option<u32>,
) -> Result<(), AllocError>
    ensures { OnOk result
        (ShowsLocals session.now.current places.now number text.old.items text.new.items) }
{
    let tables = tables_at(alloc, session, places)?;
    push_found(text, alloc, session, places, &tables, number)
}
