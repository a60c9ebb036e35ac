//! The parameters and locals of a frame of C.

ghost use Rattle.std.specs.Prelude.{◌≡◌, ◌+◌, ◌==◌, ◌++◌, ◌∷◌, [], IfOk, None, OnOk, Some, find};
ghost use Rattle.std.specs.Prelude.{get_or, length, map as each, option_map, slice_get, string_bytes};
ghost use Rattle.std.specs.Str.Lossy.{utf8_lossy};
ghost use Rattle.arguments.specs.Shown.{shown_bytes};
ghost use Rattle.call_frames.specs.Found.{function_at};
ghost use Rattle.call_frames.specs.Tables.{frames_at};
ghost use Rattle.call_frames.specs.Values.{value_text};
ghost use Rattle.source_map.specs.Functions.{function_view, local_view};
ghost use Rattle.dap_messages.specs.SeenAnswers.{answer_view, item_view};
ghost use Rattle.dap_views.specs.Locals.{AreLocals, HasLocals, IsLocalData, IsLocalLook};
ghost use Rattle.dap_views.specs.Locals.{ShowsLocals};
ghost use Rattle.dap_views.specs.Locals.{count_of, frame_number, frame_numbered, frame_of};
ghost use Rattle.dap_views.specs.Locals.{in_frame, in_function, local_item, local_look};
ghost use Rattle.dap_views.specs.Locals.{local_named, locals_in};
ghost use Rattle.dap_views.specs.Locals.{local_range, named_if, named_locals, scope_number};
ghost use Rattle.dap_views.specs.Locals.{seen_local};
ghost use Rattle.dap_views.specs.Pages.{page_of};

use crate::paged::Paged;
use crate::texts::as_text;
use crate::watches::data_of;
use arguments::push_shown;
use call_frames::{Frame, Local, Tables, function_at, push_value, tables_at};
use dap_messages::{
    Answer, ByteRange, Item, Page, Scope, local_at, look_body, range_of, variables_body,
};
use mon_runs::Session;
use mon_session::MonState;
use source_map::{CFunction, CLocal, Places};
use std::alloc::{AllocError, Global};

/// Returns the frame of a scope, if it is that of its locals.
pub fn frame_of(scope: Option<Scope>) -> Option<u16>
    ensures { result ≡ frame_of scope }
{
    match scope {
        Some(Scope::Locals(frame)) => Some(frame),
        _ => None,
    }
}

/// A parameter or a local that is there.
#[derive(Clone, Copy)]
pub struct FrameLocal<'a> {
    pub name: &'a [u8],
    pub local: Local,
}

/// Returns the first frame at whose call the stack pointer was this, less 255.
fn called_frame(frames: &[Frame], id: u16) -> Option<Frame>
    ensures { result ≡ find (λ frame. 255 + frame.s == id) frames.now }
{
    for frame in frames {
        if 255 + u16::from(frame.s) == id {
            return Some(*frame);
        }
    }
    None
}

/// Returns the first of some frames, if there is one.
fn first_frame(frames: &[Frame]) -> Option<Frame>
    ensures { result ≡ slice_get frames.now 0 }
{
    match frames.get(0) {
        Some(frame) => Some(*frame),
        None => None,
    }
}

/// Returns the frame of C of a number, if there is one.
fn frame_numbered(frames: &[Frame], id: u16) -> Option<Frame>
    ensures { result ≡ frame_numbered frames.now id }
{
    if id == 1 {
        first_frame(frames)
    } else {
        called_frame(frames, id)
    }
}

/// Appends a local.
fn push_local<'a>(
    list: &mut Vec<FrameLocal<'a>>,
    name: &'a CLocal,
    local: Local,
) -> Result<(), AllocError>
    ensures { OnOk result (each seen_local list.new.items
        ≡ each seen_local list.old.items ++ ((local_view name.now).name, local) ∷ []) }
{
    list.push(FrameLocal {
        name: name.name.as_slice(),
        local,
    })?;
    Ok(())
}

/// Appends a local, if it is there.
fn push_if<'a>(
    list: &mut Vec<FrameLocal<'a>>,
    name: &'a CLocal,
    local: Option<Local>,
) -> Result<(), AllocError>
    ensures { OnOk result (each seen_local list.new.items
        ≡ each seen_local list.old.items ++ named_if (local_view name.now) local) }
{
    match local {
        Some(local) => push_local(list, name, local),
        None => Ok(()),
    }
}

/// Returns where the local of a number is, if it is there.
fn held_at(locals: &[Option<Local>], index: usize) -> Option<Local>
    ensures { result ≡ get_or locals.now index None }
{
    if index < locals.len() {
        locals[index]
    } else {
        None
    }
}

/// Returns those of some locals that are there, with their names.
fn named_locals<'a>(
    alloc: Global,
    names: &'a [CLocal],
    locals: &[Option<Local>],
) -> Result<Vec<FrameLocal<'a>>, AllocError>
    requires { length locals.now ≡ length names.now }
    ensures { IfOk result (λ list. each seen_local list.items
        ≡ named_locals (each local_view names.now) locals.now) }
{
    let mut list = Vec::new(alloc);
    for (index, name) in names.iter().enumerate() {
        push_if(&mut list, name, held_at(locals, index))?;
    }
    Ok(list)
}

/// Returns the locals of a function that are there in a frame.
fn in_function<'a>(
    alloc: Global,
    tables: &Tables,
    frame: Frame,
    function: &'a CFunction,
) -> Result<Vec<FrameLocal<'a>>, AllocError>
    ensures { IfOk result (λ list. each seen_local list.items
        ≡ in_function tables.now frame (Some (function_view function.now))) }
{
    let locals = tables.locals_at(alloc, frame, function)?;
    named_locals(alloc, function.locals.as_slice(), locals.as_slice())
}

/// Returns the locals that are there in a frame of the function that has its address.
fn at_frame<'a>(
    alloc: Global,
    tables: &Tables,
    places: &'a Places,
    frame: Frame,
) -> Result<Vec<FrameLocal<'a>>, AllocError>
    ensures { IfOk result (λ list. each seen_local list.items ≡ in_function tables.now frame
        (function_at places.now.functions frame.address)) }
{
    match function_at(places, frame.address) {
        Some(function) => in_function(alloc, tables, frame, function),
        None => Ok(Vec::new(alloc)),
    }
}

/// Returns the locals that are there in a frame, if there is one.
fn in_frame<'a>(
    alloc: Global,
    tables: &Tables,
    places: &'a Places,
    frame: Option<Frame>,
) -> Result<Vec<FrameLocal<'a>>, AllocError>
    ensures { IfOk result (λ list. each seen_local list.items
        ≡ in_frame places.now tables.now frame) }
{
    match frame {
        Some(frame) => at_frame(alloc, tables, places, frame),
        None => Ok(Vec::new(alloc)),
    }
}

/// Returns the locals that are there in the frame of a number, by what was found in the code.
fn locals_by<'a>(
    alloc: Global,
    mon: &'a MonState,
    tables: &Tables,
    id: u16,
) -> Result<Vec<FrameLocal<'a>>, AllocError>
    ensures { IfOk result (λ list. each seen_local list.items ≡ in_frame mon.now.places tables.now
        (frame_numbered (frames_at tables.now mon.now.session.current.regs) id)) }
{
    let frames = tables.frames(alloc, mon.session.regs())?;
    let frame = frame_numbered(frames.as_slice(), id);
    in_frame(alloc, tables, &mon.places, frame)
}

/// Returns the locals that are there in the frame of a number, if something was found in the code.
fn locals_found<'a>(
    alloc: Global,
    mon: &'a MonState,
    found: &Option<Tables>,
    id: u16,
) -> Result<Vec<FrameLocal<'a>>, AllocError>
    ensures { IfOk result (λ list. each seen_local list.items
        ≡ locals_in mon.now.session.current mon.now.places id found.now) }
{
    match found {
        Some(tables) => locals_by(alloc, mon, tables, id),
        None => Ok(Vec::new(alloc)),
    }
}

/// Returns the locals that are there in the frame of a number.
fn locals_in<'a>(
    alloc: Global,
    mon: &'a MonState,
    id: u16,
) -> Result<Vec<FrameLocal<'a>>, AllocError>
    ensures { IfOk result (λ list. AreLocals mon.now.session.current mon.now.places id
        (each seen_local list.items)) }
{
    let found = tables_at(alloc, &mon.session, &mon.places)?;
    locals_found(alloc, mon, &found, id)
}

/// Returns what a local holds.
fn value_of(alloc: Global, session: &Session, local: Local) -> Result<String, AllocError>
    ensures { IfOk result (λ text. string_bytes text
        ≡ utf8_lossy (value_text session.now.current.bus.memory local)) }
{
    let mut text = Vec::new(alloc);
    let grown = push_value(&mut text, session, local);
    as_text(alloc, text, grown)
}

/// Returns the name of a local, as it is shown.
fn name_of(alloc: Global, name: &[u8]) -> Result<String, AllocError>
    ensures { IfOk result (λ text. string_bytes text ≡ utf8_lossy (shown_bytes name.now)) }
{
    let mut text = Vec::new(alloc);
    let grown = push_shown(&mut text, name);
    as_text(alloc, text, grown)
}

/// Returns a local as a variable.
fn local_item(alloc: Global, session: &Session, local: FrameLocal<'_>) -> Result<Item, AllocError>
    ensures { IfOk result (λ v. item_view v
        ≡ local_item session.now.current.bus.memory (seen_local local.entry)) }
{
    local_at(
        name_of(alloc, local.name),
        local.local.address,
        value_of(alloc, session, local.local),
    )
}

/// Returns those of some locals that are asked for, as variables.
fn locals_listed(
    alloc: Global,
    session: &Session,
    asked: Page,
    locals: &[FrameLocal<'_>],
) -> Result<Vec<Item>, AllocError>
    ensures { IfOk result (λ items. each item_view items.items ≡ page_of asked
        (each (local_item session.now.current.bus.memory) (each seen_local locals.now))) }
{
    let mut page = Paged::new(alloc, asked);
    for local in locals {
        page = page.with(local_item(alloc, session, *local));
    }
    page.build()
}

/// Returns those locals of the frame of a number that are there and are asked for.
pub fn locals_shown(
    alloc: Global,
    mon: &MonState,
    id: u16,
    asked: Page,
) -> Result<Answer, AllocError>
    ensures { IfOk result (λ v. ShowsLocals mon.now.session.current mon.now.places id asked
        (answer_view v)) }
{
    let locals = locals_in(alloc, mon, id)?;
    variables_body(locals_listed(alloc, &mon.session, asked, locals.as_slice()))
}

/// Returns the number of a frame, as it is written: 0, which no frame has, if none is named.
fn frame_number(frame: Option<u64>) -> u16
    ensures { result ≡ frame_number frame }
{
    match frame {
        Some(id) if id <= 65535 => id as u16,
        _ => 0,
    }
}

/// Returns a number if there are locals.
fn scope_number(locals: &[FrameLocal<'_>], id: u16) -> Option<u16>
    ensures { result ≡ scope_number id (each seen_local locals.now) }
{
    match locals {
        [] => None,
        [_, ..] => Some(id),
    }
}

/// Returns the number of a frame if it has locals that are there.
fn scope_numbered(alloc: Global, mon: &MonState, id: u16) -> Result<Option<u16>, AllocError>
    ensures { IfOk result (HasLocals mon.now.session.current mon.now.places id) }
{
    let locals = locals_in(alloc, mon, id)?;
    Ok(scope_number(locals.as_slice(), id))
}

/// Returns the number of a frame if it is named, and has locals that are there.
pub fn local_scope(
    alloc: Global,
    mon: &MonState,
    frame: Option<u64>,
) -> Result<Option<u16>, AllocError>
    ensures { IfOk result
        (HasLocals mon.now.session.current mon.now.places (frame_number frame)) }
{
    scope_numbered(alloc, mon, frame_number(frame))
}

/// Returns the first of some locals that has a name, if one has.
fn local_named(locals: &[FrameLocal<'_>], name: &[u8]) -> Option<Local>
    ensures { result ≡ local_named name.now (each seen_local locals.now) }
{
    for local in locals {
        if local.name == name {
            return Some(local.local);
        }
    }
    None
}

/// Returns how many bytes of a local are asked for: all of it, if no number is named, and one if it
/// is not known how many it has.
fn count_of(local: Local, count: Option<u64>) -> u64
    ensures { result ≡ count_of local count }
{
    match count {
        Some(count) => count,
        None => u64::from(local.size.unwrap_or(1)),
    }
}

/// Returns the bytes of a local that are asked for, if there is a local.
fn local_range(local: Option<Local>, count: Option<u64>) -> Option<ByteRange>
    ensures { result ≡ local_range count local }
{
    match local {
        Some(local) => range_of(local.address, count_of(local, count)),
        None => None,
    }
}

/// Returns what can be watched of the local of a name in the frame of a number.
pub fn local_data(
    alloc: Global,
    mon: &MonState,
    id: u16,
    name: &str,
    count: Option<u64>,
) -> Result<Answer, AllocError>
    ensures { IfOk result (λ v. IsLocalData mon.now.session.current mon.now.places id name.now
        count (answer_view v)) }
{
    let locals = locals_in(alloc, mon, id)?;
    let local = local_named(locals.as_slice(), name.as_bytes());
    data_of(alloc, local_range(local, count))
}

/// Returns what a local holds, as it is shown where a client looks at it.
fn local_look(alloc: Global, session: &Session, local: Local) -> Result<Answer, AllocError>
    ensures { IfOk result
        (λ v. answer_view v ≡ local_look session.now.current.bus.memory local) }
{
    look_body(Some(local.address), value_of(alloc, session, local))
}

/// Returns what a local holds, as it is shown where a client looks at it, if there is a local.
fn look_of(
    alloc: Global,
    session: &Session,
    local: Option<Local>,
) -> Result<Option<Answer>, AllocError>
    ensures { IfOk result (λ found. option_map answer_view found
        ≡ option_map (local_look session.now.current.bus.memory) local) }
{
    let Some(local) = local else {
        return Ok(None);
    };
    let shown = local_look(alloc, session, local)?;
    Ok(Some(shown))
}

/// Returns what the local of a name in the frame of a number holds: `None` if there is no such
/// local.
fn look_numbered(
    alloc: Global,
    mon: &MonState,
    id: u16,
    name: &str,
) -> Result<Option<Answer>, AllocError>
    ensures { IfOk result (λ found. IsLocalLook mon.now.session.current mon.now.places id name.now
        (option_map answer_view found)) }
{
    let locals = locals_in(alloc, mon, id)?;
    let local = local_named(locals.as_slice(), name.as_bytes());
    look_of(alloc, &mon.session, local)
}

/// Returns what the local of a name in a frame holds, as it is shown where a client looks at it:
/// `None` if there is no such local.
pub fn look_in_frame(
    alloc: Global,
    mon: &MonState,
    frame: Option<u64>,
    name: &str,
) -> Result<Option<Answer>, AllocError>
    ensures { IfOk result (λ found. IsLocalLook mon.now.session.current mon.now.places
        (frame_number frame) name.now (option_map answer_view found)) }
{
    look_numbered(alloc, mon, frame_number(frame), name)
}
