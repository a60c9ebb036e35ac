//! The data of what a session holds.

ghost use Rattle.std.specs.Prelude.{◌≡◌, ◌+◌, ◌<◌, ◌≤◌, ◌++◌, ℕ, List, IfOk, OnOk, length};
ghost use Rattle.mon_files.specs.Held.{oldest, shown_again};
ghost use Rattle.mon_session.specs.Course.{KeepsStops, course_of};
ghost use Rattle.mon_steps.specs.BackLines.{remade, remade_one, undone};
ghost use Rattle.model.specs.State.{State};
ghost use Rattle.page_data.specs.Events.{HoldsSession};
ghost use Rattle.page_data.specs.Changes.{Tells};
ghost use Rattle.page_data.specs.Start.{start_at, start_bytes};

use mon_session::{MonState, Session};
use page_data::{push_start, record_event};
use std::alloc::{AllocError, Global};

/// Undoes all events that are held, `held` of them.
fn undo_all(mon: &mut MonState, held: u32)
    requires { held ≡ length mon.old.session.earlier }
    ensures course { course_of mon.new ≡ undone held (course_of mon.old) }
    ensures oldest { mon.new.session.current ≡ oldest mon.old.session }
    ensures none { length mon.new.session.earlier ≡ 0 }
    ensures history { mon.new.session.history ≡ mon.old.session.history }
    ensures stops { KeepsStops mon.old mon.new }
    ensures text { mon.new.text ≡ mon.old.text }
{
    let _ = mon.session.back(held);
    mon.events.note_undone(held);
}

/// Makes the next event that was undone again, if there is one, and appends its record.
fn record_one(alloc: Global, bytes: &mut Vec<u8>, mon: &mut MonState) -> Result<(), AllocError>
    ensures course { course_of mon.new ≡ remade_one (course_of mon.old) }
    ensures told { OnOk result ((start : State)
        → length mon.old.session.earlier < mon.old.session.history
        → Tells start bytes.old.items mon.old.session.earlier mon.old.session.current
        → Tells start bytes.new.items mon.new.session.earlier mon.new.session.current) }
    ensures few { length mon.new.session.earlier ≤ length mon.old.session.earlier + 1 }
    ensures history { mon.new.session.history ≡ mon.old.session.history }
    ensures stops { KeepsStops mon.old mon.new }
    ensures text { mon.new.text ≡ mon.old.text }
{
    match mon.events.next() {
        Some(event) => record_event(alloc, bytes, &mut mon.session, event),
        None => Ok(()),
    }
}

/// Makes so many undone events again, and returns their records.
fn record_each(alloc: Global, mon: &mut MonState, count: u32) -> Result<Vec<u8>, AllocError>
    ensures course { OnOk result (course_of mon.new ≡ remade count (course_of mon.old)) }
    ensures told { IfOk result (λ records. (start : State)
        → length mon.old.session.earlier ≡ 0 → count ≤ mon.old.session.history
        → start ≡ mon.old.session.current
        → Tells start records.items mon.new.session.earlier mon.new.session.current) }
    ensures stops { KeepsStops mon.old mon.new }
    ensures text { mon.new.text ≡ mon.old.text }
{
    let mut records = Vec::new(alloc);
    for _ in 0..count {
        record_one(alloc, &mut records, mon)?;
    }
    Ok(records)
}

/// Returns the bytes of the current state.
fn start_of(alloc: Global, session: &Session) -> Result<Vec<u8>, AllocError>
    ensures bytes { IfOk result (λ bytes. bytes.items ≡ start_bytes session.now.current) }
    ensures told { OnOk result ((rest : List ℕ) → start_at session.now.current.bus.map
        (start_bytes session.now.current ++ rest) ≡ (session.now.current, rest)) }
{
    let mut bytes = Vec::new(alloc);
    push_start(&mut bytes, session)?;
    Ok(bytes)
}

/// Returns the data of the current state and of so many undone events, which it makes again.
fn record_from(alloc: Global, mon: &mut MonState, count: u32) -> Result<Vec<u8>, AllocError>
    ensures course { OnOk result (course_of mon.new ≡ remade count (course_of mon.old)) }
    ensures told { IfOk result (λ bytes. length mon.old.session.earlier ≡ 0
        → count ≤ mon.old.session.history
        → HoldsSession mon.old.session.current bytes.items mon.new.session) }
    ensures stops { KeepsStops mon.old mon.new }
    ensures text { mon.new.text ≡ mon.old.text }
{
    let mut bytes = start_of(alloc, &mon.session)?;
    let records = record_each(alloc, mon, count)?;
    bytes.extend_from_slice(records.as_slice())?;
    Ok(bytes)
}

/// Returns the data of what a session holds: undoes all events that are held, and makes them again.
///
/// Errors: `AllocError` if an allocation fails; only some events may be made again then.
pub fn record_held(alloc: Global, mon: &mut MonState) -> Result<Vec<u8>, AllocError>
    // The session goes back, and comes again by the same events.
    ensures course { OnOk result (course_of mon.new ≡ shown_again (course_of mon.old)) }
    // The data are those of the session from its oldest state on: read, they give this state, and
    // then all others that it holds, one after another, forwards and back.
    ensures told { IfOk result (λ bytes. HoldsSession (oldest mon.old.session) bytes.items
        mon.new.session) }
    ensures stops { KeepsStops mon.old mon.new }
    ensures text { mon.new.text ≡ mon.old.text }
{
    let held = mon.session.held();
    undo_all(mon, held);
    record_from(alloc, mon, held)
}
