//! Lines that undo events.

ghost use Rattle.std.specs.Prelude.{◌≡◌, ◌≤◌, ◌++◌, Err, IfErr, Ok, OnOk, codes, length, slice_get};
ghost use Rattle.model.specs.Back.{back_of};
ghost use Rattle.mon_session.specs.Course.{KeepsStops, ShowsOnly, course_of};
ghost use Rattle.mon_steps.specs.BackLines.{undone, undone_by, undone_by_watches, undone_over};
ghost use Rattle.mon_steps.specs.BackLines.{undone_to_stop};
ghost use Rattle.mon_steps.specs.BackTexts.{arrived_text, at_break_text, back_text, is_this, is_at_break, only_text, over_text, stop_text, undo_text};
ghost use Rattle.mon_steps.specs.BackTexts.{undo_to_stop_text, undone_text, way_text};
ghost use Rattle.mon_runs.specs.Back.{back_over};
ghost use Rattle.mon_instructions.specs.Places.{place_text};
ghost use Rattle.mon_runs.specs.Recall.{last_stop};

use crate::wording::{
    BACK_AT_BREAK, BACK_AT_OLDEST, BACK_BEFORE_CHANGE, EVENT_HELD, EVENT_UNDONE, EVENTS_HELD,
    EVENTS_UNDONE, NONE_HELD, ONLY, TOO_MANY_WATCHED,
};
use mon_instructions::push_place;
use mon_lines::Undoing;
use mon_runs::{SessionFault, back_over, back_to_stop};
use mon_session::MonState;
use std::alloc::AllocError;

/// Shows the instruction that comes next, by its line of the source, and the state.
fn show_arrived(mon: &mut MonState) -> Result<(), AllocError>
    ensures shows { ShowsOnly mon.old mon.new }
    ensures text { OnOk result (mon.new.text.items ≡ mon.old.text.items
        ++ arrived_text mon.old.session.current mon.old.places) }
{
    mon.show_next()?;
    mon.show(None)
}

/// Says how many events were undone, and shows the state before them.
fn tell_undone(mon: &mut MonState, count: u32) -> Result<(), AllocError>
    ensures shows { ShowsOnly mon.old mon.new }
    ensures text { OnOk result (mon.new.text.items ≡ mon.old.text.items
        ++ undone_text count mon.old.session.current mon.old.places) }
{
    mon.count(count as u64, EVENT_UNDONE, EVENTS_UNDONE)?;
    show_arrived(mon)
}

/// Undoes a whole subroutine if the last event was its RTS, otherwise one event. Returns how many
/// events those are.
fn go_over(mon: &mut MonState) -> u32
    ensures over { back_over mon.old.session ≡ (result, mon.new.session) }
    ensures course { course_of mon.new ≡ undone_over (course_of mon.old) }
    ensures stops { KeepsStops mon.old mon.new }
    ensures text { mon.new.text ≡ mon.old.text }
{
    let count = back_over(&mut mon.session);
    mon.events.note_undone(count);
    count
}

/// Undoes a whole subroutine if the last event was its RTS, otherwise one event, and says so.
fn undo_over(mon: &mut MonState) -> Result<(), AllocError>
    ensures course { course_of mon.new ≡ undone_over (course_of mon.old) }
    ensures stops { KeepsStops mon.old mon.new }
    ensures text { OnOk result (mon.new.text.items ≡ mon.old.text.items
        ++ over_text mon.old.places (course_of mon.old)) }
{
    let count = go_over(mon);
    tell_undone(mon, count)
}

/// Undoes `count` events. Errors: those of the session; nothing is changed then.
pub fn go_back(mon: &mut MonState, count: u32) -> Result<(), SessionFault>
    ensures course { course_of mon.new ≡ undone count (course_of mon.old) }
    ensures ok { OnOk result (back_of count mon.old.session ≡ Ok mon.new.session) }
    ensures err { IfErr result (λ fault. (back_of count mon.old.session ≡ Err fault)
        × (mon.new.session ≡ mon.old.session)) }
    ensures stops { KeepsStops mon.old mon.new }
    ensures text { mon.new.text ≡ mon.old.text }
{
    mon.session.back(count)?;
    mon.events.note_undone(count);
    Ok(())
}

/// Says how many events can be undone.
fn say_only(mon: &mut MonState, held: u32) -> Result<(), AllocError>
    ensures shows { ShowsOnly mon.old mon.new }
    ensures text { OnOk result
        (mon.new.text.items ≡ mon.old.text.items ++ only_text held) }
{
    mon.say(ONLY)?;
    mon.count(held as u64, EVENT_HELD, EVENTS_HELD)
}

/// Undoes `count` events and shows the state, or says how many can be undone.
fn undo_events(mon: &mut MonState, count: u32) -> Result<(), AllocError>
    ensures course { course_of mon.new ≡ undone count (course_of mon.old) }
    ensures stops { KeepsStops mon.old mon.new }
    ensures text { OnOk result (mon.new.text.items ≡ mon.old.text.items
        ++ back_text count mon.old.places (course_of mon.old)) }
{
    let held = mon.session.held();
    match go_back(mon, count) {
        Ok(()) => show_arrived(mon),
        Err(_) => say_only(mon, held),
    }
}

/// Undoes events, and says so.
///
/// Errors: `AllocError` if an allocation fails; the events are undone all the same.
pub fn undo(mon: &mut MonState, undoing: Undoing) -> Result<(), AllocError>
    ensures course { course_of mon.new ≡ undone_by undoing (course_of mon.old) }
    ensures stops { KeepsStops mon.old mon.new }
    ensures text { OnOk result (mon.new.text.items ≡ mon.old.text.items
        ++ undo_text undoing mon.old.places (course_of mon.old)) }
{
    if mon.session.held() == 0 {
        return mon.say(NONE_HELD);
    }
    match undoing {
        Undoing::Events(count) => undo_events(mon, count),
        Undoing::Over => undo_over(mon),
    }
}

/// Returns whether a break of the session is at an address.
fn is_break(mon: &MonState, index: u32, address: u16) -> bool
    ensures { result ≡ is_this address (slice_get mon.now.session.breaks index) }
{
    match mon.session.break_at(index) {
        Some(at) => at == address,
        None => false,
    }
}

/// Returns whether the program counter is at a break.
#[tactic(auto, unfolding(crate::specs::BackTexts::is_at_break))]
fn is_at_break(mon: &MonState) -> bool
    ensures { result ≡ is_at_break mon.now.session }
{
    let pc = mon.session.regs().pc;
    for index in 0..mon.session.break_count() {
        if is_break(mon, index, pc) {
            return true;
        }
    }
    false
}

/// Says words, and a place behind them.
fn say_place(mon: &mut MonState, words: &str, address: u16) -> Result<(), AllocError>
    ensures shows { ShowsOnly mon.old mon.new }
    ensures text { OnOk result (mon.new.text.items ≡ mon.old.text.items
        ++ (words.now ++ place_text mon.old.places.names address)) }
{
    mon.say(words)?;
    push_place(&mut mon.text, &mon.places, address)
}

/// Says at which break the way back has ended.
fn say_break(mon: &mut MonState) -> Result<(), AllocError>
    ensures shows { ShowsOnly mon.old mon.new }
    ensures text { OnOk result (mon.new.text.items ≡ mon.old.text.items
        ++ at_break_text mon.old.places.names mon.old.session.current.regs.pc) }
{
    let pc = mon.session.regs().pc;
    say_place(mon, BACK_AT_BREAK, pc)
}

/// Says where the way back has ended. `count` events were undone, of `held` that were held.
fn say_way(mon: &mut MonState, count: u32, held: u32) -> Result<(), AllocError>
    ensures shows { ShowsOnly mon.old mon.new }
    ensures text { OnOk result (mon.new.text.items ≡ mon.old.text.items
        ++ way_text mon.old.places.names mon.old.session count held) }
{
    if is_at_break(mon) {
        return say_break(mon);
    }
    if count == held {
        return mon.say(BACK_AT_OLDEST);
    }
    mon.say(BACK_BEFORE_CHANGE)
}

/// Says behind other words how many events were undone, and shows the state before them.
pub fn tell_also_undone(mon: &mut MonState, count: u32) -> Result<(), AllocError>
    ensures shows { ShowsOnly mon.old mon.new }
    ensures text { OnOk result (mon.new.text.items ≡ mon.old.text.items
        ++ (codes ", " ++ undone_text count mon.old.session.current mon.old.places)) }
{
    mon.say(", ")?;
    tell_undone(mon, count)
}

/// Goes back to the last stop, or to the oldest state held. Notes the events that it undoes, and
/// returns how many those are.
fn go_to_stop(mon: &mut MonState) -> u32
    requires { length mon.old.stops.changes.items ≤ 256 }
    ensures found { last_stop mon.old.stops mon.old.session
        ≡ (result, mon.new.session) }
    ensures course { course_of mon.new
        ≡ undone_to_stop mon.old.stops (course_of mon.old) }
    ensures stops { KeepsStops mon.old mon.new }
    ensures text { mon.new.text ≡ mon.old.text }
{
    let count = back_to_stop(&mut mon.session, &mon.stops);
    mon.events.note_undone(count);
    count
}

/// Goes back to the last stop, or to the oldest state held, and says so.
fn undo_to(mon: &mut MonState) -> Result<(), AllocError>
    requires { length mon.old.stops.changes.items ≤ 256 }
    ensures course { course_of mon.new
        ≡ undone_to_stop mon.old.stops (course_of mon.old) }
    ensures stops { KeepsStops mon.old mon.new }
    ensures text { OnOk result (mon.new.text.items ≡ mon.old.text.items
        ++ stop_text mon.old.stops mon.old.places (course_of mon.old)) }
{
    let held = mon.session.held();
    let count = go_to_stop(mon);
    say_way(mon, count, held)?;
    tell_also_undone(mon, count)
}

/// Goes back to the last stop, or to the oldest state held, and says so. Does nothing if more than
/// 256 bytes are watched for changes.
///
/// Errors: `AllocError` if an allocation fails; the events are undone all the same.
pub fn undo_to_stop(mon: &mut MonState) -> Result<(), AllocError>
    ensures course { course_of mon.new
        ≡ undone_by_watches mon.old.stops (course_of mon.old) }
    ensures stops { KeepsStops mon.old mon.new }
    ensures text { OnOk result (mon.new.text.items ≡ mon.old.text.items
        ++ undo_to_stop_text mon.old.stops mon.old.places
        (course_of mon.old)) }
{
    if mon.stops.changes.len() > 256 {
        return mon.say(TOO_MANY_WATCHED);
    }
    if mon.session.held() == 0 {
        return mon.say(NONE_HELD);
    }
    undo_to(mon)
}
