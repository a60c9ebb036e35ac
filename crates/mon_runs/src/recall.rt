//! Back to the last stop, and events made again.

ghost use Rattle.std.specs.Prelude.{◌≡◌, ◌≤◌, ◌<◌, length, nat_eq, slice_index};
ghost use Rattle.std.specs.List.{list_any};
ghost use Rattle.model.specs.Back.{without_last};
ghost use Rattle.model.specs.State.{State};
ghost use Rattle.mon_runs.specs.Noted.{AreBytesAt};
ghost use Rattle.mon_runs.specs.Recall.{differs_at, has_other_register, is_stop, last_stop, made_again};

use crate::stops::Stops;
use debugger::{Event, Regs, Session};

/// The most addresses that are watched on the way back.
const MOST_WATCHED: usize = 256;

/// Undoes events until the current state is at a breakpoint, or until the event that changed a byte
/// at one of the addresses of `stops.changes` or a watched register is undone; at most all that are
/// held. Returns how many it has undone. Does not allocate.
#[tactic(auto, unfolding(crate::specs::Recall::last_stop))]
pub fn back_to_stop(session: &mut Session, stops: &Stops) -> u32
    requires few { length stops.now.changes.items ≤ 256 }
    ensures { last_stop stops.now session.old ≡ (result, session.new) }
{
    let mut bytes = [0u8; MOST_WATCHED];
    let held = session.held();
    for undone in 0..held {
        let after = session.regs();
        note_bytes(session, stops.changes.as_slice(), &mut bytes);
        back_by_one(session);
        if is_stopped(session, stops, &bytes, after) {
            return undone + 1;
        }
    }
    held
}

/// Undoes one event.
fn back_by_one(session: &mut Session)
    requires { 0 < length session.old.earlier }
    ensures { session.new ≡ without_last 1 session.old }
{
    let _ = session.back(1);
}

/// Notes the bytes at some addresses.
fn note_bytes(session: &Session, watched: &[u16], bytes: &mut [u8; MOST_WATCHED])
    requires { length watched.now ≤ 256 }
    ensures { AreBytesAt watched.now session.now.current bytes.new }
{
    for (index, address) in watched.iter().enumerate() {
        bytes[index] = session.peek(*address);
    }
}

/// Returns whether the current state is a stop on the way back, where the bytes that the state
/// after it had at the watched addresses are noted, and its registers.
fn is_stopped(session: &Session, stops: &Stops, bytes: &[u8; MOST_WATCHED], regs: Regs) -> bool
    requires { length stops.now.changes.items ≤ 256 }
    ensures { (after : State) → AreBytesAt stops.now.changes.items after bytes.now
        → regs ≡ after.regs
        → result ≡ is_stop session.now.breaks stops.now session.now.current after }
{
    if is_at_break(session) || is_changed(session, stops.changes.as_slice(), bytes) {
        return true;
    }
    has_other_register(session, stops, regs)
}

/// Returns whether a watched register has another value than among some registers.
fn has_other_register(session: &Session, stops: &Stops, regs: Regs) -> bool
    ensures { (after : State) → regs ≡ after.regs → result
        ≡ has_other_register stops.now.watches.items session.now.current after }
{
    stops.register_change(session.regs(), regs).is_some()
}

/// Returns the breakpoint at an index.
fn break_of(session: &Session, index: u32) -> u16
    requires { index < length session.now.breaks }
    ensures { result ≡ slice_index session.now.breaks index }
{
    session.break_at(index).unwrap_or(0)
}

/// Returns whether the current state is at a breakpoint.
fn is_at_break(session: &Session) -> bool
    ensures { result ≡ list_any (nat_eq session.now.current.regs.pc) session.now.breaks }
{
    let pc = session.regs().pc;
    for index in 0..session.break_count() {
        if pc == break_of(session, index) {
            return true;
        }
    }
    false
}

/// Returns whether a byte at one of some addresses is not the one noted.
fn is_changed(session: &Session, watched: &[u16], bytes: &[u8; MOST_WATCHED]) -> bool
    requires { length watched.now ≤ 256 }
    ensures { (after : State) → AreBytesAt watched.now after bytes.now
        → result ≡ differs_at watched.now session.now.current after }
{
    for (index, address) in watched.iter().enumerate() {
        if session.peek(*address) != bytes[index] {
            return true;
        }
    }
    false
}

/// Makes events again, in their order, up to the first that is rejected, and returns how many it
/// has made. Does not allocate.
#[tactic(auto, unfolding(crate::specs::Recall::made_again))]
pub fn make_again(session: &mut Session, events: &[Event]) -> usize
    ensures { made_again events.now session.old ≡ (result, session.new) }
{
    for (index, event) in events.iter().enumerate() {
        if session.event(*event).is_err() {
            return index;
        }
    }
    events.len()
}
