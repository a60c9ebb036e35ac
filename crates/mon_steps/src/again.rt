//! Lines that make undone events again.

ghost use Rattle.std.specs.Prelude.{◌≡◌, ◌++◌, ℕ, OnErr, OnOk, drop, slice_get, take};
ghost use Rattle.std.specs.Option.{option_copied};
ghost use Rattle.mon_session.specs.Course.{IsEither, KeepsStops, ShowsOnly, course_of};
ghost use Rattle.mon_session.specs.EventTexts.{row_or_entry};
ghost use Rattle.mon_steps.specs.BackLines.{IsPartlyShown, history_shown, most_remade, remade};
ghost use Rattle.mon_steps.specs.BackLines.{remade_one};
ghost use Rattle.mon_steps.specs.BackTexts.{again_text, event_words, history_text};
ghost use Rattle.mon_steps.specs.BackTexts.{made_again_text, one_remade_text, redo_text, remade_row, remade_text};

use crate::back::go_back;
use crate::wording::{
    BYTE_HANDED_IN, EVENT_REMADE, EVENTS_REMADE, LINE_SET, MEMORY_CHANGED, NMI_ASKED_FOR,
    NONE_HELD, NOTHING_UNDONE, REGISTER_SET, RESET_MADE,
};
use mon_runs::{Event, make_again};
use mon_session::MonState;
use std::alloc::AllocError;
use std::slice;

/// Returns what an event is called that is no step.
fn words_of(event: Event) -> Option<&'static str>
    ensures { option_copied result ≡ event_words event }
{
    match event {
        Event::Step => None,
        Event::Set(_) => Some(REGISTER_SET),
        Event::Patch { .. } => Some(MEMORY_CHANGED),
        Event::Input(_) => Some(BYTE_HANDED_IN),
        Event::Irq(_) => Some(LINE_SET),
        Event::Nmi => Some(NMI_ASKED_FOR),
        Event::Reset => Some(RESET_MADE),
    }
}

/// Makes the next event that was undone again, if there is one, and returns it.
fn redo_one(mon: &mut MonState) -> Option<Event>
    ensures event { result ≡ slice_get mon.old.events.undone 0 }
    ensures course { course_of mon.new ≡ remade_one (course_of mon.old) }
    ensures session { mon.new.session ≡ (remade_one (course_of mon.old)).0 }
    ensures stops { KeepsStops mon.old mon.new }
    ensures text { mon.new.text ≡ mon.old.text }
{
    let event = mon.events.next()?;
    let _ = make_again(&mut mon.session, slice::from_ref(&event));
    Some(event)
}

/// Makes `count` undone events again.
fn redo_some(mon: &mut MonState, count: u32)
    ensures course { course_of mon.new ≡ remade count (course_of mon.old) }
    ensures stops { KeepsStops mon.old mon.new }
    ensures text { mon.new.text ≡ mon.old.text }
{
    for _ in 0..count {
        let _ = redo_one(mon);
    }
}

/// Says that `most` events were made again, and shows the state and the cycles since `cycles`.
fn tell_again(mon: &mut MonState, most: u32, cycles: u64) -> Result<(), AllocError>
    ensures shows { ShowsOnly mon.old mon.new }
    ensures text { OnOk result (mon.new.text.items ≡ mon.old.text.items
        ++ made_again_text most mon.old.session.current mon.old.places.names cycles) }
{
    if most == 0 {
        return mon.say(NOTHING_UNDONE);
    }
    mon.count(most as u64, EVENT_REMADE, EVENTS_REMADE)?;
    mon.show(Some(cycles))
}

/// Makes `most` undone events again, and says so.
fn redo_most(mon: &mut MonState, most: u32) -> Result<(), AllocError>
    ensures course { course_of mon.new ≡ remade most (course_of mon.old) }
    ensures stops { KeepsStops mon.old mon.new }
    ensures text { OnOk result (mon.new.text.items ≡ mon.old.text.items
        ++ again_text most mon.old.places.names (course_of mon.old)) }
{
    let cycles = mon.session.cycles();
    redo_some(mon, most);
    tell_again(mon, most, cycles)
}

/// Makes `count` undone events again, or all, and says how many those are.
///
/// Errors: `AllocError` if an allocation fails; the events are made all the same.
pub fn redo(mon: &mut MonState, count: Option<u32>) -> Result<(), AllocError>
    ensures course { course_of mon.new ≡ remade (most_remade count mon.old.events.undone)
        (course_of mon.old) }
    ensures stops { KeepsStops mon.old mon.new }
    ensures text { OnOk result (mon.new.text.items ≡ mon.old.text.items
        ++ redo_text count mon.old.places.names (course_of mon.old)) }
{
    let most = count.unwrap_or(u32::MAX).min(mon.events.undone());
    redo_most(mon, most)
}

/// Says which event was made again. Its row stands in the text from the byte `length` on.
/// `is_entry` says whether the event is an interrupt entry, if it is a step.
fn tell_remade(
    mon: &mut MonState,
    event: Option<Event>,
    length: usize,
    is_entry: bool,
) -> Result<(), AllocError>
    ensures shows { ShowsOnly mon.old mon.new }
    ensures text { OnOk result (mon.new.text.items ≡ take length mon.old.text.items
        ++ remade_row event (row_or_entry is_entry mon.old.session.current
        mon.old.places.names (drop length mon.old.text.items))) }
{
    match event {
        Some(event) => match words_of(event) {
            Some(words) => {
                mon.text.truncate(length);
                mon.say(words)
            }
            None => mon.tell_entry(length, is_entry),
        },
        None => {
            mon.text.truncate(length);
            Ok(())
        }
    }
}

/// Makes the next event that was undone again, if there is one, and shows it. If memory ran out, it
/// may be made or not.
fn redo_shown(mon: &mut MonState) -> Result<(), AllocError>
    ensures course { OnOk result (course_of mon.new ≡ remade_one (course_of mon.old)) }
    ensures memory { OnErr result (IsEither (course_of mon.new) (course_of mon.old)
        (remade_one (course_of mon.old))) }
    ensures stops { KeepsStops mon.old mon.new }
    ensures text { OnOk result (mon.new.text.items ≡ mon.old.text.items
        ++ one_remade_text mon.old.places (course_of mon.old)) }
{
    let is_entry = mon.session.entry_is_due();
    let length = mon.text.len();
    mon.show_next()?;
    let event = redo_one(mon);
    tell_remade(mon, event, length, is_entry)
}

/// Makes `count` undone events again, and shows each.
fn redo_each_shown(mon: &mut MonState, count: u32) -> Result<(), AllocError>
    ensures course { OnOk result (course_of mon.new ≡ remade count (course_of mon.old)) }
    ensures memory { OnErr result ((n : ℕ)
        × (course_of mon.new ≡ remade n (course_of mon.old))) }
    ensures stops { KeepsStops mon.old mon.new }
    ensures text { OnOk result (mon.new.text.items ≡ mon.old.text.items
        ++ remade_text count mon.old.places (course_of mon.old)) }
{
    for _ in 0..count {
        redo_shown(mon)?;
    }
    Ok(())
}

/// Shows the last `count` events, or all that are held: undoes them, and makes them again.
///
/// Errors: `AllocError` if an allocation fails; only some of them may be made again then.
pub fn show_history(mon: &mut MonState, count: u32) -> Result<(), AllocError>
    ensures course { OnOk result
        (course_of mon.new ≡ history_shown count (course_of mon.old)) }
    ensures memory { OnErr result
        (IsPartlyShown count (course_of mon.old) (course_of mon.new)) }
    ensures stops { KeepsStops mon.old mon.new }
    ensures text { OnOk result (mon.new.text.items ≡ mon.old.text.items
        ++ history_text count mon.old.places (course_of mon.old)) }
{
    let count = count.min(mon.session.held());
    if count == 0 {
        return mon.say(NONE_HELD);
    }
    let _ = go_back(mon, count);
    redo_each_shown(mon, count)?;
    mon.show(None)
}
