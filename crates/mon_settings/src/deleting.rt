//! Lines that delete and show breaks and watches.

ghost use Rattle.std.specs.Prelude.{◌≡◌, ◌++◌, IsOk, OnOk};
ghost use Rattle.std.specs.List.{flat_map};
ghost use Rattle.mon_settings.specs.StopLines.{KeepsPast, all_deleted, deleted_at, stands_at, standing_of};
ghost use Rattle.mon_settings.specs.StopTexts.{all_deleted_text, break_text, deleted_text, list_text, stops_text};
ghost use Rattle.mon_settings.specs.StopTexts.{register_deleted_text, watch_text};
ghost use Rattle.mon_session.specs.Course.{ShowsOnly};
ghost use Rattle.mon_runs.specs.Stops.{is_watched, without_register};

use crate::breaks::push_stop;
use crate::watches::{push_watched, unwatch_changes};
use crate::wording::{DELETED, NOT_WATCHED, NOTHING_AT, NOTHING_SET};
use formatting::push_text;
use mon_instructions::push_place;
use mon_lines::Register;
use mon_runs::{Break, Stops, Watch};
use mon_session::MonState;
use mon_texts::push_register;
use source_map::Places;
use std::alloc::AllocError;

/// Clears the break and the first watch at an address, and returns whether there was one.
fn forget(mon: &mut MonState, address: u16) -> bool
    ensures standing { standing_of mon.new ≡ deleted_at address (standing_of mon.old) }
    ensures kept { KeepsPast mon.old mon.new }
    ensures stood { result
        ≡ stands_at address mon.old.stops.watches.items mon.old.session }
    ensures text { mon.new.text ≡ mon.old.text }
{
    let is_break = mon.session.clear_break(address).is_ok();
    let _ = mon.stops.forget_break(address);
    match mon.stops.forget_watch(address) {
        Some(watch) => {
            unwatch_changes(mon, watch);
            true
        }
        None => is_break,
    }
}

/// Appends whether something stood at an address, where nothing stands now.
fn push_deleted(
    text: &mut Vec<u8>,
    places: &Places,
    address: u16,
    stood: bool,
) -> Result<(), AllocError>
    ensures { OnOk result (text.new.items ≡ text.old.items
        ++ deleted_text places.now.names address stood) }
{
    push_text(text, if stood { DELETED } else { NOTHING_AT })?;
    push_place(text, places, address)?;
    push_text(text, "\n")
}

/// Clears the break and the first watch at an address, and says so unless that failed before.
fn delete_one(
    mon: &mut MonState,
    address: u16,
    said: Result<(), AllocError>,
) -> Result<(), AllocError>
    ensures standing { standing_of mon.new ≡ deleted_at address (standing_of mon.old) }
    ensures kept { KeepsPast mon.old mon.new }
    ensures before { OnOk result (IsOk said) }
    ensures text { OnOk result (mon.new.text.items ≡ mon.old.text.items
        ++ deleted_text mon.old.places.names address
        (stands_at address mon.old.stops.watches.items mon.old.session)) }
{
    let stood = forget(mon, address);
    said?;
    push_deleted(&mut mon.text, &mon.places, address, stood)
}

/// Clears the break and the first watch at each of some addresses, and says so.
///
/// Errors: `AllocError` if an allocation fails; all are cleared all the same.
pub fn delete(mon: &mut MonState, addresses: &[u16]) -> Result<(), AllocError>
    ensures standing { standing_of mon.new ≡ all_deleted addresses.now (standing_of mon.old) }
    ensures kept { KeepsPast mon.old mon.new }
    ensures text { OnOk result (mon.new.text.items ≡ mon.old.text.items
        ++ all_deleted_text mon.old.places.names addresses.now (standing_of mon.old)) }
{
    let mut said = Ok(());
    for address in addresses {
        said = delete_one(mon, *address, said);
    }
    said
}

/// Appends that a register is not watched any more, or was not watched.
fn push_unwatched(text: &mut Vec<u8>, register: Register, stood: bool) -> Result<(), AllocError>
    ensures { OnOk result (text.new.items
        ≡ text.old.items ++ register_deleted_text register stood) }
{
    if stood {
        push_text(text, DELETED)?;
        push_register(text, register)?;
        push_text(text, "\n")
    } else {
        push_register(text, register)?;
        push_text(text, NOT_WATCHED)
    }
}

/// Clears the first watch of a register, and says so.
///
/// Errors: `AllocError` if an allocation fails; the watch is cleared all the same.
pub fn delete_register(mon: &mut MonState, register: Register) -> Result<(), AllocError>
    ensures watches { mon.new.stops.watches.items
        ≡ without_register register mon.old.stops.watches.items }
    ensures session { mon.new.session ≡ mon.old.session }
    ensures breaks { mon.new.stops.breaks ≡ mon.old.stops.breaks }
    ensures changes { mon.new.stops.changes ≡ mon.old.stops.changes }
    ensures events { mon.new.events ≡ mon.old.events }
    ensures places { mon.new.places ≡ mon.old.places }
    ensures displays { mon.new.displays ≡ mon.old.displays }
    ensures text { OnOk result (mon.new.text.items ≡ mon.old.text.items
        ++ register_deleted_text register (is_watched register mon.old.stops.watches.items)) }
{
    let stood = mon.stops.forget_register(register);
    push_unwatched(&mut mon.text, register, stood)
}

/// Appends breaks, each on a line.
fn push_breaks(text: &mut Vec<u8>, breaks: &[Break], places: &Places) -> Result<(), AllocError>
    ensures { OnOk result (text.new.items ≡ text.old.items
        ++ flat_map (break_text places.now.names) breaks.now) }
{
    for stop in breaks {
        push_stop(text, stop, places)?;
    }
    Ok(())
}

/// Appends watches, each on a line.
fn push_watches(text: &mut Vec<u8>, watches: &[Watch], places: &Places) -> Result<(), AllocError>
    ensures { OnOk result (text.new.items ≡ text.old.items
        ++ flat_map (watch_text places.now.names) watches.now) }
{
    for watch in watches {
        push_watched(text, *watch, places)?;
    }
    Ok(())
}

/// Appends breaks and watches, each on a line.
fn push_stops(text: &mut Vec<u8>, stops: &Stops, places: &Places) -> Result<(), AllocError>
    ensures { OnOk result (text.new.items ≡ text.old.items
        ++ stops_text places.now.names stops.now.breaks.items stops.now.watches.items) }
{
    push_breaks(text, stops.breaks.as_slice(), places)?;
    push_watches(text, stops.watches.as_slice(), places)
}

/// Shows breaks and watches.
///
/// Errors: `AllocError` if an allocation fails.
pub fn list(mon: &mut MonState) -> Result<(), AllocError>
    ensures shows { ShowsOnly mon.old mon.new }
    ensures text { OnOk result (mon.new.text.items ≡ mon.old.text.items
        ++ list_text mon.old.places.names mon.old.stops.breaks.items
        mon.old.stops.watches.items) }
{
    if mon.stops.breaks.is_empty() && mon.stops.watches.is_empty() {
        return mon.say(NOTHING_SET);
    }
    push_stops(&mut mon.text, &mon.stops, &mon.places)
}
