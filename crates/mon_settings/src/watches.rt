//! Lines that set a watch.

ghost use Rattle.std.specs.Prelude.{◌≡◌, ◌≤◌, ◌+◌, ◌++◌, ◌∷◌, [], ℕ, IfOk, OnErr, OnOk, Some};
ghost use Rattle.std.specs.Prelude.{if◌then◌else◌};
ghost use Rattle.model.specs.Breakpoints.{watch_set};
ghost use Rattle.mon_settings.specs.StopLines.{all_unwatched, all_watched, can_watch, or_same};
ghost use Rattle.mon_settings.specs.StopLines.{if_unwatched, stretch_unwatched, stretch_watched};
ghost use Rattle.mon_settings.specs.StopLines.{unwatched, why_unchanged, why_unset, why_unwatched};
ghost use Rattle.mon_settings.specs.StopLines.{with_changes, with_watch};
ghost use Rattle.mon_settings.specs.StopTexts.{unwatched_text, watch_text, watched_text};
ghost use Rattle.mon_session.specs.Course.{KeepsStops};
ghost use Rattle.mon_runs.specs.Stops.{changed, new_changes};

use crate::wording::{PORT_UNWATCHED, WATCH_TOO_WIDE, WATCHES_FULL};
use mon_lines::{Stretch, WatchKind};
use mon_runs::{SessionFault, Watch};
use mon_session::MonState;
use mon_texts::{push_register_watch, push_watch};
use source_map::Places;
use std::alloc::AllocError;

/// The most bytes that are watched for changes.
const MOST_WATCHED: u16 = 256;

/// Why changes are not watched.
#[derive(Clone, Copy)]
pub enum Unwatched {
    /// A port is there, which is no memory.
    Port,
    /// 256 other bytes are watched.
    Full,
    /// More than 256 bytes are to be watched.
    Wide,
}

/// Returns what is said of a watch that cannot be set.
fn words_of(why: Unwatched) -> &'static str
    ensures { result.now ≡ unwatched_text why }
{
    match why {
        Unwatched::Port => { PORT_UNWATCHED }
        Unwatched::Full => WATCHES_FULL,
        Unwatched::Wide => WATCH_TOO_WIDE,
    }
}

/// Watches the changes of an address in the session. Returns why it cannot, if it cannot.
/// Nothing is changed if memory ran out.
fn watch_change(mon: &mut MonState, address: u16) -> Result<Option<Unwatched>, AllocError>
    ensures session { OnOk result (mon.new.session
        ≡ or_same mon.old.session (watch_set address mon.old.session)) }
    ensures why { IfOk result
        (λ why. why ≡ why_unset (watch_set address mon.old.session)) }
    ensures memory { OnErr result (mon.new.session ≡ mon.old.session) }
    ensures events { mon.new.events ≡ mon.old.events }
    ensures stops { KeepsStops mon.old mon.new }
    ensures text { mon.new.text ≡ mon.old.text }
{
    match mon.session.set_watch(address) {
        Ok(()) | Err(SessionFault::AlreadySet) => Ok(None),
        Err(SessionFault::OutOfMemory) => Err(AllocError),
        Err(SessionFault::PortAddress) => Ok(Some(Unwatched::Port)),
        Err(_) => Ok(Some(Unwatched::Full)),
    }
}

/// Watches `count` addresses from `first` on for changes in the session. Returns why it cannot,
/// if it cannot; some addresses are watched then, as they are if memory ran out.
fn watch_from(mon: &mut MonState, first: u16, count: u32) -> Result<Option<Unwatched>, AllocError>
    requires { first + count ≤ 65536 }
    ensures watched { IfOk result (λ why. all_watched first count mon.old.session
        ≡ (mon.new.session, why)) }
    ensures memory { OnErr result ((n : ℕ)
        × (mon.new.session ≡ (all_watched first n mon.old.session).0)) }
    ensures events { mon.new.events ≡ mon.old.events }
    ensures stops { KeepsStops mon.old mon.new }
    ensures text { mon.new.text ≡ mon.old.text }
{
    for offset in 0..count {
        if let Some(why) = watch_change(mon, (first as u32 + offset) as u16)? {
            return Ok(Some(why));
        }
    }
    Ok(None)
}

/// Watches the changes of a stretch in the session, at most 256 bytes of it. Returns why it
/// cannot, if it cannot; some bytes are watched then, as they are if memory ran out.
fn watch_changes(mon: &mut MonState, stretch: Stretch) -> Result<Option<Unwatched>, AllocError>
    ensures watched { IfOk result (λ why. stretch_watched stretch mon.old.session
        ≡ (mon.new.session, why)) }
    ensures memory { OnErr result ((n : ℕ)
        × (mon.new.session ≡ (all_watched stretch.first n mon.old.session).0)) }
    ensures events { mon.new.events ≡ mon.old.events }
    ensures stops { KeepsStops mon.old mon.new }
    ensures text { mon.new.text ≡ mon.old.text }
{
    if stretch.last.saturating_sub(stretch.first) >= MOST_WATCHED {
        return Ok(Some(Unwatched::Wide));
    }
    let count = (stretch.last as u32 + 1).saturating_sub(stretch.first as u32);
    watch_from(mon, stretch.first, count)
}

/// Ends the watch of changes in the session at an address that no watch has.
fn unwatch_at(mon: &mut MonState, address: u16)
    ensures session { mon.new.session
        ≡ unwatched mon.old.stops.watches.items address mon.old.session }
    ensures events { mon.new.events ≡ mon.old.events }
    ensures stops { KeepsStops mon.old mon.new }
    ensures text { mon.new.text ≡ mon.old.text }
{
    if !mon.stops.has_access(WatchKind::Change, address) {
        let _ = mon.session.clear_watch(address);
    }
}

/// Ends the watch for changes in the session at each of `count` addresses from `first` on that no
/// watch has.
fn unwatch_from(mon: &mut MonState, first: u16, count: u32)
    requires { first + count ≤ 65536 }
    ensures session { mon.new.session
        ≡ all_unwatched mon.old.stops.watches.items first count mon.old.session }
    ensures events { mon.new.events ≡ mon.old.events }
    ensures stops { KeepsStops mon.old mon.new }
    ensures text { mon.new.text ≡ mon.old.text }
{
    for offset in 0..count {
        unwatch_at(mon, (first as u32 + offset) as u16);
    }
}

/// Ends the watch of changes in the session at each address of a stretch that no watch has.
fn unwatch(mon: &mut MonState, stretch: Stretch)
    ensures session { mon.new.session
        ≡ stretch_unwatched mon.old.stops.watches.items stretch mon.old.session }
    ensures events { mon.new.events ≡ mon.old.events }
    ensures stops { KeepsStops mon.old mon.new }
    ensures text { mon.new.text ≡ mon.old.text }
{
    let count = (stretch.last as u32 + 1).saturating_sub(stretch.first as u32);
    unwatch_from(mon, stretch.first, count);
}

/// Watches the changes of a stretch in the session, whole or not at all. Returns why it cannot, if
/// it cannot. Some bytes are watched if memory ran out.
fn watch_whole(mon: &mut MonState, stretch: Stretch) -> Result<Option<Unwatched>, AllocError>
    ensures session { OnOk result (mon.new.session
        ≡ with_changes (Some stretch) mon.old.stops.watches.items mon.old.session) }
    ensures why { IfOk result
        (λ why. why ≡ why_unchanged (Some stretch) mon.old.session) }
    ensures memory { OnErr result ((n : ℕ)
        × (mon.new.session ≡ (all_watched stretch.first n mon.old.session).0)) }
    ensures events { mon.new.events ≡ mon.old.events }
    ensures stops { KeepsStops mon.old mon.new }
    ensures text { mon.new.text ≡ mon.old.text }
{
    match watch_changes(mon, stretch)? {
        Some(why) => {
            unwatch(mon, stretch);
            Ok(Some(why))
        }
        None => Ok(None),
    }
}

/// Watches in the session what a watch has there: bytes whose changes are watched, whole or not at
/// all. Returns why it cannot, if it cannot. Some bytes are watched if memory ran out.
fn watch_in_session(mon: &mut MonState, watch: Watch) -> Result<Option<Unwatched>, AllocError>
    ensures session { OnOk result (mon.new.session
        ≡ with_watch watch mon.old.stops.watches.items mon.old.session) }
    ensures why { IfOk result (λ why. why ≡ why_unwatched watch mon.old.session) }
    ensures memory { OnErr result ((first : ℕ) × (n : ℕ)
        × (mon.new.session ≡ (all_watched first n mon.old.session).0)) }
    ensures events { mon.new.events ≡ mon.old.events }
    ensures stops { KeepsStops mon.old mon.new }
    ensures text { mon.new.text ≡ mon.old.text }
{
    match watch.changed() {
        Some(stretch) => watch_whole(mon, stretch),
        None => Ok(None),
    }
}

/// Sets a watch, and shows it. Nothing is noted if its changes cannot be watched in the session.
///
/// Errors: `AllocError` if an allocation fails; some of its bytes may be watched in the session
/// then.
pub fn set_watch(mon: &mut MonState, watch: Watch) -> Result<(), AllocError>
    ensures session { OnOk result (mon.new.session
        ≡ with_watch watch mon.old.stops.watches.items mon.old.session) }
    ensures watches { OnOk result (mon.new.stops.watches.items
        ≡ (if can_watch watch mon.old.session
        then mon.old.stops.watches.items ++ watch ∷ []
        else mon.old.stops.watches.items)) }
    ensures changes { OnOk result (mon.new.stops.changes.items
        ≡ (if can_watch watch mon.old.session then mon.old.stops.changes.items
        ++ new_changes mon.old.stops.watches.items watch
        else mon.old.stops.changes.items)) }
    ensures breaks { mon.new.stops.breaks ≡ mon.old.stops.breaks }
    ensures events { mon.new.events ≡ mon.old.events }
    ensures places { mon.new.places ≡ mon.old.places }
    ensures displays { mon.new.displays ≡ mon.old.displays }
    ensures text { OnOk result (mon.new.text.items ≡ mon.old.text.items
        ++ watched_text mon.old.places.names watch (why_unwatched watch mon.old.session)) }
{
    match watch_in_session(mon, watch)? {
        Some(why) => mon.say(words_of(why)),
        None => {
            mon.stops.note_watch(watch)?;
            push_watched(&mut mon.text, watch, &mon.places)
        }
    }
}

/// Appends a watch on a line.
pub fn push_watched(text: &mut Vec<u8>, watch: Watch, places: &Places) -> Result<(), AllocError>
    ensures { OnOk result (text.new.items ≡ text.old.items
        ++ watch_text places.now.names watch) }
{
    match watch {
        Watch::Bytes { stretch, kind } => push_watch(text, places, stretch, kind),
        Watch::Register(register) => push_register_watch(text, register),
    }
}

/// Ends the watch of changes in the session at each address of a deleted watch for changes that no
/// other watch has.
pub fn unwatch_changes(mon: &mut MonState, watch: Watch)
    ensures session { mon.new.session
        ≡ if_unwatched mon.old.stops.watches.items mon.old.session (changed watch) }
    ensures events { mon.new.events ≡ mon.old.events }
    ensures stops { KeepsStops mon.old mon.new }
    ensures text { mon.new.text ≡ mon.old.text }
{
    if let Some(stretch) = watch.changed() {
        unwatch(mon, stretch);
    }
}
