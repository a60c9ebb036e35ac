//! Lines that set breaks.

ghost use Rattle.std.specs.Prelude.{◌≡◌, ◌++◌, IfOk, OnOk, map, nat_eq};
ghost use Rattle.std.specs.List.{flat_map, list_any};
ghost use Rattle.mon_texts.specs.Pushed.{is_code};
ghost use Rattle.mon_settings.specs.StopLines.{SetsBreaks, KeepsWatches, addresses_at, break_view};
ghost use Rattle.mon_settings.specs.StopLines.{all_set, have_room, new_break, place_of, set_at};
ghost use Rattle.mon_settings.specs.StopTexts.{break_notes, break_text, lines_text};
ghost use Rattle.mon_settings.specs.StopTexts.{none_begins, set_text};
ghost use Rattle.source_map.specs.Lines.{row_at};
ghost use Rattle.mon_session.specs.Course.{ShowsOnly};

use crate::again::push_second;
use crate::wording::NO_INSTRUCTION_BEGINS;
use arrayvec::ArrayVec;
use formatting::push_text;
use mon_instructions::push_place;
use mon_lines::Test;
use mon_runs::{Break, Session, SessionFault};
use mon_session::MonState;
use mon_session::wording::BREAKS_FULL;
use mon_texts::push_break;
use source_map::Places;
use std::alloc::{AllocError, Global};

/// The most breaks of a session.
const MOST_BREAKS: usize = 256;

/// Returns where breaks are set or cleared: at an address, or at all addresses of a line of a file.
///
/// Errors: `AllocError` if an allocation fails.
pub fn addresses_at(
    alloc: Global,
    places: &Places,
    address: u16,
    line: Option<(u32, u32)>,
) -> Result<Vec<u16>, AllocError>
    ensures { IfOk result (λ found. found.items ≡ addresses_at places.now address line) }
{
    match line {
        None => Vec::from_slice(alloc, &[address]),
        Some((file, line)) => places.sites_of_line(alloc, file, line),
    }
}

/// Returns whether a break of the session is at an address.
fn has_break(session: &Session, address: u16) -> bool
    ensures { result ≡ list_any (nat_eq address) session.now.breaks }
{
    for index in 0..session.break_count() {
        if session.break_at(index) == Some(address) {
            return true;
        }
    }
    false
}

/// Returns whether the session has room for breaks at all of some addresses.
fn have_room(session: &Session, addresses: &[u16]) -> bool
    ensures { result ≡ have_room addresses.now session.now }
{
    let free = MOST_BREAKS.saturating_sub(session.break_count() as usize);
    addresses
        .iter()
        .filter(|address| !has_break(session, **address))
        .count()
        <= free
}

/// Returns a copy of tests.
fn copy_of(tests: &ArrayVec<Test, 4>) -> ArrayVec<Test, 4>
    ensures { result.items ≡ tests.now.items }
{
    let mut copy = ArrayVec::new();
    let _ = copy.try_extend_from_slice(tests.as_slice());
    copy
}

/// Makes breaks with the same tests, none of which was visited yet.
fn breaks_at(
    alloc: Global,
    addresses: &[u16],
    tests: &ArrayVec<Test, 4>,
    times: u32,
) -> Result<Vec<Break>, AllocError>
    ensures { IfOk result (λ stops. map break_view stops.items
        ≡ map (new_break tests.now.items times) addresses.now) }
{
    let mut stops = Vec::new(alloc);
    for address in addresses {
        stops.push(Break::new(*address, copy_of(tests), times))?;
    }
    Ok(stops)
}

/// Sets a break, in place of the one at its address. Does nothing if the session has 256 others.
fn set_one(mon: &mut MonState, stop: Break) -> Result<(), AllocError>
    ensures place { OnOk result (place_of mon.new ≡ set_at stop (place_of mon.old)) }
    ensures kept { KeepsWatches mon.old mon.new }
    ensures text { mon.new.text ≡ mon.old.text }
{
    match mon.session.set_break(stop.address) {
        Ok(()) | Err(SessionFault::AlreadySet) => mon.stops.note_break(stop),
        Err(SessionFault::OutOfMemory) => Err(AllocError),
        Err(_) => Ok(()),
    }
}

/// Sets breaks one after another.
fn set_each(mon: &mut MonState, stops: Vec<Break>) -> Result<(), AllocError>
    ensures place { OnOk result (place_of mon.new ≡ all_set stops.items (place_of mon.old)) }
    ensures kept { KeepsWatches mon.old mon.new }
    ensures text { mon.new.text ≡ mon.old.text }
{
    for stop in stops {
        set_one(mon, stop)?;
    }
    Ok(())
}

/// Returns whether an instruction of the source begins at an address.
fn begins_instruction(places: &Places, address: u16) -> bool
    ensures { result ≡ is_code (row_at places.now.lines address) }
{
    match places.row_at(address) {
        None => false,
        Some(row) => row.is_instruction,
    }
}

/// Appends that no instruction of the source begins at an address.
fn push_none_begins(text: &mut Vec<u8>, places: &Places, address: u16) -> Result<(), AllocError>
    ensures { OnOk result
        (text.new.items ≡ text.old.items ++ none_begins places.now.names address) }
{
    push_text(text, NO_INSTRUCTION_BEGINS)?;
    push_place(text, places, address)?;
    push_text(text, "\n")
}

/// Appends that no instruction of the source begins at an address, if all lines of the program are
/// known and none does.
#[tactic(auto, unfolding(crate::specs::StopTexts::lines_text))]
fn push_lines(text: &mut Vec<u8>, places: &Places, address: u16) -> Result<(), AllocError>
    ensures { OnOk result (text.new.items ≡ text.old.items ++ lines_text places.now address) }
{
    if places.is_whole() && places.has_lines() && !begins_instruction(places, address) {
        return push_none_begins(text, places, address);
    }
    Ok(())
}

/// Appends what is to be known of a break at an address.
fn push_note(text: &mut Vec<u8>, places: &Places, address: u16) -> Result<(), AllocError>
    ensures { OnOk result (text.new.items ≡ text.old.items ++ break_notes places.now address) }
{
    push_lines(text, places, address)?;
    push_second(text, places, address)
}

/// Appends what is to be known of breaks at addresses.
fn push_notes(text: &mut Vec<u8>, places: &Places, addresses: &[u16]) -> Result<(), AllocError>
    ensures { OnOk result (text.new.items
        ≡ text.old.items ++ flat_map (break_notes places.now) addresses.now) }
{
    for address in addresses {
        push_note(text, places, *address)?;
    }
    Ok(())
}

/// Appends the line of a break.
pub fn push_stop(text: &mut Vec<u8>, stop: &Break, places: &Places) -> Result<(), AllocError>
    ensures { OnOk result (text.new.items ≡ text.old.items
        ++ break_text places.now.names stop.now) }
{
    push_break(
        text,
        places,
        &[stop.address],
        stop.tests.as_slice(),
        stop.times,
    )
}

/// Sets breaks with the same tests at all of some addresses, in place of those that stand there,
/// and shows them. Nothing is changed if the session has no room for all of them.
///
/// Errors: `AllocError` if an allocation fails; some of the breaks may be set then.
pub fn set_breaks(
    mon: &mut MonState,
    alloc: Global,
    addresses: &[u16],
    tests: &ArrayVec<Test, 4>,
    times: u32,
) -> Result<(), AllocError>
    ensures breaks { OnOk result (SetsBreaks addresses.now tests.now.items times mon.old mon.new) }
    ensures kept { KeepsWatches mon.old mon.new }
    ensures text { OnOk result (mon.new.text.items ≡ mon.old.text.items
        ++ set_text mon.old.places addresses.now tests.now.items times
        (have_room addresses.now mon.old.session)) }
{
    let stops = breaks_at(alloc, addresses, tests, times)?;
    if !have_room(&mon.session, addresses) {
        return mon.say(BREAKS_FULL);
    }
    set_each(mon, stops)?;
    push_break(
        &mut mon.text,
        &mon.places,
        addresses,
        tests.as_slice(),
        times,
    )?;
    push_notes(&mut mon.text, &mon.places, addresses)
}
