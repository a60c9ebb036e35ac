//! Lines that say which bytes are shown at each stop.

ghost use Rattle.std.specs.Prelude.{◌≡◌, ◌++◌, IfOk, OnErr, OnOk, not};
ghost use Rattle.std.specs.List.{flat_map};
ghost use Rattle.source_map.specs.Names.{name_at};
ghost use Rattle.mon_settings.specs.Displays.{all_displays_text, display_set_text, displayed_byte};
ghost use Rattle.mon_settings.specs.Displays.{displays_text, is_displayed, is_full, is_other};
ghost use Rattle.mon_settings.specs.Displays.{name_before, undisplayed_text, with_display};
ghost use Rattle.mon_settings.specs.Displays.{without_display};
ghost use Rattle.mon_session.specs.Course.{IsEither, ShowsOnly, course_of};

use crate::wording::{DELETED, DISPLAY, DISPLAYS_FULL, NOT_DISPLAYED, NOTHING_DISPLAYED};
use formatting::{push_address, push_byte, push_text};
use mon_instructions::push_place;
use mon_runs::Session;
use mon_session::MonState;
use source_map::Places;
use std::alloc::AllocError;

/// The most bytes that are shown at each stop.
const MOST_DISPLAYED: usize = 16;

/// Returns whether an address is one of those shown.
pub fn is_displayed(displays: &[u16], address: u16) -> bool
    ensures { result ≡ is_displayed address displays.now }
{
    displays.iter().any(|at| address == *at)
}

/// Appends the name of an address and a blank, if the address has one.
fn push_name(text: &mut Vec<u8>, places: &Places, address: u16) -> Result<(), AllocError>
    ensures { OnOk result (text.new.items ≡ text.old.items
        ++ name_before (name_at places.now.names address)) }
{
    match places.names().name_at(address) {
        None => Ok(()),
        Some(name) => {
            text.extend_from_slice(name)?;
            push_text(text, " ")
        }
    }
}

/// Appends a byte behind a blank, with its name and its address.
fn push_displayed(
    text: &mut Vec<u8>,
    session: &Session,
    places: &Places,
    address: u16,
) -> Result<(), AllocError>
    ensures { OnOk result (text.new.items ≡ text.old.items
        ++ displayed_byte places.now.names session.now.current address) }
{
    push_text(text, " ")?;
    push_name(text, places, address)?;
    push_address(text, address)?;
    push_text(text, "=")?;
    push_byte(text, session.peek(address))
}

/// Appends bytes, each behind a blank, with its name and its address.
fn push_bytes(
    text: &mut Vec<u8>,
    session: &Session,
    places: &Places,
    displays: &[u16],
) -> Result<(), AllocError>
    ensures { OnOk result (text.new.items ≡ text.old.items
        ++ flat_map (displayed_byte places.now.names session.now.current) displays.now) }
{
    for address in displays {
        push_displayed(text, session, places, *address)?;
    }
    Ok(())
}

/// Appends the line of the bytes that are shown, if some are.
fn push_displays(
    text: &mut Vec<u8>,
    session: &Session,
    places: &Places,
    displays: &[u16],
) -> Result<(), AllocError>
    ensures { OnOk result (text.new.items ≡ text.old.items
        ++ displays_text places.now.names session.now.current displays.now) }
{
    match displays {
        [] => Ok(()),
        [_, ..] => {
            push_text(text, DISPLAY)?;
            push_bytes(text, session, places, displays)?;
            push_text(text, "\n")
        }
    }
}

/// Shows the bytes that are shown at each stop, if there are some.
///
/// Errors: `AllocError` if an allocation fails.
pub fn show_displays(mon: &mut MonState) -> Result<(), AllocError>
    ensures shows { ShowsOnly mon.old mon.new }
    ensures text { OnOk result (mon.new.text.items ≡ mon.old.text.items
        ++ displays_text mon.old.places.names mon.old.session.current
        mon.old.displays.items) }
{
    push_displays(
        &mut mon.text,
        &mon.session,
        &mon.places,
        mon.displays.as_slice(),
    )
}

/// Shows the bytes that are shown at each stop, or says that there are none.
///
/// Errors: `AllocError` if an allocation fails.
pub fn list_displays(mon: &mut MonState) -> Result<(), AllocError>
    ensures shows { ShowsOnly mon.old mon.new }
    ensures text { OnOk result (mon.new.text.items ≡ mon.old.text.items
        ++ all_displays_text mon.old.places.names mon.old.session.current
        mon.old.displays.items) }
{
    if mon.displays.is_empty() {
        return mon.say(NOTHING_DISPLAYED);
    }
    show_displays(mon)
}

/// Adds an address to those shown, unless it is one of them or 16 others are. Returns whether it is
/// one of them then. Nothing is changed if memory ran out.
fn add_display(displays: &mut Vec<u16>, address: u16) -> Result<bool, AllocError>
    ensures ok { OnOk result (displays.new.items ≡ with_display address displays.old.items) }
    ensures err { OnErr result (displays.new.items ≡ displays.old.items) }
    ensures full { IfOk result (λ is_there. not is_there ≡ is_full address displays.old.items) }
{
    if is_displayed(displays.as_slice(), address) {
        return Ok(true);
    }
    if displays.len() >= MOST_DISPLAYED {
        return Ok(false);
    }
    displays.push(address)?;
    Ok(true)
}

/// Shows the byte at an address at each stop from now on, and shows it now. Says so if 16 others
/// are shown.
///
/// Errors: `AllocError` if an allocation fails; the byte may be shown at each stop then.
pub fn display(mon: &mut MonState, address: u16) -> Result<(), AllocError>
    ensures displays { OnOk result
        (mon.new.displays.items ≡ with_display address mon.old.displays.items) }
    ensures memory { OnErr result (IsEither mon.new.displays.items mon.old.displays.items
        (with_display address mon.old.displays.items)) }
    ensures course { course_of mon.new ≡ course_of mon.old }
    ensures stops { mon.new.stops ≡ mon.old.stops }
    ensures places { mon.new.places ≡ mon.old.places }
    ensures text { OnOk result (mon.new.text.items ≡ mon.old.text.items
        ++ display_set_text mon.old.places.names mon.old.session.current address
        mon.old.displays.items) }
{
    if add_display(&mut mon.displays, address)? {
        show_displays(mon)
    } else {
        mon.say(DISPLAYS_FULL)
    }
}

/// Returns whether an address is another one.
fn is_other(address: u16, at: u16) -> bool
    ensures { result ≡ is_other address at }
{
    address != at
}

/// Takes an address from those shown.
fn remove_display(displays: &mut Vec<u16>, address: u16)
    ensures { displays.new.items ≡ without_display address displays.old.items }
{
    displays.retain(|at| is_other(address, *at));
}

/// Says that an address is not shown any more, or was not.
fn say_undisplayed(mon: &mut MonState, address: u16, stood: bool) -> Result<(), AllocError>
    ensures shows { ShowsOnly mon.old mon.new }
    ensures text { OnOk result (mon.new.text.items ≡ mon.old.text.items
        ++ undisplayed_text mon.old.places.names address stood) }
{
    if stood {
        mon.say(DELETED)?;
        push_place(&mut mon.text, &mon.places, address)?;
        mon.say("\n")
    } else {
        push_place(&mut mon.text, &mon.places, address)?;
        mon.say(NOT_DISPLAYED)
    }
}

/// Shows the byte at an address no more, and says so.
///
/// Errors: `AllocError` if an allocation fails; the byte is shown no more all the same.
pub fn undisplay(mon: &mut MonState, address: u16) -> Result<(), AllocError>
    ensures displays { mon.new.displays.items
        ≡ without_display address mon.old.displays.items }
    ensures course { course_of mon.new ≡ course_of mon.old }
    ensures stops { mon.new.stops ≡ mon.old.stops }
    ensures places { mon.new.places ≡ mon.old.places }
    ensures text { OnOk result (mon.new.text.items ≡ mon.old.text.items
        ++ undisplayed_text mon.old.places.names address
        (is_displayed address mon.old.displays.items)) }
{
    let stood = is_displayed(mon.displays.as_slice(), address);
    remove_display(&mut mon.displays, address);
    say_undisplayed(mon, address, stood)
}
