//! Lines that put bytes into memory, or hand them to the console's input.

ghost use Rattle.std.specs.Prelude.{◌≡◌, ◌≤◌, ◌+◌, ◌++◌, [], IfOk, OnOk, is_none, length};
ghost use Rattle.mon_settings.specs.ByteLines.{all_happened, bytes_put, first_fault, inputs};
ghost use Rattle.mon_settings.specs.ByteLines.{patches};
ghost use Rattle.mon_settings.specs.ChangeTexts.{events_text, handed_text, put_text, stored_text};
ghost use Rattle.mon_session.specs.Course.{KeepsStops, ShowsOnly, course_of};

use crate::wording::{BYTE_AT, BYTE_HANDED_IN, BYTES_AT, BYTES_HANDED_IN};
use model::EventFault;
use mon_instructions::push_place;
use mon_runs::Event;
use mon_session::MonState;
use std::alloc::AllocError;

/// Puts bytes that do not go past FFFF into memory, an event for each, up to the first that is
/// rejected, and says why that one is. Returns whether none was.
fn patch_each(mon: &mut MonState, address: u16, bytes: &[u8]) -> Result<bool, AllocError>
    requires { address + length bytes.now ≤ 65536 }
    ensures course { course_of mon.new
        ≡ all_happened (patches address bytes.now) (course_of mon.old) }
    ensures stops { KeepsStops mon.old mon.new }
    ensures done { IfOk result (λ is_done. is_done
        ≡ is_none (first_fault (patches address bytes.now) (course_of mon.old))) }
    ensures text { OnOk result (mon.new.text.items ≡ mon.old.text.items
        ++ events_text mon.old.places.names []
        (first_fault (patches address bytes.now) (course_of mon.old))) }
{
    for (index, byte) in bytes.iter().enumerate() {
        let patch = Event::Patch {
            address: (address as usize + index) as u16,
            bytes: [*byte, 0, 0],
            count: 1,
        };
        if !mon.happen(patch)? {
            return Ok(false);
        }
    }
    Ok(true)
}

/// Says how many bytes were put into memory, and where.
fn say_stored(mon: &mut MonState, address: u16, count: usize) -> Result<(), AllocError>
    ensures shows { ShowsOnly mon.old mon.new }
    ensures text { OnOk result (mon.new.text.items ≡ mon.old.text.items
        ++ stored_text mon.old.places.names address count) }
{
    mon.count(count as u64, BYTE_AT, BYTES_AT)?;
    push_place(&mut mon.text, &mon.places, address)?;
    mon.say("\n")
}

/// Puts bytes that do not go past FFFF into memory, an event for each, up to the first that is
/// rejected. Says how many there are, or why not all of them are there.
#[tactic(auto, using(crate::proofs::Made::said))]
fn put_within(mon: &mut MonState, address: u16, bytes: &[u8]) -> Result<(), AllocError>
    requires { address + length bytes.now ≤ 65536 }
    ensures course { course_of mon.new
        ≡ all_happened (patches address bytes.now) (course_of mon.old) }
    ensures stops { KeepsStops mon.old mon.new }
    ensures text { OnOk result (mon.new.text.items ≡ mon.old.text.items
        ++ events_text mon.old.places.names
        (stored_text mon.old.places.names address (length bytes.now))
        (first_fault (patches address bytes.now) (course_of mon.old))) }
{
    if !patch_each(mon, address, bytes)? {
        return Ok(());
    }
    say_stored(mon, address, bytes.len())
}

/// Puts bytes into memory, an event for each, up to the first that is rejected. Does nothing if
/// they go past FFFF. Says how many there are, or why not all of them are there.
///
/// Errors: `AllocError` if an allocation fails; the bytes are put there all the same.
pub fn put(mon: &mut MonState, address: u16, bytes: &[u8]) -> Result<(), AllocError>
    ensures course { course_of mon.new
        ≡ bytes_put address bytes.now (course_of mon.old) }
    ensures stops { KeepsStops mon.old mon.new }
    ensures text { OnOk result (mon.new.text.items ≡ mon.old.text.items
        ++ put_text mon.old.places.names address bytes.now (course_of mon.old)) }
{
    if bytes.len() > 65536 - address as usize {
        return mon.reject(EventFault::PastEnd);
    }
    put_within(mon, address, bytes)
}

/// Hands bytes to the console's input, up to the first that is rejected, and says why that one is.
/// Returns whether none was.
fn hand_each(mon: &mut MonState, bytes: &[u8]) -> Result<bool, AllocError>
    ensures course { course_of mon.new
        ≡ all_happened (inputs bytes.now) (course_of mon.old) }
    ensures stops { KeepsStops mon.old mon.new }
    ensures done { IfOk result (λ is_done. is_done
        ≡ is_none (first_fault (inputs bytes.now) (course_of mon.old))) }
    ensures text { OnOk result (mon.new.text.items ≡ mon.old.text.items
        ++ events_text mon.old.places.names []
        (first_fault (inputs bytes.now) (course_of mon.old))) }
{
    for byte in bytes {
        if !mon.happen(Event::Input(*byte))? {
            return Ok(false);
        }
    }
    Ok(true)
}

/// Hands bytes to the console's input, up to the first that is rejected. Says how many there are,
/// or why not all of them are handed in.
///
/// Errors: `AllocError` if an allocation fails; the bytes are handed in all the same.
#[tactic(auto, using(crate::proofs::Made::said))]
pub fn hand_in(mon: &mut MonState, bytes: &[u8]) -> Result<(), AllocError>
    ensures course { course_of mon.new
        ≡ all_happened (inputs bytes.now) (course_of mon.old) }
    ensures stops { KeepsStops mon.old mon.new }
    ensures text { OnOk result (mon.new.text.items ≡ mon.old.text.items
        ++ handed_text mon.old.places.names bytes.now (course_of mon.old)) }
{
    if !hand_each(mon, bytes)? {
        return Ok(());
    }
    mon.count(bytes.len() as u64, BYTE_HANDED_IN, BYTES_HANDED_IN)
}
