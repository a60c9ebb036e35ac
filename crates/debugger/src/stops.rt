//! Why a run ends after a step.

ghost use Rattle.std.specs.Prelude.{◌≡◌, ◌≤◌, ◌∷◌, slice_index, min, nat_eq, if◌then◌else◌, Some};
ghost use Rattle.std.specs.Prelude.{None};
ghost use Rattle.std.specs.List.{list_any};
ghost use Rattle.model.specs.declared.run_end.Why.TheVariants.{Break};
ghost use Rattle.std.specs.Option.{option_map_or};
ghost use Rattle.model.specs.Undo.{bus_before, put_cells, cells_of};
ghost use Rattle.model.specs.Run.{changed_addresses, lowest};
ghost use Rattle.debugger.specs.Stops.{before_of, stop_after};

use crate::address_table::AddressTable;
use bus::Change;
use cpu::Machine;
use model::Why;

/// Steps of a run that were made one after another, and why the run ends with the last of them, if
/// it does.
#[derive(Clone, Copy)]
pub struct Stretch {
    pub steps: u32,
    pub why: Option<Why>,
}

/// Returns why a run ends in this state, after the step that the change is of, if it does.
#[inline(always)]
#[tactic(auto, unfolding(crate::specs::Stops::stop_after, model::specs::Run::watch_met, model::specs::Run::break_met))]
pub fn stop_after(
    machine: &Machine,
    watches: &AddressTable,
    breaks: &AddressTable,
    change: &Change,
) -> Option<Why>
    requires { change.now.count ≤ 3 }
    ensures { result ≡ stop_after watches.now breaks.now change.now machine.now }
{
    if let Some(address) = lowest_changed(machine, watches, change) {
        return Some(Why::Watch(address));
    }
    break_at(machine.pc(), breaks)
}

/// Returns why a run ends at an address after a step that changes no watched byte, if it does.
#[inline(always)]
pub fn break_at(pc: u16, breaks: &AddressTable) -> Option<Why>
    ensures { result ≡ if list_any (nat_eq pc) breaks.now then Some (Break pc) else None }
{
    if breaks.contains(pc) {
        Some(Why::Break(pc))
    } else {
        None
    }
}

/// Returns the lowest watched address whose byte of memory is not what it was before the step that
/// the change is of.
#[inline(always)]
fn lowest_changed(machine: &Machine, watches: &AddressTable, change: &Change) -> Option<u16>
    requires { change.now.count ≤ 3 }
    ensures { result ≡ lowest (changed_addresses watches.now (before_of change.now machine.now)
        machine.now) }
{
    if change.count == 0 {
        return None;
    }
    if watches.len() == 0 {
        return None;
    }
    lowest_stored(machine, watches, change)
}

/// Returns the same, where the step has stored something.
#[inline(never)]
fn lowest_stored(machine: &Machine, watches: &AddressTable, change: &Change) -> Option<u16>
    requires { change.now.count ≤ 3 }
    ensures { result ≡ lowest (changed_addresses watches.now (before_of change.now machine.now)
        machine.now) }
{
    let mut least = None;
    let mut index = watches.len();
    while index > 0 {
        index -= 1;
        if let Some(address) = watches.at(index) {
            if byte_before(machine, change, address) != machine.peek(address) {
                least = Some(lower(address, least));
            }
        }
    }
    least
}

/// Returns the lower of two addresses, if there is a second one.
fn lower(address: u16, other: Option<u16>) -> u16
    ensures { result ≡ option_map_or (min address) other address }
{
    match other {
        Some(other) if other < address => other,
        _ => address,
    }
}

/// Returns the byte of memory before the step that the change is of.
#[tactic(auto, unfolding(model::specs::Undo::bus_before))]
fn byte_before(machine: &Machine, change: &Change, address: u16) -> u8
    requires { change.now.count ≤ 3 }
    ensures { result ≡ slice_index (before_of change.now machine.now).bus.memory address }
{
    let mut byte = machine.peek(address);
    for (place, old) in &change.cells[..change.count as usize] {
        if *place == address {
            byte = *old;
        }
    }
    byte
}
