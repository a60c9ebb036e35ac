//! Breakpoints set and cleared.

ghost use Rattle.std.specs.Prelude.{◌≡◌, OnOk};
ghost use Rattle.dap_desk.specs.Breaks.{KeepsEvents, all_cleared, all_set, place_of, set_at};

use dap_messages::Placed;
use mon_runs::{Break, SessionFault};
use mon_session::MonState;
use std::alloc::AllocError;

/// Sets a breakpoint, in place of the one at its address. Does nothing if the session has 256
/// others.
fn set(mon: &mut MonState, stop: Break) -> Result<(), AllocError>
    ensures place { OnOk result (place_of mon.new ≡ set_at stop (place_of mon.old)) }
    ensures kept { KeepsEvents mon.old mon.new }
{
    match mon.session.set_break(stop.address) {
        Ok(()) | Err(SessionFault::AlreadySet) => mon.stops.note_break(stop),
        Err(SessionFault::OutOfMemory) => Err(AllocError),
        Err(_) => Ok(()),
    }
}

/// Replaces the breakpoints that stand somewhere by others. Those that the session has no room for
/// are not set.
///
/// Errors: `AllocError` if an allocation fails; the old ones are cleared then, and some of the new
/// ones may be set.
#[tactic(auto, unfolding(mon_runs::specs::Goals::without_break))]
pub fn replace(mon: &mut MonState, old: &[Placed], stops: Vec<Break>) -> Result<(), AllocError>
    ensures place { OnOk result (place_of mon.new
        ≡ all_set stops.items (all_cleared old.now (place_of mon.old))) }
    ensures kept { KeepsEvents mon.old mon.new }
{
    for placed in old {
        let _ = mon.session.clear_break(placed.address);
        let _ = mon.stops.forget_break(placed.address);
    }
    for stop in stops {
        set(mon, stop)?;
    }
    Ok(())
}
