//! What the tests of several files share: a session and a machine on nothing, and events.

ghost use Rattle.std.specs.Prelude.{◌≤◌};

use bus::{Image, MapSpec};
use cpu::Machine;
use debugger::{Event, EventFault, Session};
use std::alloc::Global;
use std::test::Fail;

/// The map with the port at $F000 and no ROM.
pub fn port_alone() -> Result<MapSpec, Fail> {
    Ok(MapSpec::new(None, 0xf000)?)
}

/// A session on no image: PC is $0000, S is $FD, 7 cycles have passed, and each step is a BRK.
pub fn empty_session(alloc: Global, history: u32) -> Result<Session, Fail>
    requires { history ≤ 65536 }
{
    let image = Image::new(alloc)?;
    Ok(Session::new(alloc, port_alone()?, &image, history)?)
}

/// A machine on no image.
pub fn empty_machine(alloc: Global) -> Result<Machine, Fail> {
    let image = Image::new(alloc)?;
    Ok(Machine::new(alloc, port_alone()?, &image)?)
}

/// One event. What an event does stands where it is called, so it is called here alone.
#[inline(never)]
pub fn happened(session: &mut Session, event: Event) -> Result<(), EventFault> {
    session.event(event)
}
