//! Runs to an address, and subroutine calls.

ghost use Rattle.std.specs.Prelude.{◌≡◌, ◌≢◌, ◌-◌, Ok, Err, IfOk, IfErr, IsErrOf, IsOk};
ghost use Rattle.model.specs.Breakpoints.{break_set};
ghost use Rattle.rig.specs.Subroutine.{after_event, byte_patched, call_of};
ghost use Rattle.rig.specs.Subroutine.{call_with_of, called, given_to, return_address, run_to_of};
ghost use Rattle.rig.specs.Subroutine.{without_break};

use crate::given::{Called, Given};
use debugger::{Event, RunEnd, Session, SessionFault, Setting};

/// Where a called subroutine returns to (`specs/Subroutine.antt`).
const RETURN_ADDRESS: u16 = 0xffff;

/// Runs as `Session::run` does, up to `limit` steps, and stops at an address too: a breakpoint
/// stands there while it runs, and stays only where it was set before.
///
/// # Errors
///
/// - `TableFull`: 256 other breakpoints are set.
/// - `OutOfMemory`: a request for memory was refused.
///
/// Nothing is changed then.
#[tactic(auto, unfolding(crate::specs::Subroutine::run_to_of))]
pub fn run_to(session: &mut Session, address: u16, limit: u32) -> Result<RunEnd, SessionFault>
    ensures ok { IfOk result (λ end. run_to_of address limit session.old ≡ Ok (end, session.new)) }
    ensures err { IfErr result (λ fault. (session.new ≡ session.old)
        × (fault ≢ SessionFault.OutOfMemory → run_to_of address limit session.old ≡ Err fault)) }
    ensures memory { IsErrOf result SessionFault.OutOfMemory
        → IsOk (break_set address session.old) }
{
    match session.set_break(address) {
        Ok(()) => {
            let end = session.run(limit);
            clear_break(session, address);
            Ok(end)
        }
        Err(SessionFault::AlreadySet) => Ok(session.run(limit)),
        Err(fault) => Err(fault),
    }
}

/// Calls a subroutine as a JSR at $FFFC would, and runs up to `limit` steps to its RTS: the run
/// then ends at a breakpoint at $FFFF, and the stack pointer is what it was. The four events of the
/// call and then each step are held. The JSR itself is no step, so its 6 cycles are not counted.
/// (MCS6500 manual, chapter 8, for what JSR pushes.)
///
/// # Errors
///
/// - `TableFull`: 256 other breakpoints are set.
/// - `OutOfMemory`: a request for memory was refused.
///
/// Nothing is changed then.
#[tactic(auto, unfolding(crate::specs::Subroutine::call_of))]
pub fn call(session: &mut Session, address: u16, limit: u32) -> Result<RunEnd, SessionFault>
    ensures ok { IfOk result (λ end. call_of address limit session.old ≡ Ok (end, session.new)) }
    ensures err { IfErr result (λ fault. (session.new ≡ session.old)
        × (fault ≢ SessionFault.OutOfMemory → call_of address limit session.old ≡ Err fault)) }
    ensures memory { IsErrOf result SessionFault.OutOfMemory
        → IsOk (break_set return_address session.old) }
{
    match session.set_break(RETURN_ADDRESS) {
        Ok(()) => {
            push_return(session, address);
            let end = session.run(limit);
            clear_break(session, RETURN_ADDRESS);
            Ok(end)
        }
        Err(SessionFault::AlreadySet) => {
            push_return(session, address);
            Ok(session.run(limit))
        }
        Err(fault) => Err(fault),
    }
}

/// Calls a subroutine as `call` does, with registers set before: each that is given is an event of
/// its own before the call's four. Tells the cycles of the run too.
///
/// # Errors
///
/// - `TableFull`: 256 other breakpoints are set.
/// - `OutOfMemory`: a request for memory was refused.
///
/// Nothing is changed then, and no register is set.
#[tactic(auto, unfolding(crate::specs::Subroutine::call_with_of))]
pub fn call_with(
    session: &mut Session,
    given: Given,
    address: u16,
    limit: u32,
) -> Result<Called, SessionFault>
    ensures ok { IfOk result (λ done. (call_with_of given address limit session.old
        ≡ Ok (done.end, session.new))
        × (done.cycles ≡ session.new.current.cycles - session.old.current.cycles)) }
    ensures err { IfErr result (λ fault. (session.new ≡ session.old)
        × (fault ≢ SessionFault.OutOfMemory
        → call_with_of given address limit session.old ≡ Err fault)) }
    ensures memory { IsErrOf result SessionFault.OutOfMemory
        → IsOk (break_set return_address session.old) }
{
    let before = session.cycles();
    let was_set = match session.set_break(RETURN_ADDRESS) {
        Ok(()) => false,
        Err(SessionFault::AlreadySet) => true,
        Err(fault) => return Err(fault),
    };
    set_given(session, given);
    push_return(session, address);
    let end = session.run(limit);
    if !was_set {
        clear_break(session, RETURN_ADDRESS);
    }
    Ok(Called {
        end,
        cycles: session.cycles().saturating_sub(before),
    })
}

/// Sets the registers that have a value.
#[tactic(auto, unfolding(crate::specs::Subroutine::given_to))]
fn set_given(session: &mut Session, given: Given)
    ensures { session.new ≡ given_to given session.old }
{
    if let Some(a) = given.a {
        happen(session, Event::Set(Setting::A(a)));
    }
    if let Some(x) = given.x {
        happen(session, Event::Set(Setting::X(x)));
    }
    if let Some(y) = given.y {
        happen(session, Event::Set(Setting::Y(y)));
    }
}

/// What a JSR at $FFFC does.
#[tactic(auto, unfolding(crate::specs::Subroutine::called))]
fn push_return(session: &mut Session, address: u16)
    ensures { session.new ≡ called address session.old }
{
    let stack = session.regs().s;
    patch_byte(session, 0x0100 + stack as u16, 0xff);
    patch_byte(session, 0x0100 + stack.wrapping_add(255) as u16, 0xfe);
    happen(session, Event::Set(Setting::S(stack.wrapping_add(254))));
    happen(session, Event::Set(Setting::Pc(address)));
}

/// Puts a byte at an address.
pub fn patch_byte(session: &mut Session, address: u16, byte: u8)
    ensures { session.new ≡ after_event session.old (byte_patched address byte) }
{
    happen(
        session,
        Event::Patch {
            address,
            bytes: [byte, 0, 0],
            count: 1,
        },
    );
}

/// Makes an event. One that is refused changes nothing.
#[tactic(auto, unfolding(crate::specs::Subroutine::after_event))]
pub fn happen(session: &mut Session, event: Event)
    ensures { session.new ≡ after_event session.old event }
{
    let _ = session.event(event);
}

#[tactic(auto, unfolding(crate::specs::Subroutine::without_break))]
fn clear_break(session: &mut Session, address: u16)
    ensures { session.new ≡ without_break address session.old }
{
    let _ = session.clear_break(address);
}
