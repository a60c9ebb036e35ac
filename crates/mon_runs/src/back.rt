//! Back over a subroutine.

ghost use Rattle.std.specs.Prelude.{◌≡◌, ◌<◌, ◌≤◌, length};
ghost use Rattle.model.specs.Back.{without_last};
ghost use Rattle.model.specs.State.{State};
ghost use Rattle.mon_runs.specs.Back.{back_over, gone_over, is_call, was_return};
ghost use Rattle.mon_runs.specs.Runs.{gone_back};

use debugger::Session;

/// The opcode of JSR.
const JSR: u8 = 0x20;

/// The opcode of RTS.
const RTS: u8 = 0x60;

/// Returns whether the event that led from the current state to one with these cycles was the step
/// of an RTS. The entry of an interrupt in its place takes other cycles.
fn was_return(session: &Session, cycles: u64) -> bool
    ensures { (s : State) → cycles ≡ s.cycles → result ≡ was_return session.now.current s }
{
    let before = session.cycles();
    session.peek(session.regs().pc) == RTS && cycles >= before && cycles - before == 6
}

/// Returns whether the current state is at a JSR with this stack pointer.
fn is_call(session: &Session, stack: u8) -> bool
    ensures { result ≡ is_call stack session.now.current }
{
    let regs = session.regs();
    regs.s == stack && session.peek(regs.pc) == JSR
}

/// Undoes one event.
fn back_by_one(session: &mut Session)
    requires { 0 < length session.old.earlier }
    ensures { session.new ≡ without_last 1 session.old }
{
    let _ = session.back(1);
}

/// Undoes one event at a time, up to the JSR with this stack pointer, or so many events. Returns
/// how many it has undone.
fn back_to_call(session: &mut Session, stack: u8, most: u32) -> u32
    requires { most ≤ length session.old.earlier }
    ensures undone { session.new ≡ gone_back result session.old }
    ensures over { gone_over stack most session.old ≡ (result, session.new) }
    ensures within { result ≤ most }
{
    for undone in 0..most {
        back_by_one(session);
        if is_call(session, stack) {
            return undone + 1;
        }
    }
    most
}

/// Undoes one event, or a whole subroutine if that event was its RTS; at most all events that are
/// held. Returns how many it has undone. Does not allocate.
pub fn back_over(session: &mut Session) -> u32
    ensures undone { session.new ≡ gone_back result session.old }
    ensures over { back_over session.old ≡ (result, session.new) }
{
    let stack = session.regs().s;
    let cycles = session.cycles();
    let held = session.held();
    if held == 0 {
        return 0;
    }
    back_by_one(session);
    if !was_return(session, cycles) {
        return 1;
    }
    back_to_call(session, stack, held - 1) + 1
}
