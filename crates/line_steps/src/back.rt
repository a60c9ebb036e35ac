//! Back by lines.

ghost use Rattle.std.specs.Prelude.{◌≡◌, ◌<◌, ◌≤◌, ◌&&◌, is_some, length, nat_lt, not};
ghost use Rattle.model.specs.Back.{without_last};
ghost use Rattle.model.specs.State.{State};
ghost use Rattle.line_steps.specs.Back.{events_to_line, gone_back, highest_with, is_return};
ghost use Rattle.line_steps.specs.Lines.{begun};

use crate::lines::{LineStart, begun};
use debugger::Session;

/// The opcode of RTS.
const RTS: u8 = 0x60;

/// The opcode of RTI.
const RTI: u8 = 0x40;

/// Undoes one event.
fn back_by_one(session: &mut Session)
    requires { 0 < length session.old.earlier }
    ensures { session.new ≡ without_last 1 session.old }
{
    let _ = session.back(1);
}

/// Returns whether the event that led from the current state to one with these cycles was the step
/// of an RTS or an RTI.
fn was_return(session: &Session, cycles: u64) -> bool
    ensures { (s : State) → cycles ≡ s.cycles → result ≡ is_return session.now.current s }
{
    let before = session.cycles();
    let opcode = session.peek(session.regs().pc);
    (opcode == RTS || opcode == RTI) && cycles >= before && cycles - before == 6
}

/// Returns the higher one of two stack pointers if an event was a return, otherwise the second.
fn highest_with(is_return: bool, stack: u8, highest: u8) -> u8
    ensures { result ≡ highest_with is_return stack highest }
{
    if is_return && highest < stack {
        stack
    } else {
        highest
    }
}

/// Returns whether a line begins at the current state, and its stack pointer is not below the
/// highest one that later returns have left.
fn is_line(session: &Session, lines: &[LineStart], highest: u8) -> bool
    ensures { result ≡ (is_some (begun lines.now session.now.current)
        && not (nat_lt session.now.current.regs.s highest)) }
{
    begun(session, lines).is_some() && !(session.regs().s < highest)
}

/// Undoes as many events as lead to the last earlier state held at which a line begins, and that is
/// within no call that has returned since; all that are held if there is none. Returns how many
/// those are. Does not allocate.
pub fn back_by_line(session: &mut Session, lines: &[LineStart]) -> u32
    ensures undone { session.new ≡ gone_back result session.old }
    ensures count { result ≡ events_to_line lines.now session.old }
{
    let held = session.held();
    let mut highest = 0;
    for undone in 0..held {
        let stack = session.regs().s;
        let cycles = session.cycles();
        back_by_one(session);
        highest = highest_with(was_return(session, cycles), stack, highest);
        if is_line(session, lines, highest) {
            return undone + 1;
        }
    }
    held
}
