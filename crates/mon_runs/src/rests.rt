//! Where a program rests.

ghost use Rattle.std.specs.Prelude.{◌≡◌};
ghost use Rattle.model.specs.State.{State};
ghost use Rattle.mon_runs.specs.Rests.{has_no_handler, rest_between, waits};

use crate::ended::EndWhy;
use accesses::{input_waits, looks, stays};
use debugger::{Regs, Session};

/// The opcode of BRK.
const BRK: u8 = 0x00;

/// The vector of BRK and of IRQ.
const VECTOR: u16 = 0xFFFE;

/// Returns whether the program waits for input.
#[tactic(auto, unfolding(crate::specs::Rests::waits))]
fn waits(session: &Session) -> bool
    ensures { result ≡ waits session.now.current }
{
    !input_waits(session) && looks(session)
}

/// Returns whether a BRK comes next, and nothing stands at FFFE: both bytes of its vector are 0.
pub fn has_no_handler(session: &Session) -> bool
    ensures { result ≡ has_no_handler session.now.current }
{
    session.peek(session.regs().pc) == BRK
        && session.peek(VECTOR) == 0
        && session.peek(VECTOR + 1) == 0
}

/// Returns why the program rests after a step, if it does.
pub fn rest_since(session: &Session, before: Regs) -> Option<EndWhy>
    ensures { (s : State) → before ≡ s.regs → result ≡ rest_between s session.now.current }
{
    if stays(before, session.regs()) {
        Some(EndWhy::Stuck)
    } else if has_no_handler(session) {
        Some(EndWhy::NoHandler)
    } else if waits(session) {
        Some(EndWhy::Waits)
    } else {
        None
    }
}
