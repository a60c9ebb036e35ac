//! The call that a run is within.

ghost use Rattle.std.specs.Prelude.{◌≡◌};
ghost use Rattle.line_steps.specs.Calls.{call_begun, call_open, is_call};

use debugger::Session;

/// The opcode of JSR.
const JSR: u8 = 0x20;

/// The opcode of BRK.
const BRK: u8 = 0x00;

/// Returns whether the next step is a call: a JSR, a BRK, or the entry of an interrupt.
fn is_call(session: &Session) -> bool
    ensures { result ≡ is_call session.now.current }
{
    let opcode = session.peek(session.regs().pc);
    session.entry_is_due() || opcode == JSR || opcode == BRK
}

/// Returns the call that a run is within as its next step begins, by the stack pointer before the
/// call: the one that it was within, or the step itself if that is a call.
pub fn call_begun(call: Option<u8>, session: &Session) -> Option<u8>
    ensures { result ≡ call_begun call session.now.current }
{
    match call {
        Some(stack) => Some(stack),
        None => {
            if is_call(session) {
                Some(session.regs().s)
            } else {
                None
            }
        }
    }
}

/// Returns the call that a run is still within once a step was made: none if the stack pointer is
/// back where it was before the call, or above.
pub fn call_open(call: Option<u8>, session: &Session) -> Option<u8>
    ensures { result ≡ call_open call session.now.current }
{
    match call {
        Some(stack) => {
            if session.regs().s < stack {
                Some(stack)
            } else {
                None
            }
        }
        None => None,
    }
}
