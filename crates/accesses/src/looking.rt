//! Where a program looks for input, and where it jumps to itself.

ghost use Rattle.std.specs.Prelude.{◌≡◌, ◌==◌, ◌+◌, Some};
ghost use Rattle.model.specs.State.{input_waits};
ghost use Rattle.cpu_step.specs.PlainSteps.{stays};
ghost use Rattle.accesses.specs.Looking.{is_input_address, looks};

use crate::access_here;
use debugger::Session;
use model::Regs;

/// Returns whether input waits: a byte was handed in that no read has taken. Source: mos65.
pub fn input_waits(session: &Session) -> bool
    ensures { result ≡ input_waits session.now.current.bus }
{
    let given = 65536 - session.input_room();
    session.bus().taken() < given
}

/// Returns whether an address is base+2, where a read says whether input waits.
#[tactic(auto, using(crate::proofs::Port::behind))]
fn is_signal(session: &Session, address: u16) -> bool
    ensures { result ≡ (address == session.now.current.bus.map.port + 2) }
{
    address > 0 && session.bus().takes_input(address - 1)
}

/// Returns whether a read at an address looks for input.
fn is_input_address(session: &Session, address: u16) -> bool
    ensures { result ≡ is_input_address session.now.current.bus.map (Some address) }
{
    session.bus().takes_input(address) || is_signal(session, address)
}

/// Returns whether the instruction at PC looks for input: it reads base+1 or base+2. Source: mos65.
#[tactic(auto, unfolding(crate::specs::Looking::looks))]
pub fn looks(session: &Session) -> bool
    ensures { result ≡ looks session.now.current }
{
    match access_here(session).read {
        None => false,
        Some(address) => is_input_address(session, address),
    }
}

/// Returns whether PC and S are the same after a step: the step was then a jump or a branch to
/// itself. Source: mos65.
pub fn stays(before: Regs, after: Regs) -> bool
    ensures { result ≡ stays before after }
{
    before.pc == after.pc && before.s == after.s
}
