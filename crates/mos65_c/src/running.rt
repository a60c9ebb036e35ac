//! Runs, subroutine calls, and going back.

ghost use Rattle.std.specs.Prelude.{◌≡◌, length, None, Some};
ghost use Rattle.model.specs.Back.{back_of};
ghost use Rattle.model.specs.Breakpoints.{break_set};
ghost use Rattle.model.specs.Run.{after_run, run_end};
ghost use Rattle.model.specs.Session.{Session as SessionView};
ghost use Rattle.mos65_c.specs.Answers.{AnswersCall, AnswersChange, AnswersRun};
ghost use Rattle.mos65_c.specs.Status.{ending_of, given_of};
ghost use Rattle.rig.specs.Subroutine.{call_of, call_with_of, return_address, run_to_of};

use crate::ending::{Called, Ending, Given, ending_of, given_of, registers_of};
use crate::machine::{CLOSED, Mos65};

/// Runs up to `limit` steps, to the first that changes a watched byte, leads to a breakpoint, or is
/// refused.
#[unsafe(no_mangle)]
pub extern "C" fn mos65_run(m: &mut Mos65, limit: u32, ending: &mut Ending) -> u32
    ensures live { (s : SessionView) → m.old.slot.session ≡ Some s
        → (result ≡ 0) × (ending.new ≡ ending_of (run_end limit s))
        × (m.new.slot.session ≡ Some (after_run limit s)) }
    ensures gone { m.old.slot.session ≡ None
        → (result ≡ 1) × (m.new.slot.session ≡ None) × (ending.new ≡ ending.old) }
{
    if !m.live {
        return CLOSED;
    }
    let end = m.slot.inside().run(limit);
    *ending = ending_of(end);
    0
}

/// Runs as `mos65_run` does, and stops at an address too.
#[unsafe(no_mangle)]
pub extern "C" fn mos65_run_to(m: &mut Mos65, address: u16, limit: u32, ending: &mut Ending) -> u32
    ensures live { (s : SessionView) → m.old.slot.session ≡ Some s
        → AnswersRun (run_to_of address limit s) (break_set address s) s ending.old result
        ending.new m.new.slot.session }
    ensures gone { m.old.slot.session ≡ None
        → (result ≡ 1) × (m.new.slot.session ≡ None) × (ending.new ≡ ending.old) }
{
    if !m.live {
        return CLOSED;
    }
    match rig::run_to(m.slot.inside(), address, limit) {
        Ok(end) => {
            *ending = ending_of(end);
            0
        }
        Err(fault) => 200 + fault.number() as u32,
    }
}

/// Calls a subroutine as a JSR at $FFFC would, and runs to its RTS.
#[unsafe(no_mangle)]
pub extern "C" fn mos65_call(m: &mut Mos65, address: u16, limit: u32, ending: &mut Ending) -> u32
    ensures live { (s : SessionView) → m.old.slot.session ≡ Some s
        → AnswersRun (call_of address limit s) (break_set return_address s) s ending.old result
        ending.new m.new.slot.session }
    ensures gone { m.old.slot.session ≡ None
        → (result ≡ 1) × (m.new.slot.session ≡ None) × (ending.new ≡ ending.old) }
{
    if !m.live {
        return CLOSED;
    }
    match rig::call(m.slot.inside(), address, limit) {
        Ok(end) => {
            *ending = ending_of(end);
            0
        }
        Err(fault) => 200 + fault.number() as u32,
    }
}

/// Calls a subroutine as `mos65_call` does, with the registers that are given set before, and tells
/// the registers and the cycles too. Each register that is set is one more event.
#[unsafe(no_mangle)]
pub extern "C" fn mos65_call_with(
    m: &mut Mos65,
    address: u16,
    limit: u32,
    given: &Given,
    called: &mut Called,
) -> u32
    ensures live { (s : SessionView) → m.old.slot.session ≡ Some s
        → AnswersCall (call_with_of (given_of given.now) address limit s)
        (break_set return_address s) s called.old result called.new m.new.slot.session }
    ensures gone { m.old.slot.session ≡ None
        → (result ≡ 1) × (m.new.slot.session ≡ None) × (called.new ≡ called.old) }
{
    if !m.live {
        return CLOSED;
    }
    let session = m.slot.inside();
    match rig::call_with(session, given_of(given), address, limit) {
        Ok(done) => {
            *called = Called {
                cycles: done.cycles,
                registers: registers_of(session),
                ending: ending_of(done.end),
            };
            0
        }
        Err(fault) => 200 + fault.number() as u32,
    }
}

/// Goes back over the last `count` events.
#[unsafe(no_mangle)]
pub extern "C" fn mos65_back(m: &mut Mos65, count: u32) -> u32
    ensures live { (s : SessionView) → m.old.slot.session ≡ Some s
        → AnswersChange (back_of count s) s result m.new.slot.session }
    ensures gone { m.old.slot.session ≡ None → (result ≡ 1) × (m.new.slot.session ≡ None) }
{
    if !m.live {
        return CLOSED;
    }
    match m.slot.inside().back(count) {
        Ok(()) => 0,
        Err(fault) => 200 + fault.number() as u32,
    }
}

/// Tells how many events can be gone back over.
#[unsafe(no_mangle)]
pub extern "C" fn mos65_held(m: &mut Mos65, count: &mut u32) -> u32
    ensures live { (s : SessionView) → m.old.slot.session ≡ Some s
        → (result ≡ 0) × (count.new ≡ length s.earlier) }
    ensures gone { m.old.slot.session ≡ None → (result ≡ 1) × (count.new ≡ count.old) }
    ensures same { m.new.slot.session ≡ m.old.slot.session }
{
    if !m.live {
        return CLOSED;
    }
    *count = m.slot.inside().held();
    0
}
