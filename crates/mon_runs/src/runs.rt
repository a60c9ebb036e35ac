//! The runs.

ghost use Rattle.std.specs.Prelude.{◌≡◌, ◌≢◌, ◌==◌, Err, IfErr, IfOk, IsErrOf, IsOk, None, Ok};
ghost use Rattle.std.specs.Prelude.{Some};
ghost use Rattle.model.specs.Back.{states};
ghost use Rattle.model.specs.Breakpoints.{break_set};
ghost use Rattle.model.specs.Run.{after_steps};
ghost use Rattle.mon_runs.specs.Goals.{without_break};
ghost use Rattle.mon_runs.specs.PastBreaks.{count_run, go_run, if_all, most_steps, out_run, over_run};
ghost use Rattle.mon_runs.specs.PastBreaks.{until_run};
ghost use Rattle.mon_runs.specs.Looked.{looked_run};
ghost use Rattle.mon_runs.specs.Runs.{HasMadeStates};

use crate::ended::{EndWhy, Ended};
use crate::looked::{Goal, lead};
use crate::stops::Stops;
use crate::stretches::run_on;
use debugger::{Session, SessionFault, Why};

/// The opcode of JSR.
const JSR: u8 = 0x20;

/// The most steps of a run that nobody gave a number of steps.
pub const MOST_STEPS: u32 = 5_000_000;

/// The most steps of a run of so many where reads, writes or registers are watched.
const MOST_LOOKED: u32 = 10_000_000;

/// Runs to a goal, for at most 5,000,000 steps.
fn lead_on(session: &mut Session, stops: &mut Stops, goal: Goal, until: Option<u16>) -> Ended
    ensures steps { session.new ≡ after_steps result.did session.old }
    ensures run { looked_run stops.old.watches.items goal until most_steps
        (session.old, stops.old.breaks.items)
        ≡ (result, (session.new, stops.new.breaks.items)) }
    ensures watches { stops.new.watches ≡ stops.old.watches }
    ensures changes { stops.new.changes ≡ stops.old.changes }
{
    lead(session, stops, goal, until, MOST_STEPS)
}

/// Makes a JSR as one: steps until its subroutine has returned, so that the program counter is
/// behind the JSR and the stack pointer is what it was. Any other instruction is one step.
///
/// A JSR ends early at a watch, a breakpoint, a step that is rejected, where the program rests as
/// `go` says, and after 5,000,000 steps. Source: MCS6500 manual, chapter 8; mos65.
#[tactic(auto, unfolding(crate::specs::PastBreaks::over_run))]
pub fn over(session: &mut Session, stops: &mut Stops) -> Ended
    ensures steps { session.new ≡ after_steps result.did session.old }
    ensures run { over_run stops.old.watches.items (session.old, stops.old.breaks.items)
        ≡ (result, (session.new, stops.new.breaks.items)) }
    ensures watches { stops.new.watches ≡ stops.old.watches }
    ensures changes { stops.new.changes ≡ stops.old.changes }
{
    let regs = session.regs();
    if session.peek(regs.pc) == JSR {
        let pc = regs.pc.wrapping_add(3);
        let stack = regs.s;
        lead_on(session, stops, Goal::Behind { pc, stack }, None)
    } else {
        lead(session, stops, Goal::Never, None, 1)
    }
}

/// Steps until the subroutine that is running has returned: until an RTS or an RTI leaves the stack
/// pointer above where it is now. Ends early as `over` does.
#[tactic(auto, unfolding(crate::specs::PastBreaks::out_run))]
pub fn out(session: &mut Session, stops: &mut Stops) -> Ended
    ensures steps { session.new ≡ after_steps result.did session.old }
    ensures run { out_run stops.old.watches.items (session.old, stops.old.breaks.items)
        ≡ (result, (session.new, stops.new.breaks.items)) }
    ensures watches { stops.new.watches ≡ stops.old.watches }
    ensures changes { stops.new.changes ≡ stops.old.changes }
{
    let stack = session.regs().s;
    lead_on(session, stops, Goal::Left { stack }, None)
}

/// Runs to a watch, a breakpoint, a step that is rejected, or to where the program rests, for at
/// most 5,000,000 steps.
///
/// The program rests after a jump or a branch to itself, before a BRK where both bytes at FFFE are
/// 0, and before an instruction that reads base+1 or base+2 while no input waits. At least one step
/// is made, so the run goes on from where it ended. Source: mos65.
#[tactic(auto, unfolding(crate::specs::PastBreaks::go_run))]
pub fn go(session: &mut Session, stops: &mut Stops) -> Ended
    ensures steps { session.new ≡ after_steps result.did session.old }
    ensures run { go_run stops.old.watches.items (session.old, stops.old.breaks.items)
        ≡ (result, (session.new, stops.new.breaks.items)) }
    ensures watches { stops.new.watches ≡ stops.old.watches }
    ensures changes { stops.new.changes ≡ stops.old.changes }
{
    lead_on(session, stops, Goal::Rest, None)
}

/// Returns why a run ends that made so many steps of those asked for.
fn why_of_all(end: Ended, count: u32) -> EndWhy
    ensures { result ≡ if_all (end.did == count) end.why }
{
    match end.why {
        EndWhy::Many if end.did == count as u64 => EndWhy::Stopped(Why::Limit),
        why => why,
    }
}

/// Runs so many steps, or to a stop before.
#[tactic(auto, unfolding(crate::specs::PastBreaks::count_run))]
pub fn run(session: &mut Session, stops: &mut Stops, count: u32) -> Ended
    ensures steps { session.new ≡ after_steps result.did session.old }
    ensures run { count_run count stops.old.watches.items
        (session.old, stops.old.breaks.items)
        ≡ (result, (session.new, stops.new.breaks.items)) }
    ensures watches { stops.new.watches ≡ stops.old.watches }
    ensures changes { stops.new.changes ≡ stops.old.changes }
{
    if stops.has_changes_only() {
        run_on(session, stops, count)
    } else {
        let end = lead(session, stops, Goal::Never, None, count.min(MOST_LOOKED));
        Ended {
            did: end.did,
            why: why_of_all(end, count),
            from: end.from,
        }
    }
}

/// Runs as `go` does, and stops at an address too: a breakpoint stands there while it runs, and
/// stays only where it was set before.
///
/// # Errors
///
/// - `TableFull`: 256 other breakpoints are set.
/// - `OutOfMemory`: an allocation failed.
///
/// Nothing is changed then.
#[tactic(auto, unfolding(crate::specs::PastBreaks::until_run))]
pub fn until(session: &mut Session, stops: &mut Stops, address: u16) -> Result<Ended, SessionFault>
    ensures steps { IfOk result (λ end. HasMadeStates end.did session.old session.new) }
    ensures ok { IfOk result (λ end. until_run address stops.old.watches.items
        (session.old, stops.old.breaks.items)
        ≡ Ok (end, (session.new, stops.new.breaks.items))) }
    ensures err { IfErr result (λ fault. (session.new ≡ session.old)
        × (stops.new.breaks ≡ stops.old.breaks)
        × (fault ≢ SessionFault.OutOfMemory
        → until_run address stops.old.watches.items
        (session.old, stops.old.breaks.items) ≡ Err fault)) }
    ensures memory { IsErrOf result SessionFault.OutOfMemory
        → IsOk (break_set address session.old) }
    ensures watches { stops.new.watches ≡ stops.old.watches }
    ensures changes { stops.new.changes ≡ stops.old.changes }
{
    match session.set_break(address) {
        Ok(()) => {
            let end = lead_on(session, stops, Goal::Rest, Some(address));
            clear_break(session, address);
            Ok(end)
        }
        Err(SessionFault::AlreadySet) => Ok(lead_on(session, stops, Goal::Rest, Some(address))),
        Err(fault) => Err(fault),
    }
}

/// Clears a breakpoint, if it is set.
#[tactic(auto, unfolding(crate::specs::Goals::without_break))]
fn clear_break(session: &mut Session, address: u16)
    ensures states { states session.new ≡ states session.old }
    ensures cleared { session.new ≡ without_break address session.old }
{
    let _ = session.clear_break(address);
}
