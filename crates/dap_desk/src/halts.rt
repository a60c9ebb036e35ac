//! Why the machine stands.

ghost use Rattle.std.specs.Prelude.{◌≡◌, None, if◌then◌else◌, nat_eq};
ghost use Rattle.std.specs.List.{list_any};
ghost use Rattle.dap_desk.specs.Halts.{back_reason, back_words, fault_of, line_words, reason_of};
ghost use Rattle.dap_desk.specs.Halts.{run_reason, run_words, stop_reason, stop_words, words_of};

use dap_messages::{Halt, Reason, stand_by};
use mon_runs::{EndWhy, Session, Why};
use mon_steps::wording::{NO_HANDLER, NO_STOP, RETURNED, STUCK, WAITS};

/// What is said at the oldest state that is held.
pub const OLDEST: &str = "the oldest state that is kept: nothing before it can be undone";

/// Returns why steps have ended, or a run to a stop.
pub fn end_halt(why: EndWhy, to_stop: bool) -> Halt
    ensures reason { result.reason ≡ if to_stop then run_reason why else reason_of why }
    ensures words { result.words.now ≡ if to_stop then run_words why else words_of why }
    ensures fault { result.fault ≡ fault_of why }
{
    match why {
        EndWhy::Met => stand_by(Reason::Step, RETURNED),
        EndWhy::Stopped(Why::Break(_)) => stand_by(Reason::Breakpoint, "a break"),
        EndWhy::Stopped(Why::Watch(_)) => {
            stand_by(Reason::DataBreakpoint, "a watched byte has changed")
        }
        EndWhy::Stopped(Why::Limit) if to_stop => stand_by(Reason::NoStop, NO_STOP),
        EndWhy::Stopped(Why::Limit) => stand_by(Reason::Step, "step"),
        EndWhy::Stopped(Why::Refused(fault)) => Halt {
            reason: Reason::Exception,
            words: "a step is refused",
            fault: Some(fault),
        },
        EndWhy::Many => stand_by(Reason::NoStop, NO_STOP),
        EndWhy::Read(_) => stand_by(Reason::DataBreakpoint, "a watched byte was read"),
        EndWhy::Written(_) => stand_by(Reason::DataBreakpoint, "a watched byte was written"),
        EndWhy::Changed(_) => stand_by(Reason::DataBreakpoint, "a watched register has changed"),
        EndWhy::Stuck => stand_by(Reason::Pause, STUCK),
        EndWhy::NoHandler => stand_by(Reason::Pause, NO_HANDLER),
        EndWhy::Waits => stand_by(Reason::Pause, WAITS),
    }
}

/// Returns why a run to a line has ended.
pub fn line_halt(why: EndWhy) -> Halt
    ensures reason { result.reason ≡ reason_of why }
    ensures words { result.words.now ≡ line_words why }
    ensures fault { result.fault ≡ fault_of why }
{
    match why {
        EndWhy::Met => stand_by(Reason::Step, "step"),
        why => end_halt(why, false),
    }
}

/// Returns whether a breakpoint of the session is at an address.
pub fn is_break(session: &Session, address: u16) -> bool
    ensures { result ≡ list_any (nat_eq address) session.now.breaks }
{
    for index in 0..session.break_count() {
        if session.break_at(index) == Some(address) {
            return true;
        }
    }
    false
}

/// Returns why the machine stands once events are undone, or once it has gone back to a stop.
pub fn back_halt(session: &Session, to_stop: bool) -> Halt
    ensures reason { result.reason
        ≡ if to_stop then stop_reason session.now else back_reason session.now }
    ensures words { result.words.now
        ≡ if to_stop then stop_words session.now else back_words session.now }
    ensures fault { result.fault ≡ None }
{
    if session.held() == 0 {
        stand_by(Reason::Entry, OLDEST)
    } else if !to_stop {
        stand_by(Reason::Step, "back")
    } else if is_break(session, session.regs().pc) {
        stand_by(Reason::Breakpoint, "back at a break")
    } else {
        stand_by(Reason::DataBreakpoint, "back before a change at a watch")
    }
}
