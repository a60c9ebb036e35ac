//! Calls that an interrupt comes into.

ghost use Rattle.std.specs.Prelude.{◌≡◌, ◌==◌, ◌+◌, ◌<◌, IfOk, IfSome, None, [], false, true};
ghost use Rattle.model.specs.Session.{Session as SeenSession};
ghost use Rattle.model.specs.State.{State};
ghost use Rattle.model.specs.Step.{step};
ghost use Rattle.rig.specs.Subroutine.{return_address, run_to_of};
ghost use Rattle.t65_runner.specs.Requests.{after_arrival, awaiting, is_due, is_due_in, is_open};
ghost use Rattle.t65_runner.specs.Requests.{waited, waited_on};
ghost use Rattle.t65_runner.specs.Start.{IsSince};
ghost use Rattle.t65_runner.specs.declared.requests.Wait.TheVariants.{Ended};

use debugger::{Event, RunEnd, Session, Why};
use rig::{happen, run_to};
use std::alloc::AllocError;
use t65_reader::Signal;

/// Where a called routine returns to.
const RETURN_ADDRESS: u16 = 0xffff;

/// An interrupt that has not come yet.
#[derive(Clone, Copy)]
pub struct Awaited {
    pub signal: Signal,
    /// The machine's cycles at the first instruction of the call.
    pub start: u64,
    /// How many cycles the call has taken when it comes, at least.
    pub cycle: u32,
}

/// How a call has ended.
#[derive(Clone, Copy)]
pub struct CallEnd {
    /// How many steps were made before an interrupt came, if one did.
    pub before: Option<u32>,
    /// How the run ended: the one after the interrupt's entry, or all of it where none came.
    pub end: RunEnd,
}

/// How the steps of a call end that are made before its interrupt comes.
#[derive(Clone, Copy)]
pub enum Wait {
    /// The interrupt is due after so many steps.
    Due(u32),
    /// The call ends before.
    Ended(RunEnd),
}

/// Returns whether an interrupt need not wait.
fn is_open(session: &Session, signal: Signal) -> bool
    ensures { result ≡ is_open signal session.now.current }
{
    match signal {
        Signal::Irq => !session.regs().flags.i,
        Signal::Nmi => true,
    }
}

/// Returns whether an interrupt is due before the next instruction.
fn is_due(session: &Session, awaited: Awaited) -> bool
    ensures { result ≡ is_due awaited session.now.current }
{
    let passed = session.cycles().saturating_sub(awaited.start);
    awaited.cycle as u64 <= passed && is_open(session, awaited.signal)
}

/// Returns whether an interrupt, if there is one, is due before the next instruction.
pub fn is_due_in(session: &Session, awaited: Option<Awaited>) -> bool
    ensures { result ≡ is_due_in awaited session.now.current }
{
    match awaited {
        None => false,
        Some(awaited) => is_due(session, awaited),
    }
}

/// Has an interrupt come: asks for it, makes its entry, and lets the line go.
#[tactic(auto, unfolding(crate::specs::Requests::after_arrival))]
pub fn arrive(session: &mut Session, signal: Signal)
    ensures after { session.new ≡ after_arrival signal session.old }
    ensures since { (s : State) → IsSince s session.old → IsSince s session.new }
    ensures stops { session.new.breaks ≡ session.old.breaks }
{
    match signal {
        Signal::Irq => {
            happen(session, Event::Irq(true));
            happen(session, Event::Step);
            happen(session, Event::Irq(false));
        }
        Signal::Nmi => {
            happen(session, Event::Nmi);
            happen(session, Event::Step);
        }
    }
}

/// Returns whether a call has come back.
pub fn is_back(session: &Session) -> bool
    ensures { result ≡ (session.now.current.regs.pc == 65535) }
{
    session.regs().pc == RETURN_ADDRESS
}

/// Makes a step of a call after some others, and returns how the call ends, if it does.
fn wait_step(session: &mut Session, did: u32) -> Option<RunEnd>
    requires { did < 4294967295 }
    ensures on { result ≡ None → (next : SeenSession → Wait × SeenSession)
        → waited_on did session.old next (step session.old.current) ≡ next session.new }
    ensures end { IfSome result (λ end. (next : SeenSession → Wait × SeenSession)
        → waited_on did session.old next (step session.old.current) ≡ (Ended end, session.new)) }
    ensures since { (s : State) → IsSince s session.old → IsSince s session.new }
    ensures stops { session.new.breaks ≡ session.old.breaks }
{
    match session.event(Event::Step) {
        Ok(()) => {
            if is_back(session) {
                Some(RunEnd {
                    did: did + 1,
                    why: Why::Break(RETURN_ADDRESS),
                })
            } else {
                None
            }
        }
        Err(fault) => Some(RunEnd {
            did,
            why: Why::Refused(fault),
        }),
    }
}

/// Makes so many steps of a call at most, until its interrupt is due.
fn wait_for(session: &mut Session, awaited: Awaited, limit: u32) -> Wait
    ensures waited { waited awaited 0 limit session.old ≡ (result, session.new) }
    ensures since { (s : State) → IsSince s session.old → IsSince s session.new }
    ensures stops { session.new.breaks ≡ session.old.breaks }
{
    for did in 0..limit {
        if is_due(session, awaited) {
            return Wait::Due(did);
        }
        if let Some(end) = wait_step(session, did) {
            return Wait::Ended(end);
        }
    }
    Wait::Ended(RunEnd {
        did: limit,
        why: Why::Limit,
    })
}

/// Runs up to so many steps until a call has come back, in a session with no breakpoint.
///
/// # Errors
///
/// `AllocError` if an allocation failed. Nothing is changed then.
pub fn run_back(session: &mut Session, limit: u32) -> Result<RunEnd, AllocError>
    requires stops { session.old.breaks ≡ [] }
    ensures ok { IfOk result
        (λ end. run_to_of return_address limit session.old ≡ Ok (end, session.new)) }
    ensures since { (s : State) → IsSince s session.old → IsSince s session.new }
    ensures stops { session.new.breaks ≡ [] }
{
    match run_to(session, RETURN_ADDRESS, limit) {
        Ok(end) => Ok(end),
        Err(_) => Err(AllocError),
    }
}

/// Runs a call that was entered, for so many steps at most, and has the interrupt come when it is
/// due. The entry is one of the steps.
///
/// # Errors
///
/// `AllocError` if an allocation failed.
#[tactic(auto, unfolding(crate::specs::Requests::awaiting))]
pub fn run_awaiting(
    session: &mut Session,
    awaited: Awaited,
    limit: u32,
) -> Result<CallEnd, AllocError>
    requires stops { session.old.breaks ≡ [] }
    ensures ok { IfOk result
        (λ end. awaiting awaited limit session.old ≡ Ok (end, session.new)) }
    ensures since { (s : State) → IsSince s session.old → IsSince s session.new }
    ensures stops { session.new.breaks ≡ [] }
{
    match wait_for(session, awaited, limit) {
        Wait::Due(did) => {
            arrive(session, awaited.signal);
            let left = limit.saturating_sub(did).saturating_sub(1);
            let end = run_back(session, left)?;
            Ok(CallEnd {
                before: Some(did),
                end,
            })
        }
        Wait::Ended(end) => Ok(CallEnd { before: None, end }),
    }
}
