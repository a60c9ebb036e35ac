//! Runs of single steps, each of which is looked at.

ghost use Rattle.std.specs.Prelude.{◌≡◌, ◌≤◌, ◌^◌};
ghost use Rattle.model.specs.Run.{after_run, after_steps, run_end};
ghost use Rattle.model.specs.State.{State};
ghost use Rattle.mon_runs.specs.Ends.{breaks_after, is_end, is_to};
ghost use Rattle.mon_runs.specs.Looked.{after_stretch, changed_between, end_between, goal_met};
ghost use Rattle.mon_runs.specs.Looked.{if_changed, if_met, if_read, seen_between};
ghost use Rattle.mon_runs.specs.Looked.{if_stored, looked_run, pushed_at, pushed_to, rest_of};
ghost use Rattle.mon_runs.specs.Looked.{sight_of};
ghost use Rattle.mon_runs.specs.Looked.{watched, watched_from, why_of_step};

use crate::changes::RegisterChange;
use crate::ended::{EndWhy, Ended};
use crate::rests::rest_since;
use crate::stops::Stops;
use accesses::{Access, access_here};
use debugger::{Regs, Session, Why};
use mon_lines::WatchKind;

/// The goal of a run of single steps.
#[derive(Clone, Copy)]
pub enum Goal {
    /// The program counter and the stack pointer are these.
    Behind { pc: u16, stack: u8 },
    /// The step was an RTS or an RTI, and the stack pointer is above this one.
    Left { stack: u8 },
    /// No step meets it: the run ends where the program rests.
    Rest,
    /// No step meets it, and the run does not end where the program rests.
    Never,
}

/// A state before a step, as far as the run looks at it.
#[derive(Clone, Copy)]
struct Sight {
    regs: Regs,
    opcode: u8,
    /// Whether the step is an interrupt entry.
    is_entry: bool,
    access: Access,
}

/// How a step ended: whether it was made, why the run ends with it, if it does, and the program
/// counter before it.
#[derive(Clone, Copy)]
pub struct Made {
    pub did: u32,
    pub why: Option<EndWhy>,
    pub from: u16,
}

/// Returns what a run sees before a step.
fn look(session: &Session) -> Sight
    ensures { result ≡ sight_of session.now.current }
{
    let regs = session.regs();
    Sight {
        regs,
        opcode: session.peek(regs.pc),
        is_entry: session.entry_is_due(),
        access: access_here(session),
    }
}

/// Returns where a byte is pushed, if so many were pushed before it.
fn pushed_to(stack: u8, depth: u8) -> u16
    ensures { result ≡ pushed_to stack depth }
{
    0x0100 + stack.wrapping_sub(depth) as u16
}

/// Returns the address of the bytes that a step has pushed that is watched for writes, if one is.
fn pushed_at(stops: &Stops, stack: u8, pushes: u8) -> Option<u16>
    ensures { result ≡ pushed_at stops.now.watches.items stack 0 pushes }
{
    for depth in 0..pushes {
        let address = pushed_to(stack, depth);
        if stops.has_access(WatchKind::Write, address) {
            return Some(address);
        }
    }
    None
}

/// Returns the read of an address, if it is watched.
fn if_read(stops: &Stops, address: Option<u16>) -> Option<EndWhy>
    ensures { result ≡ if_read stops.now.watches.items address }
{
    match address {
        Some(address) if stops.has_access(WatchKind::Read, address) => Some(EndWhy::Read(address)),
        _ => None,
    }
}

/// Returns the store at an address, if it is watched.
fn if_stored(stops: &Stops, address: Option<u16>) -> Option<EndWhy>
    ensures { result ≡ if_stored stops.now.watches.items address }
{
    match address {
        Some(address) if stops.has_access(WatchKind::Write, address) => {
            Some(EndWhy::Written(address))
        }
        _ => None,
    }
}

/// Returns the access of a step that is watched, if one is.
fn watched(stops: &Stops, access: Access, stack: u8) -> Option<EndWhy>
    ensures { result ≡ watched stops.now.watches.items access stack }
{
    if let Some(why) = if_read(stops, access.read) {
        return Some(why);
    }
    if let Some(why) = if_stored(stops, access.store) {
        return Some(why);
    }
    match pushed_at(stops, stack, access.pushes) {
        Some(address) => Some(EndWhy::Written(address)),
        None => None,
    }
}

/// Returns whether a step meets a goal.
fn is_met(goal: Goal, before: Sight, after: Regs) -> bool
    ensures { (s t : State) → before ≡ sight_of s → after ≡ t.regs → result ≡ goal_met goal s t }
{
    match goal {
        Goal::Behind { pc, stack } => after.pc == pc && after.s == stack,
        Goal::Left { stack } => {
            (before.opcode == 0x60 || before.opcode == 0x40) && !before.is_entry && stack < after.s
        }
        Goal::Rest | Goal::Never => false,
    }
}

/// Returns whether an address is the one that is run to.
fn is_to(until: Option<u16>, at: u16) -> bool
    ensures { result ≡ is_to until at }
{
    match until {
        None => false,
        Some(address) => address == at,
    }
}

/// Returns whether a run ends for this reason: it goes on past a break whose tests do not hold, but
/// not past the address that it runs to.
pub fn is_end(session: &Session, stops: &mut Stops, until: Option<u16>, why: Why) -> bool
    ensures end { result ≡ is_end until why session.now.current stops.old.breaks.items }
    ensures breaks { stops.new.breaks.items
        ≡ breaks_after until why session.now.current stops.old.breaks.items }
    ensures watches { stops.new.watches ≡ stops.old.watches }
    ensures changes { stops.new.changes ≡ stops.old.changes }
{
    match why {
        Why::Limit => false,
        Why::Break(at) => is_to(until, at) || stops.is_met(session, at),
        Why::Watch(_) | Why::Refused(_) => true,
    }
}

/// Returns the access of a step that is watched, if one is and the step is no interrupt entry.
fn watched_from(stops: &Stops, before: Sight) -> Option<EndWhy>
    ensures { (s : State) → before ≡ sight_of s → result
        ≡ watched_from stops.now.watches.items s }
{
    if before.is_entry {
        None
    } else {
        watched(stops, before.access, before.regs.s)
    }
}

/// Returns the change of a watched register, if there was one.
fn if_changed(change: Option<RegisterChange>) -> Option<EndWhy>
    ensures { result ≡ if_changed change }
{
    match change {
        Some(change) => Some(EndWhy::Changed(change)),
        None => None,
    }
}

/// Returns the change of a watched register since a step, if there was one.
fn changed_since(session: &Session, stops: &Stops, before: Sight) -> Option<EndWhy>
    ensures { (s : State) → before ≡ sight_of s → result
        ≡ changed_between stops.now.watches.items s session.now.current }
{
    if_changed(stops.register_change(before.regs, session.regs()))
}

/// Returns what is watched that a step has done, if it has done such.
fn seen_since(session: &Session, stops: &Stops, before: Sight) -> Option<EndWhy>
    ensures { (s : State) → before ≡ sight_of s → result
        ≡ seen_between stops.now.watches.items s session.now.current }
{
    match watched_from(stops, before) {
        Some(why) => Some(why),
        None => changed_since(session, stops, before),
    }
}

/// Returns why a run ends with a goal that was met.
fn if_met(is_met: bool) -> Option<EndWhy>
    ensures { result ≡ if_met is_met }
{
    if is_met { Some(EndWhy::Met) } else { None }
}

/// Returns why a run ends where the program rests, if it does.
fn rest_of(session: &Session, goal: Goal, before: Sight) -> Option<EndWhy>
    ensures { (s : State) → before ≡ sight_of s → result
        ≡ rest_of goal s session.now.current }
{
    match goal {
        Goal::Never => None,
        Goal::Behind { .. } | Goal::Left { .. } | Goal::Rest => rest_since(session, before.regs),
    }
}

/// Returns why a run ends after a step that did not end it by itself, if it does.
fn end_of(session: &Session, stops: &Stops, goal: Goal, before: Sight) -> Option<EndWhy>
    ensures { (s : State) → before ≡ sight_of s → result
        ≡ end_between stops.now.watches.items goal s session.now.current }
{
    if let Some(why) = seen_since(session, stops, before) {
        return Some(why);
    }
    match if_met(is_met(goal, before, session.regs())) {
        Some(why) => Some(why),
        None => rest_of(session, goal, before),
    }
}

/// Makes a step that is looked at.
pub fn make_step(session: &mut Session, stops: &mut Stops, goal: Goal, until: Option<u16>) -> Made
    ensures steps { session.new ≡ after_steps result.did session.old }
    ensures did { result.did ≡ (run_end 1 session.old).did }
    ensures why { result.why ≡ why_of_step stops.old.watches.items goal until
        (session.old, stops.old.breaks.items) }
    ensures from { result.from ≡ session.old.current.regs.pc }
    ensures after { (session.new, stops.new.breaks.items)
        ≡ after_stretch until 1 (session.old, stops.old.breaks.items) }
    ensures watches { stops.new.watches ≡ stops.old.watches }
    ensures changes { stops.new.changes ≡ stops.old.changes }
{
    let before = look(session);
    let end = session.run(1);
    let why = if is_end(session, stops, until, end.why) {
        Some(EndWhy::Stopped(end.why))
    } else {
        end_of(session, stops, goal, before)
    };
    Made {
        did: end.did,
        why,
        from: before.regs.pc,
    }
}

/// Makes up to `limit` steps, each of which is looked at, until one meets the goal or ends the run.
pub fn lead(
    session: &mut Session,
    stops: &mut Stops,
    goal: Goal,
    until: Option<u16>,
    limit: u32,
) -> Ended
    requires { limit ≤ 2 ^ 29 }
    ensures steps { session.new ≡ after_steps result.did session.old }
    ensures run { looked_run stops.old.watches.items goal until limit
        (session.old, stops.old.breaks.items)
        ≡ (result, (session.new, stops.new.breaks.items)) }
    ensures watches { stops.new.watches ≡ stops.old.watches }
    ensures changes { stops.new.changes ≡ stops.old.changes }
{
    let mut did = 0u64;
    for _ in 0..limit {
        let made = make_step(session, stops, goal, until);
        did += made.did as u64;
        if let Some(why) = made.why {
            return Ended {
                did,
                why,
                from: Some(made.from),
            };
        }
    }
    Ended {
        did,
        why: EndWhy::Many,
        from: None,
    }
}
