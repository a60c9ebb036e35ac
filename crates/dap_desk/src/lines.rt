//! Moves by lines of a source that another tool has built.

ghost use Rattle.std.specs.Prelude.{◌≡◌, ◌≤◌, ◌^◌, IfOk, None, OnOk};
ghost use Rattle.std.specs.Option.{option_or};
ghost use Rattle.dap_desk.specs.Lines.{arrival_by, goes_by_lines, into_run, line_arrival};
ghost use Rattle.dap_desk.specs.Lines.{line_back, met_if, to_line};
ghost use Rattle.dap_desk.specs.Halts.{back_reason, back_words, fault_of, line_words, reason_of};
ghost use Rattle.mon_by_line.specs.ByLine.{undone_to_line};
ghost use Rattle.mon_session.specs.Course.{KeepsStops, course_of};
ghost use Rattle.mon_steps.specs.RunLines.{KeepsWatches, arrived, stand_of};

use crate::halts::{back_halt, line_halt};
use dap_messages::Halt;
use line_steps::{FileLine, LineStart, back_by_line, begun, is_other};
use mon_by_line::{line, line_at, line_starts};
use mon_runs::{EndWhy, Ended, Goal, MOST_STEPS, Session, Stops, make_step};
use mon_session::MonState;
use std::alloc::{AllocError, Global};

/// Returns whether moves go by lines: another tool has built the program, and the line at the
/// program counter is known.
pub fn goes_by_lines(mon: &MonState) -> bool
    ensures { result ≡ goes_by_lines mon.now }
{
    !mon.places.is_whole() && mon.places.row_at(mon.session.regs().pc).is_some()
}

/// Returns that a run has met its goal, if another line than `from` begins at the current state.
fn met_if(session: &Session, starts: &[LineStart], from: Option<FileLine>) -> Option<EndWhy>
    ensures { result ≡ met_if starts.now from session.now.current }
{
    if is_other(from, begun(session, starts)) {
        Some(EndWhy::Met)
    } else {
        None
    }
}

/// Returns why a run ends after a step: as the step says, or else as is given.
fn why_or(made: Option<EndWhy>, met: Option<EndWhy>) -> Option<EndWhy>
    ensures { result ≡ option_or made met }
{
    match made {
        Some(why) => Some(why),
        None => met,
    }
}

/// Makes up to `limit` steps, each of which is looked at, until one leads to where another line
/// than `from` begins, in a call too, or ends the run.
fn lead_to_line(
    session: &mut Session,
    stops: &mut Stops,
    starts: &[LineStart],
    from: Option<FileLine>,
    limit: u32,
) -> Ended
    requires { limit ≤ 2 ^ 29 }
    ensures run { into_run starts.now from stops.old.watches.items limit
        (session.old, stops.old.breaks.items)
        ≡ (result, (session.new, stops.new.breaks.items)) }
    ensures watches { stops.new.watches ≡ stops.old.watches }
    ensures changes { stops.new.changes ≡ stops.old.changes }
{
    let mut did = 0u64;
    for _ in 0..limit {
        let made = make_step(session, stops, Goal::Rest, None);
        did += made.did as u64;
        let met = met_if(session, starts, from);
        if let Some(why) = why_or(made.why, met) {
            return Ended {
                did,
                why,
                from: Some(made.from),
            };
        }
    }
    Ended {
        did,
        why: EndWhy::Many,
        from: None,
    }
}

/// Runs to where another line begins than the one at the program counter, calls as one or into
/// calls.
fn run_to_line(
    session: &mut Session,
    stops: &mut Stops,
    starts: &[LineStart],
    from: Option<FileLine>,
    into: bool,
) -> Ended
    ensures run { to_line into starts.now from stops.old.watches.items
        (session.old, stops.old.breaks.items)
        ≡ (result, (session.new, stops.new.breaks.items)) }
    ensures watches { stops.new.watches ≡ stops.old.watches }
    ensures changes { stops.new.changes ≡ stops.old.changes }
{
    if into {
        lead_to_line(session, stops, starts, from, MOST_STEPS)
    } else {
        line(session, stops, starts, from)
    }
}

/// Runs to where another line begins than the one at the program counter, calls as one or into
/// calls, and notes the steps. `starts` says where lines begin.
fn make_line_run(mon: &mut MonState, starts: &[LineStart], into: bool) -> Ended
    ensures stand { stand_of mon.new
        ≡ arrived (arrival_by starts.now into mon.old) (stand_of mon.old) }
    ensures end { result ≡ (arrival_by starts.now into mon.old).0 }
    ensures text { mon.new.text ≡ mon.old.text }
    ensures watches { KeepsWatches mon.old mon.new }
{
    let from = line_at(&mon.places, mon.session.regs().pc);
    let end = run_to_line(&mut mon.session, &mut mon.stops, starts, from, into);
    mon.events.note_steps(end.did);
    end
}

/// Runs to where another line begins than the one at the program counter, calls as one or into
/// calls, and returns why the machine stands then.
///
/// Errors: `AllocError` if an allocation fails; nothing is changed then.
pub fn go_to_line(alloc: Global, mon: &mut MonState, into: bool) -> Result<Halt, AllocError>
    ensures stand { OnOk result
        (stand_of mon.new ≡ arrived (line_arrival into mon.old) (stand_of mon.old)) }
    ensures watches { KeepsWatches mon.old mon.new }
    ensures text { mon.new.text ≡ mon.old.text }
    ensures reason { IfOk result
        (λ halt. halt.reason ≡ reason_of (line_arrival into mon.old).0.why) }
    ensures words { IfOk result
        (λ halt. halt.words.now ≡ line_words (line_arrival into mon.old).0.why) }
    ensures fault { IfOk result
        (λ halt. halt.fault ≡ fault_of (line_arrival into mon.old).0.why) }
{
    let starts = line_starts(alloc, mon.places.rows())?;
    let end = make_line_run(mon, starts.as_slice(), into);
    Ok(line_halt(end.why))
}

/// Undoes as many events as lead back to where a line begins, and notes them. `starts` says where
/// lines begin.
pub fn go_back_to_line(mon: &mut MonState, starts: &[LineStart])
    ensures course { course_of mon.new ≡ undone_to_line starts.now (course_of mon.old) }
    ensures stops { KeepsStops mon.old mon.new }
    ensures text { mon.new.text ≡ mon.old.text }
{
    let count = back_by_line(&mut mon.session, starts);
    mon.events.note_undone(count);
}

/// Undoes events to the last earlier state held at which a line begins, and that is within no call
/// that has returned since, and returns why the machine stands then.
///
/// Errors: `AllocError` if an allocation fails; nothing is changed then.
pub fn back_over_line(alloc: Global, mon: &mut MonState) -> Result<Halt, AllocError>
    ensures course { OnOk result (course_of mon.new ≡ line_back mon.old) }
    ensures stops { KeepsStops mon.old mon.new }
    ensures text { mon.new.text ≡ mon.old.text }
    ensures reason { IfOk result (λ halt. halt.reason ≡ back_reason (line_back mon.old).0) }
    ensures words { IfOk result (λ halt. halt.words.now ≡ back_words (line_back mon.old).0) }
    ensures fault { IfOk result (λ halt. halt.fault ≡ None) }
{
    let starts = line_starts(alloc, mon.places.rows())?;
    go_back_to_line(mon, starts.as_slice());
    Ok(back_halt(&mon.session, false))
}
