//! Watches that stop in code without lines, as a library, which a line has called.

ghost use Rattle.std.specs.Prelude.{◌≡◌, ◌≤◌, IfOk, None, map};
ghost use Rattle.dap_desk.specs.Onward.{goes_on, is_below_line, is_called, is_line_call};
ghost use Rattle.dap_desk.specs.Onward.{on_arrival, on_fault, on_reason, on_words, row_start};
ghost use Rattle.dap_desk.specs.Onward.{row_starts, watch_reason, watch_words};
ghost use Rattle.mon_by_line.specs.ByLine.{undone_to_line};
ghost use Rattle.mon_session.specs.Course.{KeepsStops, course_of};
ghost use Rattle.mon_steps.specs.RunLines.{KeepsWatches, arrived, stand_of, watches_of};

use crate::halts::{OLDEST, end_halt};
use crate::lines::go_back_to_line;
use dap_messages::{Halt, Reason, stand_by};
use line_steps::{FileLine, LineStart};
use mon_by_line::line;
use mon_runs::{EndWhy, Session};
use mon_session::MonState;
use mon_texts::{Pushed, pushed_at};
use source_map::{Places, Row};
use std::alloc::{AllocError, Global};

/// Returns whether a line has made a call.
fn is_line_call(places: &Places, pushed: Pushed) -> bool
    ensures { result ≡ is_line_call places.now.lines pushed }
{
    match pushed {
        Pushed::Call(address) => places.row_at(address).is_some(),
        Pushed::Break(_) | Pushed::Interrupt(_) | Pushed::Byte => false,
    }
}

/// Returns whether a line has made a call that is on the stack, which has these bytes from an
/// address on.
#[tactic(auto, using(crate::proofs::LineCalls::found, crate::proofs::LineCalls::further, crate::proofs::LineCalls::nowhere))]
fn is_called(session: &Session, places: &Places, first: u16) -> bool
    requires { first ≤ 512 }
    ensures { result ≡ is_called session.now.current.bus.memory places.now.lines first }
{
    for address in first..512 {
        let pushed = pushed_at(session, places, address);
        if is_line_call(places, pushed) {
            return true;
        }
    }
    false
}

/// Returns whether the machine stands in code without lines, of a program that another tool has
/// built, and a line has called it.
fn is_below_line(mon: &MonState) -> bool
    ensures { result ≡ is_below_line mon.now.places mon.now.session.current }
{
    let regs = mon.session.regs();
    !mon.places.is_whole()
        && !mon.places.row_at(regs.pc).is_some()
        && is_called(&mon.session, &mon.places, 257 + regs.s as u16)
}

/// Returns whether a move goes on to a line, once the machine stands for a reason.
pub fn goes_on(mon: &MonState, reason: Reason) -> bool
    ensures { result ≡ goes_on mon.now.places reason mon.now.session.current }
{
    match reason {
        Reason::DataBreakpoint => is_below_line(mon),
        _ => false,
    }
}

/// Returns where a row begins, as where its line does.
fn row_start(row: Row) -> LineStart
    ensures { result ≡ row_start row }
{
    LineStart {
        address: row.address,
        line: FileLine {
            file: row.file,
            line: row.line,
        },
    }
}

/// Returns where rows begin.
pub fn row_starts(alloc: Global, rows: &[Row]) -> Result<Vec<LineStart>, AllocError>
    ensures { IfOk result (λ starts. starts.items ≡ row_starts rows.now) }
{
    let mut starts = Vec::new(alloc);
    for row in rows {
        starts.push(row_start(*row))?;
    }
    Ok(starts)
}

/// Returns why the machine stands where a run on has ended: as before at a line.
fn on_halt(why: EndWhy, halt: Halt) -> Halt
    ensures reason { result.reason ≡ on_reason why halt.reason }
    ensures words { result.words.now ≡ on_words why halt.words.now }
    ensures fault { result.fault ≡ on_fault why halt.fault }
{
    match why {
        EndWhy::Met => halt,
        why => end_halt(why, false),
    }
}

/// Runs on to the first later state that has a line and is within no call of the run, and returns
/// why the machine stands then. `starts` says where rows begin.
pub fn run_on(mon: &mut MonState, starts: &[LineStart], halt: Halt) -> Halt
    ensures stand { stand_of mon.new
        ≡ arrived (on_arrival starts.now (watches_of mon.old) (stand_of mon.old))
        (stand_of mon.old) }
    ensures watches { KeepsWatches mon.old mon.new }
    ensures text { mon.new.text ≡ mon.old.text }
    ensures reason { result.reason ≡ on_reason
        (on_arrival starts.now (watches_of mon.old) (stand_of mon.old)).0.why halt.reason }
    ensures words { result.words.now ≡ on_words
        (on_arrival starts.now (watches_of mon.old) (stand_of mon.old)).0.why halt.words.now }
    ensures fault { result.fault ≡ on_fault
        (on_arrival starts.now (watches_of mon.old) (stand_of mon.old)).0.why halt.fault }
{
    let end = line(&mut mon.session, &mut mon.stops, starts, None);
    mon.events.note_steps(end.did);
    on_halt(end.why, halt)
}

/// Returns why the machine stands once it has gone back from a watch to a line.
fn watch_halt(session: &Session) -> Halt
    ensures reason { result.reason ≡ watch_reason session.now }
    ensures words { result.words.now ≡ watch_words session.now }
    ensures fault { result.fault ≡ None }
{
    if session.held() == 0 {
        stand_by(Reason::Entry, OLDEST)
    } else {
        stand_by(Reason::DataBreakpoint, "back before a change at a watch")
    }
}

/// Goes back to the last earlier state held that has a line, and that is within no call that has
/// returned since, and returns why the machine stands then. `starts` says where rows begin.
pub fn back_on(mon: &mut MonState, starts: &[LineStart]) -> Halt
    ensures course { course_of mon.new ≡ undone_to_line starts.now (course_of mon.old) }
    ensures stops { KeepsStops mon.old mon.new }
    ensures text { mon.new.text ≡ mon.old.text }
    ensures reason { result.reason
        ≡ watch_reason (undone_to_line starts.now (course_of mon.old)).0 }
    ensures words { result.words.now
        ≡ watch_words (undone_to_line starts.now (course_of mon.old)).0 }
    ensures fault { result.fault ≡ None }
{
    go_back_to_line(mon, starts);
    watch_halt(&mon.session)
}
