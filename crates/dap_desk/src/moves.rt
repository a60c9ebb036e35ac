//! Moves of the machine.

ghost use Rattle.std.specs.Prelude.{◌≡◌, IfOk, None, OnOk};
ghost use Rattle.dap_desk.specs.Moves.{back_moved, back_moved_reason, back_moved_words, moved};
ghost use Rattle.dap_desk.specs.Moves.{moved_fault, moved_reason, moved_words, plain_fault};
ghost use Rattle.dap_desk.specs.Moves.{plain_moved, plain_reason, plain_words, run_moved};
ghost use Rattle.dap_desk.specs.Moves.{run_moved_fault, run_moved_reason, run_moved_words};
ghost use Rattle.mon_steps.specs.RunLines.{KeepsWatches, stand_of};

use crate::halts::{back_halt, end_halt};
use crate::lines::{back_over_line, go_to_line, goes_by_lines};
use crate::onward::{back_on, goes_on, row_starts, run_on};
use dap_messages::{Halt, Move};
use mon_runs::{back_over, back_to_stop, go, out, over, run};
use mon_session::MonState;
use std::alloc::{AllocError, Global};

/// The opcode of JSR.
const JSR: u8 = 0x20;

/// Makes a move by instructions, a run of at most so many steps, and returns why the machine stands
/// then.
fn move_plainly(mon: &mut MonState, steps: Option<u32>, way: Move) -> Halt
    ensures stand { stand_of mon.new ≡ plain_moved steps way mon.old }
    ensures watches { KeepsWatches mon.old mon.new }
    ensures text { mon.new.text ≡ mon.old.text }
    ensures reason { result.reason ≡ plain_reason steps way mon.old }
    ensures words { result.words.now ≡ plain_words steps way mon.old }
    ensures fault { result.fault ≡ plain_fault steps way mon.old }
{
    let end = match way {
        Move::Over if mon.session.peek(mon.session.regs().pc) == JSR => {
            over(&mut mon.session, &mut mon.stops)
        }
        Move::Over | Move::In | Move::Step => run(&mut mon.session, &mut mon.stops, 1),
        Move::Out => out(&mut mon.session, &mut mon.stops),
        Move::Go => match steps {
            Some(count) => run(&mut mon.session, &mut mon.stops, count),
            None => go(&mut mon.session, &mut mon.stops),
        },
        Move::BackOver => {
            let count = back_over(&mut mon.session);
            mon.events.note_undone(count);
            return back_halt(&mon.session, false);
        }
        Move::Back => {
            if mon.session.back(1).is_ok() {
                mon.events.note_undone(1);
            }
            return back_halt(&mon.session, false);
        }
        Move::BackToStop => {
            if mon.stops.changes.len() <= 256 {
                let count = back_to_stop(&mut mon.session, &mon.stops);
                mon.events.note_undone(count);
            }
            return back_halt(&mon.session, true);
        }
    };
    mon.events.note_steps(end.did);
    end_halt(end.why, matches!(way, Move::Go))
}

/// Makes a run of at most so many steps, if a number is given, and returns why the machine stands
/// then. Without a number it goes on from a watch in code that a line has called to the line.
///
/// Errors: `AllocError` if an allocation fails; nothing is changed then.
fn run_to_stop(alloc: Global, mon: &mut MonState, steps: Option<u32>) -> Result<Halt, AllocError>
    ensures stand { OnOk result (stand_of mon.new ≡ run_moved steps mon.old) }
    ensures watches { KeepsWatches mon.old mon.new }
    ensures text { mon.new.text ≡ mon.old.text }
    ensures reason { IfOk result (λ halt. halt.reason ≡ run_moved_reason steps mon.old) }
    ensures words { IfOk result (λ halt. halt.words.now ≡ run_moved_words steps mon.old) }
    ensures fault { IfOk result (λ halt. halt.fault ≡ run_moved_fault steps mon.old) }
{
    let starts = row_starts(alloc, mon.places.rows())?;
    let halt = move_plainly(mon, steps, Move::Go);
    if steps.is_none() && goes_on(mon, halt.reason) {
        Ok(run_on(mon, starts.as_slice(), halt))
    } else {
        Ok(halt)
    }
}

/// Goes back to a stop, from a watch in code that a line has called to the line, and returns why
/// the machine stands then.
///
/// Errors: `AllocError` if an allocation fails; nothing is changed then.
fn back_to_watch(alloc: Global, mon: &mut MonState, steps: Option<u32>) -> Result<Halt, AllocError>
    ensures stand { OnOk result (stand_of mon.new ≡ back_moved mon.old) }
    ensures watches { KeepsWatches mon.old mon.new }
    ensures text { mon.new.text ≡ mon.old.text }
    ensures reason { IfOk result (λ halt. halt.reason ≡ back_moved_reason mon.old) }
    ensures words { IfOk result (λ halt. halt.words.now ≡ back_moved_words mon.old) }
    ensures fault { IfOk result (λ halt. halt.fault ≡ None) }
{
    let starts = row_starts(alloc, mon.places.rows())?;
    let halt = move_plainly(mon, steps, Move::BackToStop);
    if goes_on(mon, halt.reason) {
        Ok(back_on(mon, starts.as_slice()))
    } else {
        Ok(halt)
    }
}

/// Makes a move, a run of at most so many steps, and returns why the machine stands then. `next`,
/// `stepIn` and `stepBack` go by lines, where they can; `continue` and `reverseContinue` go on from
/// a watch in code without lines to the line that has called it.
///
/// Errors: `AllocError` if an allocation fails; nothing is changed then.
pub fn make_move(
    alloc: Global,
    mon: &mut MonState,
    steps: Option<u32>,
    way: Move,
) -> Result<Halt, AllocError>
    ensures stand { OnOk result (stand_of mon.new ≡ moved steps way mon.old) }
    ensures watches { KeepsWatches mon.old mon.new }
    ensures text { mon.new.text ≡ mon.old.text }
    ensures reason { IfOk result (λ halt. halt.reason ≡ moved_reason steps way mon.old) }
    ensures words { IfOk result (λ halt. halt.words.now ≡ moved_words steps way mon.old) }
    ensures fault { IfOk result (λ halt. halt.fault ≡ moved_fault steps way mon.old) }
{
    match way {
        Move::Over => {
            if goes_by_lines(mon) {
                go_to_line(alloc, mon, false)
            } else {
                Ok(move_plainly(mon, steps, Move::Over))
            }
        }
        Move::In => {
            if goes_by_lines(mon) {
                go_to_line(alloc, mon, true)
            } else {
                Ok(move_plainly(mon, steps, Move::In))
            }
        }
        Move::BackOver => {
            if goes_by_lines(mon) {
                back_over_line(alloc, mon)
            } else {
                Ok(move_plainly(mon, steps, Move::BackOver))
            }
        }
        Move::Step => Ok(move_plainly(mon, steps, Move::Step)),
        Move::Out => Ok(move_plainly(mon, steps, Move::Out)),
        Move::Go => run_to_stop(alloc, mon, steps),
        Move::Back => Ok(move_plainly(mon, steps, Move::Back)),
        Move::BackToStop => back_to_watch(alloc, mon, steps),
    }
}
