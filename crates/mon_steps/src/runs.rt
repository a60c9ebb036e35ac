//! Lines that run to a stop.

ghost use Rattle.std.specs.Prelude.{◌≡◌, ◌≢◌, ◌++◌, IfErr, IfOk, OnOk, Ok, Err};
ghost use Rattle.mon_steps.specs.RunLines.{HasRun, KeepsWatches, called, ran, ran_by, ran_on};
ghost use Rattle.mon_steps.specs.RunLines.{ran_until, returned, stand_of, start_of, watches_of};
ghost use Rattle.mon_steps.specs.RunTexts.{arrival_text, begun_at, if_arrived_text, out_text, run_of};
ghost use Rattle.mon_steps.specs.RunTexts.{run_text, until_text};
ghost use Rattle.mon_session.specs.Course.{course_of};
ghost use Rattle.mon_runs.specs.PastBreaks.{count_run, go_run, out_run, over_run, until_run};

use crate::endings::{Begun, show_end, show_end_at, tell_ended};
use mon_runs::{Ended, SessionFault, go, out, over, until};
use mon_session::MonState;
use mon_session::wording::BREAKS_FULL;
use std::alloc::AllocError;

/// Makes `count` steps, or those up to a stop, and notes them.
pub fn make_steps(mon: &mut MonState, count: u32) -> Ended
    ensures course { HasRun (course_of mon.old) (course_of mon.new) }
    ensures stand { stand_of mon.new ≡ ran count (watches_of mon.old) (stand_of mon.old) }
    ensures end { result
        ≡ (count_run count (watches_of mon.old) (start_of (stand_of mon.old))).0 }
    ensures session { mon.new.session
        ≡ (count_run count (watches_of mon.old) (start_of (stand_of mon.old))).1.0 }
    ensures text { mon.new.text ≡ mon.old.text }
    ensures watches { KeepsWatches mon.old mon.new }
{
    let end = mon_runs::run(&mut mon.session, &mut mon.stops, count);
    mon.events.note_steps(end.did);
    end
}

/// Runs to a stop, and notes the steps.
fn make_run(mon: &mut MonState) -> Ended
    ensures course { HasRun (course_of mon.old) (course_of mon.new) }
    ensures stand { stand_of mon.new ≡ ran_on (watches_of mon.old) (stand_of mon.old) }
    ensures end { result ≡ (go_run (watches_of mon.old) (start_of (stand_of mon.old))).0 }
    ensures session { mon.new.session
        ≡ (go_run (watches_of mon.old) (start_of (stand_of mon.old))).1.0 }
    ensures text { mon.new.text ≡ mon.old.text }
    ensures watches { KeepsWatches mon.old mon.new }
{
    let end = go(&mut mon.session, &mut mon.stops);
    mon.events.note_steps(end.did);
    end
}

/// Makes a JSR as one step, and notes its steps.
pub fn make_call(mon: &mut MonState) -> Ended
    ensures course { HasRun (course_of mon.old) (course_of mon.new) }
    ensures stand { stand_of mon.new ≡ called (watches_of mon.old) (stand_of mon.old) }
    ensures end { result ≡ (over_run (watches_of mon.old) (start_of (stand_of mon.old))).0 }
    ensures session { mon.new.session
        ≡ (over_run (watches_of mon.old) (start_of (stand_of mon.old))).1.0 }
    ensures text { mon.new.text ≡ mon.old.text }
    ensures watches { KeepsWatches mon.old mon.new }
{
    let end = over(&mut mon.session, &mut mon.stops);
    mon.events.note_steps(end.did);
    end
}

/// Runs until this subroutine has returned, and notes the steps.
fn make_return(mon: &mut MonState) -> Ended
    ensures course { HasRun (course_of mon.old) (course_of mon.new) }
    ensures stand { stand_of mon.new ≡ returned (watches_of mon.old) (stand_of mon.old) }
    ensures end { result ≡ (out_run (watches_of mon.old) (start_of (stand_of mon.old))).0 }
    ensures session { mon.new.session
        ≡ (out_run (watches_of mon.old) (start_of (stand_of mon.old))).1.0 }
    ensures text { mon.new.text ≡ mon.old.text }
    ensures watches { KeepsWatches mon.old mon.new }
{
    let end = out(&mut mon.session, &mut mon.stops);
    mon.events.note_steps(end.did);
    end
}

/// Steps until this subroutine has returned, and says how that ended.
fn go_out(mon: &mut MonState) -> Result<(), AllocError>
    ensures course { HasRun (course_of mon.old) (course_of mon.new) }
    ensures stand { stand_of mon.new ≡ returned (watches_of mon.old) (stand_of mon.old) }
    ensures watches { KeepsWatches mon.old mon.new }
    ensures text { OnOk result (mon.new.text.items ≡ mon.old.text.items
        ++ arrival_text mon.old.places (begun_at (stand_of mon.old))
        (out_run (watches_of mon.old) (start_of (stand_of mon.old)))) }
{
    let begun = Begun::at(mon);
    let end = make_return(mon);
    show_end(mon, end, begun)
}

/// Steps until this subroutine has returned, and says how that ended. Where the program has ended
/// before, it says that first.
///
/// Errors: `AllocError` if an allocation fails; the steps are made all the same.
pub fn step_out(mon: &mut MonState) -> Result<(), AllocError>
    ensures course { HasRun (course_of mon.old) (course_of mon.new) }
    ensures stand { stand_of mon.new ≡ returned (watches_of mon.old) (stand_of mon.old) }
    ensures watches { KeepsWatches mon.old mon.new }
    ensures text { OnOk result (mon.new.text.items ≡ mon.old.text.items
        ++ out_text (watches_of mon.old) mon.old.places (stand_of mon.old)) }
{
    match tell_ended(mon) {
        Ok(()) => go_out(mon),
        Err(fault) => {
            let _ = go_out(mon);
            Err(fault)
        }
    }
}

/// Runs to a stop, or makes `count` steps, and says how that ended.
fn go_on(mon: &mut MonState, count: Option<u32>) -> Result<(), AllocError>
    ensures course { HasRun (course_of mon.old) (course_of mon.new) }
    ensures stand { stand_of mon.new ≡ ran_by count (watches_of mon.old) (stand_of mon.old) }
    ensures watches { KeepsWatches mon.old mon.new }
    ensures text { OnOk result (mon.new.text.items ≡ mon.old.text.items
        ++ arrival_text mon.old.places (begun_at (stand_of mon.old))
        (run_of count (watches_of mon.old) (stand_of mon.old))) }
{
    let begun = Begun::at(mon);
    match count {
        Some(count) => {
            let end = make_steps(mon, count);
            show_end(mon, end, begun)
        }
        None => {
            let end = make_run(mon);
            show_end(mon, end, begun)
        }
    }
}

/// Runs to a stop, or makes `count` steps, and says how that ended. Where the program has ended
/// before, it says that first.
///
/// Errors: `AllocError` if an allocation fails; the steps are made all the same.
pub fn run(mon: &mut MonState, count: Option<u32>) -> Result<(), AllocError>
    ensures course { HasRun (course_of mon.old) (course_of mon.new) }
    ensures stand { stand_of mon.new ≡ ran_by count (watches_of mon.old) (stand_of mon.old) }
    ensures watches { KeepsWatches mon.old mon.new }
    ensures text { OnOk result (mon.new.text.items ≡ mon.old.text.items
        ++ run_text count (watches_of mon.old) mon.old.places (stand_of mon.old)) }
{
    match tell_ended(mon) {
        Ok(()) => go_on(mon, count),
        Err(fault) => {
            let _ = go_on(mon, count);
            Err(fault)
        }
    }
}

/// Runs to an address, and notes the steps. Errors: those of the session; nothing is changed
/// then.
fn make_until(mon: &mut MonState, address: u16) -> Result<Ended, SessionFault>
    ensures ok { OnOk result
        (stand_of mon.new ≡ ran_until address (watches_of mon.old) (stand_of mon.old)) }
    ensures arrived { IfOk result (λ end. until_run address (watches_of mon.old)
        (start_of (stand_of mon.old))
        ≡ Ok (end, (mon.new.session, mon.new.stops.breaks.items))) }
    ensures refused { IfErr result (λ fault. (mon.new.session ≡ mon.old.session)
        × (fault ≢ SessionFault.OutOfMemory → until_run address (watches_of mon.old)
        (start_of (stand_of mon.old)) ≡ Err fault)) }
    ensures text { mon.new.text ≡ mon.old.text }
    ensures err { IfErr result (λ fault. (stand_of mon.new ≡ stand_of mon.old)
        × (fault ≢ SessionFault.OutOfMemory
        → ran_until address (watches_of mon.old) (stand_of mon.old) ≡ stand_of mon.old)) }
    ensures watches { KeepsWatches mon.old mon.new }
{
    let end = until(&mut mon.session, &mut mon.stops, address)?;
    mon.events.note_steps(end.did);
    Ok(end)
}

/// Runs to an address, and says how that ended.
fn go_until(mon: &mut MonState, address: u16) -> Result<(), AllocError>
    ensures stand { OnOk result
        (stand_of mon.new ≡ ran_until address (watches_of mon.old) (stand_of mon.old)) }
    ensures watches { KeepsWatches mon.old mon.new }
    ensures text { OnOk result (mon.new.text.items ≡ mon.old.text.items
        ++ if_arrived_text address mon.old.places (begun_at (stand_of mon.old))
        (until_run address (watches_of mon.old) (start_of (stand_of mon.old)))) }
{
    let begun = Begun::at(mon);
    match make_until(mon, address) {
        Ok(end) => show_end_at(mon, end, address, begun),
        Err(SessionFault::OutOfMemory) => Err(AllocError),
        Err(_) => mon.say(BREAKS_FULL),
    }
}

/// Runs to an address, and says how that ended. Where the program has ended before, it says that
/// first.
///
/// Errors: `AllocError` if an allocation fails, before the run or after it.
pub fn run_until(mon: &mut MonState, address: u16) -> Result<(), AllocError>
    ensures stand { OnOk result
        (stand_of mon.new ≡ ran_until address (watches_of mon.old) (stand_of mon.old)) }
    ensures watches { KeepsWatches mon.old mon.new }
    ensures text { OnOk result (mon.new.text.items ≡ mon.old.text.items
        ++ until_text address (watches_of mon.old) mon.old.places (stand_of mon.old)) }
{
    tell_ended(mon)?;
    go_until(mon, address)
}
