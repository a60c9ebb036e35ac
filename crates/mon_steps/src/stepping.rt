//! Lines that make steps and show each.

ghost use Rattle.std.specs.Prelude.{◌≡◌, ◌++◌, IfOk, OnOk, drop, length, take};
ghost use Rattle.mon_session.specs.Course.{ShowsOnly, course_of};
ghost use Rattle.mon_steps.specs.RunLines.{HasRun, KeepsWatches, called, goes_on, is_limit, ran};
ghost use Rattle.mon_steps.specs.RunLines.{some_steps, stand_of, stepped, stepped_over, watches_of};
ghost use Rattle.mon_steps.specs.RunTexts.{behind_row, call_row, call_text, called_row, few_steps_text, made_text};
ghost use Rattle.mon_steps.specs.RunTexts.{one_step_text, over_text, some_steps_text, step_text};
ghost use Rattle.mon_steps.specs.RunTexts.{fault_in, many_end_text, many_shown_text};
ghost use Rattle.mon_steps.specs.RunTexts.{many_steps_text, shows_them_text, step_row, stepped_text};
ghost use Rattle.mon_steps.specs.RunTexts.{steps_text};
ghost use Rattle.mon_steps.specs.Strays.{ended_text};
ghost use Rattle.mon_steps.specs.RunLines.{start_of};
ghost use Rattle.mon_runs.specs.PastBreaks.{count_run, over_run};

use crate::endings::{Begun, show_end, show_since, tell_end, tell_ended};
use crate::runs::{make_call, make_steps};
use crate::wording::{HISTORY, SHOWS_THEM};
use accesses::stores_here;
use formatting::push_count;
use model::EventFault;
use mon_runs::{EndWhy, Ended, Why};
use mon_session::MonState;
use std::alloc::AllocError;

/// The most steps that `step` shows one by one.
const MOST_SHOWN: u32 = 20;

/// The opcode of JSR.
const JSR: u8 = 0x20;

/// Returns whether a run of one step made it and met nothing.
fn is_limit(why: EndWhy) -> bool
    ensures { result ≡ is_limit why }
{
    matches!(why, EndWhy::Stopped(Why::Limit))
}

/// Says what a step met behind its row, if it met something. Returns whether the steps go on.
fn tell_met(mon: &mut MonState, end: Ended) -> Result<bool, AllocError>
    ensures shows { ShowsOnly mon.old mon.new }
    ensures on { IfOk result (λ is_on. is_on ≡ is_limit end.why) }
    ensures text { OnOk result (mon.new.text.items ≡ mon.old.text.items
        ++ behind_row mon.old.session.current mon.old.places end) }
{
    if is_limit(end.why) {
        return Ok(true);
    }
    tell_end(mon, end)?;
    Ok(false)
}

/// Says what a step did and met. Its row stands in the text from the byte `length` on. Returns
/// whether the steps go on.
fn tell_made(
    mon: &mut MonState,
    end: Ended,
    length: usize,
    is_entry: bool,
) -> Result<bool, AllocError>
    ensures shows { ShowsOnly mon.old mon.new }
    ensures on { IfOk result (λ is_on. is_on ≡ is_limit end.why) }
    ensures text { OnOk result (mon.new.text.items ≡ take length mon.old.text.items
        ++ made_text is_entry mon.old.session.current mon.old.places end
        (drop length mon.old.text.items)) }
{
    mon.tell_entry(length, is_entry)?;
    tell_met(mon, end)
}

/// Returns why a step was rejected, if it was.
fn fault_in(why: EndWhy) -> Option<EventFault>
    ensures { result ≡ fault_in why }
{
    match why {
        EndWhy::Stopped(Why::Refused(fault)) => Some(fault),
        _ => None,
    }
}

/// Says what a step did, or why it was rejected. Its row stands in the text from the byte `length`
/// on. `is_entry` says whether the step is an interrupt entry, if it was made. Returns whether the
/// steps go on.
fn tell_step(
    mon: &mut MonState,
    end: Ended,
    length: usize,
    is_entry: bool,
) -> Result<bool, AllocError>
    ensures shows { ShowsOnly mon.old mon.new }
    ensures on { IfOk result (λ is_on. is_on ≡ is_limit end.why) }
    ensures text { OnOk result (mon.new.text.items ≡ take length mon.old.text.items
        ++ step_text is_entry mon.old.session.current mon.old.places end
        (drop length mon.old.text.items)) }
{
    match fault_in(end.why) {
        Some(fault) => {
            mon.text.truncate(length);
            mon.reject(fault)?;
            Ok(false)
        }
        None => tell_made(mon, end, length, is_entry),
    }
}

/// Makes one step, and shows its row.
#[tactic(auto, unfolding(crate::specs::RunTexts::step_row))]
fn step_with_row(mon: &mut MonState) -> Result<Ended, AllocError>
    ensures course { HasRun (course_of mon.old) (course_of mon.new) }
    ensures stand { OnOk result
        (stand_of mon.new ≡ ran 1 (watches_of mon.old) (stand_of mon.old)) }
    ensures end { IfOk result (λ end. end
        ≡ (count_run 1 (watches_of mon.old) (start_of (stand_of mon.old))).0) }
    ensures session { OnOk result (mon.new.session
        ≡ (count_run 1 (watches_of mon.old) (start_of (stand_of mon.old))).1.0) }
    ensures watches { KeepsWatches mon.old mon.new }
    ensures text { OnOk result (mon.new.text.items ≡ mon.old.text.items
        ++ step_row mon.old.session.current mon.new.session.current mon.old.places) }
{
    let stores = stores_here(&mon.session);
    mon.begin_row()?;
    let end = make_steps(mon, 1);
    mon.end_row(stores.as_slice())?;
    Ok(end)
}

/// Makes one step and shows it. Returns whether the steps go on.
fn show_step(mon: &mut MonState) -> Result<bool, AllocError>
    ensures course { HasRun (course_of mon.old) (course_of mon.new) }
    ensures stand { OnOk result
        (stand_of mon.new ≡ ran 1 (watches_of mon.old) (stand_of mon.old)) }
    ensures on { IfOk result
        (λ is_on. is_on ≡ goes_on (watches_of mon.old) (stand_of mon.old)) }
    ensures watches { KeepsWatches mon.old mon.new }
    ensures text { OnOk result (mon.new.text.items ≡ mon.old.text.items
        ++ one_step_text (watches_of mon.old) mon.old.places (stand_of mon.old)) }
{
    let is_entry = mon.session.entry_is_due();
    let length = mon.text.len();
    let end = step_with_row(mon)?;
    tell_step(mon, end, length, is_entry)
}

/// Makes `count` steps, or those up to a stop, and shows each.
fn show_steps(mon: &mut MonState, count: u32) -> Result<(), AllocError>
    ensures course { HasRun (course_of mon.old) (course_of mon.new) }
    ensures stand { OnOk result
        (stand_of mon.new ≡ stepped count (watches_of mon.old) (stand_of mon.old)) }
    ensures watches { KeepsWatches mon.old mon.new }
    ensures text { OnOk result (mon.new.text.items ≡ mon.old.text.items
        ++ stepped_text count (watches_of mon.old) mon.old.places (stand_of mon.old)) }
{
    for _ in 0..count {
        if !show_step(mon)? {
            return Ok(());
        }
    }
    Ok(())
}

/// Makes `count` steps, or those up to a stop, shows each, and then the state.
fn few_steps(mon: &mut MonState, count: u32) -> Result<(), AllocError>
    ensures course { HasRun (course_of mon.old) (course_of mon.new) }
    ensures stand { OnOk result
        (stand_of mon.new ≡ stepped count (watches_of mon.old) (stand_of mon.old)) }
    ensures watches { KeepsWatches mon.old mon.new }
    ensures text { OnOk result (mon.new.text.items ≡ mon.old.text.items
        ++ few_steps_text count (watches_of mon.old) mon.old.places (stand_of mon.old)) }
{
    let begun = Begun::at(mon);
    show_steps(mon, count)?;
    show_since(mon, begun)
}

/// Says which line shows steps that were made, if they are still held.
fn tell_history(mon: &mut MonState, did: u64) -> Result<(), AllocError>
    ensures shows { ShowsOnly mon.old mon.new }
    ensures text { OnOk result (mon.new.text.items ≡ mon.old.text.items
        ++ shows_them_text did (length mon.old.session.earlier)) }
{
    if did > 0 && did <= mon.session.held() as u64 {
        mon.say(HISTORY)?;
        push_count(&mut mon.text, did)?;
        mon.say(SHOWS_THEM)?;
    }
    Ok(())
}

/// Says how steps ended, and which line shows them.
fn tell_many(mon: &mut MonState, end: Ended) -> Result<(), AllocError>
    ensures shows { ShowsOnly mon.old mon.new }
    ensures text { OnOk result (mon.new.text.items ≡ mon.old.text.items
        ++ many_end_text mon.old.session mon.old.places end) }
{
    tell_end(mon, end)?;
    tell_history(mon, end.did)
}

/// Says how steps ended, which line shows them, and shows the state.
fn show_many(mon: &mut MonState, end: Ended, begun: Begun) -> Result<(), AllocError>
    ensures shows { ShowsOnly mon.old mon.new }
    ensures text { OnOk result (mon.new.text.items ≡ mon.old.text.items
        ++ many_shown_text mon.old.session mon.old.places end begun) }
{
    tell_many(mon, end)?;
    show_since(mon, begun)
}

/// Makes `count` steps, or those up to a stop, and says how they ended.
fn many_steps(mon: &mut MonState, count: u32) -> Result<(), AllocError>
    ensures course { HasRun (course_of mon.old) (course_of mon.new) }
    ensures stand { stand_of mon.new ≡ ran count (watches_of mon.old) (stand_of mon.old) }
    ensures watches { KeepsWatches mon.old mon.new }
    ensures text { OnOk result (mon.new.text.items ≡ mon.old.text.items
        ++ many_steps_text count (watches_of mon.old) mon.old.places (stand_of mon.old)) }
{
    let begun = Begun::at(mon);
    let end = make_steps(mon, count);
    show_many(mon, end, begun)
}

/// Makes steps, and shows each if they are few. Says how they ended.
fn make_some(mon: &mut MonState, count: u32) -> Result<(), AllocError>
    ensures course { HasRun (course_of mon.old) (course_of mon.new) }
    ensures stand { OnOk result
        (stand_of mon.new ≡ some_steps count (watches_of mon.old) (stand_of mon.old)) }
    ensures watches { KeepsWatches mon.old mon.new }
    ensures text { OnOk result (mon.new.text.items ≡ mon.old.text.items
        ++ steps_text count (watches_of mon.old) mon.old.places (stand_of mon.old)) }
{
    if count > MOST_SHOWN {
        return many_steps(mon, count);
    }
    few_steps(mon, count)
}

/// Makes steps, and shows each if they are few. Says how they ended. Where the program has ended
/// before them, it says that first.
///
/// Errors: `AllocError` if an allocation fails; some of the steps may be made then.
pub fn steps(mon: &mut MonState, count: u32) -> Result<(), AllocError>
    ensures course { HasRun (course_of mon.old) (course_of mon.new) }
    ensures stand { OnOk result
        (stand_of mon.new ≡ some_steps count (watches_of mon.old) (stand_of mon.old)) }
    ensures watches { KeepsWatches mon.old mon.new }
    ensures text { OnOk result (mon.new.text.items ≡ mon.old.text.items
        ++ some_steps_text count (watches_of mon.old) mon.old.places (stand_of mon.old)) }
{
    tell_ended(mon)?;
    make_some(mon, count)
}

/// Makes one step and shows it. Where the program has ended before it, it says that first.
fn one_step(mon: &mut MonState) -> Result<(), AllocError>
    ensures course { HasRun (course_of mon.old) (course_of mon.new) }
    ensures stand { OnOk result
        (stand_of mon.new ≡ stepped 1 (watches_of mon.old) (stand_of mon.old)) }
    ensures watches { KeepsWatches mon.old mon.new }
    ensures text { OnOk result (mon.new.text.items ≡ mon.old.text.items
        ++ (ended_text mon.old.session.current mon.old.places
        ++ few_steps_text 1 (watches_of mon.old) mon.old.places (stand_of mon.old))) }
{
    tell_ended(mon)?;
    few_steps(mon, 1)
}

/// Says that the first step of a JSR was the entry of an interrupt, in place of the row from
/// `length` on, if it was the only one and was one.
fn tell_call(mon: &mut MonState, did: u64, length: usize, is_entry: bool) -> Result<(), AllocError>
    ensures shows { ShowsOnly mon.old mon.new }
    ensures text { OnOk result (mon.new.text.items ≡ take length mon.old.text.items
        ++ call_row did is_entry mon.old.session.current mon.old.places.names
        (drop length mon.old.text.items)) }
{
    if did == 1 {
        return mon.tell_entry(length, is_entry);
    }
    Ok(())
}

/// Makes a JSR as one step, and shows its row.
#[tactic(auto, unfolding(crate::specs::RunTexts::called_row))]
fn call_with_row(mon: &mut MonState) -> Result<Ended, AllocError>
    ensures course { HasRun (course_of mon.old) (course_of mon.new) }
    ensures stand { OnOk result
        (stand_of mon.new ≡ called (watches_of mon.old) (stand_of mon.old)) }
    ensures end { IfOk result (λ end. end
        ≡ (over_run (watches_of mon.old) (start_of (stand_of mon.old))).0) }
    ensures session { OnOk result (mon.new.session
        ≡ (over_run (watches_of mon.old) (start_of (stand_of mon.old))).1.0) }
    ensures watches { KeepsWatches mon.old mon.new }
    ensures text { OnOk result (mon.new.text.items ≡ mon.old.text.items
        ++ called_row (watches_of mon.old) mon.old.places (stand_of mon.old)) }
{
    let is_entry = mon.session.entry_is_due();
    let length = mon.text.len();
    mon.show_next()?;
    let end = make_call(mon);
    tell_call(mon, end.did, length, is_entry)?;
    Ok(end)
}

/// Makes a JSR as one step, shows it, and says how it ended.
fn show_call(mon: &mut MonState) -> Result<(), AllocError>
    ensures course { HasRun (course_of mon.old) (course_of mon.new) }
    ensures stand { OnOk result
        (stand_of mon.new ≡ called (watches_of mon.old) (stand_of mon.old)) }
    ensures watches { KeepsWatches mon.old mon.new }
    ensures text { OnOk result (mon.new.text.items ≡ mon.old.text.items
        ++ call_text (watches_of mon.old) mon.old.places (stand_of mon.old)) }
{
    let begun = Begun::at(mon);
    let end = call_with_row(mon)?;
    show_end(mon, end, begun)
}

/// Makes one step, or a JSR as one step, shows it, and says how it ended. Where the program has
/// ended before it, it says that first.
///
/// Errors: `AllocError` if an allocation fails, before the steps or after them.
pub fn step_over(mon: &mut MonState) -> Result<(), AllocError>
    ensures course { HasRun (course_of mon.old) (course_of mon.new) }
    ensures stand { OnOk result
        (stand_of mon.new ≡ stepped_over (watches_of mon.old) (stand_of mon.old)) }
    ensures watches { KeepsWatches mon.old mon.new }
    ensures text { OnOk result (mon.new.text.items ≡ mon.old.text.items
        ++ over_text (watches_of mon.old) mon.old.places (stand_of mon.old)) }
{
    if mon.session.peek(mon.session.regs().pc) != JSR {
        return one_step(mon);
    }
    show_call(mon)
}
