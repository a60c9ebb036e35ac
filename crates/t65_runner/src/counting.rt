//! How often steps begin at each address in the calls of a row.

ghost use Rattle.std.specs.Prelude.{◌≡◌, ◌==◌, [], ℕ, IfOk, None, OnOk, Some, false, if◌then◌else◌};
ghost use Rattle.std.specs.Prelude.{map, true};
ghost use Rattle.accesses.specs.Moments.{entered};
ghost use Rattle.accesses.specs.Tallies.{noted};
ghost use Rattle.model.specs.State.{State};
ghost use Rattle.model.specs.Step.{step};
ghost use Rattle.t65_reader.specs.RowText.{call_view, row_view};
ghost use Rattle.t65_runner.specs.Counting.{Counted, Part, all_counted, are_same, awaited_in};
ghost use Rattle.t65_runner.specs.Counting.{call_counted, counted_at, counted_by, counted_on};
ghost use Rattle.t65_runner.specs.Counting.{counted_to_failure};
ghost use Rattle.t65_runner.specs.Counting.{is_last, rows_counted, steps_counted, test_counted};
ghost use Rattle.t65_runner.specs.Start.{IsSince, fresh};
ghost use Rattle.t65_runner.specs.Passes.{rows_seen};

use crate::bench::{awaited_of, count_run, run_entered};
use crate::going_back::restore;
use crate::passes::given_all;
use crate::range_values::{Values, count_of, four_later, seed_of, values_by};
use crate::requests::{Awaited, arrive, is_back, is_due_in};
use accesses::{Moment, Tally, moment_of};
use bus::{Image, MapSpec};
use debugger::{Event, Session};
use std::alloc::{AllocError, Global};
use t65_reader::{Call, Request, Row};

/// Counts a step that was made from a moment on, unless an interrupt came in place of the
/// instruction.
fn note(session: &Session, before: Moment, tally: &mut Tally)
    ensures { tally.new ≡ (if entered before session.now.current then tally.old
        else noted tally.old before.regs.pc 0) }
{
    if !before.was_entered(session) {
        tally.note(before.regs.pc, 0);
    }
}

/// Makes a step and counts it, and returns whether the call goes on: the step was not rejected, and
/// does not lead back.
fn count_step(session: &mut Session, tally: &mut Tally) -> bool
    ensures on { result ≡ true → (next : Counted → Part)
        → counted_on (counted_at session.old tally.old) next (step session.old.current)
        ≡ next (counted_at session.new tally.new) }
    ensures end { result ≡ false → (next : Counted → Part)
        → counted_on (counted_at session.old tally.old) next (step session.old.current)
        ≡ (None, counted_at session.new tally.new) }
    ensures since { (s : State) → IsSince s session.old → IsSince s session.new }
    ensures stops { session.new.breaks ≡ session.old.breaks }
{
    let before = moment_of(session);
    match session.event(Event::Step) {
        Ok(()) => {
            note(session, before, tally);
            !is_back(session)
        }
        Err(_) => false,
    }
}

/// Makes so many steps at most and counts them, until an interrupt is due. Returns how many are
/// left after its entry, if it is due.
fn count_steps(
    session: &mut Session,
    awaited: Option<Awaited>,
    limit: u32,
    tally: &mut Tally,
) -> Option<u32>
    ensures counted { steps_counted awaited limit (counted_at session.old tally.old)
        ≡ (result, counted_at session.new tally.new) }
    ensures since { (s : State) → IsSince s session.old → IsSince s session.new }
    ensures stops { session.new.breaks ≡ session.old.breaks }
{
    for did in 0..limit {
        if is_due_in(session, awaited) {
            return Some(limit - did - 1);
        }
        if !count_step(session, tally) {
            return None;
        }
    }
    None
}

/// Counts the steps of a call that was entered, and those of an interrupt that comes into it.
#[tactic(auto, unfolding(crate::specs::Counting::all_counted))]
fn count_all(session: &mut Session, awaited: Option<Awaited>, limit: u32, tally: &mut Tally)
    ensures counted { counted_at session.new tally.new
        ≡ all_counted awaited limit (counted_at session.old tally.old) }
    ensures since { (s : State) → IsSince s session.old → IsSince s session.new }
    ensures stops { session.new.breaks ≡ session.old.breaks }
{
    let left = count_steps(session, awaited, limit, tally);
    match (awaited, left) {
        (Some(awaited), Some(left)) => {
            arrive(session, awaited.signal);
            count_steps(session, None, left, tally);
        }
        _ => {}
    }
}

fn awaited_in(session: &Session, values: Values, request: Option<Request>) -> Option<Awaited>
    ensures { result ≡ awaited_in values session.now.current request }
{
    match request {
        None => None,
        Some(request) => Some(awaited_of(session, values, request)),
    }
}

/// Makes a call whose items can be given, and counts its steps. Returns whether it was made.
#[tactic(auto, unfolding(crate::specs::Counting::call_counted))]
fn count_call(
    session: &mut Session,
    call: &Call,
    values: Values,
    tally: &mut Tally,
) -> Result<bool, AllocError>
    requires stops { session.old.breaks ≡ [] }
    ensures made { IfOk result (λ made. made ≡ true
        → call_counted values (call_view call.now) (counted_at session.old tally.old)
        ≡ Some (counted_at session.new tally.new)) }
    ensures unmade { IfOk result (λ made. made ≡ false
        → call_counted values (call_view call.now) (counted_at session.old tally.old) ≡ None) }
    ensures same { IfOk result (λ made. made ≡ false → tally.new ≡ tally.old) }
    ensures since { (s : State) → IsSince s session.old → IsSince s session.new }
    ensures stops { session.new.breaks ≡ [] }
{
    if !given_all(session, values, &call.given) {
        return Ok(false);
    }
    run_entered(session, call.entry, call.address, 0)?;
    let awaited = awaited_in(session, values, call.request);
    count_all(session, awaited, call.steps, tally);
    Ok(true)
}

/// Makes the calls of rows, up to the first that is not made or does not return, and counts their
/// steps.
fn count_rows(
    session: &mut Session,
    rows: &[&(u32, Row)],
    values: Values,
    tally: &mut Tally,
) -> Result<(), AllocError>
    requires stops { session.old.breaks ≡ [] }
    ensures counted { OnOk result (tally.new
        ≡ rows_counted values (rows_seen rows.now) (counted_at session.old tally.old)) }
    ensures since { (s : State) → IsSince s session.old → IsSince s session.new }
    ensures stops { session.new.breaks ≡ [] }
{
    for row in rows {
        if !count_call(session, &row.1.call, values, tally)? {
            return Ok(());
        }
        if !is_back(session) {
            return Ok(());
        }
    }
    Ok(())
}

/// Makes the calls of rows for values of ranges from the machine's start, counts their steps, and
/// goes back there.
fn count_values(
    alloc: Global,
    session: &mut Session,
    map: MapSpec,
    image: &Image,
    rows: &[&(u32, Row)],
    values: Values,
    tally: &mut Tally,
) -> Result<(), AllocError>
    requires { session.old ≡ fresh map image.now }
    ensures counted { OnOk result (tally.new
        ≡ counted_by (rows_seen rows.now) (fresh map image.now) values tally.old) }
    ensures back { OnOk result (session.new ≡ fresh map image.now) }
{
    count_rows(session, rows, values, tally)?;
    restore(alloc, session, map, image)
}

/// Makes the calls of rows for values for which one of them fails, up to that one, from the
/// machine's start, counts their steps, and goes back there.
fn count_to_failure(
    alloc: Global,
    session: &mut Session,
    map: MapSpec,
    image: &Image,
    rows: &[&(u32, Row)],
    values: Values,
    tally: &mut Tally,
) -> Result<(), AllocError>
    requires { session.old ≡ fresh map image.now }
    ensures counted { OnOk result (tally.new
        ≡ counted_to_failure (rows_seen rows.now) (fresh map image.now) values tally.old) }
    ensures back { OnOk result (session.new ≡ fresh map image.now) }
{
    let count = count_run(alloc, session, map, image, rows, values)?;
    count_values(alloc, session, map, image, &rows[..count], values, tally)?;
    Ok(())
}

fn are_same(one: Values, other: Values) -> bool
    ensures { result ≡ are_same one other }
{
    one.first == other.first
        && one.second == other.second
        && one.third == other.third
        && one.fourth == other.fourth
        && one.number == other.number
}

/// Returns whether values are those for which a test fails.
fn is_last(failed: Option<Values>, values: Values) -> bool
    ensures { result ≡ is_last failed values }
{
    match failed {
        None => false,
        Some(failed) => are_same(failed, values),
    }
}

/// Makes the calls of rows once more from the machine's start, for the values of the ranges of a
/// row up to those for which it fails, and counts at which addresses steps begin. It goes back to
/// the start after each time. For the values for which it fails, the rows after the first whose
/// call fails are not run.
///
/// # Errors
///
/// `AllocError` if an allocation failed.
#[tactic(auto, unfolding(crate::specs::Counting::test_counted))]
pub fn count_test(
    alloc: Global,
    session: &mut Session,
    map: MapSpec,
    image: &Image,
    row: &Row,
    rows: &[&(u32, Row)],
    failed: Option<Values>,
    tally: &mut Tally,
) -> Result<(), AllocError>
    requires { session.old ≡ fresh map image.now }
    ensures counted { OnOk result (tally.new ≡ test_counted (row_view row.now)
        (rows_seen rows.now) (fresh map image.now) failed tally.old) }
    ensures back { OnOk result (session.new ≡ fresh map image.now) }
{
    let mut number = seed_of(row.choice);
    for n in 0..count_of(row.ranges, row.choice) {
        let values = values_by(row.ranges, row.choice, n, number);
        if is_last(failed, values) {
            count_to_failure(alloc, session, map, image, rows, values, tally)?;
            return Ok(());
        }
        count_values(alloc, session, map, image, rows, values, tally)?;
        number = four_later(number);
    }
    Ok(())
}
