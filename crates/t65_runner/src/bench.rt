//! Rows run from the start of a machine.

ghost use Rattle.std.specs.Prelude.{◌≡◌, ◌≢◌, ◌+◌, ◌-◌, [], ◌≤◌, IfErr, IfOk, false, None, Ok, OnOk, Option, true};
ghost use Rattle.std.specs.Prelude.{is_some, length, map, take, Some};
ghost use Rattle.model.specs.State.{State};
ghost use Rattle.rig.specs.Subroutine.{call_of};
ghost use Rattle.t65_reader.specs.RowText.{call_view, row_view};
ghost use Rattle.t65_runner.specs.Passes.{all_passed, failed_values, first_failed, first_from, rows_seen};
ghost use Rattle.t65_runner.specs.Passes.{awaited_of, called, passed, ran, rows_run};
ghost use Rattle.t65_runner.specs.RangeValues.{values_at};
ghost use Rattle.t65_runner.specs.Start.{fresh, IsSince};

use crate::going_back::restore;
use crate::interrupts::interrupt;
use crate::passes::{all_hold, call_start, given_all, number_of};
use crate::range_values::{Values, count_of, four_later, seed_of, values_by};
use crate::requests::{Awaited, CallEnd, run_awaiting};
use bus::{Image, MapSpec};
use debugger::{RunEnd, Session, Why};
use rig::call;
use std::alloc::{AllocError, Global};
use t65_reader::{Call, Entry, Request, Row};

/// Where a called routine returns to.
const RETURN_ADDRESS: u16 = 0xffff;

/// Calls a subroutine, for so many steps at most, in a session with no breakpoint.
fn called_at(session: &mut Session, address: u16, steps: u32) -> Result<RunEnd, AllocError>
    requires stops { session.old.breaks ≡ [] }
    ensures ok { IfOk result
        (λ end. call_of address steps session.old ≡ Ok (end, session.new)) }
    ensures since { (s : State) → IsSince s session.old → IsSince s session.new }
    ensures stops { session.new.breaks ≡ [] }
{
    match call(session, address, steps) {
        Ok(end) => Ok(end),
        Err(_) => Err(AllocError),
    }
}

/// Calls a routine as its row enters it, for so many steps at most, in a session with no
/// breakpoint.
///
/// # Errors
///
/// `AllocError` if an allocation failed.
pub fn run_entered(
    session: &mut Session,
    entry: Entry,
    address: u16,
    steps: u32,
) -> Result<RunEnd, AllocError>
    requires stops { session.old.breaks ≡ [] }
    ensures ok { IfOk result (λ end. ran entry address steps session.old ≡ Ok (end, session.new)) }
    ensures since { (s : State) → IsSince s session.old → IsSince s session.new }
    ensures stops { session.new.breaks ≡ [] }
{
    match entry {
        Entry::Subroutine => called_at(session, address, steps),
        Entry::Interrupt => interrupt(session, address, steps),
    }
}

/// Returns the interrupt that comes into a call which begins here.
pub fn awaited_of(session: &Session, values: Values, request: Request) -> Awaited
    ensures { result ≡ awaited_of values session.now.current request }
{
    Awaited {
        signal: request.signal,
        start: session.cycles(),
        cycle: number_of(session, values, request.cycle),
    }
}

/// Calls a routine for values of ranges, in a session with no breakpoint. The interrupt that its
/// row asks for comes into the call.
///
/// # Errors
///
/// `AllocError` if an allocation failed.
#[tactic(auto, unfolding(crate::specs::Passes::called))]
pub fn run_called(session: &mut Session, call: &Call, values: Values) -> Result<CallEnd, AllocError>
    requires stops { session.old.breaks ≡ [] }
    ensures ok { IfOk result
        (λ end. called values (call_view call.now) session.old ≡ Ok (end, session.new)) }
    ensures since { (s : State) → IsSince s session.old → IsSince s session.new }
    ensures stops { session.new.breaks ≡ [] }
{
    match call.request {
        None => {
            let end = run_entered(session, call.entry, call.address, call.steps)?;
            Ok(CallEnd { before: None, end })
        }
        Some(request) => {
            run_entered(session, call.entry, call.address, 0)?;
            let awaited = awaited_of(session, values, request);
            run_awaiting(session, awaited, call.steps)
        }
    }
}

/// Calls a routine for values of ranges, and returns whether that passes. The session is then where
/// the call has ended.
///
/// # Errors
///
/// `AllocError` if an allocation failed.
#[tactic(auto, unfolding(crate::specs::Passes::passed))]
fn run_call(session: &mut Session, call: &Call, values: Values) -> Result<bool, AllocError>
    requires stops { session.old.breaks ≡ [] }
    ensures passes { IfOk result (λ passes. passes ≡ true
        → passed values (call_view call.now) session.old ≡ Some session.new) }
    ensures fails { IfOk result (λ passes. passes ≡ false
        → passed values (call_view call.now) session.old ≡ None) }
    ensures since { (s : State) → IsSince s session.old → IsSince s session.new }
    ensures stops { session.new.breaks ≡ [] }
{
    if !given_all(session, values, &call.given) {
        return Ok(false);
    }
    let before = call_start(session);
    let called = run_called(session, call, values)?;
    let has_returned = called.end.why == Why::Break(RETURN_ADDRESS);
    Ok(
        has_returned
            && session.regs().s == before.stack
            && all_hold(session, before, values, &call.wanted),
    )
}

/// Makes the calls of rows one after another, up to the first that fails, and returns whether all
/// pass.
///
/// # Errors
///
/// `AllocError` if an allocation failed.
fn run_calls(
    session: &mut Session,
    rows: &[&(u32, Row)],
    values: Values,
) -> Result<bool, AllocError>
    requires stops { session.old.breaks ≡ [] }
    ensures passes { IfOk result (λ passes. passes
        ≡ is_some (all_passed values (rows_seen rows.now) session.old)) }
    ensures since { (s : State) → IsSince s session.old → IsSince s session.new }
    ensures stops { session.new.breaks ≡ [] }
{
    for row in rows {
        if !run_call(session, &row.1.call, values)? {
            return Ok(false);
        }
    }
    Ok(true)
}

/// Makes the calls of rows one after another, up to the first that fails, and returns how many were
/// made.
///
/// # Errors
///
/// `AllocError` if an allocation failed.
fn run_to_failure(
    session: &mut Session,
    rows: &[&(u32, Row)],
    values: Values,
) -> Result<usize, AllocError>
    requires stops { session.old.breaks ≡ [] }
    ensures run { IfOk result (λ count. rows_seen (take count rows.now)
        ≡ rows_run values (rows_seen rows.now) session.old) }
    ensures within { IfOk result (λ count. count ≤ length rows.now) }
    ensures since { (s : State) → IsSince s session.old → IsSince s session.new }
    ensures stops { session.new.breaks ≡ [] }
{
    for index in 0..rows.len() {
        if !run_call(session, &rows[index].1.call, values)? {
            return Ok(index + 1);
        }
    }
    Ok(rows.len())
}

/// Returns how many of some rows are run for values of ranges from the machine's start: those up to
/// the first whose call fails. Goes back to the start.
///
/// # Errors
///
/// `AllocError` if an allocation failed.
pub fn count_run(
    alloc: Global,
    session: &mut Session,
    map: MapSpec,
    image: &Image,
    rows: &[&(u32, Row)],
    values: Values,
) -> Result<usize, AllocError>
    requires { session.old ≡ fresh map image.now }
    ensures run { IfOk result (λ count. rows_seen (take count rows.now)
        ≡ rows_run values (rows_seen rows.now) (fresh map image.now)) }
    ensures within { IfOk result (λ count. count ≤ length rows.now) }
    ensures back { OnOk result (session.new ≡ fresh map image.now) }
{
    let count = run_to_failure(session, rows, values)?;
    restore(alloc, session, map, image)?;
    Ok(count)
}

/// Makes the calls of rows for values of ranges from the machine's start, and goes back there.
fn failed_values(
    alloc: Global,
    session: &mut Session,
    map: MapSpec,
    image: &Image,
    rows: &[&(u32, Row)],
    values: Values,
) -> Result<Option<Values>, AllocError>
    requires { session.old ≡ fresh map image.now }
    ensures failed { IfOk result (λ failed. failed
        ≡ failed_values (rows_seen rows.now) (fresh map image.now)
        values) }
    ensures back { OnOk result (session.new ≡ fresh map image.now) }
{
    let passes = run_calls(session, rows, values)?;
    restore(alloc, session, map, image)?;
    if passes { Ok(None) } else { Ok(Some(values)) }
}

/// Makes the calls of rows one after another from the machine's start, for values of the ranges of
/// a row, and goes back there after each time. Returns the first values for which a call fails, or
/// `None` where all pass.
///
/// # Errors
///
/// `AllocError` if an allocation failed.
#[tactic(auto, unfolding(crate::specs::Passes::first_failed))]
pub fn first_failed(
    alloc: Global,
    session: &mut Session,
    map: MapSpec,
    image: &Image,
    row: &Row,
    rows: &[&(u32, Row)],
) -> Result<Option<Values>, AllocError>
    requires { session.old ≡ fresh map image.now }
    ensures failed { IfOk result (λ failed. failed ≡ first_failed (row_view row.now)
        (rows_seen rows.now) (fresh map image.now)) }
    ensures back { OnOk result (session.new ≡ fresh map image.now) }
{
    let mut number = seed_of(row.choice);
    for n in 0..count_of(row.ranges, row.choice) {
        let values = values_by(row.ranges, row.choice, n, number);
        let failed = failed_values(alloc, session, map, image, rows, values)?;
        if let Some(found) = failed {
            return Ok(Some(found));
        }
        number = four_later(number);
    }
    Ok(None)
}
