//! A run as the data of a page: the state that it starts from, and the records of its steps.

ghost use Rattle.std.specs.Prelude.{◌≡◌, ◌≢◌, ◌≤◌, ◌+◌, ◌*◌, ◌++◌, [], IfOk, length, List};
ghost use Rattle.std.specs.Prelude.{None, OnErr, OnOk, Some, take, ℕ};
ghost use Rattle.model.specs.Run.{after_run, after_steps, run_end};
ghost use Rattle.model.specs.Session.{Session as SessionView};
ghost use Rattle.model.specs.State.{State};
ghost use Rattle.mos65_c.specs.Answers.{written};
ghost use Rattle.mos65_c.specs.Records.{goes_on};
ghost use Rattle.mos65_c.specs.Status.{ending_of};
ghost use Rattle.page_data.specs.Runs.{IsRecorded};
ghost use Rattle.page_data.specs.Start.{start_at, start_bytes};

use crate::ending::{Ending, ending_of};
use crate::machine::{CLOSED, Mos65, OUT_OF_MEMORY};
use crate::texts::tell;
use debugger::{RunEnd, Session, Why};
use page_data::{look_ahead, push_start, push_step};
use std::alloc::{AllocError, Global};

/// Writes the beginning of a machine's state, as the data of a page begins, for which `out` has
/// room, and tells how long the whole is.
#[unsafe(no_mangle)]
pub extern "C" fn mos65_record_start(
    alloc: Global,
    m: &mut Mos65,
    out: &mut [u8],
    count: &mut usize,
) -> u32
    ensures live { (s : SessionView) → m.old.slot.session ≡ Some s → result ≢ 3 → result ≡ 0 }
    ensures told { (s : SessionView) → m.old.slot.session ≡ Some s → result ≢ 3
        → (count.new ≡ length (start_bytes s.current))
        × (out.new ≡ written (take (length out.old) (start_bytes s.current)) out.old) }
    // What is written of a state is read as this state, whatever comes after it.
    ensures read { (s : SessionView) → m.old.slot.session ≡ Some s → result ≢ 3
        → (rest : List ℕ) → start_at s.current.bus.map (start_bytes s.current ++ rest)
        ≡ (s.current, rest) }
    ensures gone { m.old.slot.session ≡ None → result ≡ 1 }
    ensures refused { result ≢ 0 → (out.new ≡ out.old) × (count.new ≡ count.old) }
    ensures same { m.new.slot.session ≡ m.old.slot.session }
{
    if !m.live {
        return CLOSED;
    }
    let mut written = Vec::new(alloc);
    match push_start(&mut written, m.slot.inside()) {
        Ok(()) => {
            tell(&written, out, count);
            0
        }
        Err(_) => OUT_OF_MEMORY,
    }
}

/// Makes a run of one step, and appends the record of the step if it was made.
///
/// Errors: `AllocError` if an allocation fails; the step was made.
fn record_one(
    alloc: Global,
    session: &mut Session,
    records: &mut Vec<u8>,
) -> Result<RunEnd, AllocError>
    ensures end { IfOk result (λ end. end ≡ run_end 1 session.old) }
    ensures within { IfOk result (λ end. end.did ≤ 1) }
    ensures after { session.new ≡ after_run 1 session.old }
    ensures told { OnOk result ((start : State)
        → IsRecorded start records.old.items session.old.current
        → IsRecorded start records.new.items session.new.current) }
    ensures short { IfOk result
        (λ end. length records.new.items ≤ length records.old.items + 26 * end.did) }
{
    // For the proof: that the registers and the memory are in range.
    session.is_state();
    let ahead = look_ahead(session);
    let end = session.run(1);
    if end.did == 0 {
        return Ok(end);
    }
    push_step(alloc, records, &ahead, &[], session)?;
    Ok(end)
}

/// Returns whether a run goes on after a run of one step that ended so.
fn goes_on(why: Why) -> bool
    ensures { result ≡ goes_on why }
{
    match why {
        Why::Limit => true,
        Why::Break(_) | Why::Watch(_) | Why::Refused(_) => false,
    }
}

/// Runs as `Session::run` does, and puts the records of the steps into an empty list.
///
/// Errors: `AllocError` if an allocation fails; the steps until then were made.
fn record_run(
    alloc: Global,
    session: &mut Session,
    limit: u32,
    records: &mut Vec<u8>,
) -> Result<RunEnd, AllocError>
    requires { records.old.items ≡ [] }
    ensures end { IfOk result (λ end. end ≡ run_end limit session.old) }
    ensures after { OnOk result (session.new ≡ after_run limit session.old) }
    ensures told { OnOk result (IsRecorded session.old.current records.new.items
        session.new.current) }
    ensures short { IfOk result (λ end. length records.new.items ≤ 26 * end.did) }
    // The machine is at a state of this run.
    ensures err { OnErr result ((k : ℕ) × (k ≤ (run_end limit session.old).did)
        × (session.new ≡ after_steps k session.old)) }
{
    for did in 0..limit {
        let end = record_one(alloc, session, records)?;
        if !goes_on(end.why) {
            return Ok(RunEnd {
                did: did + end.did,
                why: end.why,
            });
        }
    }
    Ok(RunEnd {
        did: limit,
        why: Why::Limit,
    })
}

/// Runs as `mos65_run` does, writes the beginning of the records of the steps for which `out` has
/// room, and tells how long all records are.
///
/// Where memory is refused, the steps until then were made.
#[unsafe(no_mangle)]
pub extern "C" fn mos65_record_run(
    alloc: Global,
    m: &mut Mos65,
    limit: u32,
    ending: &mut Ending,
    out: &mut [u8],
    count: &mut usize,
) -> u32
    ensures live { (s : SessionView) → m.old.slot.session ≡ Some s → result ≢ 3
        → (result ≡ 0) × (ending.new ≡ ending_of (run_end limit s))
        × (m.new.slot.session ≡ Some (after_run limit s)) }
    // Decoded, and applied from the machine's state, the records give exactly the states of these
    // steps, one after another; applied backwards from the last, they give the same in reverse.
    ensures told { (s : SessionView) → m.old.slot.session ≡ Some s → result ≢ 3
        → (records : List ℕ) × IsRecorded s.current records (after_run limit s).current
        × (count.new ≡ length records)
        × (out.new ≡ written (take (length out.old) records) out.old) }
    // A record has 26 bytes at most.
    ensures short { (s : SessionView) → m.old.slot.session ≡ Some s → result ≢ 3
        → count.new ≤ 26 * ending.new.did }
    // The machine is at a state of this run.
    ensures memory { (s : SessionView) → m.old.slot.session ≡ Some s → result ≡ 3 → (k : ℕ)
        × (k ≤ (run_end limit s).did) × (m.new.slot.session ≡ Some (after_steps k s)) }
    ensures gone { m.old.slot.session ≡ None → (result ≡ 1) × (m.new.slot.session ≡ None) }
    ensures refused { result ≢ 0
        → (ending.new ≡ ending.old) × (out.new ≡ out.old) × (count.new ≡ count.old) }
{
    if !m.live {
        return CLOSED;
    }
    let mut records = Vec::new(alloc);
    match record_run(alloc, m.slot.inside(), limit, &mut records) {
        Ok(end) => {
            *ending = ending_of(end);
            tell(&records, out, count);
            0
        }
        Err(_) => OUT_OF_MEMORY,
    }
}
