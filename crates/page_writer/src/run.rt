//! The records of a run, on their way to a writer.

ghost use Rattle.std.specs.Prelude.{◌≡◌, ◌<◌, ◌++◌, ℕ, List, IfOk, OnOk, false, get_or, true};
ghost use Rattle.std.specs.Io.KnownBytes.{Appends};
ghost use Rattle.base64.specs.Engines.{standard};
ghost use Rattle.base64.specs.GeneralPurpose.{encode_of};
ghost use Rattle.console.specs.Playing.{begun, played};
ghost use Rattle.console.specs.Written.{RanAs};
ghost use Rattle.page_data.specs.Safe.{is_safe_text};
ghost use Rattle.page_data.specs.Start.{start_at, start_bytes};
ghost use Rattle.page_writer.specs.Data.{AreRecords, IsDataOf, IsSentSafely};
ghost use Rattle.page_writer.specs.Steps.{steps_of};

use crate::turn::record_turn;
use accesses::Written;
use console::{Ending, Played, begin, ending_after, is_at};
use debugger::Session;
use page_data::{SendFault, push_start, send_groups, send_rest};
use std::alloc::Global;
use std::io::Write;

/// How many bytes wait at least before they are written.
const FULL: usize = 49152;

/// For the proof: each of some bytes has eight bits.
fn has_bytes(bytes: &[u8])
    ensures { (k : ℕ) → get_or bytes.now k 0 < 256 }
{}

/// Writes in base64 what has whole groups of three bytes, if many bytes wait.
fn send_many<W: Write>(
    alloc: Global,
    pending: &mut Vec<u8>,
    writer: &mut W,
) -> Result<(), SendFault>
    ensures { OnOk result (IsSentSafely (W.contents writer.old) (W.contents writer.new)
        pending.old.items pending.new.items) }
{
    if pending.len() < FULL {
        return Ok(());
    }
    has_bytes(pending.as_slice());
    send_groups(alloc, pending, writer)
}

/// Makes the turns of a run, and writes the records of its steps as they come.
fn record_run<W: Write>(
    alloc: Global,
    session: &mut Session,
    written: Written,
    until: Option<u16>,
    limit: u64,
    input: &[u8],
    pending: &mut Vec<u8>,
    writer: &mut W,
) -> Result<Played, SendFault>
    ensures { IfOk result (λ end. (left : List ℕ) × (records : List ℕ)
        × RanAs (played until limit (begun session.old written input.now)) end session.new left
        × AreRecords session.old.current
        (steps_of until limit (begun session.old written input.now)) records
        × IsSentSafely (W.contents writer.old) (W.contents writer.new)
        (pending.old.items ++ records) pending.new.items) }
{
    let mut player = begin(session, written);
    let mut left = input;
    for steps in 0..limit {
        match record_turn(alloc, session, &mut player, &mut left, pending) {
            Ok(None) => {}
            Ok(Some(ending)) => return Ok(Played { steps, ending }),
            Err(fault) => return Err(fault),
        }
        send_many(alloc, pending, writer)?;
        if is_at(until, session) {
            return Ok(Played {
                steps: steps + 1,
                ending: Ending::Until,
            });
        }
    }
    Ok(Played {
        steps: limit,
        ending: ending_after(session, &player),
    })
}

/// Returns the bytes of the state that a run starts from.
fn start_of(alloc: Global, session: &Session) -> Result<Vec<u8>, SendFault>
    ensures bytes { IfOk result (λ bytes. bytes.items ≡ start_bytes session.now.current) }
    ensures told { IfOk result (λ bytes. (rest : List ℕ)
        → start_at session.now.current.bus.map (start_bytes session.now.current ++ rest)
        ≡ (session.now.current, rest)) }
{
    let mut bytes = Vec::new(alloc);
    match push_start(&mut bytes, session) {
        Ok(()) => Ok(bytes),
        Err(_) => Err(SendFault::OutOfMemory),
    }
}

/// Runs a program and writes the data of its run in base64: the state at the start, and the records
/// of the steps.
///
/// Errors: `OutOfMemory` if an allocation fails, `Write` if a write fails.
pub fn write_run<W: Write>(
    alloc: Global,
    session: &mut Session,
    written: Written,
    until: Option<u16>,
    limit: u64,
    input: &[u8],
    writer: &mut W,
) -> Result<Played, SendFault>
    ensures { IfOk result (λ end. (left : List ℕ) × (bytes : List ℕ)
        × RanAs (played until limit (begun session.old written input.now)) end session.new left
        × IsDataOf session.old.current
        (steps_of until limit (begun session.old written input.now)) bytes
        × (is_safe_text (encode_of standard bytes) ≡ true)
        × Appends (W.contents writer.old) (W.contents writer.new) (encode_of standard bytes)) }
{
    let mut pending = start_of(alloc, session)?;
    let played = record_run(
        alloc,
        session,
        written,
        until,
        limit,
        input,
        &mut pending,
        writer,
    )?;
    has_bytes(pending.as_slice());
    send_rest(alloc, &mut pending, writer)?;
    Ok(played)
}
