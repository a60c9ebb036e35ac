//! Calls of the session that are not events, and the replies to them.

ghost use Rattle.std.specs.Prelude.{◌≡◌, ◌≢◌, IsErrOf, IsOk, OnErr, Ok, Err};
ghost use Rattle.model.specs.Writers.{Writes};
ghost use Rattle.model.specs.Run.{after_steps, run_end};
ghost use Rattle.model.specs.Back.{back_of};
ghost use Rattle.model.specs.Breakpoints.{break_cleared, break_set, watch_cleared, watch_set};
ghost use Rattle.model.specs.Transcript.{back_answer, refusal_line, run_line, table_answer};

use crate::fault::ReplyFault;
use crate::output::put;
use crate::texts::{refusal_text, register_text, run_text};
use debugger::Session;
use model::SessionFault;
use std::io::Write;

/// Runs at most so many steps, and writes how many were made and why the run ended.
pub fn run<W: Write>(session: &mut Session, count: u32, writer: &mut W) -> Result<(), ReplyFault>
    ensures writes { Writes (W.contents writer.old) (W.contents writer.new)
        (run_line (run_end count session.old)) result }
    ensures after { session.new ≡ after_steps (run_end count session.old).did session.old }
    ensures fault { OnErr result (result ≡ Err ReplyFault.Write) }
{
    let end = session.run(count);
    put(writer, run_text(end).as_slice())
}

/// Undoes so many events, and writes the register line, or how many are held.
pub fn go_back<W: Write>(
    session: &mut Session,
    count: u32,
    writer: &mut W,
) -> Result<(), ReplyFault>
    ensures writes { Writes (W.contents writer.old) (W.contents writer.new)
        (back_answer session.old (back_of count session.old)).written result }
    ensures after { session.new ≡ (back_answer session.old (back_of count session.old)).session }
    ensures fault { OnErr result (result ≡ Err ReplyFault.Write) }
{
    match session.back(count) {
        Ok(()) => put(writer, register_text(session).as_slice()),
        Err(fault) => put(writer, refusal_text(fault).as_slice()),
    }
}

/// Sets a breakpoint, and writes `OK` or the fault. If memory runs out, nothing is written.
pub fn set_break<W: Write>(
    session: &mut Session,
    address: u16,
    writer: &mut W,
) -> Result<(), ReplyFault>
    ensures writes { Writes (W.contents writer.old) (W.contents writer.new)
        (table_answer session.old (break_set address session.old)).written result }
    ensures after { result ≢ Err ReplyFault.OutOfMemory
        → session.new ≡ (table_answer session.old (break_set address session.old)).session }
    ensures memory { IsErrOf result ReplyFault.OutOfMemory → (session.new ≡ session.old)
        × (writer.new ≡ writer.old) × IsOk (break_set address session.old) }
{
    match session.set_break(address) {
        Ok(()) => put(writer, b"OK\n"),
        Err(fault) => refuse(fault, writer),
    }
}

/// Sets a watchpoint, and writes `OK` or the fault. If memory runs out, nothing is written.
pub fn set_watch<W: Write>(
    session: &mut Session,
    address: u16,
    writer: &mut W,
) -> Result<(), ReplyFault>
    ensures writes { Writes (W.contents writer.old) (W.contents writer.new)
        (table_answer session.old (watch_set address session.old)).written result }
    ensures after { result ≢ Err ReplyFault.OutOfMemory
        → session.new ≡ (table_answer session.old (watch_set address session.old)).session }
    ensures memory { IsErrOf result ReplyFault.OutOfMemory → (session.new ≡ session.old)
        × (writer.new ≡ writer.old) × IsOk (watch_set address session.old) }
{
    match session.set_watch(address) {
        Ok(()) => put(writer, b"OK\n"),
        Err(fault) => refuse(fault, writer),
    }
}

/// Clears a breakpoint, and writes `OK` or the fault.
pub fn clear_break<W: Write>(
    session: &mut Session,
    address: u16,
    writer: &mut W,
) -> Result<(), ReplyFault>
    ensures writes { Writes (W.contents writer.old) (W.contents writer.new)
        (table_answer session.old (break_cleared address session.old)).written result }
    ensures after { session.new
        ≡ (table_answer session.old (break_cleared address session.old)).session }
    ensures fault { OnErr result (result ≡ Err ReplyFault.Write) }
{
    match session.clear_break(address) {
        Ok(()) => put(writer, b"OK\n"),
        Err(fault) => put(writer, refusal_text(fault).as_slice()),
    }
}

/// Clears a watchpoint, and writes `OK` or the fault.
pub fn clear_watch<W: Write>(
    session: &mut Session,
    address: u16,
    writer: &mut W,
) -> Result<(), ReplyFault>
    ensures writes { Writes (W.contents writer.old) (W.contents writer.new)
        (table_answer session.old (watch_cleared address session.old)).written result }
    ensures after { session.new
        ≡ (table_answer session.old (watch_cleared address session.old)).session }
    ensures fault { OnErr result (result ≡ Err ReplyFault.Write) }
{
    match session.clear_watch(address) {
        Ok(()) => put(writer, b"OK\n"),
        Err(fault) => put(writer, refusal_text(fault).as_slice()),
    }
}

/// Writes why a breakpoint or a watchpoint is not set. If memory ran out, nothing is written.
fn refuse<W: Write>(fault: SessionFault, writer: &mut W) -> Result<(), ReplyFault>
    ensures writes { fault ≢ SessionFault.OutOfMemory
        → Writes (W.contents writer.old) (W.contents writer.new) (refusal_line fault) result }
    ensures memory { fault ≡ SessionFault.OutOfMemory
        → ((result ≡ Err ReplyFault.OutOfMemory) × (writer.new ≡ writer.old)) }
    ensures only { IsErrOf result ReplyFault.OutOfMemory → fault ≡ SessionFault.OutOfMemory }
{
    match fault {
        SessionFault::OutOfMemory => Err(ReplyFault::OutOfMemory),
        fault => put(writer, refusal_text(fault).as_slice()),
    }
}
