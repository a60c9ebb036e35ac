//! The command that assembles a text.

ghost use Rattle.std.specs.Prelude.{◌≡◌, ◌≢◌, IsErrOf, Err};
ghost use Rattle.model.specs.OneLineAssembly.{one_line};
ghost use Rattle.model.specs.Transcript.{asm_answer, source_fault_line};
ghost use Rattle.model.specs.Writers.{Writes};

use assembler::assemble_line_in;
use debugger::Session;
use model::{AsmFaultKind, Event};
use replies::{ReplyFault, happen, put, source_fault_text};
use std::alloc::Global;
use std::io::Write;

/// Assembles a text at an address in the session's profile, and patches memory with its bytes.
///
/// Writes the reply of a patch, or the fault of the text. If memory runs out, nothing is written.
pub fn assemble_patch<W: Write>(
    alloc: Global,
    session: &mut Session,
    address: u16,
    text: &[u8],
    writer: &mut W,
) -> Result<(), ReplyFault>
    ensures writes { Writes (W.contents writer.old) (W.contents writer.new) (asm_answer session.old
        address (one_line session.old.current.bus.map.profile address text.now)).written result }
    ensures after { result ≢ Err ReplyFault.OutOfMemory → session.new ≡ (asm_answer session.old
        address (one_line session.old.current.bus.map.profile address text.now)).session }
    ensures memory { IsErrOf result ReplyFault.OutOfMemory
        → (session.new ≡ session.old) × (writer.new ≡ writer.old) }
{
    match assemble_line_in(alloc, session.profile(), address, text) {
        Ok(line) => {
            let bytes = line.bytes;
            let count = line.count;
            let patch = Event::Patch {
                address,
                bytes,
                count,
            };
            happen(session, patch, writer)
        }
        Err(fault) => refuse_text(fault.kind, writer),
    }
}

/// Writes why a text is not assembled. If memory ran out, nothing is written.
fn refuse_text<W: Write>(kind: AsmFaultKind, writer: &mut W) -> Result<(), ReplyFault>
    ensures writes { kind ≢ AsmFaultKind.OutOfMemory
        → Writes (W.contents writer.old) (W.contents writer.new) (source_fault_line kind) result }
    ensures memory { kind ≡ AsmFaultKind.OutOfMemory
        → ((result ≡ Err ReplyFault.OutOfMemory) × (writer.new ≡ writer.old)) }
    ensures only { IsErrOf result ReplyFault.OutOfMemory → kind ≡ AsmFaultKind.OutOfMemory }
{
    match kind {
        AsmFaultKind::OutOfMemory => Err(ReplyFault::OutOfMemory),
        kind => put(writer, source_fault_text(kind).as_slice()),
    }
}
