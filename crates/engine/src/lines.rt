//! The lines of the input, and the loop that serves them.

ghost use Rattle.std.specs.Prelude.{◌≡◌, [], ◌∷◌, IfErr, IfOk};
ghost use Rattle.std.specs.Io.BufRead.{strip_last};
ghost use Rattle.model.specs.Commands.{command_of};
ghost use Rattle.model.specs.Writers.{Writes};
ghost use Rattle.model.specs.Transcript.{answer_to};
ghost use Rattle.engine.specs.Feeding.{feed, fed};
ghost use Rattle.engine.specs.Outcome.{EndsReply, EndsServing, Serves};

use crate::command::execute;
use crate::fault::EngineFault;
use arrayvec::ArrayVec;
use commands::parse;
use debugger::Session;
use std::alloc::Global;
use std::io::{Read, Write};

/// The beginning of a line that has not ended yet: no more than its first 257 bytes.
///
/// The longest line has 255, one more may be its CR, and one more makes it too long.
type Begun = ArrayVec<u8, 257>;

/// Serves the lines that the reader reads, up to `quit` or its end.
///
/// Each reply is written and flushed before the reader is asked again.
///
/// # Errors
///
/// - `Read`: a read failed. The complete lines read so far have been answered.
/// - `Write`: a write or a flush failed. A beginning of the transcript was written.
/// - `OutOfMemory`: an allocation of a command failed. A beginning of the transcript was written.
pub fn serve<R: Read, W: Write>(
    alloc: Global,
    session: &mut Session,
    reader: &mut R,
    writer: &mut W,
) -> Result<(), EngineFault>
    ensures serves { Serves session.old (R.remaining reader.old) (R.remaining reader.new)
        (W.contents writer.old) (W.contents writer.new) result }
    ensures only { IfErr result EndsServing }
{
    let mut begun = Begun::new();
    let mut chunk = [0u8; 512];
    for _ in 0..u64::MAX {
        match reader.read(&mut chunk) {
            Ok(0) => {
                if begun.is_empty() {
                    return Ok(());
                }
                return match serve_line(alloc, session, begun.as_slice(), writer) {
                    Ok(_) => Ok(()),
                    Err(fault) => Err(fault),
                };
            }
            Ok(n) => match serve_bytes(alloc, session, &mut begun, &chunk[..n], writer) {
                Ok(true) => return Ok(()),
                Ok(false) => {}
                Err(fault) => return Err(fault),
            },
            Err(_) => return Err(EngineFault::Read),
        }
    }
    Err(EngineFault::Read)
}

/// Serves some bytes of the input. Returns whether the engine is to end.
fn serve_bytes<W: Write>(
    alloc: Global,
    session: &mut Session,
    begun: &mut Begun,
    bytes: &[u8],
    writer: &mut W,
) -> Result<bool, EngineFault>
    ensures writes { Writes (W.contents writer.old) (W.contents writer.new)
        (feed session.old begun.old.items bytes.now).written result }
    ensures ok { IfOk result (λ quit. feed session.old begun.old.items bytes.now ≡ fed
        (feed session.old begun.old.items bytes.now).written session.new begun.new.items quit) }
    ensures fault { IfErr result EndsReply }
{
    for byte in bytes {
        match serve_byte(alloc, session, begun, *byte, writer) {
            Ok(false) => {}
            Ok(true) => return Ok(true),
            Err(fault) => return Err(fault),
        }
    }
    Ok(false)
}

/// Serves one byte of the input.
#[tactic(auto, unfolding(crate::specs::Feeding::feed))]
fn serve_byte<W: Write>(
    alloc: Global,
    session: &mut Session,
    begun: &mut Begun,
    byte: u8,
    writer: &mut W,
) -> Result<bool, EngineFault>
    ensures writes { Writes (W.contents writer.old) (W.contents writer.new)
        (feed session.old begun.old.items (byte ∷ [])).written result }
    ensures ok { IfOk result (λ quit. feed session.old begun.old.items (byte ∷ []) ≡ fed
        (feed session.old begun.old.items (byte ∷ [])).written session.new begun.new.items quit) }
    ensures fault { IfErr result EndsReply }
{
    if byte == b'\n' {
        return serve_begun(alloc, session, begun, writer);
    }
    if begun.len() < 257 {
        begun.push(byte);
    }
    Ok(false)
}

/// Serves a line that an LF has ended, and begins the next one.
fn serve_begun<W: Write>(
    alloc: Global,
    session: &mut Session,
    begun: &mut Begun,
    writer: &mut W,
) -> Result<bool, EngineFault>
    ensures writes { Writes (W.contents writer.old) (W.contents writer.new)
        (answer_to (command_of (strip_last 13 begun.old.items)) session.old).written result }
    ensures ok { IfOk result
        (λ quit. (quit ≡ (answer_to (command_of (strip_last 13 begun.old.items)) session.old).quit)
        × (session.new
        ≡ (answer_to (command_of (strip_last 13 begun.old.items)) session.old).session)
        × (begun.new.items ≡ [])) }
    ensures fault { IfErr result EndsReply }
{
    let line = match begun.as_slice() {
        [line @ .., b'\r'] => line,
        line => line,
    };
    let quit = serve_line(alloc, session, line, writer)?;
    begun.clear();
    Ok(quit)
}

/// Serves a line without its end: writes and flushes its reply.
fn serve_line<W: Write>(
    alloc: Global,
    session: &mut Session,
    line: &[u8],
    writer: &mut W,
) -> Result<bool, EngineFault>
    ensures writes { Writes (W.contents writer.old) (W.contents writer.new)
        (answer_to (command_of line.now) session.old).written result }
    ensures ok { IfOk result (λ quit. (quit ≡ (answer_to (command_of line.now) session.old).quit)
        × (session.new ≡ (answer_to (command_of line.now) session.old).session)) }
    ensures fault { IfErr result EndsReply }
{
    let command = parse(line);
    let quit = execute(alloc, session, command, writer)?;
    match writer.flush() {
        Ok(()) => Ok(quit),
        Err(_) => Err(EngineFault::Write),
    }
}
