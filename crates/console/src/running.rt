//! A run with a reader and a writer.

ghost use Rattle.std.specs.Prelude.{◌≡◌, ◌≤◌, ◌++◌, Err, false, IfOk, OnErr, ℕ, List};
ghost use Rattle.std.specs.Io.KnownBytes.{Keeps};
ghost use Rattle.model.specs.State.{input_waits};
ghost use Rattle.model.specs.Writers.{Writes};
ghost use Rattle.console.specs.Playing.{begun, played};
ghost use Rattle.console.specs.Written.{AreBytesOf, BrokeOff, CutRun, RanAs};

use crate::ending::{Ending, PlayFault, Played};
use crate::output::flush;
use crate::stretch::{glide, is_at};
use crate::turn::{begin, ending_after, take_turn};
use accesses::Written;
use debugger::Session;
use std::io::{Read, Write};

/// How many steps are made at least before what was written is flushed again.
const PULSE: u64 = 1_000_000;

/// Flushes what was written if many steps were made since the last time. Returns at which step it
/// was flushed last.
fn flush_at_times<W: Write>(flushed: u64, steps: u64, writer: &mut W) -> Result<u64, PlayFault>
    requires { flushed ≤ steps }
    ensures within { IfOk result (λ at. at ≤ steps) }
    ensures kept { Keeps (W.contents writer.old) (W.contents writer.new) }
    ensures fault { OnErr result (result ≡ Err PlayFault.Write) }
{
    if steps - flushed < PULSE {
        return Ok(flushed);
    }
    match flush(writer) {
        Ok(()) => Ok(steps),
        Err(fault) => Err(fault),
    }
}

/// Runs a program with a reader and a writer for its console.
///
/// At most `limit` steps are made. The run ends at the first of these: a step that leads to
/// `until`, if it is given; a jump or a branch to itself, unless input is read that may interrupt
/// it; a look for input that has ended, where the program would look again for ever; a program
/// counter at an address that was never written; a BRK whose vector was never written; a rejected
/// step; the limit. Breakpoints and watches do not end it.
///
/// An address is written if it is one of `written`, and once the program has stored or pushed a
/// byte there.
///
/// A line is read, and handed in, where the program looks for input and none waits: at an
/// instruction that reads base+1 or base+2, or at a jump to itself with I clear. No byte is read
/// that is not handed in. Once the console has taken 65,536 bytes there is no room for more, and
/// the program is run as if the input had ended. What the program writes is written byte by byte as
/// it comes. It is flushed before a line is read, at the end, and every million steps or two.
///
/// # Errors
///
/// - `Read`: a read failed. The output of the steps before it was written.
/// - `Write`: a write or a flush failed, or a write took no byte. A beginning of the output was
///   written.
///
/// Source: mos65.
pub fn play<R: Read, W: Write>(
    session: &mut Session,
    written: Written,
    until: Option<u16>,
    limit: u64,
    reader: &mut R,
    writer: &mut W,
) -> Result<Played, PlayFault>
    requires { input_waits session.old.current.bus ≡ false }
    // The run is the definition's over some input, which is the reader's if its bytes are known;
    // what the run did not ask for is left.
    ensures ok { IfOk result (λ end. (input : List ℕ) × (left : List ℕ)
        × AreBytesOf (R.remaining reader.old) input × AreBytesOf (R.remaining reader.new) left
        × RanAs (played until limit (begun session.old written input)) end session.new left) }
    // At an error no more than a beginning of that run was made.
    ensures err { OnErr result ((input : List ℕ) × (left : List ℕ)
        × AreBytesOf (R.remaining reader.old) input × AreBytesOf (R.remaining reader.new) left
        × BrokeOff until limit (begun session.old written input) session.new left) }
    // What was written is the console's output since: all of it, or at an error a beginning.
    ensures output { (text : List ℕ)
        × (session.new.current.bus.out ≡ session.old.current.bus.out ++ text)
        × Writes (W.contents writer.old) (W.contents writer.new) text result }
{
    match make_turns(session, written, until, limit, reader, writer) {
        Ok(end) => match flush(writer) {
            Ok(()) => Ok(end),
            Err(fault) => Err(fault),
        },
        Err(fault) => Err(fault),
    }
}

/// Makes the turns of a run. What was written is not flushed at the end.
fn make_turns<R: Read, W: Write>(
    session: &mut Session,
    written: Written,
    until: Option<u16>,
    limit: u64,
    reader: &mut R,
    writer: &mut W,
) -> Result<Played, PlayFault>
    requires { input_waits session.old.current.bus ≡ false }
    ensures ok { IfOk result (λ end. (input : List ℕ) × (left : List ℕ)
        × AreBytesOf (R.remaining reader.old) input × AreBytesOf (R.remaining reader.new) left
        × RanAs (played until limit (begun session.old written input)) end session.new left) }
    ensures err { OnErr result ((input : List ℕ) × (left : List ℕ)
        × AreBytesOf (R.remaining reader.old) input × AreBytesOf (R.remaining reader.new) left
        × CutRun until limit (begun session.old written input) session.new left) }
    ensures output { (text : List ℕ)
        × (session.new.current.bus.out ≡ session.old.current.bus.out ++ text)
        × Writes (W.contents writer.old) (W.contents writer.new) text result }
{
    let mut player = begin(session, written);
    let mut steps = 0;
    let mut flushed = 0;
    while steps < limit {
        match flush_at_times(flushed, steps, writer) {
            Ok(at) => flushed = at,
            Err(fault) => return Err(fault),
        }
        match take_turn(session, &mut player, reader, writer) {
            Ok(None) => {}
            Ok(Some(ending)) => return Ok(Played { steps, ending }),
            Err(fault) => return Err(fault),
        }
        steps += 1;
        steps += glide(session, &mut player, until, limit - steps);
        if is_at(until, session) {
            return Ok(Played {
                steps,
                ending: Ending::Until,
            });
        }
    }
    Ok(Played {
        steps: limit,
        ending: ending_after(session, &player),
    })
}
