//! Events, and the replies to them.

ghost use Rattle.std.specs.Prelude.{◌≡◌, ◌≤◌, ◌+◌, ◌∷◌, ◌++◌, [], length, OnErr, Ok, Err, nat_lt};
ghost use Rattle.model.specs.Writers.{Writes};
ghost use Rattle.model.specs.Event.{event_of};
ghost use Rattle.model.specs.State.{console_size};
ghost use Rattle.model.specs.Transcript.{after_input, event_answer, input_answer, stepped_answer};

use crate::fault::ReplyFault;
use crate::output::put;
use crate::texts::{fault_text, register_text};
use debugger::Session;
use model::{Event, EventFault};
use std::io::Write;

/// Makes a step, and writes the register line after it, or the fault.
pub fn step<W: Write>(session: &mut Session, writer: &mut W) -> Result<(), ReplyFault>
    ensures writes { Writes (W.contents writer.old) (W.contents writer.new)
        (stepped_answer session.old (event_of session.old.current Event.Step)).written result }
    ensures after { session.new
        ≡ (stepped_answer session.old (event_of session.old.current Event.Step)).session }
    ensures fault { OnErr result (result ≡ Err ReplyFault.Write) }
{
    match session.event(Event::Step) {
        Ok(()) => put(writer, register_text(session).as_slice()),
        Err(fault) => put(writer, fault_text(fault).as_slice()),
    }
}

/// Makes an event other than a step, and writes `OK` or the fault.
pub fn happen<W: Write>(
    session: &mut Session,
    event: Event,
    writer: &mut W,
) -> Result<(), ReplyFault>
    ensures writes { Writes (W.contents writer.old) (W.contents writer.new)
        (event_answer session.old (event_of session.old.current event)).written result }
    ensures after { session.new
        ≡ (event_answer session.old (event_of session.old.current event)).session }
    ensures fault { OnErr result (result ≡ Err ReplyFault.Write) }
{
    match session.event(event) {
        Ok(()) => put(writer, b"OK\n"),
        Err(fault) => put(writer, fault_text(fault).as_slice()),
    }
}

/// Hands in bytes of input, all of them or none, and writes `OK` or the fault.
#[tactic(auto, unfolding(model::specs::Transcript::input_answer))]
pub fn take_input<W: Write>(
    session: &mut Session,
    bytes: &[u8],
    writer: &mut W,
) -> Result<(), ReplyFault>
    ensures writes { Writes (W.contents writer.old) (W.contents writer.new)
        (input_answer session.old bytes.now).written result }
    ensures after { session.new ≡ (input_answer session.old bytes.now).session }
    ensures fault { OnErr result (result ≡ Err ReplyFault.Write) }
{
    if exceeds_room(session, bytes) {
        return put(writer, fault_text(EventFault::InputFull).as_slice());
    }
    hand_in(session, bytes);
    put(writer, b"OK\n")
}

/// Returns whether there is no room for all of the bytes.
fn exceeds_room(session: &Session, bytes: &[u8]) -> bool
    ensures { result
        ≡ nat_lt console_size (length session.now.current.bus.given + length bytes.now) }
{
    bytes.len() > session.input_room() as usize
}

/// Hands in bytes for which there is room, each an event of its own. None is rejected.
fn hand_in(session: &mut Session, bytes: &[u8])
    requires { length session.old.current.bus.given + length bytes.now ≤ 65536 }
    ensures after { session.new ≡ after_input session.old bytes.now }
    ensures given { session.new.current.bus.given ≡ session.old.current.bus.given ++ bytes.now }
{
    for byte in bytes {
        hand_in_byte(session, *byte);
    }
}

/// Hands in a byte for which there is room. The event is not rejected.
fn hand_in_byte(session: &mut Session, byte: u8)
    requires { length session.old.current.bus.given + 1 ≤ 65536 }
    ensures accepted { event_of session.old.current (Event.Input byte) ≡ Ok session.new.current }
    ensures after { session.new ≡ after_input session.old (byte ∷ []) }
    ensures given { session.new.current.bus.given ≡ session.old.current.bus.given ++ byte ∷ [] }
{
    let _ = session.event(Event::Input(byte));
}
