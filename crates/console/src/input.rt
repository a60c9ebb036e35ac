//! Input: a line from the reader to the session.

ghost use Rattle.std.specs.Prelude.{◌≡◌, ◌+◌, ◌≤◌, ◌∷◌, ◌++◌, [], ℕ, List, IfNone, IfOk, OnErr};
ghost use Rattle.std.specs.Prelude.{length, option_to_list, true};
ghost use Rattle.std.specs.Io.KnownBytes.{Consumes, IsAtEnd, Keeps};
ghost use Rattle.model.specs.Transcript.{after_input};
ghost use Rattle.console.specs.Line.{line_at, room_of};
ghost use Rattle.console.specs.Given.{given_to};

use crate::ending::PlayFault;
use debugger::Session;
use model::Event;
use std::io::Read;

/// A line that was handed in.
#[derive(Clone, Copy)]
pub struct Line {
    /// How many bytes it has, its LF included: 0 if there was none.
    pub len: u32,
    /// Whether the reader has ended.
    pub is_last: bool,
}

/// Hands in a byte for which there is room.
#[tactic(auto, unfolding(model::specs::Transcript::after_input, model::specs::Event::event_of, model::specs::Event::input_of))]
fn hand_in_byte(session: &mut Session, byte: u8)
    requires { length session.old.current.bus.given + 1 ≤ 65536 }
    ensures after { session.new ≡ after_input session.old (byte ∷ []) }
    ensures current { session.new.current ≡ given_to session.old.current (byte ∷ []) }
{
    let _ = session.event(Event::Input(byte));
}

/// Reads a byte, or `None` at the end of the reader.
fn read_byte<R: Read>(reader: &mut R) -> Result<Option<u8>, PlayFault>
    ensures told { IfOk result (λ byte. Consumes (R.remaining reader.old) (R.remaining reader.new)
        (option_to_list byte)) }
    ensures end { IfOk result (λ byte. IfNone byte (IsAtEnd (R.remaining reader.new))) }
    ensures fault { OnErr result (Keeps (R.remaining reader.old) (R.remaining reader.new)) }
{
    let mut byte = [0u8; 1];
    match reader.read(&mut byte) {
        Ok(0) => Ok(None),
        Ok(_) => Ok(Some(byte[0])),
        Err(_) => Err(PlayFault::Read),
    }
}

/// Reads a line from the reader and hands it in, byte by byte: no byte is read that is not handed
/// in.
///
/// # Errors
///
/// `Read`: a read failed. The bytes before it were handed in.
pub fn hand_in_line<R: Read>(session: &mut Session, reader: &mut R) -> Result<Line, PlayFault>
    ensures line { IfOk result (λ line. (told : List ℕ)
        × Consumes (R.remaining reader.old) (R.remaining reader.new) told
        × (line.is_last ≡ true → IsAtEnd (R.remaining reader.new))
        × (line.len ≡ length told)
        × (session.new ≡ after_input session.old told)
        × (session.new.current ≡ given_to session.old.current told)
        × ((rest : List ℕ) → (line.is_last ≡ true → rest ≡ [])
        → line_at (room_of session.old.current) (told ++ rest) ≡ told)) }
    ensures err { OnErr result ((told : List ℕ)
        × Consumes (R.remaining reader.old) (R.remaining reader.new) told
        × (session.new ≡ after_input session.old told)) }
    ensures output { session.new.current.bus.out ≡ session.old.current.bus.out }
{
    let room = session.input_room();
    for len in 0..room {
        match read_byte(reader) {
            Ok(None) => return Ok(Line { len, is_last: true }),
            Ok(Some(b'\n')) => {
                hand_in_byte(session, b'\n');
                return Ok(Line {
                    len: len + 1,
                    is_last: false,
                });
            }
            Ok(Some(byte)) => hand_in_byte(session, byte),
            Err(fault) => return Err(fault),
        }
    }
    Ok(Line {
        len: room,
        is_last: false,
    })
}
