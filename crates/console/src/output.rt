//! Output: the bytes that a step has put out, to the writer.

ghost use Rattle.std.specs.Prelude.{◌≡◌, ◌<◌, ◌∷◌, [], Err, OnErr, drop, length, slice_index};
ghost use Rattle.std.specs.Io.KnownBytes.{Keeps};
ghost use Rattle.model.specs.Writers.{Writes};

use crate::ending::PlayFault;
use debugger::Session;
use std::io::Write;

/// Writes a byte.
fn put_byte<W: Write>(writer: &mut W, byte: u8) -> Result<(), PlayFault>
    ensures writes { Writes (W.contents writer.old) (W.contents writer.new) (byte ∷ []) result }
    ensures fault { OnErr result (result ≡ Err PlayFault.Write) }
{
    let bytes = [byte];
    match writer.write(&bytes) {
        Ok(0) => Err(PlayFault::Write),
        Ok(_) => Ok(()),
        Err(_) => Err(PlayFault::Write),
    }
}

/// Returns a byte that the output has.
fn output_byte(session: &Session, index: u32) -> u8
    requires { index < length session.now.current.bus.out }
    ensures { result ≡ slice_index session.now.current.bus.out index }
{
    session.output_at(index).unwrap_or(0)
}

/// Writes what the output has from an index on.
pub fn put_output<W: Write>(session: &Session, from: u32, writer: &mut W) -> Result<(), PlayFault>
    ensures writes { Writes (W.contents writer.old) (W.contents writer.new)
        (drop from session.now.current.bus.out) result }
    ensures fault { OnErr result (result ≡ Err PlayFault.Write) }
{
    for index in from..session.output_len() {
        match put_byte(writer, output_byte(session, index)) {
            Ok(()) => {}
            Err(fault) => return Err(fault),
        }
    }
    Ok(())
}

/// Flushes what was written.
pub fn flush<W: Write>(writer: &mut W) -> Result<(), PlayFault>
    ensures kept { Keeps (W.contents writer.old) (W.contents writer.new) }
    ensures fault { OnErr result (result ≡ Err PlayFault.Write) }
{
    match writer.flush() {
        Ok(()) => Ok(()),
        Err(_) => Err(PlayFault::Write),
    }
}
