//! How bytes are written.

ghost use Rattle.std.specs.Prelude.{◌≡◌, Err, OnErr};
ghost use Rattle.model.specs.Writers.{Writes};

use crate::fault::ReplyFault;
use std::io::Write;

/// Writes all of the bytes.
///
/// # Errors
///
/// `Write` if a write fails, whatever its error, or takes no byte: a beginning of the bytes was
/// then written.
pub fn put<W: Write>(writer: &mut W, bytes: &[u8]) -> Result<(), ReplyFault>
    ensures writes { Writes (W.contents writer.old) (W.contents writer.new) bytes.now result }
    ensures fault { OnErr result (result ≡ Err ReplyFault.Write) }
{
    let mut done = 0;
    while done < bytes.len() {
        match writer.write(&bytes[done..]) {
            Ok(0) => return Err(ReplyFault::Write),
            Ok(n) => done += n,
            Err(_) => return Err(ReplyFault::Write),
        }
    }
    Ok(())
}
