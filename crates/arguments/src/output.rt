//! How a text is written whole.

ghost use Rattle.std.specs.Prelude.{◌≡◌};
ghost use Rattle.model.specs.Writers.{Writes};

use std::io::{ErrorKind, Write};

/// That a text was not written whole.
#[derive(Clone, Copy, Debug)]
pub struct NotWritten;

/// Writes all of the bytes. A write that a signal stopped is tried again.
pub fn put<O: Write>(output: &mut O, text: &[u8]) -> Result<(), NotWritten>
    ensures { Writes (O.contents output.old) (O.contents output.new) text.now result }
{
    let mut done = 0;
    for _ in 0..u64::MAX {
        if done >= text.len() {
            return Ok(());
        }
        match output.write(&text[done..]) {
            Ok(0) => return Err(NotWritten),
            Ok(n) => done += n,
            Err(error) => {
                if error.kind() != ErrorKind::Interrupted {
                    return Err(NotWritten);
                }
            }
        }
    }
    Err(NotWritten)
}

/// Writes a text and flushes it.
///
/// Errors: `NotWritten` if a write or the flush fails: a beginning of the text was then written.
pub fn write_text<O: Write>(output: &mut O, text: &[u8]) -> Result<(), NotWritten>
    ensures { Writes (O.contents output.old) (O.contents output.new) text.now result }
{
    match put(output, text) {
        Ok(()) => match output.flush() {
            Ok(()) => Ok(()),
            Err(_) => Err(NotWritten),
        },
        Err(_) => Err(NotWritten),
    }
}
