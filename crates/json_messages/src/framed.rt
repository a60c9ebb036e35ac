//! Messages as they are written.

ghost use Rattle.std.specs.Prelude.{◌≡◌, ◌++◌, IfErr, OnErr, OnOk};
ghost use Rattle.std.specs.Io.KnownBytes.{Appends};
ghost use Rattle.json_messages.specs.Messages.{framed};
ghost use Rattle.json_messages.specs.Taken.{IsUnwritten};
ghost use Rattle.model.specs.Writers.{AppendsFront, Writes};

use crate::fault::StreamFault;
use formatting::{push_count, push_text};
use std::alloc::{AllocError, Global};
use std::io::{ErrorKind, Write};

/// Appends a message with this body.
///
/// Errors: `AllocError` if an allocation fails; a part of the message may be appended then.
pub fn push_message(text: &mut Vec<u8>, body: &[u8]) -> Result<(), AllocError>
    ensures { OnOk result (text.new.items ≡ text.old.items ++ framed body.now) }
{
    push_text(text, "Content-Length: ")?;
    push_count(text, body.len() as u64)?;
    push_text(text, "\r\n\r\n")?;
    text.extend_from_slice(body)
}

/// Writes all of the bytes. A write that a signal stopped is tried again.
///
/// Errors: `Write` if a write fails; a beginning of the bytes is written then.
fn put<W: Write>(writer: &mut W, bytes: &[u8]) -> Result<(), StreamFault>
    ensures written { Writes (W.contents writer.old) (W.contents writer.new) bytes.now result }
    ensures fault { IfErr result IsUnwritten }
{
    let mut done = 0;
    for _ in 0..u64::MAX {
        if done >= bytes.len() {
            return Ok(());
        }
        match writer.write(&bytes[done..]) {
            Ok(0) => return Err(StreamFault::Write),
            Ok(n) => done += n,
            Err(error) => {
                if error.kind() != ErrorKind::Interrupted {
                    return Err(StreamFault::Write);
                }
            }
        }
    }
    Err(StreamFault::Write)
}

/// Writes a message with this body, and flushes the writer.
///
/// # Errors
///
/// - `Write`: the write or the flush failed. A beginning of the message, or all of it, was written.
/// - `OutOfMemory`: an allocation failed. Nothing was written.
pub fn write_message<W: Write>(
    alloc: Global,
    writer: &mut W,
    body: &[u8],
) -> Result<(), StreamFault>
    ensures written { OnOk result
        (Appends (W.contents writer.old) (W.contents writer.new) (framed body.now)) }
    ensures begun { OnErr result
        (AppendsFront (W.contents writer.old) (W.contents writer.new) (framed body.now)) }
    ensures fault { IfErr result IsUnwritten }
{
    let mut text = Vec::new(alloc);
    if push_message(&mut text, body).is_err() {
        return Err(StreamFault::OutOfMemory);
    }
    put(writer, text.as_slice())?;
    match writer.flush() {
        Ok(()) => Ok(()),
        Err(_) => Err(StreamFault::Write),
    }
}
