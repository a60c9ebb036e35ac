//! Bytes on their way to a writer, in base64.

ghost use Rattle.std.specs.Prelude.{◌≡◌, [], IfOk, OnOk};
ghost use Rattle.std.specs.Io.KnownBytes.{Appends};
ghost use Rattle.base64.specs.Engines.{standard};
ghost use Rattle.base64.specs.GeneralPurpose.{encode_of};
ghost use Rattle.page_data.specs.Sent.{IsSent};

use crate::text::push_base64;
use std::alloc::{AllocError, Global};
use std::io::Write;

/// Why bytes could not be written.
#[derive(Clone, Copy, Debug, PartialEq, Eq)]
pub enum SendFault {
    /// An allocation failed.
    OutOfMemory,
    /// A write failed.
    Write,
}

/// Returns bytes in base64.
fn encoded(alloc: Global, bytes: &[u8]) -> Result<Vec<u8>, AllocError>
    ensures { IfOk result (λ text. text.items ≡ encode_of standard bytes.now) }
{
    let mut text = Vec::new(alloc);
    push_base64(alloc, &mut text, bytes)?;
    Ok(text)
}

/// Writes bytes in base64.
fn send<W: Write>(alloc: Global, bytes: &[u8], writer: &mut W) -> Result<(), SendFault>
    ensures { OnOk result (Appends (W.contents writer.old) (W.contents writer.new)
        (encode_of standard bytes.now)) }
{
    let Ok(text) = encoded(alloc, bytes) else {
        return Err(SendFault::OutOfMemory);
    };
    writer
        .write_all(text.as_slice())
        .map_err(|_| SendFault::Write)
}

/// Writes in base64 what has whole groups of three bytes, and keeps the rest.
///
/// Errors: `OutOfMemory` if an allocation fails, `Write` if a write fails.
pub fn send_groups<W: Write>(
    alloc: Global,
    pending: &mut Vec<u8>,
    writer: &mut W,
) -> Result<(), SendFault>
    ensures { OnOk result (IsSent (W.contents writer.old) (W.contents writer.new)
        pending.old.items pending.new.items) }
{
    let whole = pending.len() / 3 * 3;
    let (front, behind) = pending.as_slice().split_at(whole);
    let Ok(rest) = Vec::from_slice(alloc, behind) else {
        return Err(SendFault::OutOfMemory);
    };
    send(alloc, front, writer)?;
    *pending = rest;
    Ok(())
}

/// Writes the rest in base64, with padding at the end.
///
/// Errors: `OutOfMemory` if an allocation fails, `Write` if a write fails.
pub fn send_rest<W: Write>(
    alloc: Global,
    pending: &mut Vec<u8>,
    writer: &mut W,
) -> Result<(), SendFault>
    ensures sent { OnOk result (Appends (W.contents writer.old) (W.contents writer.new)
        (encode_of standard pending.old.items)) }
    ensures emptied { OnOk result (pending.new.items ≡ []) }
{
    send(alloc, pending.as_slice(), writer)?;
    pending.clear();
    Ok(())
}
