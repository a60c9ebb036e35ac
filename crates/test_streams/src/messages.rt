//! Messages of `lsp` and `dap`.

use crate::streams::LimitedWriter;
use anyhow::Result;
use json_messages::{StreamFault, write_message};
use std::cell::Cell;

/// Writes a message where there is so much room and so many flushes succeed, and says how many of
/// its bytes wait for a flush.
fn report<R: AllocGlobal + Print>(rt: &R, room: usize, flushes: u32) -> Result<()> {
    let waiting = Cell::new(0);
    let mut writer = LimitedWriter::new(rt.alloc(), 1, room, flushes, &waiting);
    let answer = match write_message(rt.alloc(), &mut writer, b"{}") {
        Ok(()) => "written",
        Err(StreamFault::Write) => "Write",
        Err(_) => "another fault",
    };
    let (left, text) = (waiting.get(), writer.text());
    println!(rt;
        "a message, room {room}, flushes {flushes}: {answer}, {left} bytes wait for a flush"
    )?;
    println!(rt; "    {text:?}")?;
    Ok(())
}

/// Writes a message whole, one that is not flushed, and a beginning of one.
pub fn report_messages<R: AllocGlobal + Print>(rt: &R) -> Result<()> {
    report(rt, 512, 1)?;
    report(rt, 512, 0)?;
    report(rt, 5, 1)
}
