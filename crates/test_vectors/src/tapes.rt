//! Reads tapes, at once and byte by byte, and says what reading them gives.

use anyhow::Result;
use bus::Image;
use papertape::{TapeFault, TapeReader, read_tape, write_tape};
use std::alloc::Global;
use std::fs;
use std::rt::Files;

/// How many addresses of an image have a byte.
fn size(image: &Image) -> usize {
    (0..=65535u16)
        .filter(|address| image.get(*address).is_some())
        .count()
}

/// Reads a tape by a reader that is fed one byte at a time.
fn read_by_bytes(alloc: Global, text: &[u8]) -> Result<Image, TapeFault> {
    let mut reader = TapeReader::new(alloc)?;
    for at in 0..text.len() {
        reader.feed(&text[at..at + 1])?;
    }
    reader.finish()
}

/// What stands in `NAME.ours.ptp`, or else in `NAME.ptp`, and in which words to say that it was
/// written back.
fn wanted<R: Files + AllocGlobal>(rt: &R, name: &str) -> Result<(Vec<u8>, &'static str)> {
    let ours = format!(in rt.alloc(); "{name}.ours.ptp")?;
    if fs::exists(rt, ours.as_str())? {
        return Ok((fs::read(rt, ours.as_str())?, "as ours"));
    }
    let same = format!(in rt.alloc(); "{name}.ptp")?;
    Ok((fs::read(rt, same.as_str())?, "the same"))
}

/// Reads the tape `NAME.ptp` in both ways, and writes back what was read byte by byte.
pub fn report_tape<R: Files + AllocGlobal + Print>(rt: &R, name: &str) -> Result<()> {
    let path = format!(in rt.alloc(); "{name}.ptp")?;
    let text = fs::read(rt, path.as_str())?;
    let at_once = read_tape(rt.alloc(), &text);
    let image = match read_by_bytes(rt.alloc(), &text) {
        Ok(image) => image,
        Err(fault) if at_once.err() == Some(fault) => {
            println!(rt; "{name}: {fault}, at once and byte by byte")?;
            return Ok(());
        }
        Err(fault) => {
            println!(rt; "{name}: {fault} byte by byte alone")?;
            return Ok(());
        }
    };
    let written = write_tape(rt.alloc(), &image)?;
    let (other, words) = wanted(rt, name)?;
    let bytes = size(&image);
    if written.as_slice() == other.as_slice() {
        println!(rt; "{name}: ok, {bytes} bytes, written back {words}")?;
    } else {
        println!(rt; "{name}: ok, {bytes} bytes, written back otherwise")?;
    }
    Ok(())
}
