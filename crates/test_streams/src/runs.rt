//! Runs of the program.

use crate::streams::{LimitedReader, LimitedWriter};
use anyhow::Result;
use program::program;
use std::cell::Cell;
use std::rt::Files;

/// Runs: their words, how many flushes of the output succeed, and room for the error line.
const RUNS: &[(&str, u32, usize)] = &[
    ("dis two_bytes.ptp 0200 0201", 1, 512),
    ("dis two_bytes.ptp 0200 0201", 0, 512),
    ("dis two_bytes.ptp 0200 0201", 0, 0),
    ("dis two_bytes.ptp 0200 01FF", 1, 512),
    ("dis two_bytes.ptp 0200 01FF", 1, 9),
    ("dis two_bytes.ptp 0200 01FF", 1, 0),
    ("debug two_bytes.ptp --tape", 0, 0),
];

/// Runs the program, and says its status and what it wrote.
fn report<R: Files + AllocGlobal + Print>(
    rt: &R,
    run: &str,
    flushes: u32,
    room: usize,
) -> Result<()> {
    let words: Vec<&str> = run.split(' ').collect(rt.alloc())?;
    let waiting = Cell::new(0);
    let mut input = LimitedReader {
        rest: b"set PC 0200\n",
        most: 512,
        has_end: true,
        waiting: &waiting,
        is_early: false,
    };
    let unflushed = Cell::new(0);
    let mut output = LimitedWriter::new(rt.alloc(), 512, 512, flushes, &waiting);
    let mut errors = LimitedWriter::new(rt.alloc(), 512, room, 1, &unflushed);
    let status = program(rt, &words, &mut input, &mut output, &mut errors);
    let (written, line) = (output.text(), errors.text());
    println!(rt; "{run}: status {status}")?;
    println!(rt; "    {written:?} {line:?}")?;
    Ok(())
}

/// Runs the program each time.
pub fn report_runs<R: Files + AllocGlobal + Print>(rt: &R) -> Result<()> {
    for (run, flushes, room) in RUNS {
        report(rt, run, *flushes, *room)?;
    }
    Ok(())
}
