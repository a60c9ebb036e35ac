//! Sessions, runs of the program and messages over streams that fail, or that give or take a byte
//! at a time. Each line says whether every reply was flushed before the reader was asked again.
#![tactic(auto)]

mod messages;
mod runs;
mod sessions;
mod streams;

use anyhow::Result;
use messages::report_messages;
use runs::report_runs;
use sessions::report_sessions;

fn main(rt: HostRuntime) -> Result<()> {
    report_sessions(&rt)?;
    report_messages(&rt)?;
    report_runs(&rt)
}
