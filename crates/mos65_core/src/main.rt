//! The program `mos65` with the words `asm`, `dis` and `debug` alone. It stands on fewer crates
//! than the whole program, so it is proved sooner.
#![tactic(auto)]

ghost use Rattle.std.specs.Prelude.{◌≡◌, ◌≤◌};

use arguments::{Refusal, refuse, write_text};
use program::{process_words, program, unreadable_words, words_of};
use standard_streams::{Retrying, take_closed};
use std::io;
use std::io::Write;
use std::process::ExitCode;

/// The program and its version, as the file VERSION has it. A release has its commit in place of
/// the words in brackets (`tools/release`).
const VERSION: &str = "mos65_core 0.1.0 (not a release build)\n";

/// Returns whether a single word asks for the version.
fn asks_for_version(words: &[&str]) -> bool {
    match words {
        [word] => *word == "--version" || *word == "-V",
        _ => false,
    }
}

/// Writes the version, and returns the exit status: 0, or 4 if it cannot be written.
fn tell_version<O: Write, E: Write>(output: &mut O, errors: &mut E) -> u8
    ensures status { result ≤ 4 }
    ensures quiet { result ≡ 0 → errors.new ≡ errors.old }
{
    match write_text(output, VERSION.as_bytes()) {
        Ok(()) => 0,
        Err(_) => refuse(Refusal::Write, errors),
    }
}

/// Does what the process's words ask for, and returns the exit status.
fn run(rt: &HostRuntime) -> io::Result<u8> {
    let arguments = process_words(rt)?;
    let words = words_of(rt.alloc(), &arguments)?;
    if asks_for_version(&words) {
        return Ok(tell_version(&mut io::writer(rt), &mut rt.stderr()));
    }
    Ok(program(
        rt,
        &words,
        &mut Retrying::new(rt.reader()),
        &mut io::writer(rt),
        &mut rt.stderr(),
    ))
}

fn main(rt: HostRuntime) -> ExitCode {
    let _closed = take_closed(&rt);
    let status = match run(&rt) {
        Ok(status) => status,
        Err(error) => unreadable_words(&error, &mut rt.stderr()),
    };
    ExitCode::from(status)
}
