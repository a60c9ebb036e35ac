//! `debug`: a session on the image of a file.
ghost use Rattle.std.specs.Prelude.{◌≡◌, Ok, Err, IfErr, MatchResult, false};
ghost use Rattle.model.specs.State.{is_map};
ghost use Rattle.model.specs.declared.bus_fault.BusFault.TheVariants.{BadMap};
ghost use Rattle.program.specs.Refusals.{EndsDebug, of_engine};
ghost use Rattle.program.specs.Streams.{IsServed};

use crate::asked::DebugWords;
use arguments::{ReadFault, Refusal, map_of, read_source};
use engine::{EngineFault, debug_source, debug_tape_from};
use standard_streams::Retrying;
use std::fs::File;
use std::io;
use std::io::{Read, Write};
use std::rt::Files;

/// Debugs a source or a tape: the replies to the lines of `input` go to `output`.
///
/// A tape is read in pieces, so that a long one takes no more memory than a short one.
pub fn debug<H: Files + AllocGlobal, R: Read, O: Write>(
    rt: &H,
    words: &DebugWords<'_>,
    input: &mut R,
    output: &mut O,
) -> Result<(), Refusal>
    ensures bad_map { is_map words.now.rom words.now.port ≡ false
        → result ≡ Err (Refusal.Map BadMap) }
    ensures refused { IfErr result (EndsDebug words.now.is_tape
        (record { profile = words.now.profile; rom = words.now.rom; port = words.now.port })) }
    // A session on some image and the map of the words was served, or none began.
    ensures served { IsServed
        (record { profile = words.now.profile; rom = words.now.rom; port = words.now.port })
        words.now.history (R.remaining input.old) (R.remaining input.new) (O.contents output.old)
        (O.contents output.new) result ((input.new ≡ input.old) × (output.new ≡ output.old)) }
{
    let map = map_of(words.profile, words.rom, words.port)?;
    let alloc = rt.alloc();
    let history = words.history;
    if words.is_tape {
        let mut tape = opened(rt, words.file).map_err(|error| Refusal::unreadable(&error))?;
        answered(debug_tape_from(alloc, map, history, &mut tape, input, output))
    } else {
        let source = read_source(rt, words.file)?;
        answered(debug_source(alloc, map, history, source.as_slice(), input, output))
    }
}

/// Opens a file to be read while the standard input is. A read that a signal interrupts is made
/// again.
///
/// If the standard input is closed, a file would take its number and be read in its place. So an
/// empty file takes the number first, and is closed again.
fn opened<H: Files>(rt: &H, path: &str) -> io::Result<Retrying<H::File>> {
    let empty = File::open(rt, "/dev/null");
    let file = File::open(rt, path);
    drop(empty);
    Ok(Retrying::new(file?))
}

/// Returns the refusal of an engine's fault.
fn of_engine(fault: EngineFault) -> Refusal
    ensures { result ≡ of_engine fault }
{
    match fault {
        EngineFault::Source(fault) => Refusal::Source(fault),
        EngineFault::Tape(fault) => Refusal::Tape(fault),
        EngineFault::Session(fault) => Refusal::Session(fault),
        EngineFault::Read => Refusal::Read(ReadFault::Other),
        EngineFault::Write => Refusal::Write,
        EngineFault::OutOfMemory => Refusal::OutOfMemory,
    }
}

/// Returns the engine's result as the program's own.
fn answered(answer: Result<(), EngineFault>) -> Result<(), Refusal>
    ensures { MatchResult answer (λ _. result ≡ Ok tt) (λ fault. result ≡ Err (of_engine fault)) }
{
    match answer {
        Ok(()) => Ok(()),
        Err(fault) => Err(of_engine(fault)),
    }
}
