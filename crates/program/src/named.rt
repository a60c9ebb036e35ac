//! A session whose fault line names its file.

ghost use Rattle.std.specs.Prelude.{◌≡◌, ◌≤◌, MatchResult};
ghost use Rattle.arguments.specs.Statuses.{status_of};
ghost use Rattle.program.specs.Views.{debug_view};
ghost use Rattle.model.specs.Writers.{AppendsFront};
ghost use Rattle.program.specs.Named.{IsToldOfSession, is_of_stream, session_line};
ghost use Rattle.program.specs.Runs.{RunsDebug};

use crate::asked::DebugWords;
use crate::debugging::debug;
use arguments::{ReadFault, Refusal, refuse, refuse_file};
use std::io::{Read, Write};
use std::rt::Files;

/// Returns whether a refusal may be of a standard stream.
fn is_of_stream(refusal: Refusal) -> bool
    ensures { result ≡ is_of_stream refusal }
{
    match refusal {
        Refusal::Write => true,
        Refusal::Read(ReadFault::Other) => true,
        _ => false,
    }
}

/// Writes the fault line, with the name of the file unless the refusal may be of a standard stream,
/// and returns the exit status, even if the line cannot be written.
fn refuse_session<E: Write>(refusal: Refusal, file: &str, errors: &mut E) -> u8
    ensures status { result ≡ status_of refusal }
    ensures told { AppendsFront (E.contents errors.old) (E.contents errors.new)
        (session_line file.now refusal) }
{
    if is_of_stream(refusal) {
        refuse(refusal, errors)
    } else {
        refuse_file(refusal, file, errors)
    }
}

/// Returns the exit status of a session: 0 if it is done; otherwise a fault line is written.
fn finish_session<E: Write>(outcome: Result<(), Refusal>, file: &str, errors: &mut E) -> u8
    ensures status { MatchResult outcome (λ _. result ≡ 0) (λ refusal. result ≡ status_of refusal) }
    ensures within { result ≤ 4 }
    ensures quiet { result ≡ 0 → errors.new ≡ errors.old }
    ensures told { 1 ≤ result
        → IsToldOfSession file.now result (E.contents errors.old) (E.contents errors.new) }
{
    match outcome {
        Ok(()) => 0,
        Err(refusal) => refuse_session(refusal, file, errors),
    }
}

/// Debugs the file of the words as `program` does, and returns the exit status.
///
/// The fault line names the file, unless it may be a standard stream that failed.
pub fn debug_named<H: Files + AllocGlobal, R: Read, O: Write, E: Write>(
    rt: &H,
    words: &DebugWords<'_>,
    input: &mut R,
    output: &mut O,
    errors: &mut E,
) -> u8
    ensures status { result ≤ 4 }
    ensures quiet { result ≡ 0 → errors.new ≡ errors.old }
    ensures told { 1 ≤ result → IsToldOfSession words.now.file.now result
        (E.contents errors.old) (E.contents errors.new) }
    // A source, a tape or a map that is rejected leaves the input and the output unchanged.
    ensures untouched { 1 ≤ result → result ≤ 2
        → (input.new ≡ input.old) × (output.new ≡ output.old) }
    ensures runs { RunsDebug (debug_view words.now) (record {
      given = R.remaining input.old;
      left = R.remaining input.new;
      held = O.contents output.old;
      now = O.contents output.new;
    }) result ((input.new ≡ input.old) × (output.new ≡ output.old)) }
{
    finish_session(debug(rt, words, input, output), words.file, errors)
}
