//! `debug` with `--strict`.

ghost use Rattle.std.specs.Prelude.{◌≡◌, ◌≤◌, ◌⊎◌, IfNone, IfSome, if◌then◌else◌};
ghost use Rattle.arguments.specs.FaultLines.{IsToldOfWords};
ghost use Rattle.arguments.specs.Words.{IsStatusOf, texts};
ghost use Rattle.program.specs.Asked.{DebugAsked, debug};
ghost use Rattle.program.specs.Refused.{IsTaken};
ghost use Rattle.program.specs.Views.{debug_view, view};
ghost use Rattle.program.specs.Named.{IsToldOfSession};
ghost use Rattle.word_debug.specs.Strict.{IsDone, IsToldStrict, NamesFile, RunsStrict};
ghost use Rattle.word_debug.specs.Strict.{ServesStrict, plain_words};

use crate::asked::plain_words;
use crate::watch::Watch;
use arguments::{Refusal, WordsFault, refuse, refused_words};
use program::{DebugWords, Words, debug_named, read_words};
use std::io::{Read, Write};
use std::rt::Files;

/// Returns the exit status of a session whose plain one is this: 5 if it is done and a reply told
/// of a fault.
pub fn status_of_replies(status: u8, has_fault: bool) -> u8
    ensures done { status ≡ 0 → result ≡ if has_fault then 5 else 0 }
    ensures failed { 1 ≤ status → result ≡ status }
{
    if status == 0 && has_fault { 5 } else { status }
}

/// Writes why words are rejected, or the help that they ask for, and returns the exit status and
/// the writer.
fn refused<O: Write, E: Write>(fault: WordsFault, output: O, errors: &mut E) -> (u8, O)
    ensures status { IsStatusOf fault result.0 }
    ensures untouched { 1 ≤ result.0 → result.0 ≤ 3 → result.1 ≡ output }
    ensures quiet { result.0 ≡ 0 → errors.new ≡ errors.old }
    ensures told { IsToldOfWords fault result.0 (E.contents errors.old) (E.contents errors.new) }
{
    let mut output = output;
    let status = refused_words(fault, &mut output, errors);
    (status, output)
}

/// Returns what words ask `debug` for, or `None` if they are of another word.
fn as_debug<'w, 'a>(words: &'w Words<'a>) -> Option<&'w DebugWords<'a>>
    ensures some { IfSome result (λ w. view words.now ≡ debug (debug_view w.now)) }
    ensures none { IfNone result ((d : DebugAsked) → ¬ (view words.now ≡ debug d)) }
{
    match words {
        Words::Debug(words) => Some(words),
        Words::Asm(_) => None,
        Words::Dis(_) => None,
    }
}

/// Debugs the file of the words, and returns the exit status with `--strict` and the writer of the
/// replies.
fn serve_session<H: Files + AllocGlobal, R: Read, O: Write, E: Write>(
    rt: &H,
    words: &DebugWords<'_>,
    input: &mut R,
    output: O,
    errors: &mut E,
) -> (u8, O)
    ensures status { result.0 ≤ 5 }
    ensures quiet { IsDone result.0 → errors.new ≡ errors.old }
    ensures told { 1 ≤ result.0 → result.0 ≤ 4 → IsToldOfSession words.now.file.now result.0
        (E.contents errors.old) (E.contents errors.new) }
    ensures untouched { 1 ≤ result.0 → result.0 ≤ 2
        → (input.new ≡ input.old) × (result.1 ≡ output) }
    ensures runs { RunsStrict (debug_view words.now) (record {
      given = R.remaining input.old;
      left = R.remaining input.new;
      held = O.contents output;
      now = O.contents result.1;
    }) result.0 ((input.new ≡ input.old) × (result.1 ≡ output)) }
{
    let mut watch = Watch::over(output);
    let status = debug_named(rt, words, input, &mut watch, errors);
    let (has_fault, output) = watch.finish();
    (status_of_replies(status, has_fault), output)
}

/// Does what the words of a plain `debug` ask for, and returns the exit status with `--strict` and
/// the writer of the replies.
fn serve<H: Files + AllocGlobal, R: Read, O: Write, E: Write>(
    rt: &H,
    plain: &[&str],
    input: &mut R,
    output: O,
    errors: &mut E,
) -> (u8, O)
    ensures status { result.0 ≤ 5 }
    ensures quiet { IsDone result.0 → errors.new ≡ errors.old }
    ensures told { 1 ≤ result.0 → result.0 ≤ 4
        → IsTaken (texts plain.entry.now) ⊎ (3 ≤ result.0)
        → IsToldStrict (texts plain.entry.now) result.0
        (E.contents errors.old) (E.contents errors.new) }
    ensures named { NamesFile (texts plain.entry.now) result.0
        (E.contents errors.old) (E.contents errors.new) }
    ensures serves { ServesStrict (texts plain.entry.now) (record {
      given = R.remaining input.old;
      left = R.remaining input.new;
      held = O.contents output;
      now = O.contents result.1;
    }) result.0 (input.new ≡ input.old) (result.1 ≡ output) }
{
    match read_words(rt.alloc(), plain) {
        Ok(words) => match as_debug(&words) {
            Some(words) => serve_session(rt, words, input, output, errors),
            None => (refuse(Refusal::Words, errors), output),
        },
        Err(fault) => refused(fault, output, errors),
    }
}

/// Does what the words after `debug` ask for if `--strict` is among them, and returns the exit
/// status and the writer of the replies.
///
/// The replies are those of a plain `debug`, byte for byte, and so are the statuses 1 to 4. The
/// fault line of a session names its file. The status of a session that has come to its end is 5
/// if a line of the replies begins with `?` or `!`, or tells that a run ended in a fault, and
/// otherwise 0. Source: mos65.
pub fn strict_debug<H: Files + AllocGlobal, R: Read, O: Write, E: Write>(
    rt: &H,
    words: &[&str],
    input: &mut R,
    output: O,
    errors: &mut E,
) -> (u8, O)
    ensures status { result.0 ≤ 5 }
    // If a session has come to its end, nothing is written on the error stream.
    ensures quiet { IsDone result.0 → errors.new ≡ errors.old }
    ensures told { 1 ≤ result.0 → result.0 ≤ 4
        → IsTaken (plain_words (texts words.entry.now)) ⊎ (3 ≤ result.0)
        → IsToldStrict (plain_words (texts words.entry.now)) result.0
        (E.contents errors.old) (E.contents errors.new) }
    // The line of a session that words ask for names its file, unless a standard stream may have
    // failed.
    ensures named { NamesFile (plain_words (texts words.entry.now)) result.0
        (E.contents errors.old) (E.contents errors.new) }
    // Words that are wrong are refused as those of a plain `debug`, and words that are right serve
    // its session, whose replies the status counts.
    ensures serves { ServesStrict (plain_words (texts words.entry.now)) (record {
      given = R.remaining input.old;
      left = R.remaining input.new;
      held = O.contents output;
      now = O.contents result.1;
    }) result.0 (input.new ≡ input.old) (result.1 ≡ output) }
{
    match plain_words(rt.alloc(), words) {
        Ok(plain) => serve(rt, plain.as_slice(), input, output, errors),
        Err(_) => (refuse(Refusal::OutOfMemory, errors), output),
    }
}
