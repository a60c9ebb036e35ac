//! What the program does with its words.
ghost use Rattle.std.specs.Prelude.{◌≡◌, ◌≤◌, ◌⊎◌, Some, None};
ghost use Rattle.std.specs.IoError.{error_kind};
ghost use Rattle.arguments.specs.FaultLines.{IsTold};
ghost use Rattle.arguments.specs.Words.{Refuses, texts};
ghost use Rattle.program.specs.Asked.{AsmAsked, DebugAsked, DisAsked, words_in, asm, debug, dis};
ghost use Rattle.program.specs.CommandLine.{mos65};
ghost use Rattle.program.specs.Refused.{IsTaken};
ghost use Rattle.program.specs.Runs.{RunsAsm, RunsDebug, RunsDis};

use crate::asked::Words;
use crate::assembling::asm;
use crate::debugging::debug;
use crate::disassembling::dis;
use crate::read::read_words;
use arguments::{Refusal, finish, refuse, refused_words};
use std::io;
use std::io::{ErrorKind, Read, Write};
use std::rt::Files;

/// Writes why the process's words could not be collected, and returns the exit status.
///
/// It is 3 if memory ran out, otherwise 2.
pub fn unreadable_words<E: Write>(error: &io::Error, errors: &mut E) -> u8
    ensures memory { error_kind error.now ≡ ErrorKind.OutOfMemory → result ≡ 3 }
    ensures other { ¬ (error_kind error.now ≡ ErrorKind.OutOfMemory) → result ≡ 2 }
    ensures told { IsTold result (E.contents errors.old) (E.contents errors.new) }
{
    match error.kind() {
        ErrorKind::OutOfMemory => refuse(Refusal::OutOfMemory, errors),
        _ => refuse(Refusal::Words, errors),
    }
}

/// Does what the words ask for, without the program's own name, and returns the exit status.
///
/// - 0: it is done.
/// - 1: the source or the tape is rejected.
/// - 2: the words or the map are wrong.
/// - 3: memory ran out.
/// - 4: reading or writing failed.
///
/// For each but 0 a line on `errors` says why; the status is the same if that line cannot be
/// written. Faults are found in this order: words, map, a file to read, its content, a file to
/// write. `asm` makes the whole texts of the tape and of the listing before it makes the tape's
/// file, and then the listing's.
pub fn program<H: Files + AllocGlobal, R: Read, O: Write, E: Write>(
    rt: &H,
    words: &[&str],
    input: &mut R,
    output: &mut O,
    errors: &mut E,
) -> u8
    ensures status { result ≤ 4 }
    // If it is done, nothing is written on the error stream.
    ensures quiet { result ≡ 0 → errors.new ≡ errors.old }
    // Otherwise the error stream gets the fault line of a refusal with that status, or a beginning
    // of it if it cannot be written. Words that do not fit the command line get `clap`'s text, with
    // the status 2.
    ensures told { 1 ≤ result → IsTaken (texts words.entry.now) ⊎ (3 ≤ result)
        → IsTold result (E.contents errors.old) (E.contents errors.new) }
    // A source, a tape, words or a map that are rejected leave the input and the output unchanged.
    ensures untouched { 1 ≤ result → result ≤ 2
        → (input.new ≡ input.old) × (output.new ≡ output.old) }
    // Words that fit nothing, or one of whose values is wrong, are refused.
    ensures refuses { Refuses mos65 (texts words.entry.now)
        (words_in (texts words.entry.now) ≡ None) result
        (input.new ≡ input.old) (output.new ≡ output.old) }
    // Words that are right do what they ask for.
    ensures asm { (a : AsmAsked) → words_in (texts words.entry.now) ≡ Some (asm a)
        → IsTaken (texts words.entry.now)
        → RunsAsm a result ((input.new ≡ input.old) × (output.new ≡ output.old)) }
    ensures dis { (d : DisAsked) → words_in (texts words.entry.now) ≡ Some (dis d)
        → IsTaken (texts words.entry.now) → RunsDis d (record {
          given = R.remaining input.old;
          left = R.remaining input.new;
          held = O.contents output.old;
          now = O.contents output.new;
        }) result (input.new ≡ input.old) (output.new ≡ output.old) }
    ensures debug { (d : DebugAsked) → words_in (texts words.entry.now) ≡ Some (debug d)
        → IsTaken (texts words.entry.now) → RunsDebug d (record {
          given = R.remaining input.old;
          left = R.remaining input.new;
          held = O.contents output.old;
          now = O.contents output.new;
        }) result ((input.new ≡ input.old) × (output.new ≡ output.old)) }
{
    match read_words(rt.alloc(), words) {
        Ok(Words::Asm(words)) => finish(asm(rt, &words), errors),
        Ok(Words::Dis(words)) => finish(dis(rt, &words, output), errors),
        Ok(Words::Debug(words)) => finish(debug(rt, &words, input, output), errors),
        Err(fault) => refused_words(fault, output, errors),
    }
}
