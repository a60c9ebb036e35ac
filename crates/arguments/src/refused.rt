//! How a word ends without an answer: a line on the error stream, and the exit status.

ghost use Rattle.std.specs.Prelude.{◌≡◌, ◌≤◌, MatchResult};
ghost use Rattle.arguments.specs.FaultLines.{IsTold, IsToldOfWords, fault_line, file_line};
ghost use Rattle.arguments.specs.FaultLines.{image_line};
ghost use Rattle.arguments.specs.Statuses.{status_of};
ghost use Rattle.arguments.specs.Words.{IsStatusOf};
ghost use Rattle.model.specs.Writers.{AppendsFront};

use crate::fault::WordsFault;
use crate::fault_line::{put_all, put_fault_line, put_file_line, put_image_line};
use crate::refusal::Refusal;
use crate::shown::ShownLines;
use std::fmt::Write as _;
use std::io::Write;

/// Writes the fault line, and returns the exit status, even if the line cannot be written.
pub fn refuse<E: Write>(refusal: Refusal, errors: &mut E) -> u8
    ensures status { result ≡ status_of refusal }
    ensures told { AppendsFront (E.contents errors.old) (E.contents errors.new)
        (fault_line refusal) }
{
    put_fault_line(refusal, errors);
    refusal.status()
}

/// Writes the fault line with the name of the file, and returns the exit status, even if the line
/// cannot be written. Words, a map and memory are of no file.
pub fn refuse_file<E: Write>(refusal: Refusal, file: &str, errors: &mut E) -> u8
    ensures status { result ≡ status_of refusal }
    ensures told { AppendsFront (E.contents errors.old) (E.contents errors.new)
        (file_line file.now refusal) }
{
    put_file_line(refusal, file, errors);
    refusal.status()
}

/// Writes why a file has no image, as `refuse_file` does, and of a fault of a tape what it means.
/// Returns the exit status, even if the line cannot be written.
pub fn refuse_image_file<E: Write>(refusal: Refusal, file: &str, errors: &mut E) -> u8
    ensures status { result ≡ status_of refusal }
    ensures told { AppendsFront (E.contents errors.old) (E.contents errors.new)
        (image_line file.now refusal) }
{
    put_image_line(refusal, file, errors);
    refusal.status()
}

/// Returns the exit status of what was tried: 0 if it is done; otherwise a fault line is written.
pub fn finish<E: Write>(outcome: Result<(), Refusal>, errors: &mut E) -> u8
    ensures status { MatchResult outcome (λ _. result ≡ 0) (λ refusal. result ≡ status_of refusal) }
    ensures quiet { result ≡ 0 → errors.new ≡ errors.old }
    ensures told { 1 ≤ result → IsTold result (E.contents errors.old) (E.contents errors.new) }
{
    match outcome {
        Ok(()) => 0,
        Err(refusal) => refuse(refusal, errors),
    }
}

/// Writes why words are rejected, or the help that they ask for, and returns the exit status.
///
/// It is 0 if the help was written, 2 if the words are wrong, 3 if memory ran out, and 4 if the
/// help could not be written. A line that cannot be written on `errors` changes no status.
pub fn refused_words<O: Write, E: Write>(fault: WordsFault, output: &mut O, errors: &mut E) -> u8
    ensures status { IsStatusOf fault result }
    ensures within { result ≤ 4 }
    ensures untouched { 1 ≤ result → result ≤ 3 → output.new ≡ output.old }
    ensures quiet { result ≤ 1 → errors.new ≡ errors.old }
    ensures told { IsToldOfWords fault result (E.contents errors.old) (E.contents errors.new) }
{
    match fault {
        WordsFault::Help(text) => match write!(output, "{text}") {
            Ok(()) => 0,
            Err(_) => refuse(Refusal::Write, errors),
        },
        WordsFault::Usage(text) => {
            let mut lines = ShownLines { output: errors };
            let _ = write!(lines, "{text}");
            2
        }
        WordsFault::Value => refuse(Refusal::Words, errors),
        WordsFault::Wrong(which) => {
            put_all(&[b"mos65: ", b"WORDS: ", which.as_bytes(), b"\n"], errors);
            2
        }
        WordsFault::OutOfMemory => refuse(Refusal::OutOfMemory, errors),
    }
}
