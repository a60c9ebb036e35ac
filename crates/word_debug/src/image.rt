//! `debug` with `--strict` on an image.

ghost use Rattle.std.specs.Prelude.{◌≡◌, ◌≤◌, drop};
ghost use Rattle.arguments.specs.Words.{texts};
ghost use Rattle.word_debug.specs.Image.{EndsOnImage, RefusesImage};
ghost use Rattle.word_debug.specs.Strict.{IsDone, without_strict};

use crate::asked::plain_words;
use crate::strict::status_of_replies;
use crate::watch::Watch;
use arguments::{Refusal, refuse};
use std::io::{Read, Write};
use std::rt::Files;
use word_convert::debug_image;

/// Returns words without the first.
fn behind<'w, 'a>(words: &'w [&'a str]) -> &'w [&'a str]
    ensures { texts result.now ≡ drop 1 (texts words.entry.now) }
{
    match words {
        [] => words,
        [_, rest @ ..] => rest,
    }
}

/// Debugs the image of the words, and returns the exit status with `--strict` and the writer of the
/// replies.
fn serve_image<H: Files + AllocGlobal, R: Read, O: Write, E: Write>(
    rt: &H,
    words: &[&str],
    input: &mut R,
    output: O,
    errors: &mut E,
) -> (u8, O)
    ensures status { result.0 ≤ 5 }
    ensures quiet { IsDone result.0 → errors.new ≡ errors.old }
    ensures untouched { 1 ≤ result.0 → result.0 ≤ 2
        → (input.new ≡ input.old) × (result.1 ≡ output) }
    ensures ended { EndsOnImage (texts words.entry.now) (record {
      given = R.remaining input.old;
      left = R.remaining input.new;
      held = O.contents output;
      now = O.contents result.1;
    }) result.0 }
    ensures refused { RefusesImage (texts words.entry.now) result.0 }
{
    let mut watch = Watch::over(output);
    let status = debug_image(rt, words, input, &mut watch, errors);
    let (has_fault, output) = watch.finish();
    (status_of_replies(status, has_fault), output)
}

/// Does what the words after `debug` ask for if `--strict` is among them and they say that the file
/// is an image, and returns the exit status and the writer of the replies.
///
/// The replies are those of `debug` on the image, byte for byte, and so are the statuses 1 to 4.
/// The status of a session that has come to its end is 5 if a line of the replies begins with `?`
/// or `!`, or tells that a run ended in a fault, and otherwise 0. Source: mos65.
pub fn strict_debug_image<H: Files + AllocGlobal, R: Read, O: Write, E: Write>(
    rt: &H,
    words: &[&str],
    input: &mut R,
    output: O,
    errors: &mut E,
) -> (u8, O)
    ensures status { result.0 ≤ 5 }
    // If a session has come to its end, nothing is written on the error stream.
    ensures quiet { IsDone result.0 → errors.new ≡ errors.old }
    // Words, a map or a file that are refused leave both streams alone.
    ensures untouched { 1 ≤ result.0 → result.0 ≤ 2
        → (input.new ≡ input.old) × (result.1 ≡ output) }
    // 0 and 5 mean that the transcript of the input was written, from the image of some file, and
    // which of them it is tells whether a reply told of a fault; or that help is asked for.
    ensures ended { EndsOnImage (without_strict (texts words.entry.now)) (record {
      given = R.remaining input.old;
      left = R.remaining input.new;
      held = O.contents output;
      now = O.contents result.1;
    }) result.0 }
    // 1 means that some file is no image, or that some image has bytes at the port; 2 that the
    // words do not fit, that a value is wrong, or that the port and the ROM make no map.
    ensures refused { RefusesImage (without_strict (texts words.entry.now)) result.0 }
{
    match plain_words(rt.alloc(), words) {
        Ok(plain) => serve_image(rt, behind(plain.as_slice()), input, output, errors),
        Err(_) => (refuse(Refusal::OutOfMemory, errors), output),
    }
}
