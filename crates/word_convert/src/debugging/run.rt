//! A session on the image of a file.

ghost use Rattle.std.specs.Prelude.{◌≡◌, ◌≢◌, ◌≤◌, ◌⊎◌, None, false};
ghost use Rattle.arguments.specs.Words.{AsksForHelp, Fits, Misfits, texts};
ghost use Rattle.word_convert.specs.DebugAsked.{debug_view, map_asked};
ghost use Rattle.word_convert.specs.DebugCommandLine.{debug, words_asked};
ghost use Rattle.word_convert.specs.DebugWord.{Asks, HasBegun, HasEnded, IsRefused};
ghost use Rattle.image_files.specs.Files.{IsOfFile};
ghost use Rattle.model.specs.State.{has_port_byte, is_map};

use crate::debugging::asked::DebugImageWords;
use crate::debugging::session::{of_serving, serve};
use crate::debugging::words::read_debug_words;
use arguments::{LoadFault, Refusal, map_of, refuse, refused_words};
use image_files::{ImageFileRefusal, free_base, image_of_file};
use memory_map::{Image, MapSpec};
use std::io::{Read, Write};
use std::rt::Files;

/// Says that an image has bytes at the port of a map, and returns the exit status.
fn refuse_port<E: Write>(
    words: &DebugImageWords<'_>,
    map: &MapSpec,
    image: &Image,
    errors: &mut E,
) -> u8
    ensures { result ≡ 1 }
{
    let fault = LoadFault::AtPort {
        first: map.port(),
        last: map.port() + 3,
        free: free_base(words.rom, image),
    };
    fault.tell(words.file, errors)
}

/// Serves a session on an image on a map, and returns the exit status.
#[tactic(auto, using(crate::proofs::Served::has_ended, crate::proofs::Served::has_begun))]
fn serve_image<H: AllocGlobal, R: Read, O: Write, E: Write>(
    rt: &H,
    words: &DebugImageWords<'_>,
    map: MapSpec,
    image: Image,
    input: &mut R,
    output: &mut O,
    errors: &mut E,
) -> u8
    requires map { map ≡ map_asked (debug_view words.now) }
    requires image { IsOfFile words.now.form image }
    requires spared { has_port_byte map image ≡ false }
    ensures status { result ≤ 4 }
    ensures quiet { result ≡ 0 → errors.new ≡ errors.old }
    ensures never { 1 ≤ result → 3 ≤ result }
    ensures ended { result ≡ 0 → HasEnded (debug_view words.now) (record {
      given = R.remaining input.old;
      left = R.remaining input.new;
      held = O.contents output.old;
      now = O.contents output.new;
    }) }
    ensures begun { 3 ≤ result → HasBegun (debug_view words.now) (record {
      given = R.remaining input.old;
      left = R.remaining input.new;
      held = O.contents output.old;
      now = O.contents output.new;
    }) ((input.new ≡ input.old) × (output.new ≡ output.old)) }
{
    match serve(rt.alloc(), map, words.history, image, input, output) {
        Ok(()) => 0,
        Err(fault) => refuse(of_serving(fault), errors),
    }
}

/// Serves a session on the image of the file of the words on a map, or says why not, and returns
/// the exit status.
fn serve_file<H: Files + AllocGlobal, R: Read, O: Write, E: Write>(
    rt: &H,
    words: &DebugImageWords<'_>,
    map: MapSpec,
    input: &mut R,
    output: &mut O,
    errors: &mut E,
) -> u8
    requires { map ≡ map_asked (debug_view words.now) }
    ensures status { result ≤ 4 }
    ensures quiet { result ≡ 0 → errors.new ≡ errors.old }
    ensures never { result ≢ 2 }
    ensures untouched { 1 ≤ result → result ≤ 2
        → (input.new ≡ input.old) × (output.new ≡ output.old) }
    ensures wrong { result ≡ 1 → IsRefused (debug_view words.now) }
    ensures ended { result ≡ 0 → HasEnded (debug_view words.now) (record {
      given = R.remaining input.old;
      left = R.remaining input.new;
      held = O.contents output.old;
      now = O.contents output.new;
    }) }
    ensures begun { 3 ≤ result → HasBegun (debug_view words.now) (record {
      given = R.remaining input.old;
      left = R.remaining input.new;
      held = O.contents output.old;
      now = O.contents output.new;
    }) ((input.new ≡ input.old) × (output.new ≡ output.old)) }
{
    let file = words.file;
    match image_of_file(rt, file, words.form) {
        Ok(image) => {
            if map.meets(&image) {
                return refuse_port(words, &map, &image, errors);
            }
            serve_image(rt, words, map, image, input, output, errors)
        }
        Err(why) => ImageFileRefusal { file, why }.tell(errors),
    }
}

/// Does what the words ask for, and returns the exit status.
fn serve_words<H: Files + AllocGlobal, R: Read, O: Write, E: Write>(
    rt: &H,
    words: &DebugImageWords<'_>,
    input: &mut R,
    output: &mut O,
    errors: &mut E,
) -> u8
    ensures status { result ≤ 4 }
    ensures quiet { result ≡ 0 → errors.new ≡ errors.old }
    ensures untouched { 1 ≤ result → result ≤ 2
        → (input.new ≡ input.old) × (output.new ≡ output.old) }
    ensures wrong { result ≡ 1 → IsRefused (debug_view words.now) }
    ensures bad { result ≡ 2 → is_map words.now.rom words.now.port ≡ false }
    ensures ended { result ≡ 0 → HasEnded (debug_view words.now) (record {
      given = R.remaining input.old;
      left = R.remaining input.new;
      held = O.contents output.old;
      now = O.contents output.new;
    }) }
    ensures begun { 3 ≤ result → HasBegun (debug_view words.now) (record {
      given = R.remaining input.old;
      left = R.remaining input.new;
      held = O.contents output.old;
      now = O.contents output.new;
    }) ((input.new ≡ input.old) × (output.new ≡ output.old)) }
{
    match map_of(words.profile, words.rom, words.port) {
        Ok(map) => serve_file(rt, words, map, input, output, errors),
        Err(fault) => refuse(Refusal::Map(fault), errors),
    }
}

/// Does what the words after `debug` ask for if they say that the file is an image, and returns the
/// exit status.
///
/// It is 0 if a session has come to its end, 1 if the file is no image or has bytes at the port, 2
/// if the words or the map are wrong, 3 if memory ran out, 4 if reading or writing failed. For each
/// but 0 a line on `errors` says why; that it cannot be written changes no status. The replies are
/// those of `debug --tape` to a tape of the image.
pub fn debug_image<H: Files + AllocGlobal, R: Read, O: Write, E: Write>(
    rt: &H,
    words: &[&str],
    input: &mut R,
    output: &mut O,
    errors: &mut E,
) -> u8
    ensures status { result ≤ 4 }
    ensures quiet { result ≡ 0 → errors.new ≡ errors.old }
    // Words, a map or a file that are refused leave both streams alone.
    ensures untouched { 1 ≤ result → result ≤ 2
        → (input.new ≡ input.old) × (output.new ≡ output.old) }
    // 0 means that the transcript of the input was written, from the image of some file; or that
    // help is asked for.
    ensures ended { result ≡ 0 → AsksForHelp debug (texts words.entry.now)
        ⊎ Asks (texts words.entry.now) (λ asked. HasEnded asked (record {
          given = R.remaining input.old;
          left = R.remaining input.new;
          held = O.contents output.old;
          now = O.contents output.new;
        })) }
    // 1 means that some file is no image, or that some image has bytes at the port.
    ensures wrong { result ≡ 1 → Asks (texts words.entry.now) IsRefused }
    // 2 means that the words do not fit, that a value is wrong, or that the port and the ROM make
    // no map.
    ensures refused { result ≡ 2 → Misfits debug (texts words.entry.now)
        ⊎ ((Fits debug (texts words.entry.now)
        × (words_asked (texts words.entry.now) ≡ None))
        ⊎ Asks (texts words.entry.now) (λ asked. is_map asked.rom asked.port ≡ false)) }
{
    match read_debug_words(rt.alloc(), words) {
        Ok(words) => serve_words(rt, &words, input, output, errors),
        Err(fault) => refused_words(fault, output, errors),
    }
}
