//! The source of a tape, written.
ghost use Rattle.std.specs.Prelude.{◌≡◌, ◌≢◌, ◌≤◌, ◌⊎◌, IfErr, IfOk, None};
ghost use Rattle.arguments.specs.Streams.{TellsFront};
ghost use Rattle.arguments.specs.Words.{AsksForHelp, Fits, Misfits, texts};
ghost use Rattle.word_dis.specs.CommandLine.{Asks, dis, words_asked};
ghost use Rattle.word_dis.specs.Views.{source_view};
ghost use Rattle.word_dis.specs.Word.{EndsSource, HasNamesFault, HasNoSource, IsDone, IsDoneWith};
ghost use Rattle.word_dis.specs.Word.{IsSaid, IsSaidWith, IsSourceWith};
ghost use Rattle.image_files.specs.Files.{HasNoImage};

use crate::advice::{LeftOut, put_remarks};
use crate::asked::{SourceWords, read_source_words};
use crate::names::names_of;
use crate::said::with_marks;
use crate::written::{SourceText, written};
use arguments::{Refusal, refuse, refused_words, write_text};
use image_files::{ImageFileRefusal, ImageRefusal, image_of_file};
use std::io::Write;
use std::rt::Files;

/// A source, and what is said of lines of the file of names that were left out.
#[derive(Drop)]
struct ReadSource {
    source: SourceText,
    left_out: Vec<u8>,
}

/// Returns the source of what an image's file has between the addresses of the words, with the
/// words' marks.
#[tactic(auto, using(crate::proofs::Ended::names_end))]
fn text_of<'a, H: Files + AllocGlobal>(
    rt: &H,
    words: &SourceWords<'a>,
) -> Result<ReadSource, ImageFileRefusal<'a>>
    ensures source { IfOk result (λ r. IsSourceWith (source_view words.now) r.source.text.items
        r.source.at_port r.left_out.items r.source.left_out) }
    ensures refused { IfErr result (EndsSource (source_view words.now)) }
{
    let file = words.tape;
    let image = match image_of_file(rt, file, words.form) {
        Ok(image) => image,
        Err(why) => return Err(ImageFileRefusal { file, why }),
    };
    let names = names_of(rt, words)?;
    match written(rt.alloc(), words, &image, names.assembly.as_ref()) {
        Ok(source) => Ok(ReadSource {
            source,
            left_out: names.left_out,
        }),
        Err(_) => Err(ImageFileRefusal {
            file,
            why: ImageRefusal::Refused(Refusal::OutOfMemory),
        }),
    }
}

/// Writes the source that the words ask for, and what `asm` has to be told of it, or why there is
/// none, and returns the exit status.
#[tactic(auto, using(crate::proofs::Ended::not_written, crate::proofs::Images::is_done, crate::proofs::Images::is_begun))]
fn serve_words<H: Files + AllocGlobal, O: Write, E: Write>(
    rt: &H,
    words: &SourceWords<'_>,
    output: &mut O,
    errors: &mut E,
) -> u8
    ensures status { result ≤ 4 }
    ensures untouched { 1 ≤ result → result ≤ 3 → output.new ≡ output.old }
    ensures done { result ≡ 0 → IsDone (source_view words.now) (O.contents output.old)
        (O.contents output.new) (E.contents errors.old) (E.contents errors.new) }
    ensures wrong { result ≡ 1 → HasNoImage words.now.form ⊎ HasNamesFault words.now.profile }
    ensures never { result ≢ 2 }
    ensures begun { result ≡ 4 → TellsFront (IsSaid (source_view words.now))
        (O.contents output.old) (O.contents output.new) ⊎ (output.new ≡ output.old) }
{
    match text_of(rt, words) {
        Ok(read) => match write_text(output, read.source.text.as_slice()) {
            Ok(()) => {
                let left_out = LeftOut {
                    names: read.left_out.as_slice(),
                    bytes: read.source.left_out,
                };
                put_remarks(left_out, read.source.at_port, words.profile, errors);
                0
            }
            Err(_) => refuse(Refusal::Write, errors),
        },
        Err(why) => why.tell(errors),
    }
}

/// Does what the words ask for, with what their file of marks says, and returns the exit status.
#[tactic(auto, using(crate::proofs::MarksSaid::not_marked, crate::proofs::MarksSaid::done_with, crate::proofs::MarksSaid::said_with, crate::proofs::MarksSaid::no_source))]
fn done_with_marks<H: Files + AllocGlobal, O: Write, E: Write>(
    rt: &H,
    words: SourceWords<'_>,
    output: &mut O,
    errors: &mut E,
) -> u8
    ensures status { result ≤ 4 }
    ensures untouched { 1 ≤ result → result ≤ 3 → output.new ≡ output.old }
    ensures done { result ≡ 0 → IsDoneWith (source_view words.entry) (O.contents output.old)
        (O.contents output.new) (E.contents errors.old) (E.contents errors.new) }
    ensures wrong { result ≡ 1 → HasNoSource (source_view words.entry) }
    ensures never { result ≢ 2 }
    ensures begun { result ≡ 4 → TellsFront (IsSaidWith (source_view words.entry))
        (O.contents output.old) (O.contents output.new) ⊎ (output.new ≡ output.old) }
{
    let path = words.marks.unwrap_or(words.tape);
    match with_marks(rt, words) {
        Ok(words) => serve_words(rt, &words, output, errors),
        Err(why) => why.tell(path, errors),
    }
}

/// Does what the words after `dis` ask for if `--source` is among them, and returns the exit
/// status.
///
/// It is 0 if the source was written, 1 if the file is no image or the source of names or the file
/// of marks has a fault, 2 if the words are wrong, 3 if memory ran out, 4 if reading or writing
/// failed. For each but 0 a line on `errors` says why, with the name of the file that has the fault
/// or cannot be read. For 0 a line there says how many names of the file of names were left out,
/// and some of these, if any were, one says how many bytes were left out as fill, if some were, and
/// one says which options `asm` needs for the source, if it needs some. The status is the same if
/// they cannot be written. The text is whole, and each file closed, before any of it is written.
pub fn dis_source<H: Files + AllocGlobal, O: Write, E: Write>(
    rt: &H,
    words: &[&str],
    output: &mut O,
    errors: &mut E,
) -> u8
    ensures status { result ≤ 4 }
    // A file or words that are refused leave the output as it was, and so it is where memory ran
    // out.
    ensures untouched { 1 ≤ result → result ≤ 3 → output.new ≡ output.old }
    // 0 means that a source was written of what the image of some file has between the addresses of
    // the words, and on the error stream what `asm` has to be told; or that help is asked for.
    ensures done { result ≡ 0 → AsksForHelp dis (texts words.entry.now)
        ⊎ Asks (texts words.entry.now) (λ asked. IsDoneWith asked (O.contents output.old)
        (O.contents output.new) (E.contents errors.old) (E.contents errors.new)) }
    // 1 means that some file is no image, or that some source of names has a fault for the words'
    // processor, or some file of marks.
    ensures wrong { result ≡ 1 → Asks (texts words.entry.now) HasNoSource }
    // 2 means that the words do not fit, or that a value is wrong.
    ensures refused { result ≡ 2 → Misfits dis (texts words.entry.now)
        ⊎ (Fits dis (texts words.entry.now)
        × (words_asked (texts words.entry.now) ≡ None)) }
    // 4 means that a beginning of such a source was written, or nothing; or help is asked for.
    ensures begun { result ≡ 4 → AsksForHelp dis (texts words.entry.now)
        ⊎ Asks (texts words.entry.now) (λ asked. TellsFront (IsSaidWith asked)
        (O.contents output.old) (O.contents output.new) ⊎ (output.new ≡ output.old)) }
{
    match read_source_words(rt.alloc(), words) {
        Ok(words) => done_with_marks(rt, words, output, errors),
        Err(fault) => refused_words(fault, output, errors),
    }
}
