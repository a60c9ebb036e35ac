//! The rows of an image, written.

ghost use Rattle.std.specs.Prelude.{◌≡◌, ◌≢◌, ◌≤◌, ◌⊎◌, IfErr, IfOk, None, true};
ghost use Rattle.arguments.specs.Streams.{Tells, TellsFront};
ghost use Rattle.arguments.specs.Words.{AsksForHelp, Fits, Misfits, texts};
ghost use Rattle.word_convert.specs.ListingAsked.{dis_view};
ghost use Rattle.word_convert.specs.ListingCommandLine.{dis, words_asked};
ghost use Rattle.word_convert.specs.Listing.{Asks, IsListing};
ghost use Rattle.image_files.specs.Files.{EndsImage, HasNoImage};

use crate::dis_rows::words::{DisImageWords, read_dis_words};
use arguments::{Refusal, refuse, refused_words, write_text};
use disasm::disassembly;
use image_files::{ImageFileRefusal, ImageRefusal, image_of_file};
use std::io::Write;
use std::rt::Files;

/// Returns the rows of the image of a file between the addresses of the words.
#[tactic(auto, using(crate::proofs::Listed::is_listing))]
fn listing<'a, H: Files + AllocGlobal>(
    rt: &H,
    words: &DisImageWords<'a>,
) -> Result<Vec<u8>, ImageFileRefusal<'a>>
    ensures rows { IfOk result (λ text. IsListing (dis_view words.now) true text.items) }
    ensures refused { IfErr result (λ why. EndsImage words.now.form why.why) }
{
    let file = words.file;
    let image = match image_of_file(rt, file, words.form) {
        Ok(image) => image,
        Err(why) => return Err(ImageFileRefusal { file, why }),
    };
    match disassembly(rt.alloc(), words.profile, &image, words.first, words.last) {
        Ok(text) => Ok(text),
        Err(_) => Err(ImageFileRefusal {
            file,
            why: ImageRefusal::Refused(Refusal::OutOfMemory),
        }),
    }
}

/// Writes the rows that the words ask for, or why there are none, and returns the exit status.
#[tactic(auto, using(crate::proofs::Listed::not_listed, crate::proofs::Listed::is_told, crate::proofs::Listed::is_begun))]
fn write_rows<H: Files + AllocGlobal, O: Write, E: Write>(
    rt: &H,
    words: &DisImageWords<'_>,
    output: &mut O,
    errors: &mut E,
) -> u8
    ensures status { result ≤ 4 }
    ensures quiet { result ≡ 0 → errors.new ≡ errors.old }
    ensures untouched { 1 ≤ result → result ≤ 3 → output.new ≡ output.old }
    ensures done { result ≡ 0 → Tells (IsListing (dis_view words.now)) true
        (O.contents output.old) (O.contents output.new) }
    ensures wrong { result ≡ 1 → HasNoImage words.now.form }
    ensures never { result ≢ 2 }
    ensures begun { result ≡ 4 → TellsFront (IsListing (dis_view words.now))
        (O.contents output.old) (O.contents output.new) ⊎ (output.new ≡ output.old) }
{
    match listing(rt, words) {
        Ok(text) => match write_text(output, text.as_slice()) {
            Ok(()) => 0,
            Err(_) => refuse(Refusal::Write, errors),
        },
        Err(why) => why.tell(errors),
    }
}

/// Does what the words after `dis` ask for if they say that the file is an image, and returns the
/// exit status.
///
/// It is 0 if the rows were written, 1 if the file is no image, 2 if the words are wrong, 3 if
/// memory ran out, 4 if reading or writing failed. For each but 0 a line on `errors` says why, with
/// the name of a file that is no image or cannot be read; that it cannot be written changes no
/// status. The text is whole, and the file closed, before any of it is written.
pub fn dis_image<H: Files + AllocGlobal, O: Write, E: Write>(
    rt: &H,
    words: &[&str],
    output: &mut O,
    errors: &mut E,
) -> u8
    ensures status { result ≤ 4 }
    // Where the rows were written nothing is said on the error stream.
    ensures quiet { result ≡ 0 → errors.new ≡ errors.old }
    // A file or words that are refused leave the output as it was, and so it is where memory ran
    // out.
    ensures untouched { 1 ≤ result → result ≤ 3 → output.new ≡ output.old }
    // 0 means that the rows of the image of some file were written; or that help is asked for.
    ensures done { result ≡ 0 → AsksForHelp dis (texts words.entry.now)
        ⊎ Asks (texts words.entry.now) (λ asked. Tells (IsListing asked) true
        (O.contents output.old) (O.contents output.new)) }
    // 1 means that some file is no image.
    ensures wrong { result ≡ 1
        → Asks (texts words.entry.now) (λ asked. HasNoImage asked.form) }
    // 2 means that the words do not fit, or that a value is wrong.
    ensures refused { result ≡ 2 → Misfits dis (texts words.entry.now)
        ⊎ (Fits dis (texts words.entry.now)
        × (words_asked (texts words.entry.now) ≡ None)) }
    // 4 means that a beginning of such rows was written, or nothing; or help is asked for.
    ensures begun { result ≡ 4 → AsksForHelp dis (texts words.entry.now)
        ⊎ Asks (texts words.entry.now) (λ asked. TellsFront (IsListing asked)
        (O.contents output.old) (O.contents output.new) ⊎ (output.new ≡ output.old)) }
{
    match read_dis_words(rt.alloc(), words) {
        Ok(words) => write_rows(rt, &words, output, errors),
        Err(fault) => refused_words(fault, output, errors),
    }
}
