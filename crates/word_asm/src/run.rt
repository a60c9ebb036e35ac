//! The tape and the files of a source, written.

ghost use Rattle.std.specs.Prelude.{◌≡◌, ◌≤◌, ◌⊎◌, None, Err, IfErr, IfOk, false};
ghost use Rattle.std.specs.Prelude.{if◌then◌else◌};
ghost use Rattle.arguments.specs.Files.{EndsWriting};
ghost use Rattle.arguments.specs.Words.{AsksForHelp, Fits, Misfits, texts};
ghost use Rattle.word_asm.specs.CommandLine.{Asks, EndsTexts, HasSource, HasSourceFault, asm};
ghost use Rattle.word_asm.specs.CommandLine.{map_asked, words_asked};
ghost use Rattle.word_asm.specs.Views.{files_view};
ghost use Rattle.clean_source.specs.Cleaned.{cleaned};
ghost use Rattle.arguments.specs.declared.load_fault.LoadFault.TheVariants.{Refused};
ghost use Rattle.model.specs.State.{is_map};
ghost use Rattle.model.specs.declared.bus_fault.BusFault.TheVariants.{BadMap};

use crate::asked::{FilesWords, ImageNames, read_files_words};
use crate::images::{ImageTexts, ImagesAsked};
use crate::texts::{FileTexts, TextsAsked, file_texts};
use arguments::{
    FileRefusal, LoadFault, Refusal, check_outputs, check_source, map_of, read_source,
    refused_words, write_file,
};
use clean_source::clean_source;
use loading::faults_of;
use std::alloc::Global;
use std::io::Write;
use std::rt::Files;

/// Writes a text to a file of that name. A file that is there is replaced.
///
/// Errors, with its name: as those of `write_file`.
pub fn write_named<'a, H: Files + AllocGlobal>(
    rt: &H,
    file: &'a str,
    text: &[u8],
) -> Result<(), FileRefusal<'a>>
    ensures only { IfErr result (λ why. EndsWriting why.refusal) }
{
    write_file(rt, file, text).map_err(|refusal| FileRefusal { file, refusal })
}

/// Writes a text to a file of that name, if both are there. A file that is there is replaced.
///
/// Errors, with its name: as those of `write_file`.
pub fn write_asked<'a, H: Files + AllocGlobal>(
    rt: &H,
    file: Option<&'a str>,
    text: &Option<Vec<u8>>,
) -> Result<(), FileRefusal<'a>>
    ensures only { IfErr result (λ why. EndsWriting why.refusal) }
{
    match (file, text) {
        (Some(file), Some(text)) => write_named(rt, file, text.as_slice()),
        _ => Ok(()),
    }
}

/// Checks that each file to write is neither the source nor another of them, and that a source that
/// looks like a tape replaces none.
fn check_files<'a, H: Files + AllocGlobal>(
    rt: &H,
    words: &FilesWords<'a>,
    source: &[u8],
) -> Result<(), FileRefusal<'a>>
    ensures only { IfErr result (λ why. EndsWriting why.refusal) }
{
    let written = [
        Some(words.asm.tape),
        words.asm.listing,
        words.symbols,
        words.map,
        words.images.raw,
        words.images.hex,
        words.images.srec,
    ];
    check_outputs(rt, &[Some(words.asm.source)], &written)?;
    check_source(rt, source, &written)
}

/// Writes the image's files, if they are asked for.
fn write_images<'a, H: Files + AllocGlobal>(
    rt: &H,
    names: &ImageNames<'a>,
    texts: &ImageTexts,
) -> Result<(), FileRefusal<'a>>
    ensures only { IfErr result (λ why. EndsWriting why.refusal) }
{
    write_asked(rt, names.raw, &texts.raw)?;
    write_asked(rt, names.hex, &texts.hex)?;
    write_asked(rt, names.srec, &texts.srec)
}

/// Writes the tape's file, and then the listing's, that of the names, that of the places and those
/// of the image. None is written if `check_files` refuses them.
fn write_texts<'a, H: Files + AllocGlobal>(
    rt: &H,
    words: &FilesWords<'a>,
    source: &[u8],
    texts: &FileTexts,
) -> Result<(), FileRefusal<'a>>
    ensures only { IfErr result (λ why. EndsWriting why.refusal) }
{
    check_files(rt, words, source)?;
    write_named(rt, words.asm.tape, texts.asm.tape.as_slice())?;
    write_asked(rt, words.asm.listing, &texts.asm.listing)?;
    write_asked(rt, words.symbols, &texts.symbols)?;
    write_asked(rt, words.map, &texts.map)?;
    write_images(rt, &words.images, &texts.images)
}

/// Returns which texts the words ask for beside that of the tape.
fn texts_asked(words: &FilesWords<'_>) -> TextsAsked {
    TextsAsked {
        is_listed: words.asm.listing.is_some(),
        symbols: match words.symbols {
            Some(_) => Some(words.format),
            None => None,
        },
        is_mapped: words.map.is_some(),
        images: ImagesAsked {
            raw: match words.images.raw {
                Some(_) => Some(words.images.fill),
                None => None,
            },
            is_hex: words.images.hex.is_some(),
            is_srec: words.images.srec.is_some(),
        },
    }
}

/// Returns the source that is read in the place of a file's bytes, if the words ask for that, and
/// otherwise the bytes.
///
/// Errors: `OutOfMemory` if an allocation fails.
fn source_of(alloc: Global, cleans: bool, bytes: Vec<u8>) -> Result<Vec<u8>, Refusal>
    ensures source { IfOk result
        (λ source. source.items ≡ (if cleans then cleaned bytes.items else bytes.items)) }
    ensures refused { IfErr result (λ refusal. refusal ≡ Refusal.OutOfMemory) }
{
    if cleans {
        clean_source(alloc, &bytes).map_err(|_| Refusal::OutOfMemory)
    } else {
        Ok(bytes)
    }
}

/// Returns the source that the words name, and its texts.
#[tactic(auto, using(crate::proofs::Ends::source_ends))]
fn texts_of<H: Files + AllocGlobal>(
    rt: &H,
    words: &FilesWords<'_>,
) -> Result<(Vec<u8>, FileTexts), LoadFault>
    ensures bad_map { is_map None words.now.asm.port ≡ false
        → result ≡ Err (Refused (Refusal.Map BadMap)) }
    ensures refused { IfErr result
        (EndsTexts (map_asked (files_view words.now)) words.now.asm.source.now) }
    ensures done { IfOk result (λ _. HasSource (map_asked (files_view words.now))) }
{
    let map = map_of(words.asm.profile, None, words.asm.port).map_err(Refusal::from)?;
    let bytes = read_source(rt, words.asm.source)?;
    let source = source_of(rt.alloc(), words.cleans, bytes)?;
    match file_texts(rt.alloc(), source.as_slice(), &map, texts_asked(words)) {
        Ok(texts) => Ok((source, texts)),
        Err(fault) => Err(faults_of(rt.alloc(), words.asm.source, &source, &map, fault)),
    }
}

/// Writes the texts, or why not, and returns the exit status.
fn written<H: Files + AllocGlobal, E: Write>(
    rt: &H,
    words: &FilesWords<'_>,
    source: &[u8],
    texts: &FileTexts,
    errors: &mut E,
) -> u8
    ensures status { result ≤ 4 }
    ensures late { 1 ≤ result → 3 ≤ result }
    ensures quiet { result ≡ 0 → errors.new ≡ errors.old }
{
    match write_texts(rt, words, source, texts) {
        Ok(()) => 0,
        Err(why) => why.tell(errors),
    }
}

/// Assembles a file and writes the files that are asked for, or why not, and returns the exit
/// status. All texts are whole before a file is made.
fn serve_words<H: Files + AllocGlobal, E: Write>(
    rt: &H,
    words: &FilesWords<'_>,
    errors: &mut E,
) -> u8
    ensures status { result ≤ 4 }
    ensures quiet { result ≡ 0 → errors.new ≡ errors.old }
    ensures done { result ≡ 0 → HasSource (map_asked (files_view words.now)) }
    ensures rejected { result ≡ 1 → HasSourceFault (map_asked (files_view words.now)) }
    ensures refused { result ≡ 2 → is_map None words.now.asm.port ≡ false }
{
    match texts_of(rt, words) {
        Ok((source, texts)) => written(rt, words, &source, &texts, errors),
        Err(fault) => fault.tell(words.asm.source, errors),
    }
}

/// Does what the words after `asm` ask for if further files are among it, or that the source is
/// cleaned first, and returns the exit status.
///
/// The status is that of `asm`: 0 if it is done, 1 if the source is rejected, 2 if the words or the
/// map are wrong, 3 if memory ran out, 4 if reading or writing failed. For each but 0 `errors` gets
/// why: all faults of the source, or a line with the name of the file that cannot be read or
/// written; the status is the same if that cannot be written. The tape is written first, then the
/// listing, the names, the places of the lines and the image in other forms; all texts are whole
/// before the first file is made. If a file to write is the source or another of the files, the
/// status is 4 and nothing is written; so it is if the source looks like a tape and a file to write
/// is there. A write that fails leaves the file that is there. The output gets nothing but help.
pub fn asm_files<H: Files + AllocGlobal, O: Write, E: Write>(
    rt: &H,
    words: &[&str],
    output: &mut O,
    errors: &mut E,
) -> u8
    ensures status { result ≤ 4 }
    // If it is done, nothing is written on the error stream.
    ensures quiet { result ≡ 0 → errors.new ≡ errors.old }
    // A source, words or a map that are rejected leave the output unchanged, and so does memory
    // that runs out.
    ensures untouched { 1 ≤ result → result ≤ 3 → output.new ≡ output.old }
    // 0 means that some source was assembled, on the map of the words, or that the help that is
    // asked for was written.
    ensures done { result ≡ 0 → AsksForHelp asm (texts words.entry.now)
        ⊎ Asks (texts words.entry.now) (λ asked. HasSource (map_asked asked)
        × (output.new ≡ output.old)) }
    // 1 means that some source has a fault on that map.
    ensures rejected { result ≡ 1 → Asks (texts words.entry.now)
        (λ asked. HasSourceFault (map_asked asked)) }
    // 2 means that the words do not fit, that a value is wrong, or that the port makes no map.
    ensures refused { result ≡ 2 → Misfits asm (texts words.entry.now)
        ⊎ ((Fits asm (texts words.entry.now)
        × (words_asked (texts words.entry.now) ≡ None))
        ⊎ Asks (texts words.entry.now)
        (λ asked. is_map None asked.asm.port ≡ false)) }
    // 4 means that the output is as it was, or that help is asked for.
    ensures begun { result ≡ 4 → AsksForHelp asm (texts words.entry.now)
        ⊎ (Fits asm (texts words.entry.now) × (output.new ≡ output.old)) }
{
    match read_files_words(rt.alloc(), words) {
        Ok(words) => serve_words(rt, &words, errors),
        Err(fault) => refused_words(fault, output, errors),
    }
}
