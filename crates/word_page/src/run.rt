//! What the word `page` does.

ghost use Rattle.std.specs.Prelude.{◌≡◌, ◌⊎◌, ℕ, List, IfErr, IfOk, None, Some, false};
ghost use Rattle.std.specs.Prelude.{OnErr, OnOk, option_map};
ghost use Rattle.accesses.specs.Writing.{or_everywhere};
ghost use Rattle.arguments.specs.Files.{EndsWriting};
ghost use Rattle.arguments.specs.Words.{Fits, Refuses, texts};
ghost use Rattle.loading.specs.Named.{MayLose};
ghost use Rattle.loading.specs.Place.{names_of};
ghost use Rattle.model.specs.State.{is_map};
ghost use Rattle.model.specs.Writers.{AppendsFront};
ghost use Rattle.word_page.specs.Asked.{PageAsked, words_in, page_view};
ghost use Rattle.word_page.specs.CommandLine.{page};
ghost use Rattle.word_page.specs.Done.{AreNamed, EndsFile, EndsPage, IsApart, IsDone, IsInput};
ghost use Rattle.word_page.specs.Done.{IsShown};
ghost use Rattle.word_page.specs.Done.{Ran, ShownIfDebugged, place_besides, place_in, start_in};
ghost use Rattle.word_run.specs.Known.{known_by};
ghost use Rattle.word_run.specs.Told.{unplaced_line};

use crate::fault::PageFault;
use crate::notes::{MOST_NOTES, read_notes};
use crate::words::{PageWords, read_page_words};
use accesses::Written;
use arguments::{
    FileRefusal, Refusal, check_output, check_outputs, check_replaced, read_most, refused_words,
    write_file,
};
use assembler::Assembly;
use console::Played;
use debug_files::{check_sources, tell_changed};
use loading::{Loaded, load, load_counted_names, place_of, tell_left_out};
use page_writer::{
    Note, Opening, PAGE_FRONT, Program, Texts, facts_of, push_opening, source_of, viewer,
    write_page,
};
use source_map::Places;
use std::alloc::{AllocError, Global};
use std::io::Write;
use std::rt::Files;
use word_run::{Known, load_debug, place_named, status_of_ending, tell_ending};

/// The most bytes of input that a program can be given.
const MOST_INPUT: u64 = 65_536;

/// What a page says of a program besides its run.
#[derive(Drop)]
struct Said {
    facts: Vec<u8>,
    source: Vec<u8>,
}

/// Returns the names of the file of names, if one is named, and how many lines gave no name.
fn names_asked<'a, H: Files + AllocGlobal>(
    rt: &H,
    words: &PageWords<'a>,
) -> Result<(Option<Assembly>, usize), FileRefusal<'a>>
    ensures named { IfOk result (λ p. AreNamed (page_view words.now).symbols
        (page_view words.now).file p.0) }
    ensures lost { IfOk result
        (λ p. MayLose words.now.file.profile (page_view words.now).symbols p.1) }
    ensures refused { IfErr result (λ why. EndsFile why.refusal) }
{
    let Some(file) = words.symbols else {
        return Ok((None, 0));
    };
    let loaded = load_counted_names(rt, &words.file, file);
    let (names, lost) = loaded.map_err(|refusal| FileRefusal { file, refusal })?;
    Ok((Some(names), lost))
}

/// Returns the first bytes of a file, so many at most, or none where no file is named.
#[tactic(auto, using(crate::proofs::Ends::reading_ends))]
fn bytes_asked<'a, H: Files + AllocGlobal>(
    rt: &H,
    file: Option<&'a str>,
    most: u64,
) -> Result<Vec<u8>, FileRefusal<'a>>
    ensures bytes { IfOk result
        (λ bytes. IsInput (option_map (λ f. f.now) file.entry) bytes.items) }
    ensures refused { IfErr result (λ why. EndsFile why.refusal) }
{
    let Some(file) = file else {
        return Ok(Vec::new(rt.alloc()));
    };
    read_most(rt, file, most).map_err(|refusal| FileRefusal { file, refusal })
}

/// Returns the notes of a file, or none where no file is named.
fn notes_asked<'a, 't>(
    alloc: Global,
    file: Option<&'a str>,
    text: &'t [u8],
) -> Result<Vec<Note<'t>>, PageFault<'a>>
    ensures { IfErr result EndsPage }
{
    let Some(file) = file else {
        return Ok(Vec::new(alloc));
    };
    read_notes(alloc, text).map_err(|fault| PageFault::Notes { file, fault })
}

/// Returns the title of a page: that of the words, or else the name of the file without its
/// folders, which are those of who makes the page.
fn title_of<'a>(words: &PageWords<'a>) -> &'a str {
    let file = words.file.file;
    match (words.title, file.rsplit_once('/')) {
        (Some(title), _) => title,
        (None, Some((_, name))) => name,
        (None, None) => file,
    }
}

/// Returns what the page says of a program, and what it shows when it is opened.
fn said_of(
    alloc: Global,
    words: &PageWords<'_>,
    loaded: &Loaded,
    names: Option<&Assembly>,
    debug: Option<&Places>,
    opening: &Opening<'_>,
) -> Result<Said, AllocError> {
    let program = Program {
        title: title_of(words),
        port: words.file.port,
        profile: words.file.profile,
        written: &loaded.written,
        assembly: loaded.assembly.as_ref(),
        debug,
        names,
    };
    let mut facts = facts_of(alloc, &program)?;
    push_opening(&mut facts, opening)?;
    let source = source_of(alloc, program.assembly, program.debug)?;
    Ok(Said { facts, source })
}

/// Checks that a page can be written to a file of that name: none that was read, and where one is
/// there, a page or an empty file. It stays as it is.
fn check_new<H: Files + AllocGlobal>(
    rt: &H,
    out: &str,
    read: &[Option<&str>],
) -> Result<(), Refusal>
    ensures { IfErr result EndsWriting }
{
    check_outputs(rt, read, &[Some(out)])?;
    check_replaced(rt, out, PAGE_FRONT.as_bytes())?;
    check_output(rt, out)
}

/// Checks that the page can be written, before its run: to none of the files that were read, to no
/// source that debug information names, and over no file that is there and is no page.
///
/// Errors: `WriteFile` if it cannot; `OutOfMemory` if an allocation fails.
#[tactic(auto, using(crate::proofs::Ends::unwritten_ends))]
fn check_page<H: Files + AllocGlobal>(
    rt: &H,
    words: &PageWords<'_>,
    debug: Option<&Places>,
) -> Result<(), Refusal>
    ensures apart { IfOk result
        (λ _. IsApart (page_view words.now) (option_map (λ p. p.now) debug.entry)) }
    ensures refused { IfErr result EndsFile }
{
    check_sources(
        rt,
        words.debug_info,
        words.source_root,
        debug,
        Some(words.out),
    )?;
    let notes = words.opening.notes;
    let read = [
        Some(words.file.file),
        words.symbols,
        words.debug_info,
        words.input,
        notes,
    ];
    Ok(check_new(rt, words.out, &read)?)
}

/// Writes a page to a file, unless something else came there while the page was made.
#[tactic(auto, using(crate::proofs::Ends::unwritten_ends))]
fn put_page<H: Files + AllocGlobal>(rt: &H, out: &str, page: &[u8]) -> Result<(), Refusal>
    ensures { IfErr result EndsFile }
{
    check_replaced(rt, out, PAGE_FRONT.as_bytes())?;
    Ok(write_file(rt, out, page)?)
}

/// Returns the addresses that count as written when the run begins.
fn first_written(
    alloc: Global,
    words: &PageWords<'_>,
    loaded: &Loaded,
) -> Result<Written, AllocError>
    ensures { IfOk result
        (λ written. written ≡ or_everywhere words.now.is_free loaded.now.written) }
{
    let written = loaded.written.copied(alloc)?;
    Ok(written.or_everywhere(words.is_free))
}

/// Runs what was loaded over an input, and returns how that ended and its page.
///
/// Errors: `OutOfMemory` if an allocation fails, and nothing else: the page is written to memory.
fn page_of_run(
    alloc: Global,
    words: &PageWords<'_>,
    loaded: &mut Loaded,
    said: &Said,
    until: Option<u16>,
    input: &[u8],
) -> Result<(Played, Vec<u8>), Refusal>
    ensures ran { IfOk result (λ made. Ran until words.now.steps
        (start_in words.now.is_free loaded.old.session loaded.old.written)
        input.now made.0 loaded.new.session) }
    ensures assembly { loaded.new.assembly ≡ loaded.old.assembly }
    ensures refused { IfErr result (λ why. why ≡ Refusal.OutOfMemory) }
{
    let Ok(written) = first_written(alloc, words, loaded) else {
        return Err(Refusal::OutOfMemory);
    };
    let texts = Texts {
        facts: said.facts.as_slice(),
        source: said.source.as_slice(),
    };
    let viewer = viewer();
    let session = &mut loaded.session;
    let steps = words.steps;
    let mut page = Vec::new(alloc);
    match write_page(
        alloc, &viewer, &texts, session, written, until, steps, input, &mut page,
    ) {
        Ok(played) => Ok((played, page)),
        Err(_) => Err(Refusal::OutOfMemory),
    }
}

/// Runs what was loaded over an input, and writes the page of the run to its file, which was
/// checked before the run and is written after it.
fn make_page<H: Files + AllocGlobal>(
    rt: &H,
    words: &PageWords<'_>,
    loaded: &mut Loaded,
    names: Option<&Assembly>,
    debug: Option<&Places>,
    opening: &Opening<'_>,
    until: Option<u16>,
    input: &[u8],
) -> Result<Played, Refusal>
    ensures ran { IfOk result (λ end. Ran until words.now.steps
        (start_in words.now.is_free loaded.old.session loaded.old.written)
        input.now end loaded.new.session) }
    ensures apart { IfOk result
        (λ _. IsApart (page_view words.now) (option_map (λ p. p.now) debug.entry)) }
    ensures assembly { loaded.new.assembly ≡ loaded.old.assembly }
    ensures refused { IfErr result EndsFile }
{
    let Ok(said) = said_of(rt.alloc(), words, loaded, names, debug, opening) else {
        return Err(Refusal::OutOfMemory);
    };
    check_page(rt, words, debug)?;
    let (played, page) = page_of_run(rt.alloc(), words, loaded, &said, until, input)?;
    put_page(rt, words.out, page.as_slice())?;
    Ok(played)
}

/// Reads the input and the notes that are asked for, and writes the page of what was loaded.
fn show_run<'a, H: Files + AllocGlobal>(
    rt: &H,
    words: &PageWords<'a>,
    loaded: &mut Loaded,
    names: Option<&Assembly>,
    debug: Option<&Places>,
    until: Option<u16>,
) -> Result<Played, PageFault<'a>>
    ensures ran { IfOk result (λ end. (input : List ℕ) × IsInput (page_view words.now).input input
        × Ran until words.now.steps
        (start_in words.now.is_free loaded.old.session loaded.old.written)
        input end loaded.new.session) }
    ensures apart { IfOk result
        (λ _. IsApart (page_view words.now) (option_map (λ p. p.now) debug.entry)) }
    ensures assembly { loaded.new.assembly ≡ loaded.old.assembly }
    ensures refused { IfErr result EndsPage }
{
    let input = bytes_asked(rt, words.input, MOST_INPUT)?;
    let wanted = words.opening;
    let text = bytes_asked(rt, wanted.notes, MOST_NOTES as u64 + 1)?;
    let notes = notes_asked(rt.alloc(), wanted.notes, text.as_slice())?;
    let opening = Opening {
        step: wanted.step,
        screen: wanted.screen,
        notes: notes.as_slice(),
    };
    let bytes = input.as_slice();
    let made = make_page(rt, words, loaded, names, debug, &opening, until, bytes);
    let file = words.out;
    let played = made.map_err(|refusal| FileRefusal { file, refusal })?;
    Ok(played)
}

/// Writes the page of what was loaded up to a place, tells how that ended, and returns the exit
/// status.
fn show_to<H: Files + AllocGlobal, E: Write>(
    rt: &H,
    words: &PageWords<'_>,
    loaded: &mut Loaded,
    names: Option<&Assembly>,
    debug: Option<&Places>,
    until: Option<u16>,
    errors: &mut E,
) -> u8
    ensures { IsShown (page_view words.now) (option_map (λ p. p.now) debug.entry)
        (known_by words.now.file.file.now loaded.old.assembly
        (option_map (λ p. p.now) debug.entry)) until
        (start_in words.now.is_free loaded.old.session loaded.old.written) (record {
          held = E.contents errors.old;
          now = E.contents errors.new;
        }) result }
{
    match show_run(rt, words, loaded, names, debug, until) {
        Ok(played) => {
            let pc = loaded.session.regs().pc;
            let assembly = loaded.assembly.as_ref();
            let known = Known {
                file: words.file.file,
                assembly,
                debug,
            };
            tell_ending(rt.alloc(), known, played, pc, errors);
            status_of_ending(played.ending, 0)
        }
        Err(why) => why.tell(errors),
    }
}

/// Returns the address that a word names by a file of names, and not by the source.
fn place_besides(loaded: &Loaded, names: Option<&Assembly>, word: Option<&str>) -> Option<u16>
    ensures { result ≡ place_besides (names_of loaded.now.assembly)
        (names_of (option_map (λ a. a.now) names.entry)) (option_map (λ w. w.now) word.entry) }
{
    let word = word?.as_bytes();
    match place_of(loaded.assembly.as_ref(), word) {
        Some(_) => None,
        None => place_of(names, word),
    }
}

/// Returns the address of the place that a word names by the source, by a file of names or by debug
/// information, or `None` if there is no word.
///
/// Errors: as `place_named`.
fn place_in<E: Write>(
    loaded: &Loaded,
    names: Option<&Assembly>,
    debug: Option<&Places>,
    word: Option<&str>,
    errors: &mut E,
) -> Result<Option<u16>, u8>
    ensures place { result ≡ place_in (names_of loaded.now.assembly)
        (names_of (option_map (λ a. a.now) names.entry)) (option_map (λ p. p.now) debug.entry)
        (option_map (λ w. w.now) word.entry) }
    ensures quiet { OnOk result (errors.new ≡ errors.old) }
    ensures told { OnErr result (AppendsFront (E.contents errors.old) (E.contents errors.new)
        (unplaced_line (option_map (λ p. p.now) debug.entry)
        (option_map (λ w. w.now) word.entry))) }
{
    match place_besides(loaded, names, word) {
        Some(address) => Ok(Some(address)),
        None => place_named(loaded, debug, word, errors),
    }
}

/// Reads the debug information that is named for what was loaded, writes the page of its run up to
/// the place of the words, and returns the exit status.
fn show_loaded<H: Files + AllocGlobal, E: Write>(
    rt: &H,
    words: &PageWords<'_>,
    loaded: &mut Loaded,
    names: Option<&Assembly>,
    errors: &mut E,
) -> u8
    ensures { ShownIfDebugged (page_view words.now) loaded.old.assembly
        (option_map (λ a. a.now) names.entry) loaded.old.written
        (start_in words.now.is_free loaded.old.session loaded.old.written) (record {
          held = E.contents errors.old;
          now = E.contents errors.new;
        }) result }
{
    let debug = match load_debug(rt, words.debug_info, words.source_root, loaded) {
        Ok(debug) => debug,
        Err(fault) => return fault.tell(words.debug_info.unwrap_or(words.file.file), errors),
    };
    tell_changed(words.debug_info, &debug.sought, errors);
    let places = debug.places.as_ref();
    let until = match place_in(loaded, names, places, words.until, errors) {
        Ok(until) => until,
        Err(status) => return status,
    };
    show_to(rt, words, loaded, names, places, until, errors)
}

/// Loads the file of the words and what they ask for beside it, writes the page of its run up to
/// the place of the words, and returns the exit status.
fn show_words<H: Files + AllocGlobal, E: Write>(rt: &H, words: &PageWords<'_>, errors: &mut E) -> u8
    ensures done { IsDone (page_view words.now) (record {
      held = E.contents errors.old;
      now = E.contents errors.new;
    }) result }
    ensures bad_map { is_map words.now.file.rom words.now.file.port ≡ false → result ≡ 2 }
{
    let mut loaded = match load(rt, &words.file) {
        Ok(loaded) => loaded,
        Err(fault) => return fault.tell(words.file.file, errors),
    };
    let (names, lost) = match names_asked(rt, words) {
        Ok(names) => names,
        Err(why) => return why.tell(errors),
    };
    tell_left_out(lost, loaded.fill, errors);
    show_loaded(rt, words, &mut loaded, names.as_ref(), errors)
}

/// Does what the words of `page` ask for, its own name left out, and returns the exit status.
///
/// The run is that of `run` with the input of a file, or with none. In a page it has 100,000 steps
/// at most, or as many as `--steps` says.
///
/// - 0: the run came to its end, at `--until`, at a jump to itself, or waiting for input that has
///   ended. 10: the limit of steps. 11: a fault of the program. 12: the console is full. 13:
///   nothing stands where the program runs, or at the vector of its BRK. In each of these cases the
///   page was written.
/// - 1: the source, the tape, the file of names, that of debug information or that of notes is
///   rejected. 2: the words, the place or the map are wrong. 3: memory ran out. 4: reading or
///   writing failed, or the page is a file that is read under another name, or one
///   that is there and is no page.
///
/// For each status but 0 a line on `errors` says why, and one says which sources have changed since
/// the debug information was made; that a line cannot be written changes no status.
/// A page that was at the name of the page is replaced, by the whole one: it stands in memory until
/// the run has ended, so a run that is cut leaves what was there and no file beside it.
pub fn page<H: Files + AllocGlobal, O: Write, E: Write>(
    rt: &H,
    words: &[&str],
    output: &mut O,
    errors: &mut E,
) -> u8
    // Words that fit the command line, with right values: their file was loaded and ran by the
    // definition of a run, or it was not, or a file could not be read or written, as the status
    // says. The error stream gets why, or how the run ended. What the page got, no clause can say
    // of a file: `write_page` says it of a writer.
    ensures done { (a : PageAsked) → words_in (texts words.entry.now) ≡ Some a
        → Fits page (texts words.entry.now) → (output.new ≡ output.old) × IsDone a (record {
          held = E.contents errors.old;
          now = E.contents errors.new;
        }) result }
    // Other words write nothing on the output but help.
    ensures refused { Refuses page (texts words.entry.now) (words_in (texts words.entry.now) ≡ None)
        result (Unit {0}) (output.new ≡ output.old) }
    // A port and a ROM that make no map have the status 2, unless memory runs out.
    ensures bad_map { (a : PageAsked) → words_in (texts words.entry.now) ≡ Some a
        → Fits page (texts words.entry.now)
        → is_map a.file.rom a.file.port ≡ false → (result ≡ 2) ⊎ (result ≡ 3) }
{
    match read_page_words(rt.alloc(), words) {
        Ok(words) => show_words(rt, &words, errors),
        Err(fault) => refused_words(fault, output, errors),
    }
}
