//! What the word `run` does.

ghost use Rattle.std.specs.Prelude.{◌≡◌, ◌⊎◌, ℕ, [], Option, None, Some, false};
ghost use Rattle.std.specs.Prelude.{if◌then◌else◌};
ghost use Rattle.accesses.specs.Writing.{or_everywhere};
ghost use Rattle.arguments.specs.Words.{Fits, Refuses, texts};
ghost use Rattle.arguments_play.specs.Run.{RunAsked, words_in, run, run_view};
ghost use Rattle.loading.specs.Warned.{OnlyWarned, omitted_at};
ghost use Rattle.model.specs.State.{input_waits, is_map};
ghost use Rattle.word_run.specs.Known.{known_view};
ghost use Rattle.word_run.specs.Runs.{IsDone, RanDebugged, RanOrInterrupted, Start, TellsEnd};
ghost use Rattle.word_run.specs.Runs.{TellsInterrupted, heard_of, streams_of};
ghost use Rattle.word_run.specs.Statuses.{status_of_ending};

use crate::ended::{status_of_ending, tell_cycles, tell_ending, tell_interrupted};
use crate::interruptible::Interruptible;
use crate::known::{Known, load_debug};
use crate::started::{place_named, refusal_of};
use accesses::Written;
use arguments::{refuse, refused_words};
use arguments_play::{RunWords, read_run_words};
use console::{Played, play};
use debug_files::tell_changed;
use debugger::Session;
use loading::{Loaded, load_machine, tell_warnings};
use std::alloc::Global;
use std::io::{Read, Write};
use std::rt::Files;

/// Writes how a run ended, and then its cycles and steps if they are asked for.
fn tell_end<E: Write>(
    alloc: Global,
    words: &RunWords<'_>,
    known: Known<'_, '_, '_>,
    played: Played,
    session: &Session,
    errors: &mut E,
)
    ensures told { TellsEnd words.now.tells_cycles (known_view known.entry)
        (heard_of (E.contents errors.old) (E.contents errors.new))
        played.ending played.steps session.now.current }
    ensures quiet { words.now.tells_cycles ≡ false → status_of_ending played.ending 0 ≡ 0
        → errors.new ≡ errors.old }
{
    let pc = session.regs().pc;
    tell_ending(alloc, known, played, pc, errors);
    if words.tells_cycles {
        tell_cycles(played, session, errors);
    }
}

/// Tells how a run ended, and returns the exit status.
fn ended<E: Write>(
    alloc: Global,
    words: &RunWords<'_>,
    known: Known<'_, '_, '_>,
    played: Played,
    session: &Session,
    errors: &mut E,
) -> u8
    ensures status { result ≡ status_of_ending played.ending
        (if words.now.is_status_of_a then session.now.current.regs.a else 0) }
    ensures told { TellsEnd words.now.tells_cycles (known_view known.entry)
        (heard_of (E.contents errors.old) (E.contents errors.new))
        played.ending played.steps session.now.current }
    ensures quiet { words.now.tells_cycles ≡ false → result ≡ 0 → errors.new ≡ errors.old }
{
    tell_end(alloc, words, known, played, session, errors);
    let status = if words.is_status_of_a {
        session.regs().a
    } else {
        0
    };
    status_of_ending(played.ending, status)
}

/// Tells where a run was interrupted, and returns the exit status.
fn interrupted<E: Write>(
    alloc: Global,
    known: Known<'_, '_, '_>,
    session: &Session,
    errors: &mut E,
) -> u8
    ensures status { result ≡ 130 }
    ensures told { TellsInterrupted (known_view known.entry)
        (heard_of (E.contents errors.old) (E.contents errors.new))
        session.now.current.regs.pc session.now.current.cycles }
{
    let pc = session.regs().pc;
    let cycles = session.cycles();
    tell_interrupted(alloc, known, pc, cycles, errors);
    130
}

/// Runs a session up to a place, if there is one, and returns the exit status.
fn run_to<R: Read, W: Write, S: Read, E: Write>(
    alloc: Global,
    words: &RunWords<'_>,
    known: Known<'_, '_, '_>,
    session: &mut Session,
    written: Written,
    until: Option<u16>,
    input: &mut R,
    output: &mut Interruptible<W, S>,
    errors: &mut E,
) -> u8
    requires idle { input_waits session.old.current.bus ≡ false }
    requires silent { session.old.current.bus.out ≡ [] }
    ensures ran { RanOrInterrupted (run_view words.now) (known_view known.entry) until
        (record { session = session.old; written = written })
        (streams_of (R.remaining input.old) (R.remaining input.new)
        (W.contents output.old.inner) (W.contents output.new.inner)) output.new.interrupted
        (heard_of (E.contents errors.old) (E.contents errors.new)) result }
    ensures quiet { words.now.tells_cycles ≡ false → result ≡ 0 → errors.new ≡ errors.old }
{
    match play(session, written, until, words.steps, input, output) {
        Ok(played) => ended(alloc, words, known, played, session, errors),
        Err(fault) => {
            if output.was_interrupted() {
                interrupted(alloc, known, session, errors)
            } else {
                refuse(refusal_of(fault), errors)
            }
        }
    }
}

/// Runs what was loaded up to the place of the words, with the debug information that they name,
/// and returns the exit status.
fn run_loaded<H: Files + AllocGlobal, R: Read, W: Write, S: Read, E: Write>(
    rt: &H,
    words: &RunWords<'_>,
    loaded: Loaded,
    input: &mut R,
    output: &mut Interruptible<W, S>,
    errors: &mut E,
) -> u8
    requires idle { input_waits loaded.session.current.bus ≡ false }
    requires silent { loaded.session.current.bus.out ≡ [] }
    ensures done { RanDebugged (run_view words.now) loaded.assembly loaded.written (record {
      session = loaded.session;
      written = or_everywhere words.now.is_free loaded.written;
    })
        (streams_of (R.remaining input.old) (R.remaining input.new)
        (W.contents output.old.inner) (W.contents output.new.inner)) output.new.interrupted
        (heard_of (E.contents errors.old) (E.contents errors.new)) result
        ((input.new ≡ input.old) × (output.new ≡ output.old)) }
    ensures quiet { words.now.tells_cycles ≡ false → (run_view words.now).debug_info ≡ None
        → result ≡ 0 → errors.new ≡ errors.old }
{
    let debug = match load_debug(rt, words.debug_info, words.source_root, &loaded) {
        Ok(debug) => debug,
        Err(fault) => return fault.tell(words.debug_info.unwrap_or(words.file.file), errors),
    };
    tell_changed(words.debug_info, &debug.sought, errors);
    let places = debug.places.as_ref();
    let until = match place_named(&loaded, places, words.until, errors) {
        Ok(until) => until,
        Err(status) => return status,
    };
    let Loaded {
        mut session,
        assembly,
        written,
        lost: _,
        fill: _,
    } = loaded;
    let source = assembly.as_ref();
    let known = Known {
        file: words.file.file,
        assembly: source,
        debug: places,
    };
    let written = written.or_everywhere(words.is_free);
    run_to(
        rt.alloc(),
        words,
        known,
        &mut session,
        written,
        until,
        input,
        output,
        errors,
    )
}

/// Loads the file of the words, runs it up to their place, and returns the exit status.
fn run_words<H: Files + AllocGlobal, R: Read, W: Write, S: Read, E: Write>(
    rt: &H,
    words: &RunWords<'_>,
    input: &mut R,
    output: &mut Interruptible<W, S>,
    errors: &mut E,
) -> u8
    ensures done { IsDone (run_view words.now)
        (streams_of (R.remaining input.old) (R.remaining input.new)
        (W.contents output.old.inner) (W.contents output.new.inner)) output.new.interrupted
        (heard_of (E.contents errors.old) (E.contents errors.new)) result
        ((input.new ≡ input.old) × (output.new ≡ output.old)) }
    ensures bad_map { is_map words.now.file.rom words.now.file.port ≡ false → result ≡ 2 }
    ensures quiet { words.now.tells_cycles ≡ false → (run_view words.now).debug_info ≡ None
        → result ≡ 0 → OnlyWarned (omitted_at (run_view words.now).file) (E.contents errors.old)
        (E.contents errors.new) }
{
    let loaded = match load_machine(rt, &words.file, words.others, words.symbols) {
        Ok(loaded) => loaded,
        Err(fault) => return fault.tell(words.file.file, words.symbols, errors),
    };
    let source = loaded.assembly.as_ref();
    tell_warnings(
        rt.alloc(),
        &words.file,
        source,
        loaded.lost,
        loaded.fill,
        errors,
    );
    run_loaded(rt, words, loaded, input, output, errors)
}

/// Does what the words of `run` ask for, its own name left out, and returns the exit status.
///
/// - 0, or with `--status A` the value of A: the run came to its end, at `--until`, at a jump to
///   itself, or waiting for input that has ended.
/// - 10: the limit of steps. 11: a fault of the program. 12: the console is full.
/// - 13: nothing stands where the program runs, or at the vector of its BRK. With `--free` a run
///   does not end there.
/// - 1: the source, the tape, the file of names or that of debug information is rejected. 2: the
///   words, the place or the map are wrong. 3: memory ran out. 4: reading or writing failed. 130:
///   the run was interrupted.
///
/// The program's output goes to `output`. Before it runs, a line on `errors` says how many warnings
/// its source has, if it has some, one how many lines of a file of names gave no name, one that
/// fill at the port was left out, and one which sources have changed since the debug information
/// was made. For each status but those of the first line a line on `errors` says why; that a line
/// cannot be written changes no status.
pub fn run_program<H: Files + AllocGlobal, R: Read, W: Write, S: Read, E: Write>(
    rt: &H,
    words: &[&str],
    input: &mut R,
    output: &mut Interruptible<W, S>,
    errors: &mut E,
) -> u8
    // Words that fit the command line, with right values: their file was loaded and ran by the
    // definition of a run, or it was not and the streams are unchanged, as the status says. The
    // error stream gets why, or how the run ended. Only a writer that was interrupted breaks a run
    // off, with the status 130.
    ensures done { (a : RunAsked) → words_in (texts words.entry.now) ≡ Some a
        → Fits run (texts words.entry.now) → IsDone a
        (streams_of (R.remaining input.old) (R.remaining input.new)
        (W.contents output.old.inner) (W.contents output.new.inner)) output.new.interrupted
        (heard_of (E.contents errors.old) (E.contents errors.new)) result
        ((input.new ≡ input.old) × (output.new ≡ output.old)) }
    // Other words read nothing, and write nothing on the output but help.
    ensures refused { Refuses run (texts words.entry.now) (words_in (texts words.entry.now) ≡ None)
        result (input.new ≡ input.old) (output.new ≡ output.old) }
    // A port and a ROM that make no map have the status 2, unless memory runs out.
    ensures bad_map { (a : RunAsked) → words_in (texts words.entry.now) ≡ Some a
        → Fits run (texts words.entry.now)
        → is_map a.file.rom a.file.port ≡ false → (result ≡ 2) ⊎ (result ≡ 3) }
    // Nothing but how many warnings there are, how many names were left out, and, where a port is
    // given, that the fill at it was left out, is written on the error stream with the status 0,
    // unless cycles are asked for or debug information is named.
    ensures quiet { (base : Option ℕ) → ((a : RunAsked) → words_in (texts words.entry.now) ≡ Some a
        → (a.tells_cycles ≡ false) × (a.debug_info ≡ None) × (omitted_at a.file ≡ base))
        → result ≡ 0
        → OnlyWarned base (E.contents errors.old) (E.contents errors.new) }
{
    match read_run_words(rt.alloc(), words) {
        Ok(words) => run_words(rt, &words, input, output, errors),
        Err(fault) => refused_words(fault, output, errors),
    }
}
