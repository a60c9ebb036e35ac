//! What the word `mon` does.

ghost use Rattle.std.specs.Prelude.{◌≡◌, ◌⊎◌, ◌++◌, [], ℕ, List, Option, Some, None, Err, IfErr};
ghost use Rattle.std.specs.Prelude.{IfOk, OnOk, false, true};
ghost use Rattle.std.specs.Io.KnownBytes.{Appends};
ghost use Rattle.accesses.specs.Writing.{bytes_in};
ghost use Rattle.arguments.specs.Asked.{file_view, map_of};
ghost use Rattle.arguments.specs.Words.{Fits, Refuses, texts};
ghost use Rattle.arguments.specs.declared.refusal.ReadFault.TheVariants.{Other};
ghost use Rattle.arguments_play.specs.Mon.{MonAsked, words_in, mon, mon_view};
ghost use Rattle.arguments.specs.OtherFiles.{others_view};
ghost use Rattle.loading.specs.Machine.{AreLoaded};
ghost use Rattle.model.specs.Event.{start};
ghost use Rattle.model.specs.Session.{new_session};
ghost use Rattle.model.specs.State.{is_map};
ghost use Rattle.word_mon.specs.Attended.{AttendsInPart, IsAttended, IsAttendedSoFar};
ghost use Rattle.word_mon.specs.Done.{EndsAnswer, EndsAt, EndsSession, IsDone, opening};
ghost use Rattle.word_mon.specs.Screens.{Rests};

use crate::greeting::greet;
use crate::lines::attend;
use crate::screens::{first_view, is_typed};
use crate::starting::{StartFault, Started, start};
use crate::terminal::{Terminal, draw, of_memory};
use arguments::{Refusal, refuse, refuse_file, refused_words};
use arguments_play::{MonWords, read_mon_words};
use loading::{Loaded, load_files};
use std::alloc::Global;
use std::io::{IsTerminal, Read, Write};
use std::rt::{Env, Files};

/// Says what a session begins with, or draws a screen with it.
fn say_opening(
    alloc: Global,
    terminal: &mut Terminal<'_>,
    prompts: bool,
    warning_line: &[u8],
) -> Result<(), Refusal>
    ensures rests { OnOk result (Rests terminal.old terminal.new) }
    ensures said { OnOk result
        (terminal.new.mon.text.items ≡ opening prompts warning_line.now terminal.old) }
    ensures refused { IfErr result EndsAnswer }
{
    greet(&mut terminal.mon, terminal.words, prompts, warning_line)?;
    of_memory(terminal.mon.show(None))?;
    draw(alloc, terminal)?;
    Ok(())
}

/// Serves a session.
fn serve<H: Files + AllocGlobal, R: Read, O: Write>(
    rt: &H,
    terminal: &mut Terminal<'_>,
    prompts: bool,
    warning_line: &[u8],
    input: &mut R,
    output: &mut O,
) -> Result<(), Refusal>
    ensures attended { IfOk result (λ _. (written : List ℕ)
        × IsAttended prompts (R.remaining input.old) (R.remaining input.new) terminal.old
        terminal.new written
        × Appends (O.contents output.old) (O.contents output.new)
        (opening prompts warning_line.now terminal.old ++ written)) }
    ensures unread { result ≡ Err (Refusal.Read Other) → (written : List ℕ)
        × IsAttendedSoFar prompts (R.remaining input.old) (R.remaining input.new) terminal.old
        terminal.new written
        × Appends (O.contents output.old) (O.contents output.new)
        (opening prompts warning_line.now terminal.old ++ written) }
    ensures broken { IfErr result (λ _. AttendsInPart prompts
        (opening prompts warning_line.now terminal.old) terminal.old (R.remaining input.old)
        (R.remaining input.new) (O.contents output.old) (O.contents output.new)) }
    ensures written { IfOk result (λ _. terminal.new.mon.text.items ≡ []) }
    ensures refused { IfErr result EndsSession }
{
    say_opening(rt.alloc(), terminal, prompts, warning_line)?;
    attend(rt, terminal, prompts, input, output)
}

/// Serves a session, says why it ended before its input did, and returns the exit status.
fn serve_session<H: Files + AllocGlobal, R: Read, O: Write, E: Write>(
    rt: &H,
    terminal: &mut Terminal<'_>,
    prompts: bool,
    warning_line: &[u8],
    input: &mut R,
    output: &mut O,
    errors: &mut E,
) -> u8
    ensures ended { EndsAt prompts warning_line.now terminal.old (R.remaining input.old)
        (R.remaining input.new) (O.contents output.old) (O.contents output.new) (record {
          held = E.contents errors.old;
          now = E.contents errors.new;
        }) result }
    ensures quiet { result ≡ 0 → errors.new ≡ errors.old }
{
    match serve(rt, terminal, prompts, warning_line, input, output) {
        Ok(()) => 0,
        Err(refusal) => refuse(refusal, errors),
    }
}

/// Returns whether prompts are written: if they are asked for, or if the input is typed.
fn wants_prompts<H: Env, R: IsTerminal>(rt: &H, is_asked: bool, input: &R) -> bool
    ensures { is_asked ≡ true → result ≡ true }
{
    is_asked || is_typed(rt, input)
}

/// Serves a session on what was loaded, and returns the exit status.
fn mon_loaded<'a, H: Env + Files + AllocGlobal, R: Read + IsTerminal, O: Write, E: Write>(
    rt: &H,
    words: &'a MonWords<'a>,
    loaded: Loaded,
    input: &mut R,
    output: &mut O,
    errors: &mut E,
) -> u8
    requires { (image : List (Option ℕ))
        × AreLoaded (file_view words.now.file) (others_view words.now.others) loaded.fill
        image loaded.assembly
        × (loaded.session
        ≡ new_session words.now.history (start (map_of (file_view words.now.file)) image))
        × (loaded.written ≡ bytes_in image) }
    ensures done { IsDone (mon_view words.now) (R.remaining input.old) (R.remaining input.new)
        (O.contents output.old) (O.contents output.new) (record {
          held = E.contents errors.old;
          now = E.contents errors.new;
        }) result ((input.new ≡ input.old) × (output.new ≡ output.old)) }
    ensures quiet { result ≡ 0 → errors.new ≡ errors.old }
{
    let prompts = wants_prompts(rt, words.prompts, input);
    match start(rt, words, loaded) {
        Ok(started) => {
            let Started {
                mon,
                loaded,
                warning_line,
            } = started;
            let view = first_view(rt, words, input, &mon);
            let answered = Vec::new(rt.alloc());
            let notes = Vec::new(rt.alloc());
            let mut terminal = Terminal {
                words,
                mon,
                view,
                answered,
                notes,
                loaded,
            };
            let line = warning_line.as_slice();
            serve_session(rt, &mut terminal, prompts, line, input, output, errors)
        }
        Err(StartFault::OfNames(refusal)) => {
            let file = words.symbols.unwrap_or(words.file.file);
            refuse_file(refusal, file, errors)
        }
        Err(StartFault::OfDebug(fault)) => {
            let file = words.debug_info.unwrap_or(words.file.file);
            fault.tell(file, errors)
        }
    }
}

/// Does what words that fit the command line ask for, and returns the exit status.
fn mon_words<'a, H: Env + Files + AllocGlobal, R: Read + IsTerminal, O: Write, E: Write>(
    rt: &H,
    words: &'a MonWords<'a>,
    input: &mut R,
    output: &mut O,
    errors: &mut E,
) -> u8
    ensures done { IsDone (mon_view words.now) (R.remaining input.old) (R.remaining input.new)
        (O.contents output.old) (O.contents output.new) (record {
          held = E.contents errors.old;
          now = E.contents errors.new;
        }) result ((input.new ≡ input.old) × (output.new ≡ output.old)) }
    ensures bad_map { is_map words.now.file.rom words.now.file.port ≡ false → result ≡ 2 }
    ensures quiet { result ≡ 0 → errors.new ≡ errors.old }
{
    match load_files(rt, &words.file, words.others, words.history) {
        Ok(loaded) => mon_loaded(rt, words, loaded, input, output, errors),
        Err(why) => why.tell(errors),
    }
}

/// Does what the words of `mon` ask for, its own name left out, and returns the exit status.
///
/// - 0: the input has ended, or a line was `quit`.
/// - 1: the source, the tape or the file of names is rejected. 2: the words or the map are wrong.
///   3: memory ran out. 4: reading or writing failed.
///
/// Each line of the input is answered on `output` before the next is read. A prompt is written if
/// the input is a terminal, or if the words ask for one. If it is one and the words ask for a
/// screen, a screen with the answer is drawn in place of the answer. For each status but 0 a line
/// on `errors` says why; that it cannot be written changes no status.
pub fn mon<H: Env + Files + AllocGlobal, R: Read + IsTerminal, O: Write, E: Write>(
    rt: &H,
    words: &[&str],
    input: &mut R,
    output: &mut O,
    errors: &mut E,
) -> u8
    // Words that fit the command line, with right values: a session began on their file and ended,
    // or none began and the streams are unchanged, as the status says. At 0 the session has served
    // the lines of the input, and has written what is said of them and nothing else. Where a stream
    // or memory fails, it has written a beginning of that.
    ensures done { (a : MonAsked) → words_in (texts words.entry.now) ≡ Some a
        → Fits mon (texts words.entry.now)
        → IsDone a (R.remaining input.old) (R.remaining input.new)
        (O.contents output.old) (O.contents output.new) (record {
          held = E.contents errors.old;
          now = E.contents errors.new;
        }) result ((input.new ≡ input.old) × (output.new ≡ output.old)) }
    // Other words read nothing, and write nothing on the output but help.
    ensures refused { Refuses mon (texts words.entry.now) (words_in (texts words.entry.now) ≡ None)
        result (input.new ≡ input.old) (output.new ≡ output.old) }
    // A port and a ROM that make no map have the status 2, unless memory runs out.
    ensures bad_map { (a : MonAsked) → words_in (texts words.entry.now) ≡ Some a
        → Fits mon (texts words.entry.now)
        → is_map a.file.rom a.file.port ≡ false → (result ≡ 2) ⊎ (result ≡ 3) }
    ensures quiet { result ≡ 0 → errors.new ≡ errors.old }
{
    match read_mon_words(rt.alloc(), words) {
        Ok(words) => mon_words(rt, &words, input, output, errors),
        Err(fault) => refused_words(fault, output, errors),
    }
}
