//! The file of a session, loaded again.

ghost use Rattle.std.specs.Prelude.{◌≡◌, ◌⊎◌, ◌++◌, [], ℕ, IfErr, IfOk, List, OnOk, Option};
ghost use Rattle.accesses.specs.Writing.{bytes_in};
ghost use Rattle.arguments.specs.Asked.{file_view, map_of};
ghost use Rattle.arguments.specs.FaultLines.{load_text};
ghost use Rattle.arguments.specs.OtherFiles.{others_view};
ghost use Rattle.arguments.specs.declared.load_fault.LoadFault.TheVariants.{Refused};
ghost use Rattle.arguments_play.specs.Mon.{mon_view};
ghost use Rattle.loading.specs.Machine.{AreLoaded};
ghost use Rattle.model.specs.Event.{start};
ghost use Rattle.model.specs.Session.{new_session};
ghost use Rattle.word_mon.specs.Done.{EndsAnswer};
ghost use Rattle.word_mon.specs.Files.{EndsReload, IsReloaded, KeepsSession, Reloads, Repeats};
ghost use Rattle.word_mon.specs.Files.{SaysFront, ServesAgain, is_memory};
ghost use Rattle.word_mon.specs.Notes.{notes_after, placed_in};
ghost use Rattle.word_mon.specs.Starts.{StartsMon};
ghost use Rattle.mon_dispatch.specs.Lines.{Follows};
ghost use Rattle.mon_dispatch.specs.declared.lines.Outcome.{Outcome};
ghost use Rattle.mon_lines.specs.Lines.{line_of};
ghost use Rattle.mon_session.specs.Course.{ShowsOnly};

use crate::notes::{Note, note_line, placed_in};
use crate::starting::{StartFault, Started, start};
use crate::terminal::{Terminal, of_memory};
use crate::wording::LOADED_AGAIN;
use arguments::{LoadFault, Refusal};
use loading::{FileFault, Loaded, load_files};
use mon_dispatch::follow;
use mon_files::say_name;
use mon_lines::ReadLine;
use mon_session::MonState;
use std::alloc::{AllocError, Global};
use std::rt::Files;

/// Serves a line that was noted once more, and notes it if it has placed something.
fn repeat_line(
    alloc: Global,
    mon: &mut MonState,
    notes: &mut Vec<Note>,
    noted: &Note,
) -> Result<(), AllocError>
    ensures { OnOk result ((outcome : Outcome)
        × Follows (line_of mon.old.places noted.now.pc noted.now.line) outcome mon.old
        mon.new
        × (notes.new.items ≡ notes_after mon.new
        (placed_in (line_of mon.old.places noted.now.pc noted.now.line))
        noted.now.pc noted.now.line notes.old.items)) }
{
    let pc = noted.pc();
    let line = noted.line();
    let read = ReadLine::new(line, &mon.places, pc);
    follow(mon, alloc, &read.asked)?;
    let placed = placed_in(&read.asked);
    note_line(alloc, notes, mon, placed, pc, line)
}

/// Serves lines that were noted once more, and returns those that have placed something.
///
/// Errors: `AllocError` if an allocation fails.
fn repeat(alloc: Global, mon: &mut MonState, notes: &[Note]) -> Result<Vec<Note>, AllocError>
    ensures { IfOk result (λ left. Repeats notes.now mon.old [] mon.new left.items) }
{
    let mut left: Vec<Note> = Vec::new(alloc);
    for noted in notes {
        repeat_line(alloc, mon, &mut left, noted)?;
    }
    Ok(left)
}

/// Says behind a text that a file is loaded again.
fn say_loaded(mon: &mut MonState, text: &[u8], file: &str) -> Result<(), AllocError>
    ensures shows { ShowsOnly mon.old mon.new }
    ensures text { mon.old.text.items ≡ [] → OnOk result ((first : List ℕ)
        × (mon.new.text.items ≡ text.now ++ first)) }
{
    mon.text.extend_from_slice(text)?;
    say_name(mon, file.as_bytes())?;
    mon.say(LOADED_AGAIN)
}

/// Says behind a text that a file is loaded again, and how many warnings it has.
fn say_warned(
    mon: &mut MonState,
    text: &[u8],
    file: &str,
    warning_line: &[u8],
) -> Result<(), AllocError>
    ensures shows { ShowsOnly mon.old mon.new }
    ensures text { mon.old.text.items ≡ [] → OnOk result ((first : List ℕ)
        × (mon.new.text.items ≡ text.now ++ (first ++ warning_line.now))) }
{
    say_loaded(mon, text, file)?;
    mon.text.extend_from_slice(warning_line)
}

/// Says that a file is loaded again, and how many warnings it has, serves the lines that were noted
/// once more, and shows the state. Returns the lines that have placed something.
///
/// Errors: `AllocError` if an allocation fails.
fn serve_again(
    alloc: Global,
    mon: &mut MonState,
    text: &[u8],
    file: &str,
    warning_line: &[u8],
    notes: &[Note],
) -> Result<Vec<Note>, AllocError>
    ensures { mon.old.text.items ≡ [] → IfOk result
        (λ left. ServesAgain text.now warning_line.now notes.now mon.old mon.new left.items) }
{
    say_warned(mon, text, file, warning_line)?;
    let left = repeat(alloc, mon, notes)?;
    mon.show(None)?;
    Ok(left)
}

/// Puts a session that has begun, with its notes, in place of the one at a terminal.
fn put_started(terminal: &mut Terminal<'_>, started: Started, notes: Vec<Note>)
    ensures mon { terminal.new.mon ≡ started.mon }
    ensures loaded { terminal.new.loaded ≡ started.loaded }
    ensures notes { terminal.new.notes.items ≡ notes.items }
    ensures view { terminal.new.view ≡ terminal.old.view }
    ensures words { terminal.new.words ≡ terminal.old.words }
{
    let Started {
        mon,
        loaded,
        warning_line: _,
    } = started;
    terminal.mon = mon;
    terminal.loaded = loaded;
    terminal.notes = notes;
}

/// Forgets a session that has begun.
fn forget(_started: Started) {}

/// Takes over a session that has begun, serves the lines that were noted once more, and shows the
/// state.
fn take_over(alloc: Global, terminal: &mut Terminal<'_>, started: Started) -> Result<(), AllocError>
    requires { StartsMon (mon_view terminal.old.words.now) started.mon started.loaded
        started.warning_line.items }
    ensures { OnOk result (IsReloaded terminal.old terminal.new) }
{
    let mut started = started;
    let words = terminal.words;
    let text = terminal.mon.text.as_slice();
    let notes = terminal.notes.as_slice();
    let line = started.warning_line.as_slice();
    match serve_again(alloc, &mut started.mon, text, words.file.file, line, notes) {
        Ok(left) => {
            put_started(terminal, started, left);
            Ok(())
        }
        Err(fault) => {
            forget(started);
            Err(fault)
        }
    }
}

/// Returns whether memory ran out.
fn is_memory(fault: &LoadFault) -> bool
    ensures { result ≡ is_memory fault.now }
{
    matches!(fault, LoadFault::Refused(Refusal::OutOfMemory))
}

/// Says why a file is not loaded: all faults of a source, or a line.
///
/// Errors: `AllocError` if an allocation fails.
fn say_unloaded(mon: &mut MonState, fault: LoadFault, file: &str) -> Result<(), AllocError>
    ensures shows { ShowsOnly mon.old mon.new }
    ensures said { OnOk result (SaysFront (load_text fault file.now) mon.old mon.new) }
{
    fault.push(file, &mut mon.text)
}

/// Keeps the session, and says why a file is not loaded, unless memory ran out.
fn keep_session(terminal: &mut Terminal<'_>, fault: LoadFault, file: &str) -> Result<(), Refusal>
    requires { (fault ≡ Refused Refusal.OutOfMemory)
        ⊎ EndsReload (mon_view terminal.old.words.now) file.now fault }
    ensures kept { OnOk result (KeepsSession terminal.old terminal.new) }
    ensures refused { IfErr result EndsAnswer }
{
    if is_memory(&fault) {
        return Err(Refusal::OutOfMemory);
    }
    of_memory(say_unloaded(&mut terminal.mon, fault, file))?;
    Ok(())
}

/// Begins the session again from its file, which was loaded. The names of a file of names and the
/// debug information are read again.
fn begin_anew<H: Files + AllocGlobal>(
    rt: &H,
    terminal: &mut Terminal<'_>,
    loaded: Loaded,
) -> Result<(), Refusal>
    requires { (image : List (Option ℕ))
        × AreLoaded (file_view terminal.old.words.now.file)
        (others_view terminal.old.words.now.others) loaded.fill image loaded.assembly
        × (loaded.session ≡ new_session terminal.old.words.now.history
        (start (map_of (file_view terminal.old.words.now.file)) image))
        × (loaded.written ≡ bytes_in image) }
    ensures reloaded { OnOk result (Reloads terminal.old terminal.new) }
    ensures refused { IfErr result EndsAnswer }
{
    let words = terminal.words;
    match start(rt, words, loaded) {
        Ok(started) => {
            of_memory(take_over(rt.alloc(), terminal, started))?;
            Ok(())
        }
        Err(StartFault::OfNames(refusal)) => {
            let file = words.symbols.unwrap_or(words.file.file);
            keep_session(terminal, LoadFault::Refused(refusal), file)
        }
        Err(StartFault::OfDebug(fault)) => {
            let file = words.debug_info.unwrap_or(words.file.file);
            keep_session(terminal, fault, file)
        }
    }
}

/// Loads the file of a session again, or its files, by the same words, and serves the lines that
/// have placed what stands once more. If a file or that of its names cannot be loaded, says why,
/// and keeps the session as it is.
///
/// # Errors
///
/// - `OutOfMemory`: an allocation failed.
pub fn reload<H: Files + AllocGlobal>(rt: &H, terminal: &mut Terminal<'_>) -> Result<(), Refusal>
    ensures reloaded { OnOk result (Reloads terminal.old terminal.new) }
    ensures refused { IfErr result EndsAnswer }
{
    let words = terminal.words;
    match load_files(rt, &words.file, words.others, words.history) {
        Ok(loaded) => begin_anew(rt, terminal, loaded),
        Err(FileFault { file, fault }) => keep_session(terminal, fault, file),
    }
}
