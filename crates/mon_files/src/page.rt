//! The page of what a session holds.

ghost use Rattle.std.specs.Prelude.{◌≡◌, ◌++◌, ℕ, List, IfErr, IfOk, OnOk};
ghost use Rattle.mon_dispatch.specs.Lines.{Says};
ghost use Rattle.mon_files.specs.Held.{shown_again};
ghost use Rattle.mon_files.specs.Pages.{IsPageOf, ShowsPage};
ghost use Rattle.mon_session.specs.Course.{KeepsStops, ShowsOnly, course_of};

use crate::held::record_held;
use crate::wording::{BYTE, BYTES, EVENT, EVENTS, HERE, NONE_HELD};
use crate::writing::{Outcome, of_memory, say_failure, say_of, say_own, write_new};
use accesses::Written;
use arguments::Refusal;
use arguments_play::MonWords;
use assembler::Assembly;
use mon_session::MonState;
use page_writer::{PAGE_FRONT, Program as Facts, Texts, facts_of, page_of, source_of, viewer};
use std::alloc::{AllocError, Global};
use std::rt::Files;

/// What is known of the program of a session besides the state of `mon`.
#[derive(Clone, Copy)]
pub struct Program<'a> {
    /// The words that the session was begun by.
    pub words: &'a MonWords<'a>,
    /// The addresses at which the session's file has a byte.
    pub loaded: &'a Written,
    /// What the file says of names and lines, if it is a source.
    pub source: Option<&'a Assembly>,
    /// The file of names, if there is one.
    pub names: Option<&'a Assembly>,
}

/// What a page says of a program besides its run.
#[derive(Drop)]
struct Said {
    facts: Vec<u8>,
    source: Vec<u8>,
}

/// Returns what a page says of a session's program: with the files of debug information, if the
/// session was begun with some.
fn said_of(alloc: Global, mon: &MonState, program: &Program<'_>) -> Result<Said, AllocError> {
    let words = program.words;
    let file = &words.file;
    let debug = match words.debug_info {
        None => None,
        Some(_) => Some(&mon.places),
    };
    let told = Facts {
        title: file.file,
        port: file.port,
        profile: file.profile,
        written: program.loaded,
        assembly: program.source,
        debug,
        names: program.names,
    };
    let facts = facts_of(alloc, &told)?;
    let source = source_of(alloc, told.assembly, told.debug)?;
    Ok(Said { facts, source })
}

/// Returns the page of what a session holds: undoes all events that are held, and makes them again.
///
/// Errors: `AllocError` if an allocation fails; only some events may be made again then.
pub fn page_of_held(
    alloc: Global,
    mon: &mut MonState,
    program: &Program<'_>,
) -> Result<Vec<u8>, AllocError>
    ensures course { OnOk result (course_of mon.new ≡ shown_again (course_of mon.old)) }
    // The page's data, read again, give the oldest state that the session holds, and then all
    // others up to the current one, one after another, forwards and back.
    ensures page { IfOk result (λ text. IsPageOf mon.old.session mon.new.session text.items) }
    ensures stops { KeepsStops mon.old mon.new }
    ensures text { mon.new.text ≡ mon.old.text }
{
    let said = said_of(alloc, mon, program)?;
    let bytes = record_held(alloc, mon)?;
    let texts = Texts {
        facts: said.facts.as_slice(),
        source: said.source.as_slice(),
    };
    let text = page_of(alloc, &viewer(), &texts, bytes.as_slice(), HERE)?;
    Ok(text)
}

/// Says how many events and bytes a page has that was written.
fn say_whole(mon: &mut MonState, file: &[u8], events: u32, bytes: usize) -> Result<(), AllocError>
    ensures shows { ShowsOnly mon.old mon.new }
    ensures said { OnOk result ((said : List ℕ) × Says said mon.old mon.new) }
{
    say_of(mon, file, ": ")?;
    mon.count(events as u64, EVENT, EVENTS)?;
    mon.count(bytes as u64, BYTE, BYTES)
}

/// Says what has become of the file of a page.
fn say_outcome(
    mon: &mut MonState,
    file: &[u8],
    outcome: Outcome,
    events: u32,
    bytes: usize,
) -> Result<(), AllocError>
    ensures shows { ShowsOnly mon.old mon.new }
    ensures said { OnOk result ((said : List ℕ) × Says said mon.old mon.new) }
{
    match outcome {
        Outcome::Whole => say_whole(mon, file, events, bytes),
        Outcome::Own => say_own(mon, file),
        Outcome::Not(fault) => say_failure(mon, file, fault),
    }
}

/// Writes a page to a file, and says what has become of it.
fn write_page<H: Files + AllocGlobal>(
    rt: &H,
    mon: &mut MonState,
    words: &MonWords<'_>,
    file: &[u8],
    page: &[u8],
    events: u32,
) -> Result<(), Refusal>
    ensures shows { ShowsOnly mon.old mon.new }
    ensures said { OnOk result ((said : List ℕ) × Says said mon.old mon.new) }
    ensures refused { IfErr result (λ fault. fault ≡ Refusal.OutOfMemory) }
{
    let outcome = write_new(rt, words, &mon.places, file, Some(PAGE_FRONT), page)?;
    of_memory(say_outcome(mon, file, outcome, events, page.len()))
}

/// Writes what the session holds to a file, as one page for a browser, and says how many events and
/// bytes it has, or that it holds none. A file that the session has read is not overwritten, nor a
/// source that debug information names, nor a file that has something else than a page. The events
/// that are held are undone and made again.
///
/// # Errors
///
/// - `OutOfMemory`: an allocation failed. Only some events may be made again then.
pub fn show_page<H: Files + AllocGlobal>(
    rt: &H,
    mon: &mut MonState,
    program: &Program<'_>,
    file: &[u8],
) -> Result<(), Refusal>
    ensures shown { OnOk result (ShowsPage mon.old mon.new) }
    ensures refused { IfErr result (λ fault. fault ≡ Refusal.OutOfMemory) }
{
    let held = mon.session.held();
    if held == 0 {
        return of_memory(say_of(mon, file, NONE_HELD));
    }
    let page = of_memory(page_of_held(rt.alloc(), mon, program))?;
    write_page(rt, mon, program.words, file, page.as_slice(), held)
}
