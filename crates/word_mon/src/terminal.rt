//! A session at a terminal, with the screen that is drawn of it.

ghost use Rattle.std.specs.Prelude.{◌≡◌, ◌++◌, [], ℕ, IfErr, IfOk, List, Ok, OnOk};
ghost use Rattle.std.specs.Prelude.{if◌then◌else◌};
ghost use Rattle.std.specs.Io.KnownBytes.{Appends};
ghost use Rattle.model.specs.Writers.{AppendsFront};
ghost use Rattle.word_mon.specs.Attended.{IsNoted, IsShown, Obeys, ObeysRead, ServesLine};
ghost use Rattle.word_mon.specs.Attended.{prompt_of};
ghost use Rattle.word_mon.specs.Done.{EndsAnswer};
ghost use Rattle.word_mon.specs.Screens.{Rests, answer_text, answered_after, drawn, meant};
ghost use Rattle.word_mon.specs.Screens.{said_again};
ghost use Rattle.mon_dispatch.specs.Lines.{Says, Serves};
ghost use Rattle.mon_lines.specs.Lines.{asked_view, command_view, line_view};

use crate::notes::{Note, note_line, placed_in};
use crate::reloading::reload;
use crate::views::{has_pages, meant, view_after};
use crate::wording::PROMPT;
use arguments::{Refusal, write_text};
use arguments_play::MonWords;
use mon_dispatch::serve;
use mon_files::{Known, save_image, show_page};
use mon_lines::{Command, Drawing, ReadLine, Slip, Stretch};
use mon_screen::{View, push_view};
use mon_session::MonState;
use std::alloc::{AllocError, Global};
use std::io::Write;
use std::rt::Files;

/// A session at a terminal, with the words that it was begun by.
#[derive(Drop)]
pub struct Terminal<'a> {
    pub words: &'a MonWords<'a>,
    pub mon: MonState,
    /// What a screen shows of the session, if one is drawn.
    pub view: Option<View>,
    /// The answer that the screen shows, if one is drawn.
    pub answered: Vec<u8>,
    /// The lines that have placed what stands.
    pub notes: Vec<Note>,
    /// The addresses at which the session's file has a byte, and what a page shows besides.
    pub loaded: Known,
}

/// Returns what was made, or that an allocation failed.
pub fn of_memory<T>(made: Result<T, AllocError>) -> Result<T, Refusal>
    ensures made { IfOk result (λ value. made ≡ Ok value) }
    ensures refused { IfErr result (λ fault. fault ≡ Refusal.OutOfMemory) }
{
    made.map_err(|_| Refusal::OutOfMemory)
}

/// Says something if it is asked for.
pub fn say_if(terminal: &mut Terminal<'_>, is_asked: bool, words: &str) -> Result<(), Refusal>
    ensures rests { Rests terminal.old terminal.new }
    ensures said { OnOk result (terminal.new.mon.text.items
        ≡ terminal.old.mon.text.items ++ (if is_asked then words.now else [])) }
    ensures refused { IfErr result EndsAnswer }
{
    if is_asked {
        return of_memory(terminal.mon.say(words));
    }
    Ok(())
}

/// Writes and flushes the text of the state, which has none afterwards.
///
/// Errors: `Write` if a write or the flush fails: a beginning of the text was then written.
pub fn put_text<W: Write>(terminal: &mut Terminal<'_>, writer: &mut W) -> Result<(), Refusal>
    ensures rests { Rests terminal.old terminal.new }
    ensures written { IfOk result (λ _. Appends (W.contents writer.old) (W.contents writer.new)
        terminal.old.mon.text.items) }
    ensures cleared { IfOk result (λ _. terminal.new.mon.text.items ≡ []) }
    ensures begun { IfErr result (λ _. AppendsFront (W.contents writer.old) (W.contents writer.new)
        terminal.old.mon.text.items) }
    ensures refused { IfErr result EndsAnswer }
{
    match write_text(writer, terminal.mon.text.as_slice()) {
        Ok(()) => {
            terminal.mon.text.clear();
            Ok(())
        }
        Err(_) => Err(Refusal::Write),
    }
}

/// Puts a screen in place of the text, which it shows, if a screen is drawn.
pub fn draw(alloc: Global, terminal: &mut Terminal) -> Result<(), Refusal>
    ensures rests { Rests terminal.old terminal.new }
    ensures drawn { OnOk result (terminal.new.mon.text.items
        ≡ drawn terminal.old.view terminal.old.mon terminal.old.mon.text.items) }
    ensures refused { IfErr result EndsAnswer }
{
    let Some(view) = terminal.view else {
        return Ok(());
    };
    let mon = &terminal.mon;
    let mut screen = Vec::new(alloc);
    of_memory(push_view(
        &mut screen,
        alloc,
        view,
        &mon.session,
        &mon.places,
        mon.text.as_slice(),
    ))?;
    terminal.mon.text = screen;
    Ok(())
}

/// Draws the screen, and says that the next line may come if prompts are asked for. Does neither if
/// the session is over.
pub fn answer(
    alloc: Global,
    terminal: &mut Terminal<'_>,
    prompts: bool,
    is_over: bool,
) -> Result<(), Refusal>
    ensures rests { Rests terminal.old terminal.new }
    ensures said { OnOk result (terminal.new.mon.text.items
        ≡ answer_text is_over (prompt_of prompts) terminal.old terminal.old.mon.text.items) }
    ensures refused { IfErr result EndsAnswer }
{
    if is_over {
        return Ok(());
    }
    draw(alloc, terminal)?;
    say_if(terminal, prompts, PROMPT)
}

/// Does what a line asks for, notes it if it has placed something, and returns whether the
/// session is to end.
fn serve_noted(
    alloc: Global,
    terminal: &mut Terminal<'_>,
    read: &ReadLine<'_>,
    line: &[u8],
) -> Result<bool, AllocError>
    ensures served { IfOk result
        (λ is_over. Serves (line_view read.now) is_over terminal.old.mon terminal.new.mon) }
    ensures noted { OnOk result
        (IsNoted (asked_view read.now.asked) line.now terminal.old terminal.new) }
{
    terminal.view = view_after(&read.asked, &terminal.mon, terminal.view);
    let pc = terminal.mon.session.regs().pc;
    let is_over = serve(&mut terminal.mon, alloc, read)?;
    let placed = placed_in(&read.asked);
    note_line(alloc, &mut terminal.notes, &terminal.mon, placed, pc, line)?;
    Ok(is_over)
}

/// Writes the image of memory to a file, of a stretch if one is given, and says what became of it.
fn save<H: Files + AllocGlobal>(
    rt: &H,
    terminal: &mut Terminal<'_>,
    file: &[u8],
    stretch: Option<Stretch>,
) -> Result<(), Refusal>
    ensures rests { Rests terminal.old terminal.new }
    ensures said { OnOk result ((said : List ℕ) × Says said terminal.old.mon terminal.new.mon) }
    ensures refused { IfErr result EndsAnswer }
{
    save_image(
        rt,
        &mut terminal.mon,
        terminal.words,
        &terminal.loaded,
        file,
        stretch,
    )
}

/// Writes the page of what the session holds to a file, and says what became of it.
fn show<H: Files + AllocGlobal>(
    rt: &H,
    terminal: &mut Terminal<'_>,
    file: &[u8],
) -> Result<(), Refusal>
    ensures shown { OnOk result (IsShown terminal.old terminal.new) }
    ensures refused { IfErr result EndsAnswer }
{
    let program = terminal.loaded.program(terminal.words);
    show_page(rt, &mut terminal.mon, &program, file)
}

/// Says what the screen showed of an answer.
fn say_answer(terminal: &mut Terminal<'_>) -> Result<(), Refusal>
    ensures rests { Rests terminal.old terminal.new }
    ensures said { OnOk result
        (Says terminal.old.answered.items terminal.old.mon terminal.new.mon) }
    ensures refused { IfErr result EndsAnswer }
{
    of_memory(
        terminal
            .mon
            .text
            .extend_from_slice(terminal.answered.as_slice()),
    )
}

/// Says what the screen showed of an answer, if it is to show that again.
fn show_again(terminal: &mut Terminal<'_>, drawing: Drawing) -> Result<(), Refusal>
    ensures rests { Rests terminal.old terminal.new }
    ensures said { OnOk result (Says (said_again drawing terminal.old.answered.items)
        terminal.old.mon terminal.new.mon) }
    ensures refused { IfErr result EndsAnswer }
{
    match drawing {
        Drawing::More => say_answer(terminal),
        Drawing::Clear => Ok(()),
        Drawing::Size { .. } => say_answer(terminal),
    }
}

/// Does what a line asks for that reads or writes a file, or has the screen drawn again. Any other
/// line does nothing here.
fn obey<H: Files + AllocGlobal>(
    rt: &H,
    terminal: &mut Terminal<'_>,
    command: &Command<'_>,
) -> Result<(), Refusal>
    ensures obeyed { OnOk result (Obeys (command_view command.now) terminal.old terminal.new) }
    ensures refused { IfErr result EndsAnswer }
{
    match command {
        Command::Save { file, stretch } => save(rt, terminal, *file, *stretch),
        Command::Page(file) => show(rt, terminal, *file),
        Command::Reload => reload(rt, terminal),
        Command::Draw(drawing) => show_again(terminal, *drawing),
        _ => Ok(()),
    }
}

/// Does what a line asks for with a file or the screen, if the line can be read.
fn obey_read<H: Files + AllocGlobal>(
    rt: &H,
    terminal: &mut Terminal<'_>,
    asked: &Result<Command<'_>, Slip<'_>>,
) -> Result<(), Refusal>
    ensures obeyed { OnOk result (ObeysRead (asked_view asked.now) terminal.old terminal.new) }
    ensures refused { IfErr result EndsAnswer }
{
    match asked {
        Ok(command) => obey(rt, terminal, command),
        Err(_) => Ok(()),
    }
}

/// Puts bytes in place of others.
fn refill(bytes: &mut Vec<u8>, others: &[u8]) -> Result<(), AllocError>
    ensures { OnOk result (bytes.new.items ≡ others.now) }
{
    bytes.clear();
    bytes.extend_from_slice(others)
}

/// Keeps what was said as the answer that the screen shows, if one is drawn.
fn keep_answer(terminal: &mut Terminal<'_>) -> Result<(), Refusal>
    ensures answered { OnOk result (terminal.new.answered.items ≡ answered_after
        terminal.old.view terminal.old.mon.text.items terminal.old.answered.items) }
    ensures mon { terminal.new.mon ≡ terminal.old.mon }
    ensures view { terminal.new.view ≡ terminal.old.view }
    ensures notes { terminal.new.notes ≡ terminal.old.notes }
    ensures loaded { terminal.new.loaded ≡ terminal.old.loaded }
    ensures words { terminal.new.words ≡ terminal.old.words }
    ensures refused { IfErr result EndsAnswer }
{
    match terminal.view {
        Some(_) => of_memory(refill(&mut terminal.answered, terminal.mon.text.as_slice())),
        None => Ok(()),
    }
}

/// Returns the line that a typed one stands for at a terminal.
fn meant_at<'l>(terminal: &Terminal<'_>, line: &'l [u8]) -> &'l [u8]
    ensures { result.now ≡ meant terminal.now line.now }
{
    meant(has_pages(terminal.view, terminal.answered.as_slice()), line)
}

/// Reads a line, does what it asks for, also with files, and returns whether the session is to end.
pub fn serve_line<H: Files + AllocGlobal>(
    rt: &H,
    terminal: &mut Terminal<'_>,
    line: &[u8],
) -> Result<bool, Refusal>
    ensures served { IfOk result (λ is_over. (said : List ℕ)
        × ServesLine line.now is_over terminal.old terminal.new said
        × Says said terminal.old.mon terminal.new.mon) }
    ensures refused { IfErr result EndsAnswer }
{
    let typed = meant_at(terminal, line);
    let pc = terminal.mon.session.regs().pc;
    let read = ReadLine::new(typed, &terminal.mon.places, pc);
    let is_over = of_memory(serve_noted(rt.alloc(), terminal, &read, line))?;
    obey_read(rt, terminal, &read.asked)?;
    keep_answer(terminal)?;
    Ok(is_over)
}
