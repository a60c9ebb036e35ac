//! The lines that have placed what stands: breaks, watches, and bytes that are shown at each stop.

ghost use Rattle.std.specs.Prelude.{◌≡◌, ◌++◌, ◌∷◌, [], OnOk, filter, not};
ghost use Rattle.word_mon.specs.Notes.{note_of, notes_after, placed_by, placed_in};
ghost use Rattle.word_mon.specs.Notes.{placed_shown, replaces, stands};
ghost use Rattle.mon_lines.specs.Lines.{asked_view};
ghost use Rattle.mon_runs.specs.Stops.{has, is_at, is_of};
ghost use Rattle.std.specs.List.{list_any};

use mon_lines::{Command, Register, Slip};
use mon_runs::{Break, Watch};
use mon_session::MonState;
use mon_settings::is_displayed;
use std::alloc::{AllocError, Global};
use std::marker::Model;

/// What a line has placed, and where.
#[derive(Clone, Copy)]
pub enum Placed {
    Break(u16),
    /// A watch, by its first address.
    Watch(u16),
    /// A watch of a register.
    Register(Register),
    Display(u16),
}

/// A line that has placed something, and what `PC` was in it.
#[derive(Drop)]
pub struct Note {
    line: Vec<u8>,
    pc: u16,
    placed: Placed,
}

impl Model for Note {
    ghost use Rattle.word_mon.specs.Notes.{SeenNote};

    ghost Value = { SeenNote };

    ghost view = { λ n. record {
      line = n.line.items;
      pc = n.pc;
      placed = n.placed;
    } };
}

impl Note {
    /// Returns the line.
    pub fn line(&self) -> &[u8]
        ensures { result.now ≡ self.now.line }
    {
        self.line.as_slice()
    }

    /// Returns what `PC` was in the line.
    pub fn pc(&self) -> u16
        ensures { result ≡ self.now.pc }
    {
        self.pc
    }

    /// Returns whether what the line has placed still stands.
    fn stands(&self, mon: &MonState) -> bool
        ensures { result ≡ stands mon.now self.now.placed }
    {
        stands(mon, self.placed)
    }

    /// Returns whether something stands in place of what the line has placed.
    fn is_replaced(&self, placed: Placed) -> bool
        ensures { result ≡ replaces placed self.now.placed }
    {
        replaces(placed, self.placed)
    }
}

/// Returns whether a break stands at an address.
fn has_break(breaks: &[Break], address: u16) -> bool
    ensures { result ≡ list_any (is_at address) breaks.now }
{
    breaks.iter().any(|stop| stop.address == address)
}

/// Returns whether the byte at an address is watched.
fn has_watch(watches: &[Watch], address: u16) -> bool
    ensures { result ≡ list_any (λ w. has w address) watches.now }
{
    watches.iter().any(|watch| watch.has(address))
}

/// Returns whether a register is watched.
fn is_watched(watches: &[Watch], register: Register) -> bool
    ensures { result ≡ list_any (is_of register) watches.now }
{
    watches.iter().any(|watch| watch.is_of(register))
}

/// Returns whether something that was placed stands in a state of `mon`.
fn stands(mon: &MonState, placed: Placed) -> bool
    ensures { result ≡ stands mon.now placed }
{
    match placed {
        Placed::Break(at) => has_break(mon.stops.breaks.as_slice(), at),
        Placed::Watch(at) => has_watch(mon.stops.watches.as_slice(), at),
        Placed::Register(register) => is_watched(mon.stops.watches.as_slice(), register),
        Placed::Display(at) => is_displayed(mon.displays.as_slice(), at),
    }
}

/// Returns whether a break at an address was placed.
fn is_break_at(placed: Placed, at: u16) -> bool
    ensures { result ≡ replaces (Placed.Break at) placed }
{
    match placed {
        Placed::Break(there) => at == there,
        Placed::Watch(_) | Placed::Register(_) | Placed::Display(_) => false,
    }
}

/// Returns whether a display of an address was placed.
fn is_display_of(placed: Placed, at: u16) -> bool
    ensures { result ≡ replaces (Placed.Display at) placed }
{
    match placed {
        Placed::Display(there) => at == there,
        Placed::Watch(_) | Placed::Register(_) | Placed::Break(_) => false,
    }
}

/// Returns whether what a line places stands in place of something else: a break and a display do,
/// where one is already.
fn replaces(placed: Placed, other: Placed) -> bool
    ensures { result ≡ replaces placed other }
{
    match placed {
        Placed::Break(at) => is_break_at(other, at),
        Placed::Display(at) => is_display_of(other, at),
        Placed::Watch(_) | Placed::Register(_) => false,
    }
}

/// Returns the display of an address, if there is one.
fn placed_shown(place: Option<u16>) -> Option<Placed>
    ensures { result ≡ placed_shown place }
{
    match place {
        Some(at) => Some(Placed::Display(at)),
        None => None,
    }
}

/// Returns what a line places that asks for this, if it places something.
fn placed_by(command: &Command<'_>) -> Option<Placed>
    ensures { result ≡ placed_by command.now }
{
    match command {
        Command::Break { address, .. } => Some(Placed::Break(*address)),
        Command::Watch { stretch, .. } => Some(Placed::Watch(stretch.first)),
        Command::WatchRegister(register) => Some(Placed::Register(*register)),
        Command::Display(place) => placed_shown(*place),
        _ => None,
    }
}

/// Returns what a line places, if it places something.
pub fn placed_in(asked: &Result<Command<'_>, Slip<'_>>) -> Option<Placed>
    ensures { result ≡ placed_in (asked_view asked.now) }
{
    match asked {
        Ok(command) => placed_by(command),
        Err(_) => None,
    }
}

/// Forgets the lines whose place something takes.
fn forget_replaced(notes: &mut Vec<Note>, placed: Placed)
    ensures { notes.new.items ≡ filter (λ n. not (replaces placed n.placed)) notes.old.items }
{
    notes.retain(|note| !note.is_replaced(placed));
}

/// Appends a line to notes, in place of those whose place it takes.
fn push_note(
    alloc: Global,
    notes: &mut Vec<Note>,
    placed: Placed,
    pc: u16,
    line: &[u8],
) -> Result<(), AllocError>
    ensures { OnOk result (notes.new.items
        ≡ filter (λ n. not (replaces placed n.placed)) notes.old.items
        ++ note_of placed pc line.now ∷ []) }
{
    forget_replaced(notes, placed);
    let line = Vec::from_slice(alloc, line)?;
    notes.push(Note { line, pc, placed })?;
    Ok(())
}

/// Forgets the lines of which nothing stands any more.
fn keep_standing(notes: &mut Vec<Note>, mon: &MonState)
    ensures { notes.new.items ≡ filter (λ n. stands mon.now n.placed) notes.old.items }
{
    notes.retain(|note| note.stands(mon));
}

/// Notes a line that was served, if it has placed something, and forgets those of which nothing
/// stands any more.
///
/// Errors: `AllocError` if an allocation fails.
pub fn note_line(
    alloc: Global,
    notes: &mut Vec<Note>,
    mon: &MonState,
    placed: Option<Placed>,
    pc: u16,
    line: &[u8],
) -> Result<(), AllocError>
    ensures { OnOk result (notes.new.items
        ≡ notes_after mon.now placed pc line.now notes.old.items) }
{
    if let Some(placed) = placed {
        push_note(alloc, notes, placed, pc, line)?;
    }
    keep_standing(notes, mon);
    Ok(())
}
