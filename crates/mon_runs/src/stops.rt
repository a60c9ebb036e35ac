//! Breaks and watches that lines have set.

ghost use Rattle.std.specs.Prelude.{◌≡◌, ◌<◌, ◌++◌, ◌∷◌, [], IfNone, IfSome, OnErr, OnOk, OnSome};
ghost use Rattle.std.specs.Prelude.{◌+◌, ◌≤◌, length, remove, position};
ghost use Rattle.std.specs.List.{list_all, list_any};
ghost use Rattle.mon_runs.specs.Stops.{addresses, after_visit, changes_of, first_with, has, has_access};
ghost use Rattle.mon_runs.specs.Stops.{has_changes_only, is_at, is_plain, is_plain_break, new_among};
ghost use Rattle.mon_runs.specs.Stops.{is_of, is_watched, new_changes, register_change, stops_at};
ghost use Rattle.mon_runs.specs.Stops.{without, without_first_with, without_register};

use crate::breaks::Break;
use crate::changes::{RegisterChange, first_change};
use crate::watches::{Watch, has_access};
use debugger::{Regs, Session};
use mon_lines::{Register, WatchKind};
use std::alloc::{AllocError, Global};

/// The breaks and the watches that lines have set.
#[derive(Drop)]
pub struct Stops {
    pub breaks: Vec<Break>,
    pub watches: Vec<Watch>,
    /// The addresses at which a change stops a run, each once.
    pub changes: Vec<u16>,
}

/// Returns the index of the first break at an address.
fn index_of(breaks: &[Break], address: u16) -> Option<usize>
    ensures first { result ≡ position (is_at address) breaks.now }
    ensures within { IfSome result (λ index. index < length breaks.now) }
{
    breaks.iter().position(|stop| stop.address == address)
}

/// Returns the index of the first watch that has an address.
fn index_with(watches: &[Watch], address: u16) -> Option<usize>
    ensures first { result ≡ position (λ w. has w address) watches.now }
    ensures within { IfSome result (λ index. index < length watches.now) }
{
    watches.iter().position(|watch| watch.has(address))
}

/// Returns the index of the first watch of a register.
fn index_of_register(watches: &[Watch], register: Register) -> Option<usize>
    ensures first { result ≡ position (is_of register) watches.now }
    ensures within { IfSome result (λ index. index < length watches.now) }
{
    watches.iter().position(|watch| watch.is_of(register))
}

/// Removes from `changes` the addresses that no watch for changes has.
fn keep_watched(changes: &mut Vec<u16>, watches: &[Watch])
    ensures { changes.new.items ≡ changes_of watches.now changes.old.items }
{
    changes.retain(|at| has_access(watches, WatchKind::Change, *at));
}

/// Appends an address to `changes`, unless a watch for changes has it. Nothing is changed if memory
/// ran out.
fn add_change(changes: &mut Vec<u16>, watches: &[Watch], address: u16) -> Result<(), AllocError>
    ensures ok { OnOk result
        (changes.new.items ≡ changes.old.items ++ new_among watches.now (address ∷ [])) }
    ensures err { OnErr result (changes.new.items ≡ changes.old.items) }
{
    if has_access(watches, WatchKind::Change, address) {
        return Ok(());
    }
    changes.push(address)?;
    Ok(())
}

/// Appends to `changes` those of `count` addresses from `first` on that no watch for changes has.
/// Nothing is changed if memory ran out.
fn add_stretch(
    changes: &mut Vec<u16>,
    watches: &[Watch],
    first: u16,
    count: u32,
) -> Result<(), AllocError>
    requires { first + count ≤ 65536 }
    ensures ok { OnOk result (changes.new.items
        ≡ changes.old.items ++ new_among watches.now (addresses first count)) }
    ensures err { OnErr result (changes.new.items ≡ changes.old.items) }
{
    let length = changes.len();
    for offset in 0..count {
        match add_change(changes, watches, (first as u32 + offset) as u16) {
            Ok(()) => {}
            Err(fault) => {
                changes.truncate(length);
                return Err(fault);
            }
        }
    }
    Ok(())
}

/// Appends to `changes` the addresses of a watch for changes that no other such watch has. Nothing
/// is changed if memory ran out.
fn add_changes(changes: &mut Vec<u16>, watches: &[Watch], watch: Watch) -> Result<(), AllocError>
    ensures ok { OnOk result
        (changes.new.items ≡ changes.old.items ++ new_changes watches.now watch) }
    ensures err { OnErr result (changes.new.items ≡ changes.old.items) }
{
    match watch.changed() {
        None => Ok(()),
        Some(stretch) => {
            let first = stretch.first;
            let count = (stretch.last as u32 + 1).saturating_sub(first as u32);
            add_stretch(changes, watches, first, count)
        }
    }
}

/// Returns whether no break has tests or times.
fn has_plain_breaks(breaks: &[Break]) -> bool
    ensures { result ≡ list_all is_plain_break breaks.now }
{
    breaks.iter().all(|stop| stop.is_plain())
}

/// Removes the break at an index.
fn remove_at(breaks: &mut Vec<Break>, index: usize)
    requires { index < length breaks.old.items }
    ensures { breaks.new.items ≡ remove breaks.old.items index }
{
    let _ = breaks.remove(index);
}

impl Stops {
    /// Makes a table without breaks and watches.
    pub fn new(alloc: Global) -> Stops
        ensures breaks { result.breaks.items ≡ [] }
        ensures watches { result.watches.items ≡ [] }
        ensures changes { result.changes.items ≡ [] }
    {
        Stops {
            breaks: Vec::new(alloc),
            watches: Vec::new(alloc),
            changes: Vec::new(alloc),
        }
    }

    /// Returns whether no break has tests or times, and only changes are watched: the session's own
    /// stops are all there are.
    pub fn is_plain(&self) -> bool
        ensures { result ≡ is_plain self.now }
    {
        has_plain_breaks(self.breaks.as_slice()) && self.has_changes_only()
    }

    /// Returns whether only changes are watched.
    pub fn has_changes_only(&self) -> bool
        ensures { result ≡ has_changes_only self.now }
    {
        let watches = self.watches.as_slice();
        watches.iter().all(|watch| watch.is_change())
    }

    /// Visits the first break at an address, and returns whether that stops a run: whether its
    /// tests hold, and did so as often as it says. Where no break stands there it does.
    pub fn is_met(&mut self, session: &Session, address: u16) -> bool
        ensures stop { result ≡ stops_at address self.old.breaks.items session.now.current }
        ensures after { self.new.breaks.items
            ≡ after_visit address self.old.breaks.items session.now.current }
        ensures watches { self.new.watches ≡ self.old.watches }
        ensures changes { self.new.changes ≡ self.old.changes }
    {
        match index_of(self.breaks.as_slice(), address) {
            None => true,
            Some(index) => match self.breaks.get_mut(index) {
                None => true,
                Some(stop) => stop.visit(session),
            },
        }
    }

    /// Notes a break, in place of the one at its address. Nothing is changed if memory ran out.
    pub fn note_break(&mut self, stop: Break) -> Result<(), AllocError>
        ensures ok { OnOk result (self.new.breaks.items
            ≡ without stop.address self.old.breaks.items ++ stop ∷ []) }
        ensures err { OnErr result (self.new.breaks.items ≡ self.old.breaks.items) }
        ensures watches { self.new.watches ≡ self.old.watches }
        ensures changes { self.new.changes ≡ self.old.changes }
    {
        let index = index_of(self.breaks.as_slice(), stop.address);
        self.breaks.push(stop)?;
        match index {
            Some(index) => remove_at(&mut self.breaks, index),
            None => {}
        }
        Ok(())
    }

    /// Forgets the first break at an address, and returns whether there was one.
    pub fn forget_break(&mut self, address: u16) -> bool
        ensures found { result ≡ list_any (is_at address) self.old.breaks.items }
        ensures after { self.new.breaks.items ≡ without address self.old.breaks.items }
        ensures watches { self.new.watches ≡ self.old.watches }
        ensures changes { self.new.changes ≡ self.old.changes }
    {
        match index_of(self.breaks.as_slice(), address) {
            Some(index) => {
                remove_at(&mut self.breaks, index);
                true
            }
            None => false,
        }
    }

    /// Notes a watch. Nothing is changed if memory ran out.
    pub fn note_watch(&mut self, watch: Watch) -> Result<(), AllocError>
        ensures ok { OnOk result
            (self.new.watches.items ≡ self.old.watches.items ++ watch ∷ []) }
        ensures changes { OnOk result (self.new.changes.items
            ≡ self.old.changes.items ++ new_changes self.old.watches.items watch) }
        ensures err { OnErr result ((self.new.watches.items ≡ self.old.watches.items)
            × (self.new.changes.items ≡ self.old.changes.items)) }
        ensures breaks { self.new.breaks ≡ self.old.breaks }
    {
        let length = self.changes.len();
        add_changes(&mut self.changes, self.watches.as_slice(), watch)?;
        match self.watches.push(watch) {
            Ok(()) => Ok(()),
            Err(_) => {
                self.changes.truncate(length);
                Err(AllocError)
            }
        }
    }

    /// Forgets the first watch that has an address, and returns it. A change at an address that no
    /// other watch has stops a run no more.
    pub fn forget_watch(&mut self, address: u16) -> Option<Watch>
        ensures found { result ≡ first_with address self.old.watches.items }
        ensures after { self.new.watches.items
            ≡ without_first_with address self.old.watches.items }
        ensures some { OnSome result (self.new.changes.items
            ≡ changes_of self.new.watches.items self.old.changes.items) }
        ensures none { IfNone result (self.new.changes ≡ self.old.changes) }
        ensures breaks { self.new.breaks ≡ self.old.breaks }
    {
        match index_with(self.watches.as_slice(), address) {
            Some(index) => {
                let watch = self.watches.remove(index);
                keep_watched(&mut self.changes, self.watches.as_slice());
                Some(watch)
            }
            None => None,
        }
    }

    /// Forgets the first watch of a register, and returns whether there was one.
    pub fn forget_register(&mut self, register: Register) -> bool
        ensures found { result ≡ is_watched register self.old.watches.items }
        ensures after { self.new.watches.items
            ≡ without_register register self.old.watches.items }
        ensures breaks { self.new.breaks ≡ self.old.breaks }
        ensures changes { self.new.changes ≡ self.old.changes }
    {
        match index_of_register(self.watches.as_slice(), register) {
            Some(index) => {
                let _ = self.watches.remove(index);
                true
            }
            None => false,
        }
    }

    /// Returns the change of the first watched register that differs between the registers before a
    /// step and those after it, if one does.
    pub fn register_change(&self, before: Regs, after: Regs) -> Option<RegisterChange>
        ensures { result ≡ register_change self.now.watches.items before after }
    {
        first_change(self.watches.as_slice(), before, after)
    }

    /// Returns whether an access of a kind at an address stops a run.
    pub fn has_access(&self, kind: WatchKind, address: u16) -> bool
        ensures { result ≡ has_access kind address self.now.watches.items }
    {
        has_access(self.watches.as_slice(), kind, address)
    }
}
