//! The sources that a debug file names: whether they have changed since it was made, which is so if
//! their size is another one, and whether they are found at all.

ghost use Rattle.std.specs.Prelude.{◌≡◌, IfOk, None, OnOk, decimal, false, [], option_map};
ghost use Rattle.debug_files.specs.Changed.{TellsChanged, TellsIf, TellsOf, TellsSought};
ghost use Rattle.debug_files.specs.Changed.{changed_line, first_of, has_size};
ghost use Rattle.debug_files.specs.Changed.{is_told_changed, is_told_missing, missing_line};
ghost use Rattle.debug_files.specs.Changed.{sought_view, state_of, with_name, with_source};
ghost use Rattle.model.specs.Writers.{AppendsFront};

use crate::paths::begins_at_root;
use arguments::{push_shown, put_named};
use formatting::{Text, push_decimal};
use std::alloc::{AllocError, Global};
use std::io::Write;

/// What stands between the name of a debug file and those of its sources that have changed.
pub const CHANGED: &str = ": sources have changed since: ";

/// What stands between the name of a debug file and how many of its sources cannot be read.
pub const MISSING: &str = ": sources not found: ";

/// What stands before the number of all.
pub const OF: &str = " of ";

/// What stands before the name of one that cannot be read, and behind it.
pub const AS: &str = ", as ";

pub const ROOT: &str = "; --source-root FOLDER says where they are\n";

/// How a source was found that a debug file names.
#[derive(Clone, Copy, Debug, PartialEq, Eq)]
pub enum SourceState {
    /// It has the size of which the file tells.
    Same,
    /// It has another one.
    Changed,
    /// It cannot be read.
    Missing,
}

/// Returns whether so many bytes are as many as are told, if that is told.
pub fn has_size(count: usize, size: Option<u32>) -> bool
    ensures { result ≡ has_size count size }
{
    match size {
        None => true,
        Some(size) => count == size as usize,
    }
}

/// Returns how a source was found that has so many bytes, if it can be read, and should have as
/// many as are told.
pub fn state_of(count: Option<usize>, size: Option<u32>) -> SourceState
    ensures { result ≡ state_of count size }
{
    match count {
        None => SourceState::Missing,
        Some(count) => {
            if has_size(count, size) {
                SourceState::Same
            } else {
                SourceState::Changed
            }
        }
    }
}

/// How the sources were found that a debug file names.
#[derive(Drop)]
pub struct Sought {
    /// The names of those that have changed, as they are shown, with commas between them.
    pub changed: Vec<u8>,
    /// How many there are.
    pub count: u32,
    /// How many of them cannot be read.
    pub missing: u32,
    /// The name of the first of these, as it is shown.
    pub first: Vec<u8>,
    /// Whether one can be read that has a relative name.
    pub is_found: bool,
}

/// Appends the name of a source that has changed, as it is shown, behind others.
fn note_changed(changed: &mut Vec<u8>, name: &[u8]) -> Result<(), AllocError>
    ensures { OnOk result (changed.new.items ≡ with_name changed.old.items name.now) }
{
    if !changed.is_empty() {
        changed.extend_from_slice(b", ")?;
    }
    push_shown(changed, name)
}

/// Keeps the name of the first source that cannot be read, as it is shown.
fn note_first(first: &mut Vec<u8>, name: &[u8]) -> Result<(), AllocError>
    ensures { OnOk result (first.new.items ≡ first_of first.old.items name.now) }
{
    if first.is_empty() {
        push_shown(first, name)?;
    }
    Ok(())
}

impl Sought {
    /// Returns what is known before a source was looked for.
    pub fn new(alloc: Global) -> Sought
        ensures { sought_view result ≡ record {
          changed = [];
          count = 0;
          missing = 0;
          first = [];
          is_found = false;
        } }
    {
        Sought {
            changed: Vec::new(alloc),
            count: 0,
            missing: 0,
            first: Vec::new(alloc),
            is_found: false,
        }
    }

    /// Notes how a source was found.
    pub fn note(&mut self, name: &[u8], state: SourceState) -> Result<(), AllocError>
        ensures { OnOk result
            (sought_view self.new ≡ with_source name.now state (sought_view self.old)) }
    {
        self.count = self.count.saturating_add(1);
        match state {
            SourceState::Same => {
                self.is_found = self.is_found || !begins_at_root(name);
            }
            SourceState::Changed => {
                self.is_found = self.is_found || !begins_at_root(name);
                note_changed(&mut self.changed, name)?;
            }
            SourceState::Missing => {
                self.missing = self.missing.saturating_add(1);
                note_first(&mut self.first, name)?;
            }
        }
        Ok(())
    }
}

/// Writes which sources have changed since a debug file was made.
fn put_changed<E: Write>(file: &str, changed: &[u8], errors: &mut E)
    ensures { AppendsFront (E.contents errors.old) (E.contents errors.new)
        (changed_line file.now changed.now) }
{
    put_named(file, &[CHANGED.as_bytes(), changed, b"\n"], errors);
}

/// Writes which sources have changed since a debug file was made, if some have.
fn tell_names<E: Write>(file: &str, sought: &Sought, errors: &mut E)
    ensures { TellsIf (is_told_changed (sought_view sought.now))
        (changed_line file.now sought.now.changed.items)
        (E.contents errors.old) (E.contents errors.new) }
{
    if !sought.changed.is_empty() {
        put_changed(file, sought.changed.as_slice(), errors);
    }
}

/// Returns the digits of a number.
fn number_text(number: u32) -> Text
    ensures { result.items ≡ decimal number }
{
    let mut text = Text::new();
    push_decimal(&mut text, number as u64);
    text
}

/// Writes how many sources cannot be read.
fn put_missing<E: Write>(file: &str, sought: &Sought, errors: &mut E)
    ensures { AppendsFront (E.contents errors.old) (E.contents errors.new)
        (missing_line file.now (sought_view sought.now)) }
{
    let missing = number_text(sought.missing);
    let count = number_text(sought.count);
    put_named(
        file,
        &[
            MISSING.as_bytes(),
            missing.as_slice(),
            OF.as_bytes(),
            count.as_slice(),
            AS.as_bytes(),
            sought.first.as_slice(),
            ROOT.as_bytes(),
        ],
        errors,
    );
}

/// Writes how many sources cannot be read, if some cannot, and no relative name is found.
fn tell_missing<E: Write>(file: &str, sought: &Sought, errors: &mut E)
    ensures { TellsIf (is_told_missing (sought_view sought.now))
        (missing_line file.now (sought_view sought.now))
        (E.contents errors.old) (E.contents errors.new) }
{
    if 0 < sought.missing && !sought.is_found {
        put_missing(file, sought, errors);
    }
}

/// Writes which sources have changed, and how many cannot be read.
fn tell_each<E: Write>(file: &str, sought: &Sought, errors: &mut E)
    ensures { TellsSought file.now (sought_view sought.now)
        (E.contents errors.old) (E.contents errors.new) }
{
    tell_names(file, sought, errors);
    tell_missing(file, sought, errors);
}

/// Writes which sources have changed since a debug file was made, if one is named and some have,
/// and how many cannot be read, if none is found by a relative name; or a beginning of these lines
/// if a write fails.
pub fn tell_changed<E: Write>(file: Option<&str>, sought: &Sought, errors: &mut E)
    ensures exact { TellsOf (option_map (λ f. f.now) file.entry) (sought_view sought.now)
        (E.contents errors.old) (E.contents errors.new) }
    ensures told { TellsChanged (option_map (λ f. f.now) file.entry) (E.contents errors.old)
        (E.contents errors.new) }
    ensures quiet { option_map (λ f. f.now) file.entry ≡ None → errors.new ≡ errors.old }
{
    match file {
        None => {}
        Some(file) => tell_each(file, sought, errors),
    }
}
