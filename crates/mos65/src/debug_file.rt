//! Commands whose program is that of a debug file.

ghost use Rattle.std.specs.Prelude.{◌≡◌, ◌<◌, IfOk, IfSome, length};

use crate::pipe::Quiet;
use arguments::{Refusal, refuse};
use clap::error::ErrorKind;
use clap::{Command, Error};
use debug_images::{image_words, names_program};
use program::words_of;
use std::alloc::{AllocError, Global};
use std::cell::Cell;

/// What stands in the place of a word to see whether it is FILE.
const MARK: &str = "FILE";

/// Returns that words which do not fit have no FILE.
///
/// Errors: `AllocError` if they were not matched since an allocation failed.
fn no_file(error: Error) -> Result<bool, AllocError> {
    match error.kind() {
        ErrorKind::OutOfMemory => Err(AllocError),
        _ => Ok(false),
    }
}

/// Returns whether FILE is this text among the words, as they are matched with a command line.
/// Words that do not fit have no FILE.
///
/// Errors: `AllocError` if an allocation fails.
pub fn has_file<'a>(
    command: Result<Command<'a>, Error>,
    words: &'a [&'a str],
    file: &str,
) -> Result<bool, AllocError> {
    match command {
        Ok(command) => match command.try_get_matches_from(words) {
            Ok(matches) => Ok(matches.get_str("FILE") == Some(file)),
            Err(error) => no_file(error),
        },
        Err(error) => no_file(error),
    }
}

/// Returns words with another word at a place.
fn marked<'a>(alloc: Global, words: &[&'a str], place: usize) -> Result<Vec<&'a str>, AllocError>
    requires { place < length words.now }
{
    let mut all = Vec::from_slice(alloc, words)?;
    all[place] = MARK;
    Ok(all)
}

/// Returns words without the one at a place.
fn without<'a>(alloc: Global, words: &[&'a str], place: usize) -> Result<Vec<&'a str>, AllocError>
    requires { place < length words.now }
{
    let mut rest = Vec::from_slice(alloc, words)?;
    rest.remove(place);
    Ok(rest)
}

/// Returns the place of FILE among words, if it is a debug file.
///
/// `has_file` says whether FILE is a text among words. A word that is equal to FILE may be the
/// value of an option, so each such word is changed in turn: FILE changes with the one that it is.
fn place_of<F: Fn(&[&str], &str) -> Result<bool, AllocError>>(
    alloc: Global,
    words: &[&str],
    has_file: F,
) -> Result<Option<usize>, AllocError>
    requires { F.IsAlwaysCallable has_file }
    ensures { IfOk result (λ found. IfSome found (λ place. place < length words.entry.now)) }
{
    for place in 0..words.len() {
        let word = words[place];
        if names_program(word) {
            if has_file(words, word)? {
                let other = marked(alloc, words, place)?;
                if has_file(&other, MARK)? {
                    return Ok(Some(place));
                }
            }
        }
    }
    Ok(None)
}

/// Serves words with the files of a debug file's program in the place of FILE, and returns the exit
/// status.
fn with_files<F: FnOnce(&[&str]) -> u8>(
    rt: &HostRuntime,
    file: &str,
    rest: &[&str],
    unread: &Cell<bool>,
    serve: F,
) -> u8
    requires { F.IsAlwaysCallable serve }
{
    let made = match image_words(rt, file, rest) {
        Ok(made) => made,
        Err(fault) => return fault.tell(file, &mut Quiet::new(rt.stderr(), unread)),
    };
    match words_of(rt.alloc(), &made) {
        Ok(all) => serve(&all),
        Err(_) => refuse(Refusal::OutOfMemory, &mut Quiet::new(rt.stderr(), unread)),
    }
}

/// Serves words whose FILE, at a place, is a debug file, and returns the exit status.
fn with_debug_file<F: FnOnce(&[&str]) -> u8>(
    rt: &HostRuntime,
    words: &[&str],
    place: usize,
    unread: &Cell<bool>,
    serve: F,
) -> u8
    requires called { F.IsAlwaysCallable serve }
    requires within { place < length words.now }
{
    match without(rt.alloc(), words, place) {
        Ok(rest) => with_files(rt, words[place], &rest, unread, serve),
        Err(_) => refuse(Refusal::OutOfMemory, &mut Quiet::new(rt.stderr(), unread)),
    }
}

/// Serves words that run a program, or the program of a debug file, by the call `serve`, and
/// returns the exit status. `has_file` says whether FILE is a text among words.
pub fn with_program<H: Fn(&[&str], &str) -> Result<bool, AllocError>, F: FnOnce(&[&str]) -> u8>(
    rt: &HostRuntime,
    words: &[&str],
    unread: &Cell<bool>,
    has_file: H,
    serve: F,
) -> u8
    requires tested { H.IsAlwaysCallable has_file }
    requires called { F.IsAlwaysCallable serve }
{
    match place_of(rt.alloc(), words, has_file) {
        Ok(None) => serve(words),
        Ok(Some(place)) => with_debug_file(rt, words, place, unread, serve),
        Err(_) => refuse(Refusal::OutOfMemory, &mut Quiet::new(rt.stderr(), unread)),
    }
}
