//! A name changed.

ghost use Rattle.std.specs.Prelude.{◌≡◌, ℕ, Err, IfErr, IfOk, IsErr, List, MatchResult, Ok};
ghost use Rattle.lsp_answers.specs.Renames.{IsKeptAt, IsReadyAt, IsRenameAt, IsTold, edits_of};
ghost use Rattle.lsp_answers.specs.Renames.{ready_of};
ghost use Rattle.lsp_answers.specs.Texts.{name_at, text_view};
ghost use Rattle.lsp_messages.specs.Values.{changes_data};
ghost use Rattle.name_uses.specs.Views.{use_view, use_views};
ghost use Rattle.serde_json.specs.View.{view};

use crate::source_text::{SOURCE_SIZE, Text};
use bus::MapSpec;
use json_messages::ValueList;
use lsp_messages::{changes, edit, ready};
use name_uses::{NameUse, RenameFault, faulty_line, rename as renamed};
use serde_json::Value;
use std::alloc::{AllocError, Global};

/// Why there is no name to change.
const NO_NAME: &str = "no name stands here; a line with a fault has none";

/// Why no name of a source is changed.
const TOO_LONG: &str = "a source has at most 1048576 bytes";

/// Returns the changes of a document that put a word in place of some uses.
fn changed(
    alloc: Global,
    uri: &str,
    text: &Text<'_>,
    uses: &[NameUse<'_>],
    word: &str,
) -> Result<Value, AllocError>
    ensures { IfOk result (λ v. view v
        ≡ changes_data uri.now (edits_of (text_view text.now) word.now (use_views uses.now))) }
{
    let mut found = ValueList::new(alloc);
    for one in uses {
        found = found.with(edit(alloc, word, text.range_of(alloc, one)));
    }
    changes(alloc, uri, found.build())
}

/// Returns the words of why a name is not changed. The only error is that a request for memory was
/// refused, before or here.
fn words_of(alloc: Global, fault: RenameFault) -> Result<String, AllocError>
    ensures { IfOk result (λ words. IsTold fault) }
{
    let words = match fault {
        RenameFault::NoName => {
            "a name begins with a letter, has letters, digits and _, at most 31, and is no \
            mnemonic, A, X or Y"
        }
        RenameFault::Taken => "the source has this name already",
        RenameFault::Faulty(line) => {
            return format!(in alloc;
                "line {line} has a fault, and the old or the new name stands \
                there: mend it first"
            );
        }
        RenameFault::Changed => "a line or the source would be too long",
        RenameFault::OutOfMemory => return Err(AllocError),
    };
    String::from_str(alloc, words)
}

/// Returns words as a refusal, if memory did not run out for them.
fn refused(words: Result<String, AllocError>) -> Result<Result<Value, String>, AllocError>
    ensures { MatchResult words (λ w. result ≡ Ok (Err w)) (λ e. IsErr result) }
{
    match words {
        Ok(words) => Ok(Err(words)),
        Err(error) => Err(error),
    }
}

/// Returns the changes that give the name at a place another name, or the words of why there are
/// none. The only error is that a request for memory was refused.
pub fn rename(
    alloc: Global,
    map: &MapSpec,
    uri: &str,
    text: &Text<'_>,
    line: u64,
    character: u64,
    name: &str,
) -> Result<Result<Value, String>, AllocError>
    // The changes are those of the name at the place.
    ensures changed { IfOk result (λ r. IfOk r (λ v. IsRenameAt map.now uri.now
        (text_view text.now) (name_at (text_view text.now) line character) name.now (view v))) }
    // There are none only for a reason.
    ensures kept { IfOk result (λ r. IfErr r (λ words. IsKeptAt map.now (text_view text.now)
        (name_at (text_view text.now) line character) name.now)) }
{
    let Some(one) = text.name_at(line, character) else {
        return refused(String::from_str(alloc, NO_NAME));
    };
    if text.source.len() > SOURCE_SIZE {
        return refused(String::from_str(alloc, TOO_LONG));
    }
    match renamed(alloc, map, text.source, one.text, name.as_bytes()) {
        Ok(renaming) => match changed(alloc, uri, text, &renaming.uses, name) {
            Ok(changes) => Ok(Ok(changes)),
            Err(error) => Err(error),
        },
        Err(fault) => refused(words_of(alloc, fault)),
    }
}

/// Returns the name of a use, with its range.
fn ready_of(alloc: Global, text: &Text<'_>, one: &NameUse<'_>) -> Result<Value, AllocError>
    ensures { IfOk result (λ v. view v ≡ ready_of (text_view text.now) (use_view one.now)) }
{
    let name = String::from_utf8_lossy(alloc, one.text);
    ready(alloc, name, text.range_of(alloc, one))
}

/// Returns the name at a place with its range, if it may get another one, or the words of why not.
/// The only error is that a request for memory was refused.
pub fn prepare_rename(
    alloc: Global,
    map: &MapSpec,
    text: &Text<'_>,
    line: u64,
    character: u64,
) -> Result<Result<Value, String>, AllocError>
    // The name stands in no line whose text has a fault.
    ensures ready { IfOk result (λ r. IfOk r (λ v. IsReadyAt map.now (text_view text.now)
        (name_at (text_view text.now) line character) (view v))) }
    // It is refused only where each other name would be.
    ensures kept { IfOk result (λ r. IfErr r (λ words. (name : List ℕ)
        → IsKeptAt map.now (text_view text.now)
        (name_at (text_view text.now) line character) name)) }
{
    let Some(one) = text.name_at(line, character) else {
        return refused(String::from_str(alloc, NO_NAME));
    };
    if text.source.len() > SOURCE_SIZE {
        return refused(String::from_str(alloc, TOO_LONG));
    }
    match faulty_line(alloc, map.profile(), text.source, one.text, one.text) {
        Ok(Some(number)) => refused(words_of(alloc, RenameFault::Faulty(number))),
        Ok(None) => match ready_of(alloc, text, &one) {
            Ok(found) => Ok(Ok(found)),
            Err(error) => Err(error),
        },
        Err(error) => Err(error),
    }
}
