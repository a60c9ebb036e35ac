//! The changes for faults and warnings.

ghost use Rattle.std.specs.Prelude.{◌≡◌, ◌++◌, ℕ, IfOk, List};
ghost use Rattle.std.specs.Option.{option_map};
ghost use Rattle.json_messages.specs.ValueLists.{HasValues};
ghost use Rattle.lsp_answers.specs.Texts.{text_view};
ghost use Rattle.lsp_hints.specs.Fixes.{AreFixes, change_data, definition_end, far_fix};
ghost use Rattle.lsp_hints.specs.Fixes.{fixes_between, fixes_of, unused_fix, unused_of, unused_title};
ghost use Rattle.lsp_hints.specs.Fixes.{word_fix, word_of};
ghost use Rattle.serde_json.specs.Data.{Data};
ghost use Rattle.serde_json.specs.View.{view};

use crate::branches::{Far, far_of, far_title, far_words, operand_in};
use crate::hints::is_between;
use crate::operation::{begins_with, code_size, colon_of};
use bus::MapSpec;
use json_messages::{Object, ValueList};
use lsp_answers::{Diagnostic, Text, diagnostics, text_of};
use lsp_messages::{changes, edit};
use serde_json::Value;
use source_notes::{after, concat};
use std::alloc::{AllocError, Global};

/// Returns the change of a document that puts words in place of some bytes of a line, by the number
/// of the first one and how many they are; with its title.
fn change_of(
    alloc: Global,
    uri: &str,
    text: &Text<'_>,
    number: u32,
    place: (usize, usize),
    words: Result<Vec<u8>, AllocError>,
    title: Result<Vec<u8>, AllocError>,
) -> Result<Value, AllocError>
    ensures { (written : List ℕ) (called : List ℕ) → IfOk words (λ w. w.items ≡ written)
        → IfOk title (λ w. w.items ≡ called) → IfOk result (λ v. view v
        ≡ change_data uri.now (text_view text.now) number place written called) }
{
    let Ok(written) = text_of(alloc, words) else {
        return Err(AllocError);
    };
    let range = text.range(alloc, number, place.0, place.1);
    let edits = ValueList::new(alloc)
        .with(edit(alloc, written.as_str(), range))
        .build();
    let title = text_of(alloc, title);
    Object::new(alloc)
        .member("edit", changes(alloc, uri, edits))
        .word("kind", "quickfix")
        .text("title", title)
        .build()
}

/// Returns the word that is right in place of the first bytes that a fault or a warning means, and
/// how many they are: the right word of its note, or a `#` in place of none.
fn word_of(one: &Diagnostic) -> Option<(usize, &[u8])>
    ensures { option_map (λ w. (w.0, w.1.now)) result ≡ word_of one.now }
{
    if let Some(word) = &one.note.right {
        return Some((one.note.width, word.as_slice()));
    }
    if one.kind.lacks_mark() {
        let mark: &[u8] = b"#";
        Some((0, mark))
    } else {
        None
    }
}

/// Returns the change of a document that writes a word in place of so many bytes from where a fault
/// or a warning is.
fn word_fix(
    alloc: Global,
    uri: &str,
    text: &Text<'_>,
    one: &Diagnostic,
    width: usize,
    word: &[u8],
) -> Result<Value, AllocError>
    ensures { IfOk result
        (λ v. view v ≡ word_fix uri.now (text_view text.now) one.now width word.now) }
{
    let words = Vec::from_slice(alloc, word);
    let title = concat(alloc, &[b"write ", word]);
    let place = (one.note.start, width);
    change_of(alloc, uri, text, one.line.max(1), place, words, title)
}

/// Returns the change of a document that turns a branch round a jump.
fn far_fix(
    alloc: Global,
    uri: &str,
    text: &Text<'_>,
    number: u32,
    far: Far,
) -> Result<Value, AllocError>
    ensures { IfOk result
        (λ v. view v ≡ far_fix uri.now (text_view text.now) number far) }
{
    let line = text.line(number);
    let words = far_words(alloc, line, far);
    let title = far_title(alloc, line, far);
    let end = far.from.saturating_add(far.width);
    let place = (far.start, end.saturating_sub(far.start));
    change_of(alloc, uri, text, number, place, words, title)
}

/// Returns where the definition with which a line begins ends: behind the `:` of a label, or before
/// the comment of a line with `=`.
fn definition_end(line: &[u8]) -> usize
    ensures { result ≡ definition_end line.now }
{
    let colon = colon_of(line);
    if begins_with(b':', after(line, colon)) {
        colon + 1
    } else {
        code_size(line)
    }
}

/// Returns where the definition of a name is that no expression uses: its first byte, and how many
/// it has.
fn unused_of(line: &[u8], one: &Diagnostic) -> Option<(usize, usize)>
    ensures { result ≡ unused_of line.now one.now }
{
    if one.kind.is_unused_name() {
        let start = one.note.start;
        Some((start, definition_end(line).saturating_sub(start)))
    } else {
        None
    }
}

/// Returns what it is called to remove the definition of a name.
fn unused_title(alloc: Global, line: &[u8], one: &Diagnostic) -> Result<Vec<u8>, AllocError>
    ensures { IfOk result (λ words. words.items ≡ unused_title line.now one.now) }
{
    let name = operand_in(line, one.note.start, one.note.width);
    concat(alloc, &[b"remove ", name])
}

/// Returns the change of a document that removes the definition of a name.
fn unused_fix(
    alloc: Global,
    uri: &str,
    text: &Text<'_>,
    one: &Diagnostic,
    place: (usize, usize),
) -> Result<Value, AllocError>
    ensures { IfOk result
        (λ v. view v ≡ unused_fix uri.now (text_view text.now) one.now place) }
{
    let number = one.line.max(1);
    let words = Vec::new(alloc);
    let title = unused_title(alloc, text.line(number), one);
    change_of(alloc, uri, text, number, place, Ok(words), title)
}

/// Puts the change for a fault or a warning behind others, if there is one.
fn with_change(
    alloc: Global,
    fixes: ValueList,
    uri: &str,
    text: &Text<'_>,
    one: &Diagnostic,
) -> ValueList
    ensures { (ds : List Data) → HasValues ds fixes
        → HasValues (ds ++ fixes_of uri.now (text_view text.now) one.now) result }
{
    let number = one.line.max(1);
    let line = text.line(number);
    match (word_of(one), far_of(text.profile, line, one)) {
        (Some((width, word)), _) => fixes.with(word_fix(alloc, uri, text, one, width, word)),
        (None, Some(far)) => fixes.with(far_fix(alloc, uri, text, number, far)),
        (None, None) => match unused_of(line, one) {
            Some(place) => fixes.with(unused_fix(alloc, uri, text, one, place)),
            None => fixes,
        },
    }
}

/// Puts the change for a fault or a warning between two lines behind others, if there is one.
fn with_fix(
    alloc: Global,
    fixes: ValueList,
    uri: &str,
    text: &Text<'_>,
    between: (u64, u64),
    one: &Diagnostic,
) -> ValueList
    ensures { (ds : List Data) → HasValues ds fixes → HasValues
        (ds ++ fixes_between uri.now (text_view text.now) between one.now) result }
{
    if is_between(between, (one.line as u64).saturating_sub(1)) {
        with_change(alloc, fixes, uri, text, one)
    } else {
        fixes
    }
}

/// Returns the changes for the faults of a document on a map, or for its warnings, from one line to
/// another, counted from 0: for each whose note has the right word, that word in place of the bytes
/// that it means; for a number that lacks its `#`, that; for a branch that does not reach its
/// target, the opposite one round a jump; and for a name that no expression uses, nothing in place
/// of its definition. The only error is that a request for memory was refused.
pub fn fixes_in(
    alloc: Global,
    map: &MapSpec,
    uri: &str,
    text: &Text<'_>,
    between: (u64, u64),
) -> Result<Value, AllocError>
    ensures { IfOk result
        (λ v. AreFixes map.now uri.now (text_view text.now) between (view v)) }
{
    let Ok(found) = diagnostics(alloc, text.source, map) else {
        return Err(AllocError);
    };
    let mut fixes = ValueList::new(alloc);
    for one in &found {
        fixes = with_fix(alloc, fixes, uri, text, between, one);
    }
    fixes.build()
}
