//! What can stand in a line of the console for the word that is typed.

ghost use Rattle.std.specs.Prelude.{◌≡◌, ◌≤◌, ◌++◌, IfOk, List, length, map as each};
ghost use Rattle.std.specs.List.{flat_map, list_all};
ghost use Rattle.dap_messages.specs.SeenAnswers.{SeenItem, answer_view};
ghost use Rattle.dap_session.specs.Completions.{completions, front_of, if_begun};
ghost use Rattle.dap_session.specs.Completions.{names_begun, offered, typed_bytes, word_begun};
ghost use Rattle.dap_messages.specs.ItemLists.{HasItems};
ghost use Rattle.mon_line_parts.specs.Topics.{row_view};
ghost use Rattle.model.specs.Token.{is_blank};
ghost use Rattle.source_map.specs.Names.{named};

use dap_messages::{Answer, Counting, ItemList, completion_item, targets_body};
use mon_line_parts::{Topic, all_words, begins_with};
use mon_session::MonState;
use source_map::Name;
use std::alloc::{AllocError, Global};

/// Returns the front of a text before a column: all of it if the column is behind it.
fn front_of(counting: Counting, text: &str, column: Option<u64>) -> &[u8]
    ensures { result.now ≡ front_of counting text.now column }
{
    let text = text.as_bytes();
    let column = column.unwrap_or(0);
    let count = column.saturating_sub(counting.first_column());
    if count < text.len() as u64 {
        &text[..count as usize]
    } else {
        text
    }
}

/// Counts the letters, digits and `_` at the end of a text.
#[tactic(auto, unfolding(crate::specs::Completions::typed_bytes))]
fn typed_bytes(text: &[u8]) -> usize
    ensures counted { result ≡ typed_bytes 0 text.now }
    ensures inside { result ≤ length text.now }
{
    let mut count = 0;
    for byte in text {
        count = match *byte {
            b'A'..=b'Z' | b'a'..=b'z' | b'0'..=b'9' | b'_' => count + 1,
            _ => 0,
        };
    }
    count
}

/// Returns whether each byte of a text is a blank.
fn are_blanks(text: &[u8]) -> bool
    ensures { result ≡ list_all is_blank text.now }
{
    for byte in text {
        if *byte != b' ' && *byte != b'\t' {
            return false;
        }
    }
    true
}

/// Returns a list with a name behind its items, if the name begins with what is typed from a
/// column on.
fn with_begun(alloc: Global, list: ItemList, name: &[u8], start: u64, typed: &[u8]) -> ItemList
    ensures { (ds : List SeenItem) → HasItems ds list
        → HasItems (ds ++ if_begun start typed.now name.now) result }
{
    if begins_with(name, typed) {
        list.with(completion_item(alloc, name, start, typed.len() as u64))
    } else {
        list
    }
}

/// Returns a list with a word of `mon` behind its items, if the word begins with what is typed.
fn with_word(
    alloc: Global,
    list: ItemList,
    word: &[u8],
    topic: Topic,
    start: u64,
    typed: &[u8],
) -> ItemList
    ensures { (ds : List SeenItem) → HasItems ds list → HasItems
        (ds ++ word_begun start typed.now (word.now, topic)) result }
{
    match topic {
        Topic::Trace => list,
        _ => with_begun(alloc, list, word, start, typed),
    }
}

/// Returns those of some words of `mon` that begin with what is typed.
fn words_begun(alloc: Global, rows: &[(&[u8], Topic)], start: u64, typed: &[u8]) -> ItemList
    ensures { HasItems (flat_map (word_begun start typed.now) (each row_view rows.now)) result }
{
    let mut list = ItemList::new(alloc);
    for (word, topic) in rows {
        list = with_word(alloc, list, word, *topic, start, typed);
    }
    list
}

/// Returns those of some names that begin with what is typed.
fn names_begun(alloc: Global, names: &[Name], start: u64, typed: &[u8]) -> ItemList
    ensures { HasItems (names_begun start typed.now (each named names.now)) result }
{
    let mut list = ItemList::new(alloc);
    for name in names {
        list = with_begun(alloc, list, name.text.as_slice(), start, typed);
    }
    list
}

/// Returns what begins with the word at the end of a text: words of `mon` if nothing stands before
/// it, otherwise names. Nothing is offered if the text is not ASCII.
fn offered(alloc: Global, counting: Counting, names: &[Name], front: &[u8]) -> ItemList
    ensures { HasItems (offered counting (each named names.now) front.now) result }
{
    if front.is_ascii() {
        let (before, typed) = front.split_at(front.len() - typed_bytes(front));
        let start = before.len() as u64 + counting.first_column();
        if are_blanks(before) {
            words_begun(alloc, all_words(), start, typed)
        } else {
            names_begun(alloc, names, start, typed)
        }
    } else {
        ItemList::new(alloc)
    }
}

/// Returns what can stand for the word that is typed before a column of a text: words of `mon` if
/// it is the first of the line, otherwise names of the program.
///
/// Errors: `AllocError` if an allocation fails.
pub fn completions(
    alloc: Global,
    mon: &MonState,
    counting: Counting,
    text: &str,
    column: Option<u64>,
) -> Result<Answer, AllocError>
    ensures { IfOk result (λ v. answer_view v
        ≡ completions counting mon.now.places.names text.now column) }
{
    let names = mon.places.names().all();
    let list = offered(alloc, counting, names, front_of(counting, text, column));
    targets_body(list)
}
