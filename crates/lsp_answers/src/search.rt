//! Names by letters.

ghost use Rattle.std.specs.Prelude.{◌≡◌, ◌++◌, IfOk, List};
ghost use Rattle.std.specs.List.{flat_map};
ghost use Rattle.json_messages.specs.ValueLists.{HasValues};
ghost use Rattle.lsp_answers.specs.Search.{found_of, has_letters, is_found, located};
ghost use Rattle.lsp_answers.specs.Search.{without_letter};
ghost use Rattle.lsp_answers.specs.Texts.{text_view};
ghost use Rattle.name_uses.specs.Views.{use_view};
ghost use Rattle.serde_json.specs.Data.{Data};
ghost use Rattle.serde_json.specs.View.{view};

use crate::named::symbol_kind;
use crate::source_text::Text;
use json_messages::ValueList;
use lsp_messages::{found_symbol, location};
use name_uses::NameUse;
use serde_json::Value;
use std::alloc::{AllocError, Global};

/// Returns what is left of a query behind a letter of a name, in either letter case.
fn without_letter(query: &[u8], letter: u8) -> &[u8]
    ensures { result.now ≡ without_letter query.now letter }
{
    match query {
        [first, rest @ ..] => {
            if first.to_ascii_lowercase() == letter.to_ascii_lowercase() {
                rest
            } else {
                query
            }
        }
        [] => query,
    }
}

/// Returns whether a name has the letters of a query in their order, in either letter case.
fn has_letters(query: &[u8], name: &[u8]) -> bool
    ensures { result ≡ has_letters query.now name.now }
{
    let mut left = query;
    for byte in name {
        left = without_letter(left, *byte);
    }
    left.is_empty()
}

/// Returns a name of a document where it is defined.
fn located(
    alloc: Global,
    uri: &str,
    text: &Text<'_>,
    one: &NameUse<'_>,
) -> Result<Value, AllocError>
    ensures { IfOk result
        (λ v. view v ≡ located uri.now (text_view text.now) (use_view one.now)) }
{
    let name = String::from_utf8_lossy(alloc, one.text);
    let place = location(alloc, uri, text.range_of(alloc, one));
    found_symbol(alloc, symbol_kind(text, one), name, place)
}

/// Returns whether a use defines a name that has the letters of a query.
fn is_found(query: &[u8], one: &NameUse<'_>) -> bool
    ensures { result ≡ is_found query.now (use_view one.now) }
{
    one.defines && has_letters(query, one.text)
}

/// Puts a name of a document behind others, if it has the letters of a query and is defined there.
fn with_name(
    alloc: Global,
    found: ValueList,
    uri: &str,
    text: &Text<'_>,
    query: &[u8],
    one: &NameUse<'_>,
) -> ValueList
    ensures { (ds : List Data) → HasValues ds found → HasValues
        (ds ++ found_of uri.now (text_view text.now) query.now (use_view one.now)) result }
{
    if is_found(query, one) {
        found.with(located(alloc, uri, text, one))
    } else {
        found
    }
}

/// Puts the names of a document that have the letters of a query in their order behind others, in
/// either letter case, each with where it is defined.
pub fn with_names(
    alloc: Global,
    found: ValueList,
    uri: &str,
    text: &Text<'_>,
    query: &[u8],
) -> ValueList
    ensures { (ds : List Data) → HasValues ds found → HasValues
        (ds ++ flat_map (found_of uri.now (text_view text.now) query.now)
        (text_view text.now).uses) result }
{
    let mut all = found;
    for one in &text.uses {
        all = with_name(alloc, all, uri, text, query, one);
    }
    all
}
