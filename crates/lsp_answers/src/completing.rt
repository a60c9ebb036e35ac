//! What may be written.

ghost use Rattle.std.specs.Prelude.{◌≡◌, ◌++◌, ℕ, IfOk, List, OnOk, map};
ghost use Rattle.json_messages.specs.ValueLists.{HasValues};
ghost use Rattle.lsp_answers.specs.Completion.{completion_of, mnemonic_item, name_item};
ghost use Rattle.lsp_answers.specs.Completion.{names_at, value_words};
ghost use Rattle.lsp_answers.specs.Items.{item_of};
ghost use Rattle.lsp_answers.specs.Lists.{defined};
ghost use Rattle.lsp_answers.specs.Texts.{text_view};
ghost use Rattle.lsp_answers.specs.Written.{directive_item, directive_items};
ghost use Rattle.model.specs.Listing.{number_text};
ghost use Rattle.model.specs.Mnemonics.{mnemonics};
ghost use Rattle.name_uses.specs.Views.{use_view};
ghost use Rattle.serde_json.specs.Data.{Data};
ghost use Rattle.serde_json.specs.View.{view};

use crate::named::item_kind;
use crate::source_text::{SOURCE_SIZE, Text};
use crate::texts::text_of;
use crate::wording::NO_VALUE;
use crate::written::DIRECTIVES;
use formatting::push_address;
use json_messages::ValueList;
use lsp_messages::item;
use model::{Mnemonic, Profile};
use name_uses::NameUse;
use opcode_facts::mnemonics_in;
use optable::letters_of;
use serde_json::Value;
use source_faults::{Mending, lay_out};
use source_notes::{phrase, push_signed};
use std::alloc::{AllocError, Global};
use symbols::Symbols;

/// Where in a line something may be written.
#[derive(Clone, Copy)]
pub enum Spot {
    /// Where its operation stands, or before that.
    Operation,
    /// Behind its operation.
    Operand,
    /// In its comment.
    Comment,
}

/// Returns the text by which a name of a group has its place among others.
fn place_words(alloc: Global, group: &str, name: &[u8]) -> Result<Vec<u8>, AllocError>
    ensures { IfOk result (λ words. words.items ≡ group.now ++ name.now) }
{
    let mut words = Vec::from_slice(alloc, group.as_bytes())?;
    words.extend_from_slice(name)?;
    Ok(words)
}

/// Returns a word that may be written, of a kind and with what it is, behind those of the groups
/// before its own.
fn item_of(
    alloc: Global,
    name: &[u8],
    kind: u64,
    detail: Result<Vec<u8>, AllocError>,
    group: &str,
) -> Result<Value, AllocError>
    ensures { (told : List ℕ) → IfOk detail (λ w. w.items ≡ told)
        → IfOk result (λ v. view v ≡ item_of name.now kind told group.now) }
{
    let label = String::from_utf8_lossy(alloc, name);
    let detail = text_of(alloc, detail);
    let place = text_of(alloc, place_words(alloc, group, name));
    item(alloc, label, kind, detail, place)
}

/// Appends a number: as an address if it is one, otherwise in decimal.
fn push_value(words: &mut Vec<u8>, number: i32) -> Result<(), AllocError>
    ensures { OnOk result (words.new.items ≡ words.old.items ++ number_text number) }
{
    if number >= 0 && number < 65536 {
        words.push(b'$')?;
        push_address(words, number as u16)
    } else {
        push_signed(words, number)
    }
}

/// Returns the words of the number of a name.
fn value_words(alloc: Global, number: Option<i32>) -> Result<Vec<u8>, AllocError>
    ensures { IfOk result (λ words. words.items ≡ value_words number) }
{
    let Some(number) = number else {
        return phrase(alloc, NO_VALUE);
    };
    let mut words = Vec::new(alloc);
    push_value(&mut words, number)?;
    Ok(words)
}

/// Returns a name that may be written, with its number.
fn name_item(
    alloc: Global,
    text: &Text<'_>,
    symbols: &Symbols,
    group: &str,
    one: &NameUse<'_>,
) -> Result<Value, AllocError>
    ensures { IfOk result (λ v. view v
        ≡ name_item group.now symbols.now (text_view text.now) (use_view one.now)) }
{
    let detail = value_words(alloc, symbols.value_of(one.text));
    item_of(alloc, one.text, item_kind(text, one), detail, group)
}

/// Returns the names that a source defines, with their numbers.
fn name_items(alloc: Global, text: &Text<'_>, symbols: &Symbols, group: &str) -> ValueList
    ensures { HasValues (map (name_item group.now symbols.now (text_view text.now))
        (defined (text_view text.now).uses)) result }
{
    let mut items = ValueList::new(alloc);
    for one in &text.uses {
        if one.defines {
            items = items.with(name_item(alloc, text, symbols, group, one));
        }
    }
    items
}

/// Returns the names that a source defines, with their numbers; none of one that is too long.
fn names_at(alloc: Global, text: &Text<'_>, group: &str) -> Result<ValueList, AllocError>
    ensures { IfOk result
        (λ items. HasValues (names_at group.now (text_view text.now)) items) }
{
    if text.source.len() > SOURCE_SIZE {
        return Ok(ValueList::new(alloc));
    }
    let mut symbols = Symbols::new(alloc);
    let smallest = Mending::Smallest;
    match lay_out(alloc, text.profile, smallest, &mut symbols, text.source) {
        Ok(_) => Ok(name_items(alloc, text, &symbols, group)),
        Err(_) => Err(AllocError),
    }
}

/// Returns a mnemonic that may be written.
fn mnemonic_item(alloc: Global, mnemonic: Mnemonic) -> Result<Value, AllocError>
    ensures { IfOk result (λ v. view v ≡ mnemonic_item mnemonic) }
{
    item_of(
        alloc,
        &letters_of(mnemonic),
        14,
        phrase(alloc, "instruction"),
        "0",
    )
}

/// Returns a directive that may be written.
fn directive_item(alloc: Global, name: &str, effect: &str) -> Result<Value, AllocError>
    ensures { IfOk result (λ v. view v ≡ directive_item name.now effect.now) }
{
    item_of(alloc, name.as_bytes(), 14, phrase(alloc, effect), "1")
}

/// Puts the mnemonics of a profile behind others.
fn with_mnemonics(alloc: Global, items: ValueList, profile: Profile) -> ValueList
    ensures { (ds : List Data) → HasValues ds items
        → HasValues (ds ++ map mnemonic_item (mnemonics profile)) result }
{
    let mut all = items;
    for mnemonic in mnemonics_in(profile) {
        all = all.with(mnemonic_item(alloc, *mnemonic));
    }
    all
}

/// Puts the directives behind others.
fn with_directives(alloc: Global, items: ValueList) -> ValueList
    ensures { (ds : List Data) → HasValues ds items → HasValues (ds ++ directive_items) result }
{
    let mut all = items;
    for directive in &DIRECTIVES {
        all = all.with(directive_item(alloc, directive.0, directive.1));
    }
    all
}

/// Returns what may be written at a spot of a line of a source: where its operation stands the
/// mnemonics, the directives, and last the names; behind it the names; and nothing in its comment.
/// The only error is that a request for memory was refused.
pub fn completion(alloc: Global, text: &Text<'_>, spot: Spot) -> Result<Value, AllocError>
    ensures { IfOk result (λ v. view v ≡ completion_of (text_view text.now) spot) }
{
    match spot {
        Spot::Operation => match names_at(alloc, text, "2") {
            Ok(names) => {
                with_directives(alloc, with_mnemonics(alloc, names, text.profile)).build()
            }
            Err(error) => Err(error),
        },
        Spot::Operand => match names_at(alloc, text, "0") {
            Ok(names) => names.build(),
            Err(error) => Err(error),
        },
        Spot::Comment => ValueList::new(alloc).build(),
    }
}
