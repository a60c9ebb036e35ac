//! The items of a row: what is given before its call, and what is wanted after it.

ghost use Rattle.std.specs.Prelude.{◌≡◌, ◌≢◌, ◌==◌, ◌+◌, ◌≤◌, ◌++◌, ◌∷◌, [], false, IfErr};
ghost use Rattle.std.specs.Prelude.{IfOk, length, Some, None, true};
ghost use Rattle.t65_reader.specs.RowText.{base_of, before, bracket_item, count_items, either_of};
ghost use Rattle.t65_reader.specs.RowText.{fits, is_arrow, is_over, item_by, item_of, items_of};
ghost use Rattle.t65_reader.specs.RowText.{lack_at, memory_item, place_item};
ghost use Rattle.t65_reader.specs.Items.{place_in, value_items};
ghost use Rattle.t65_reader.specs.RowText.{place_of, relation_at, relation_of};
ghost use Rattle.t65_reader.specs.RowText.{sequence_at, sign_count, string_of, string_place};
ghost use Rattle.t65_reader.specs.RowText.{string_word, word_item};
ghost use Rattle.t65_values.specs.ValueText.{fault_at, letter_in, word_of};

use crate::row::{Item, Register, Relation, Target};
use crate::sequence::{just, out_of_memory, sequence_of, without_first};
use assembler::Assembly;
use lexer::string_run;
use opcode_facts::Flag;
use std::alloc::Global;
use t65_values::{
    Atom, Base, Letters, RowFault, RowFaultKind, Value, address_of, after, after_sign, after_word,
    ends, fault_at, is_next, is_text, letter_in, value_of, word_of,
};

/// The sides of a row, before and after `->`.
#[derive(Clone, Copy)]
pub enum Side {
    Given,
    /// The side before `->` of a row that need not have another one.
    Alone,
    Wanted,
}

/// Where the bytes of a string stand.
#[derive(Clone, Copy)]
pub enum StringPlace {
    InMemory,
    InInput,
    InOutput,
}

fn place_in(at: StringPlace, index: u16) -> Target
    ensures { result ≡ place_in at index }
{
    match at {
        StringPlace::InMemory => Target::Byte(index),
        StringPlace::InInput => Target::Input,
        StringPlace::InOutput => Target::Output(index),
    }
}

/// The place of a register, a flag or the cycles by its word.
#[tactic(auto, unfolding(crate::specs::RowText::place_of))]
fn place_of(word: &[u8]) -> Option<Target>
    ensures { result ≡ place_of word.now }
{
    if is_text(word, b"A") {
        Some(Target::Register(Register::A))
    } else if is_text(word, b"X") {
        Some(Target::Register(Register::X))
    } else if is_text(word, b"Y") {
        Some(Target::Register(Register::Y))
    } else if is_text(word, b"S") {
        Some(Target::Register(Register::S))
    } else if is_text(word, b"P") {
        Some(Target::Register(Register::P))
    } else if is_text(word, b"N") {
        Some(Target::Flag(Flag::N))
    } else if is_text(word, b"V") {
        Some(Target::Flag(Flag::V))
    } else if is_text(word, b"D") {
        Some(Target::Flag(Flag::D))
    } else if is_text(word, b"I") {
        Some(Target::Flag(Flag::I))
    } else if is_text(word, b"Z") {
        Some(Target::Flag(Flag::Z))
    } else if is_text(word, b"C") {
        Some(Target::Flag(Flag::C))
    } else if is_text(word, b"cycles") {
        Some(Target::Cycles)
    } else {
        None
    }
}

/// Returns one relation where `=` comes next, and otherwise the other.
fn either_of(is_equal: bool, with_equal: Relation, alone: Relation) -> Relation
    ensures { result ≡ either_of is_equal with_equal alone }
{
    if is_equal { with_equal } else { alone }
}

/// Returns the relation that a sign begins, behind which `=` comes or not.
fn relation_of(sign: u8, is_equal: bool) -> Option<Relation>
    ensures { result ≡ relation_of sign is_equal }
{
    match sign {
        b'=' => Some(Relation::Equal),
        b'<' => Some(either_of(is_equal, Relation::AtMost, Relation::Below)),
        b'>' => Some(either_of(is_equal, Relation::AtLeast, Relation::Above)),
        b'!' => {
            if is_equal {
                Some(Relation::Unequal)
            } else {
                None
            }
        }
        _ => None,
    }
}

/// The relation that comes next.
fn relation_at(text: &[u8]) -> Option<Relation>
    ensures { result ≡ relation_at text.now }
{
    match text {
        [] => None,
        [sign, rest @ ..] => relation_of(*sign, is_next(b'=', rest)),
    }
}

/// Returns how many signs a relation is written with.
fn sign_count(relation: Relation) -> usize
    ensures { result ≡ sign_count relation }
{
    match relation {
        Relation::Equal | Relation::Below | Relation::Above => 1,
        Relation::Unequal | Relation::AtMost | Relation::AtLeast => 2,
    }
}

fn base_of(place: Target) -> Base
    ensures { result ≡ base_of place }
{
    match place {
        Target::Cycles => Base::Decimal,
        _ => Base::Hex,
    }
}

/// Whether a side of a row may say so.
#[tactic(auto, unfolding(crate::specs::RowText::fits))]
fn fits(side: Side, place: Target, relation: Relation) -> bool
    ensures { result ≡ fits side place relation }
{
    match (side, place, relation) {
        (Side::Wanted, _, _) => true,
        (Side::Given | Side::Alone, Target::Cycles, _) => false,
        (Side::Given | Side::Alone, _, Relation::Equal) => true,
        (Side::Given | Side::Alone, _, _) => false,
    }
}

/// Appends an item.
pub fn push_item(found: &mut Vec<Item>, item: Item) -> Result<(), RowFault>
    ensures ok { IfOk result (λ _. found.new.items ≡ found.old.items ++ item ∷ []) }
    ensures err { IfErr result (λ fault. fault.kind ≡ RowFaultKind.OutOfMemory) }
{
    found.push(item).map_err(|_| out_of_memory())
}

/// Appends an item for each value, at places in order.
pub fn push_items(
    found: &mut Vec<Item>,
    at: StringPlace,
    start: u16,
    values: &[Value],
) -> Result<(), RowFault>
    requires { start + length values.now ≤ 65536 }
    ensures ok { IfOk result
        (λ _. found.new.items ≡ found.old.items ++ value_items at start values.now) }
    ensures err { IfErr result (λ fault. fault.kind ≡ RowFaultKind.OutOfMemory) }
{
    for i in 0..values.len() {
        let item = Item {
            place: place_in(at, (start as usize + i) as u16),
            relation: Relation::Equal,
            value: values[i],
        };
        push_item(found, item)?;
    }
    Ok(())
}

/// Reads the bytes between two `"`.
pub fn string_of(text: &[u8]) -> Result<(&[u8], &[u8]), RowFault>
    ensures ok { IfOk result (λ p. string_of text.now ≡ Ok (p.0.now, p.1.now)) }
    ensures err { IfErr result (λ fault. string_of text.now ≡ Err fault) }
{
    let inside = without_first(text);
    let count = string_run(inside);
    let behind = &inside[count..];
    if is_next(b'"', behind) {
        Ok((&inside[..count], after(1, behind)))
    } else {
        Err(fault_at(RowFaultKind::Syntax, text))
    }
}

/// Appends how many bytes of output are expected.
fn push_count(found: &mut Vec<Item>, at: StringPlace, values: &[Value]) -> Result<(), RowFault>
    requires { length values.now ≤ 65536 }
    ensures ok { IfOk result (λ _. found.new.items ≡ found.old.items ++ count_items at values.now) }
    ensures err { IfErr result (λ fault. fault.kind ≡ RowFaultKind.OutOfMemory) }
{
    match at {
        StringPlace::InMemory | StringPlace::InInput => Ok(()),
        StringPlace::InOutput => push_item(
            found,
            Item {
                place: Target::OutputCount,
                relation: Relation::Equal,
                value: just(Atom::Number(values.len() as u32)),
            },
        ),
    }
}

/// Reads bytes in order, and appends their items.
#[tactic(auto, unfolding(crate::specs::RowText::sequence_at, crate::specs::RowText::before))]
fn sequence_at<'a>(
    alloc: Global,
    found: &mut Vec<Item>,
    names: &Assembly,
    letters: Letters,
    at: StringPlace,
    start: u16,
    text: &'a [u8],
) -> Result<&'a [u8], RowFault>
    ensures ok { IfOk result (λ rest. before found.old.items
        (sequence_at names.now.names letters at start text.now)
        ≡ Ok (found.new.items, rest.now)) }
    ensures err { IfErr result (λ fault. fault.kind ≢ RowFaultKind.OutOfMemory
        → sequence_at names.now.names letters at start text.now ≡ Err fault) }
{
    let (values, rest) = sequence_of(alloc, names, letters, start, text)?;
    if values.len() > 65536 - start as usize {
        return Err(fault_at(RowFaultKind::AddressRange, text));
    }
    push_items(found, at, start, &values)?;
    push_count(found, at, &values)?;
    Ok(rest)
}

/// Reads what a place is given or compared with.
#[tactic(auto, unfolding(crate::specs::RowText::before))]
fn item_by<'a>(
    found: &mut Vec<Item>,
    names: &Assembly,
    letters: Letters,
    side: Side,
    place: Target,
    text: &'a [u8],
) -> Result<&'a [u8], RowFault>
    ensures ok { IfOk result (λ rest. before found.old.items
        (item_by names.now.names letters side place text.now (relation_at text.now))
        ≡ Ok (found.new.items, rest.now)) }
    ensures err { IfErr result (λ fault. fault.kind ≢ RowFaultKind.OutOfMemory
        → item_by names.now.names letters side place text.now (relation_at text.now)
        ≡ Err fault) }
{
    match relation_at(text) {
        Some(relation) if fits(side, place, relation) => {
            let behind = after(sign_count(relation), text);
            let (value, rest) = value_of(names, letters, base_of(place), behind)?;
            let item = Item {
                place,
                relation,
                value,
            };
            push_item(found, item)?;
            Ok(rest)
        }
        Some(_) => Err(fault_at(RowFaultKind::NotGiven, text)),
        None => Err(fault_at(RowFaultKind::NoRelation, text)),
    }
}

/// Reads what stands after an address and a `.`: `w`, and a value of two bytes.
#[tactic(auto, unfolding(crate::specs::RowText::word_item))]
fn word_item<'a>(
    found: &mut Vec<Item>,
    names: &Assembly,
    letters: Letters,
    side: Side,
    address: u16,
    text: &'a [u8],
) -> Result<&'a [u8], RowFault>
    ensures ok { IfOk result (λ rest. before found.old.items
        (word_item names.now.names letters side address text.now)
        ≡ Ok (found.new.items, rest.now)) }
    ensures err { IfErr result (λ fault. fault.kind ≢ RowFaultKind.OutOfMemory
        → word_item names.now.names letters side address text.now ≡ Err fault) }
{
    if is_text(word_of(text), b"w") {
        item_by(
            found,
            names,
            letters,
            side,
            Target::Word(address),
            after_word(text),
        )
    } else {
        Err(fault_at(RowFaultKind::Syntax, text))
    }
}

/// Reads bytes of memory: those that they are given or equal, in order, a value of two bytes, or
/// another relation and a value.
#[tactic(auto, unfolding(crate::specs::RowText::memory_item))]
fn memory_item<'a>(
    alloc: Global,
    found: &mut Vec<Item>,
    names: &Assembly,
    letters: Letters,
    side: Side,
    address: u16,
    text: &'a [u8],
) -> Result<&'a [u8], RowFault>
    ensures ok { IfOk result (λ rest. before found.old.items
        (memory_item names.now.names letters side address text.now)
        ≡ Ok (found.new.items, rest.now)) }
    ensures err { IfErr result (λ fault. fault.kind ≢ RowFaultKind.OutOfMemory
        → memory_item names.now.names letters side address text.now ≡ Err fault) }
{
    if is_next(b'.', text) {
        word_item(found, names, letters, side, address, after(1, text))
    } else if is_next(b'=', text) {
        let place = StringPlace::InMemory;
        sequence_at(alloc, found, names, letters, place, address, after(1, text))
    } else {
        item_by(found, names, letters, side, Target::Byte(address), text)
    }
}

/// Reads what stands after a `[`.
#[tactic(auto, unfolding(crate::specs::RowText::bracket_item))]
fn bracket_item<'a>(
    alloc: Global,
    found: &mut Vec<Item>,
    names: &Assembly,
    letters: Letters,
    side: Side,
    text: &'a [u8],
) -> Result<&'a [u8], RowFault>
    ensures ok { IfOk result (λ rest. before found.old.items
        (bracket_item names.now.names letters side text.now)
        ≡ Ok (found.new.items, rest.now)) }
    ensures err { IfErr result (λ fault. fault.kind ≢ RowFaultKind.OutOfMemory
        → bracket_item names.now.names letters side text.now ≡ Err fault) }
{
    let (address, rest) = address_of(names, text)?;
    let rest = after_sign(b']', rest)?;
    memory_item(alloc, found, names, letters, side, address, rest)
}

/// Returns the fault where a side of a row has no item: `->` is missing where the line ends.
fn lack_at(side: Side, text: &[u8]) -> RowFault
    ensures { result ≡ lack_at side text.now }
{
    match side {
        Side::Given => {
            if ends(text) {
                fault_at(RowFaultKind::NoArrow, text)
            } else {
                fault_at(RowFaultKind::NoPlace, text)
            }
        }
        Side::Alone | Side::Wanted => fault_at(RowFaultKind::NoPlace, text),
    }
}

/// Reads a register, a flag or the cycles, and what follows.
#[tactic(auto, unfolding(crate::specs::RowText::before))]
fn place_item<'a>(
    found: &mut Vec<Item>,
    names: &Assembly,
    letters: Letters,
    side: Side,
    text: &'a [u8],
) -> Result<&'a [u8], RowFault>
    ensures ok { IfOk result (λ rest. before found.old.items
        (place_item names.now.names letters side text.now (place_of (word_of text.now)))
        ≡ Ok (found.new.items, rest.now)) }
    ensures err { IfErr result (λ fault. fault.kind ≢ RowFaultKind.OutOfMemory
        → place_item names.now.names letters side text.now (place_of (word_of text.now))
        ≡ Err fault) }
{
    let Some(place) = place_of(word_of(text)) else {
        return Err(lack_at(side, text));
    };
    let rest = after_word(text);
    if relation_at(rest).is_some() {
        return item_by(found, names, letters, side, place, rest);
    }
    match letter_in(letters, word_of(text)) {
        Some(atom) => {
            let item = Item {
                place,
                relation: Relation::Equal,
                value: just(atom),
            };
            push_item(found, item)?;
            Ok(rest)
        }
        None => Err(fault_at(RowFaultKind::NoRelation, rest)),
    }
}

fn string_word(side: Side) -> &'static [u8]
    ensures { result.now ≡ string_word side }
{
    match side {
        Side::Given | Side::Alone => b"in",
        Side::Wanted => b"out",
    }
}

fn string_place(side: Side) -> StringPlace
    ensures { result ≡ string_place side }
{
    match side {
        Side::Given | Side::Alone => StringPlace::InInput,
        Side::Wanted => StringPlace::InOutput,
    }
}

/// Reads one item of a side of a row.
#[tactic(auto, unfolding(crate::specs::RowText::item_of))]
fn item_of<'a>(
    alloc: Global,
    found: &mut Vec<Item>,
    names: &Assembly,
    letters: Letters,
    side: Side,
    text: &'a [u8],
) -> Result<&'a [u8], RowFault>
    ensures ok { IfOk result (λ rest. before found.old.items
        (item_of names.now.names letters side text.now)
        ≡ Ok (found.new.items, rest.now)) }
    ensures err { IfErr result (λ fault. fault.kind ≢ RowFaultKind.OutOfMemory
        → item_of names.now.names letters side text.now ≡ Err fault) }
{
    if is_next(b'[', text) {
        bracket_item(alloc, found, names, letters, side, after(1, text))
    } else if is_text(word_of(text), string_word(side)) {
        let rest = after_sign(b'=', after_word(text))?;
        sequence_at(alloc, found, names, letters, string_place(side), 0, rest)
    } else {
        place_item(found, names, letters, side, text)
    }
}

/// Returns whether `->` comes next.
pub fn is_arrow(text: &[u8]) -> bool
    ensures { result ≡ is_arrow text.now }
{
    is_next(b'-', text) && is_next(b'>', &text[1..])
}

/// Returns whether a side of a row ends: at `->`, or with the line.
fn is_over(side: Side, text: &[u8]) -> bool
    ensures { result ≡ is_over side text.now }
{
    match side {
        Side::Given => is_arrow(text),
        Side::Alone => is_arrow(text) || ends(text),
        Side::Wanted => ends(text),
    }
}

/// Reads all items of a side of a row.
pub fn items_of<'a>(
    alloc: Global,
    names: &Assembly,
    letters: Letters,
    side: Side,
    text: &'a [u8],
) -> Result<(Vec<Item>, &'a [u8]), RowFault>
    ensures ok { IfOk result (λ p. items_of names.now.names letters side text.now
        ≡ Ok (p.0.items, p.1.now)) }
    ensures err { IfErr result (λ fault. fault.kind ≢ RowFaultKind.OutOfMemory
        → items_of names.now.names letters side text.now ≡ Err fault) }
{
    let mut found = Vec::new(alloc);
    let mut rest = text;
    for _ in 0..text.len() {
        if is_over(side, rest) {
            return Ok((found, rest));
        }
        rest = item_of(alloc, &mut found, names, letters, side, rest)?;
    }
    if is_over(side, rest) {
        Ok((found, rest))
    } else {
        Err(lack_at(side, rest))
    }
}
